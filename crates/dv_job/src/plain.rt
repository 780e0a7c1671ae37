//! The plain run of a model.

ghost use Rattle.std.specs.Prelude.{IfOk, IfErr};
ghost use Rattle.dv_syntax.specs.Trees.{file_of};
ghost use Rattle.dv_job.specs.Ending.{LeftBy, PrintsTrace};
ghost use Rattle.dv_job.specs.Job.{IsModelOf};

use crate::ended::{JobEnded, JobError};
use crate::faults::ending_of;
use crate::load::{accept, load, load_inputs};
use crate::options::Options;
use dv_bag::Bags;
use dv_devs::laws::parts::parts_are_by_time;
use dv_lines::write_trace;
use dv_plain::resultant_run;
use dv_text::laws::a_trace_is_its_instants;
use dv_tree::Tree;
use std::alloc::Global;
use std::io::Write;

/// Runs the model of a text as its resultant, with the inputs of another text, and writes the trace
/// up to the horizon. Inputs past the horizon are checked and have no effect. An empty text has no
/// inputs.
///
/// # Errors
///
/// `Text` is the answer to the text of the model. If the model is accepted, `Inputs` is the answer
/// to the text of the inputs. Nothing was written then. For the others, [`JobError`] says what the
/// writer holds.
pub fn run_plain<W: Write>(
    alloc: Global,
    model: &[u8],
    inputs: &[u8],
    options: &Options,
    writer: &mut W,
) -> Result<JobEnded, JobError>
    ensures printed { IfOk result (PrintsTrace model.now inputs.now options.now.horizon
        options.now.limit (W.contents writer.old) (W.contents writer.new)) }
    ensures error { IfErr result (λ e. LeftBy e model.now inputs.now options.now.horizon
        options.now.limit (W.contents writer.old) (W.contents writer.new)) }
{
    let checked = load(alloc, model)?;
    let tree = accept(alloc, model, &checked)?;
    run_tree(alloc, &tree, model, inputs, options, writer)
}

// Runs the model of an accepted text, by its tree.
fn run_tree<W: Write>(
    alloc: Global,
    tree: &Tree,
    model: &[u8],
    inputs: &[u8],
    options: &Options,
    writer: &mut W,
) -> Result<JobEnded, JobError>
    requires accepted { IsModelOf model.now tree.now.names (file_of tree.now.file) }
    ensures printed { IfOk result (PrintsTrace model.now inputs.now options.now.horizon
        options.now.limit (W.contents writer.old) (W.contents writer.new)) }
    ensures error { IfErr result (λ e. LeftBy e model.now inputs.now options.now.horizon
        options.now.limit (W.contents writer.old) (W.contents writer.new)) }
{
    // For the prover alone: a trace is sorted by time, and its text is that of its instants.
    parts_are_by_time::<Bags>();
    a_trace_is_its_instants::<Bags>();
    let played = load_inputs(alloc, inputs, tree, options.limit)?;
    let trace = resultant_run(alloc, tree, &played, options.horizon, options.limit)?;
    write_trace(alloc, &trace, tree, options.horizon, writer)?;
    Ok(ending_of(&trace))
}
