//! Runs a model in processes, in rounds.

ghost use Rattle.std.specs.Prelude.{IfOk, IfErr};
ghost use Rattle.dv_job.specs.Running.{EndsBy, IsLed, IsLedShort, LeftByRun};

use crate::ended::{JobEnded, JobError};
use crate::load::{accept, load};
use crate::options::Options;
use crate::rounds::granted;
use crate::setup::set_up;
use crate::written::write_end;
use dv_bag::Bags;
use dv_partition::Partition;
use dv_run::{Bounds, compiled_run};
use dv_text::laws::a_trace_is_its_pieces;
use std::alloc::Global;
use std::io::Write;

/// Runs the model of a text in processes, with the inputs of another text, and writes the trace up
/// to the horizon while it runs. Each group of the partition is one process. The processes exchange
/// packets in rounds, on one thread. Inputs past the horizon are checked and have no effect. An
/// empty text has no inputs.
///
/// A run of which all clocks are at the end is whole, even if memory was refused after its last
/// turn. The clocks of a run that was cut are those to which its rounds led, also where a write of
/// them fails.
///
/// # Errors
///
/// `Text` is the answer to the text of the model. If the model is accepted, `Partition` is the
/// answer to the partition. If both are, `Inputs` is the answer to the text of the inputs. Nothing
/// was written then. For the others, [`JobError`] says what the writer holds.
pub fn run_bytes<W: Write>(
    alloc: Global,
    model: &[u8],
    inputs: &[u8],
    groups: Partition<'_>,
    options: &Options,
    writer: &mut W,
) -> Result<JobEnded, JobError>
    ensures ended { IfOk result (λ ended. EndsBy ended model.now inputs.now groups.entry
        options.now (W.contents writer.old) (W.contents writer.new)) }
    ensures led { IfOk result (λ ended. IsLed ended model.now inputs.now groups.entry
        options.now (W.contents writer.old) (W.contents writer.new)) }
    ensures error { IfErr result (λ e. LeftByRun e model.now inputs.now groups.entry
        options.now (W.contents writer.old) (W.contents writer.new)) }
    ensures led_short { IfErr result (λ e. IsLedShort e model.now inputs.now groups.entry
        options.now (W.contents writer.old) (W.contents writer.new)) }
{
    // For the prover alone: the lines of two adjacent pieces are those of both together.
    a_trace_is_its_pieces::<Bags>();
    let checked = load(alloc, model)?;
    let tree = accept(alloc, model, &checked)?;
    let setup = set_up(alloc, &tree, model, inputs, groups, options.limit)?;
    let job = setup.job(&tree, options);
    let bounds = Bounds {
        rounds: granted(options),
        capacity: options.capacity as usize,
    };
    let ran = compiled_run(alloc, &job, &setup.links, bounds, writer)?;
    write_end(alloc, &ran, options.horizon, writer)
}
