//! Runs a model by a list of steps of its processes.

ghost use Rattle.std.specs.Prelude.{IfOk, IfErr};
ghost use Rattle.dv_job.specs.Stepping.{AnswersSteps, HasSteppedText};

use crate::ended::JobError;
use crate::load::{accept, load};
use crate::options::Options;
use crate::setup::set_up;
use dv_core::Step;
use dv_partition::Partition;
use dv_plan::Stepped;
use dv_run::compiled_steps;
use std::alloc::Global;

/// Makes the steps of a list with the processes of the model of a text, from their start, with the
/// inputs of another text: turns, deliveries and stops, in any order.
///
/// For any list and any partition, each process has committed exactly its components' part, before
/// its clock, of the trace of the text's resultant; and each turn that is done makes progress. Of
/// the options, only the horizon, the microstep limit and the capacity of links have an effect.
///
/// # Errors
///
/// `Text` is the answer to the text of the model. If the model is accepted, `Partition` is the
/// answer to the partition. If both are, `Inputs` is the answer to the text of the inputs. It is
/// never `Write`.
pub fn run_steps(
    alloc: Global,
    model: &[u8],
    inputs: &[u8],
    groups: Partition<'_>,
    options: &Options,
    steps: &[Step],
) -> Result<Stepped, JobError>
    ensures stepped { IfOk result (HasSteppedText model.now inputs.now groups.entry options.now
        steps.now) }
    ensures error { IfErr result (AnswersSteps model.now inputs.now groups.entry
        options.now.limit) }
{
    let checked = load(alloc, model)?;
    let tree = accept(alloc, model, &checked)?;
    let setup = set_up(alloc, &tree, model, inputs, groups, options.limit)?;
    let job = setup.job(&tree, options);
    let capacity = options.capacity as usize;
    Ok(compiled_steps(alloc, &job, &setup.links, steps, capacity)?)
}
