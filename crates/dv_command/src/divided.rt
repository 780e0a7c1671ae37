//! From parts to requests for plans and graphs.

ghost use Rattle.std.specs.Prelude.{◌≡◌, is_some, map};
ghost use Rattle.dv_command.specs.Asked.{AsksGraph, AsksGraphChoice, AsksPartition, AsksPlan, IfAnswered, IsFitting, phases_of};
ghost use Rattle.dv_command.specs.Steps.{said_in};

use crate::asked::{model_in, only_value};
use crate::given::{count_in, flag_in, text_in};
use crate::part::Part;
use crate::request::{Graph, GraphChoice, PartitionChoice, Plan};
use crate::unasked::Unasked;
use std::alloc::Global;

/// The partition, if one is given: a file or a number of processes, but not both.
pub(crate) fn partition_in(
    alloc: Global,
    parts: &[Part<'_>],
) -> Result<Option<PartitionChoice>, Unasked>
    ensures { IfAnswered result (IsFitting (AsksPartition (map said_in parts.now))) }
{
    let file = text_in(alloc, "--partition", parts)?;
    let most = u64::from(u32::MAX);
    let count = count_in(alloc, 0, most, "--processes", parts)?;
    match (file, count) {
        (None, None) => Ok(None),
        (Some(file), None) => {
            let name = String::from_str(alloc, file)?;
            Ok(Some(PartitionChoice::File(name)))
        }
        (None, Some(count)) => Ok(Some(PartitionChoice::Count(count as u32))),
        (Some(_), Some(_)) => Err(Unasked::Nothing),
    }
}

/// The request for a plan.
pub(crate) fn plan_in(alloc: Global, parts: &[Part<'_>]) -> Result<Plan, Unasked>
    ensures { IfAnswered result (IsFitting (AsksPlan (map said_in parts.now))) }
{
    Ok(Plan {
        model: only_value(alloc, parts)?,
        partition: partition_in(alloc, parts)?,
        explained: flag_in(alloc, "--explain", parts)?,
    })
}

/// What a graph shows: everything, or what `--depth` or `--model` says, but not both.
fn graph_choice_in(alloc: Global, parts: &[Part<'_>]) -> Result<GraphChoice, Unasked>
    ensures { IfAnswered result (IsFitting (AsksGraphChoice (map said_in parts.now))) }
{
    let depth = count_in(alloc, 0, u64::MAX, "--depth", parts)?;
    let name = text_in(alloc, "--model", parts)?;
    match (depth, name) {
        (None, None) => Ok(GraphChoice::All),
        (Some(depth), None) => Ok(GraphChoice::Depth(depth)),
        (None, Some(name)) => Ok(GraphChoice::Phases(String::from_str(alloc, name)?)),
        (Some(_), Some(_)) => Err(Unasked::Nothing),
    }
}

/// Whether a graph shows the phases of a model.
fn shows_phases(choice: &GraphChoice) -> bool
    ensures { result ≡ is_some (phases_of choice.now) }
{
    match choice {
        GraphChoice::All => false,
        GraphChoice::Depth(_) => false,
        GraphChoice::Phases(_) => true,
    }
}

/// The request for a graph. Phases are shown without a partition.
pub(crate) fn graph_in(alloc: Global, parts: &[Part<'_>]) -> Result<Graph, Unasked>
    ensures { IfAnswered result (IsFitting (AsksGraph (map said_in parts.now))) }
{
    let file = model_in(alloc, parts)?;
    let partition = partition_in(alloc, parts)?;
    let choice = graph_choice_in(alloc, parts)?;
    if shows_phases(&choice) && partition.is_some() {
        return Err(Unasked::Nothing);
    }
    Ok(Graph {
        file,
        partition,
        choice,
    })
}
