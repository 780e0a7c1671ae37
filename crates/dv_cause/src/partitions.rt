//! Explains a refused partition.

use crate::cause::Source;
use crate::reason::{Reason, reason_of};
use dv_explain::{Cause, Quoted};
use dv_flat::paths_of;
use dv_hints::WantedSentence;
use dv_hints::near::cause_of_unknown;
use dv_job::JobError;
use dv_job::load::{accept, load};
use dv_partition::{GREATEST_PROCESSES, Partition, PartitionRefusal};
use std::alloc::{AllocError, Global};
use std::fmt;

/// The cause of a refusal of a partition, as a line `CODE: SUMMARY` and sentences that help. Empty
/// if the text of the partition has no lists of paths.
///
/// # Errors
///
/// An allocation was refused.
pub fn cause_in_partition(
    alloc: Global,
    model: Source<'_>,
    partition: Partition<'_>,
    refusal: PartitionRefusal,
) -> Result<String, AllocError> {
    if refusal == PartitionRefusal::Q1 {
        return Ok(String::new(alloc));
    }
    let paths = component_paths(alloc, model.bytes)?;
    match reason_of(alloc, &paths, partition)? {
        Some(reason) => {
            let cause = cause_of_reason(alloc, &paths, &reason)?;
            format!(in alloc; "{refusal}: {}\n{}", cause.summary, cause.sentences)
        }
        None => Ok(String::new(alloc)),
    }
}

fn cause_of_reason(alloc: Global, paths: &[String], reason: &Reason) -> Result<Cause, AllocError> {
    match reason {
        Reason::Unknown(path) => unknown_path(alloc, paths, path.as_str()),
        reason => Ok(Cause {
            summary: format!(in alloc; "{}", Words(reason))?,
            sentences: String::new(alloc),
        }),
    }
}

/// Displayed as a reason in words.
#[derive(Clone, Copy)]
struct Words<'a>(&'a Reason);

impl fmt::Display for Words<'_> {
    fn fmt<W: fmt::Write>(&self, f: &mut fmt::Formatter<W>) -> fmt::Result {
        match self.0 {
            Reason::Unknown(path) => {
                write!(f, "no component has the path {}", Quoted(path.as_str()))
            }
            Reason::Repeated(path) => write!(f, "{} is named again", Quoted(path.as_str())),
            Reason::Missing(path) => write!(f, "{} is in no process", Quoted(path.as_str())),
            Reason::Empty(process) => write!(
                f,
                "the process {process} has no component (the first one is 0)"
            ),
            Reason::Count(0) => f.write_str("there is no process"),
            Reason::Count(count) => write!(f, "{count} processes, more than {GREATEST_PROCESSES}"),
            Reason::Crowded {
                processes,
                components,
            } => write!(f, "{processes} processes for {components} components"),
        }
    }
}

/// The cause of a path that no component has, with the paths that there are.
fn unknown_path(alloc: Global, paths: &[String], path: &str) -> Result<Cause, AllocError> {
    let mut texts: Vec<&str> = Vec::with_capacity(alloc, paths.len())?;
    for path in paths {
        texts.push(path.as_str())?;
    }
    let wanted = WantedSentence {
        wanted: "the path of a component",
        owner: "the model",
        names: &texts,
    };
    cause_of_unknown(alloc, path, &texts, wanted)
}

/// The paths of the components of a model, which is accepted.
fn component_paths(alloc: Global, model: &[u8]) -> Result<Vec<String>, AllocError> {
    match paths_in(alloc, model) {
        Ok(paths) => Ok(paths),
        Err(JobError::Memory) => Err(AllocError),
        Err(_) => Ok(Vec::new(alloc)),
    }
}

fn paths_in(alloc: Global, model: &[u8]) -> Result<Vec<String>, JobError> {
    let checked = load(alloc, model)?;
    let tree = accept(alloc, model, &checked)?;
    Ok(paths_of(alloc, &tree)?)
}
