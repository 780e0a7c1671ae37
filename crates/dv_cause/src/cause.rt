//! Explains the error of a job.

use crate::inputs::cause_in_inputs;
use crate::partitions::cause_in_partition;
use dv_explain::{Spot, explanation_of, pointed};
use dv_hints::hint_on;
use dv_job::JobError;
use dv_lex::TextError;
use dv_partition::Partition;
use std::alloc::{AllocError, Global};

/// A file that was read.
#[derive(Clone, Copy)]
pub struct Source<'a> {
    /// The name of the file, as in the command line.
    pub name: &'a str,
    /// The bytes of the file.
    pub bytes: &'a [u8],
}

/// What a job was asked for, as far as it may be refused.
#[derive(Clone, Copy)]
pub struct Texts<'a> {
    /// The text of the model.
    pub model: Source<'a>,
    /// The text of the inputs. Its name and its bytes are empty if there are no inputs.
    pub inputs: Source<'a>,
    /// How the model is divided.
    pub partition: Partition<'a>,
}

/// The cause of an error, followed by what the error means in general. Empty if no text is at
/// fault.
///
/// # Errors
///
/// An allocation was refused.
pub fn explained(alloc: Global, texts: Texts<'_>, error: &JobError) -> Result<String, AllocError> {
    let cause = cause_of(alloc, texts, error)?;
    let code = code_of(alloc, error)?;
    match explanation_of(code.as_str()) {
        Some(explanation) => format!(in alloc; "{cause}{}\n", explanation.words),
        None => Ok(cause),
    }
}

/// The code of a refusal, as `E7`; empty if no text is at fault.
fn code_of(alloc: Global, error: &JobError) -> Result<String, AllocError> {
    match error {
        JobError::Text(refusal) => format!(in alloc; "{}", refusal.number),
        JobError::Inputs(refusal) => format!(in alloc; "{}", refusal.number),
        JobError::Partition(refusal) => format!(in alloc; "{refusal}"),
        JobError::Write | JobError::Memory => Ok(String::new(alloc)),
    }
}

/// The cause of an error. In the model or in the inputs: `FILE:LINE:COLUMN: CODE: SUMMARY`, the
/// line with a mark, and sentences that help. In a partition: `CODE: SUMMARY` and such sentences.
/// Empty if no text is at fault.
///
/// # Errors
///
/// An allocation was refused.
pub fn cause_of(alloc: Global, texts: Texts<'_>, error: &JobError) -> Result<String, AllocError> {
    let model = texts.model;
    match error {
        JobError::Text(refusal) => cause_in_model(alloc, model, refusal),
        JobError::Inputs(refusal) => cause_in_inputs(alloc, model, texts.inputs, refusal),
        JobError::Partition(refusal) => {
            cause_in_partition(alloc, model, texts.partition, *refusal)
        }
        JobError::Write | JobError::Memory => Ok(String::new(alloc)),
    }
}

fn cause_in_model(
    alloc: Global,
    model: Source<'_>,
    refusal: &TextError,
) -> Result<String, AllocError> {
    let cause = hint_on(alloc, model.bytes, refusal)?;
    let code = format!(in alloc; "{}", refusal.number)?;
    let spot = Spot {
        name: model.name,
        text: model.bytes,
        line: refusal.line,
        offset: refusal.offset as usize,
    };
    pointed(alloc, &spot, code.as_str(), &cause)
}
