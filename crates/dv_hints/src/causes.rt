//! Causes from what can be displayed.

use dv_explain::Cause;
use std::alloc::{AllocError, Global};
use std::fmt;

/// The cause with this summary and these sentences, each with a line feed.
///
/// # Errors
///
/// No memory for the words.
pub fn cause<S: fmt::Display + Drop, T: fmt::Display + Drop>(
    alloc: Global,
    summary: S,
    sentences: T,
) -> Result<Cause, AllocError> {
    Ok(Cause {
        summary: format!(in alloc; "{summary}")?,
        sentences: format!(in alloc; "{sentences}")?,
    })
}

/// The empty cause: no more is known than the number of the refusal says.
///
/// # Errors
///
/// No memory for it.
pub fn empty_cause(alloc: Global) -> Result<Cause, AllocError> {
    Cause::of(alloc, "", "")
}
