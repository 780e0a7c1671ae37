//! Prints on standard error.

use dv_cause::{Texts, explained};
use dv_job::JobError;
use dv_trace::TraceReason;
use dv_views::ViewError;
use std::fmt::Display;
use std::io;
use std::io::ErrorKind;

/// Prints a message as a line. A failed write is ignored, since the exit status still shows that
/// there was an error.
pub fn tell_line<R: Eprint>(rt: &R, line: impl Display + Drop) {
    let _ = eprintln!(rt; "pdevs: {line}");
}

/// Prints a text as it is.
pub fn tell_text<R: Eprint>(rt: &R, text: &str) {
    let _ = eprint!(rt; "{text}");
}

/// Prints that a file can't be read, followed by the reason if it is explained.
pub fn tell_unread<R: Eprint>(rt: &R, name: &str, error: &io::Error, is_explained: bool) {
    tell_line(rt, format_args!("cannot read {name}"));
    if is_explained {
        tell_reason(rt, error);
    }
}

/// Prints an error of the system.
pub fn tell_reason<R: Eprint>(rt: &R, error: &io::Error) {
    let _ = eprintln!(rt; "{error}");
}

/// Prints the message for an error of the system, followed by the error itself if it is explained.
pub fn tell_failure<R: Eprint>(rt: &R, error: &io::Error, is_explained: bool) {
    let failure = failure(error);
    let is_written = matches!(failure, JobError::Write);
    tell_line(rt, &failure);
    if is_explained && is_written {
        tell_reason(rt, error);
    }
}

/// The message for an error of the system: memory, or else a failed write.
fn failure(error: &io::Error) -> JobError {
    match error.kind() {
        ErrorKind::OutOfMemory => JobError::Memory,
        _ => JobError::Write,
    }
}

/// Prints the message of an error, and its explanation if it is asked for and memory suffices.
pub fn tell_error<R: AllocGlobal + Eprint>(
    rt: &R,
    texts: Texts<'_>,
    error: &JobError,
    is_explained: bool,
) {
    tell_line(rt, error);
    if !is_explained {
        return;
    }
    if let Ok(text) = explained(rt.alloc(), texts, error) {
        tell_text(rt, text.as_str());
    }
}

/// Prints why a view is not complete.
pub fn tell_view_error<R: AllocGlobal + Eprint>(
    rt: &R,
    texts: Texts<'_>,
    error: &ViewError,
    is_explained: bool,
) {
    match error {
        ViewError::Job(error) => tell_error(rt, texts, error, is_explained),
        ViewError::Trace(refusal) if matches!(refusal.reason, TraceReason::NoEnd) => {
            tell_line(rt, format_args!("{error}; --partial takes it"));
        }
        ViewError::Unread(_)
        | ViewError::Trace(_)
        | ViewError::NoPath(_)
        | ViewError::NoPhases(_) => tell_line(rt, error),
    }
}
