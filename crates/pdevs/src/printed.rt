//! Prints through a writer that keeps the cause of a failed write.

use crate::lines::Lines;
use crate::noted::Noted;
use crate::progress::Progress;
use crate::told::{tell_reason, tell_view_error};
use crate::{ACCEPTED, REFUSED};
use dv_cause::Texts;
use dv_notice::FaultCount;
use dv_text::WriteError;
use dv_views::ViewError;
use std::io;
use std::io::{Printer, Write};
use std::time::Clock;

/// How printing something ended.
#[derive(Drop)]
pub struct Printed<T, E> {
    /// The result of the call that printed it.
    pub result: Result<T, E>,
    /// The error of the first failed write, if one failed.
    pub reason: Option<io::Error>,
}

/// Prints what `print` writes. If not all of it can be written, the result is `WriteError::Write`.
pub fn print_through<'a, R, T, E, F>(rt: &'a R, print: F) -> Printed<T, E>
where
    R: Print,
    T: Drop,
    E: Drop + From<WriteError>,
    F: FnOnce(&mut Noted<Printer<'a, R>>) -> Result<T, E>,
    requires { F.IsAlwaysCallable print }
{
    let mut writer = Noted::new(io::writer(rt));
    let mut result = print(&mut writer);
    if writer.flush().is_err() {
        result = Err(E::from(WriteError::Write));
    }
    Printed {
        result,
        reason: writer.into_reason(),
    }
}

/// Prints the lines that `print` writes, as `print_through` does, and the progress. Also returns
/// the faults among them.
pub fn print_lines<'a, R, T, E, F>(
    rt: &'a R,
    progress: Option<Progress<'a, R>>,
    print: F,
) -> (Printed<T, E>, FaultCount)
where
    R: Print + Eprint + Clock,
    T: Drop,
    E: Drop + From<WriteError>,
    F: FnOnce(&mut Lines<'a, Noted<Printer<'a, R>>, R>) -> Result<T, E>,
    requires { F.IsAlwaysCallable print }
{
    let mut lines = Lines {
        writer: Noted::new(io::writer(rt)),
        faults: FaultCount::new(),
        progress,
    };
    let mut result = print(&mut lines);
    if lines.flush().is_err() {
        result = Err(E::from(WriteError::Write));
    }
    let Lines {
        writer,
        faults,
        progress: _,
    } = lines;
    let printed = Printed {
        result,
        reason: writer.into_reason(),
    };
    (printed, faults)
}

impl<T> Printed<T, ViewError> {
    /// The status of printing a view. If the view is not complete, a message with the cause is
    /// printed.
    pub fn status<R: AllocGlobal + Eprint>(
        &self,
        rt: &R,
        texts: Texts<'_>,
        is_explained: bool,
    ) -> u8 {
        match &self.result {
            Ok(_) => ACCEPTED,
            Err(error) => {
                tell_view_error(rt, texts, error, is_explained);
                self.tell_reason(rt, is_explained);
                REFUSED
            }
        }
    }
}

impl<T, E> Printed<T, E> {
    /// Prints the error of the first failed write, if one failed and errors are explained.
    pub fn tell_reason<R: Eprint>(&self, rt: &R, is_explained: bool) {
        if let Some(error) = &self.reason
            && is_explained
        {
            tell_reason(rt, error);
        }
    }
}
