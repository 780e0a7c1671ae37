//! Values as text.

use crate::atom::Atom;
use crate::reads::Read;
use dv_bag::{DatumView, Value};
use dv_eval::{Moment, loop_values};
use dv_explain::Quoted;
use std::alloc::AllocError;
use std::fmt;

/// The most values that are shown of a collection.
const SHOWN: u64 = 16;

/// Adds a sentence with a line feed on the values of what is read, or nothing if nothing is read.
///
/// # Errors
///
/// No memory for the longer text.
pub(crate) fn push_reads(
    text: &mut String,
    atom: &Atom<'_>,
    moment: &Moment<'_, '_>,
    reads: &[Read],
) -> Result<(), AllocError> {
    if reads.is_empty() {
        return Ok(());
    }
    for (index, read) in reads.iter().enumerate() {
        text.push_str(separator(index, reads.len()))?;
        push_read(text, atom, moment, *read)?;
    }
    text.push_str(".\n")
}

// What separates the phrase at an index from the one before it.
fn separator(index: usize, count: usize) -> &'static str {
    if index == 0 {
        ""
    } else if index.saturating_add(1) == count {
        " and "
    } else {
        ", "
    }
}

fn push_read(
    text: &mut String,
    atom: &Atom<'_>,
    moment: &Moment<'_, '_>,
    read: Read,
) -> Result<(), AllocError> {
    match read {
        Read::Elapsed => write!(text, "`elapsed` is {}", moment.context.arrivals().elapsed()),
        Read::Name(name) => {
            write!(text, "{} is ", Quoted(atom.name(name)))?;
            push_value(text, atom, moment, name)
        }
    }
}

// Adds the value of a variable or a flag, or the values of a collection or an input port.
fn push_value(
    text: &mut String,
    atom: &Atom<'_>,
    moment: &Moment<'_, '_>,
    name: u32,
) -> Result<(), AllocError> {
    if let Some(number) = moment.context.value(name) {
        return write!(text, "{number}");
    }
    let datum = match atom.scope.variable(name) {
        Some(offset) => moment.state.variables.get(offset),
        None => None,
    };
    match datum {
        Some(DatumView::Number(number)) => write!(text, "{number}"),
        Some(DatumView::Flag(flag)) => write!(text, "{flag}"),
        Some(DatumView::Held(_)) | None => {
            let pairs = loop_values(atom.alloc, name, moment.state, moment.context, atom.scope)?;
            push_pairs(text, &pairs)
        }
    }
}

// Adds values with their copies, as in a trace; of too many, the first ones and their number.
fn push_pairs(text: &mut String, pairs: &[(i64, u64)]) -> Result<(), AllocError> {
    let mut count: u64 = 0;
    text.push('[')?;
    for pair in pairs {
        let room = SHOWN.saturating_sub(count);
        push_copies(text, pair.0, pair.1.min(room), count > 0)?;
        count = count.saturating_add(pair.1);
    }
    if count > SHOWN {
        write!(text, ",…] ({count} values)")
    } else {
        text.push(']')
    }
}

fn push_copies(
    text: &mut String,
    value: i64,
    copies: u64,
    follows_another: bool,
) -> Result<(), AllocError> {
    for copy in 0..copies {
        let comma = if follows_another || copy > 0 { "," } else { "" };
        write!(text, "{comma}{value}")?;
    }
    Ok(())
}

/// A value of an expression, as text.
#[derive(Clone, Copy)]
pub(crate) struct ValueText(pub(crate) Value);

impl fmt::Display for ValueText {
    fn fmt<W: fmt::Write>(&self, f: &mut fmt::Formatter<W>) -> fmt::Result {
        match self.0 {
            Value::Number(number) => write!(f, "{number}"),
            Value::Truth(truth) => write!(f, "{truth}"),
        }
    }
}
