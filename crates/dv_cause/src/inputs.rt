//! Explains a refused line of inputs.

use crate::cause::Source;
use dv_explain::{Cause, Quoted, Spot, pointed};
use dv_hints::WantedSentence;
use dv_hints::near::cause_of_unknown;
use dv_inputs::{InputRefusal, InputRefusalNumber};
use dv_job::JobError;
use dv_job::load::{accept, load};
use std::alloc::{AllocError, Global};

/// A field of a line, with its offset in the line in bytes.
#[derive(Clone, Copy)]
struct Field<'a> {
    offset: usize,
    bytes: &'a [u8],
}

/// What is wrong in a line, with its offset in the line in bytes.
#[derive(Drop)]
struct Flaw {
    offset: usize,
    cause: Cause,
}

/// The cause of a refusal of inputs, as `cause_of`, with a mark under the field that is wrong.
///
/// # Errors
///
/// An allocation was refused.
pub fn cause_in_inputs(
    alloc: Global,
    model: Source<'_>,
    inputs: Source<'_>,
    refusal: &InputRefusal,
) -> Result<String, AllocError> {
    let start = offset_of_line(inputs.bytes, refusal.line);
    let line = without_return(first_line(inputs.bytes.get(start..).unwrap_or(&[])));
    let flaw = flaw_in(alloc, model.bytes, line, refusal.number)?;
    let code = format!(in alloc; "{}", refusal.number)?;
    let spot = Spot {
        name: inputs.name,
        text: inputs.bytes,
        line: refusal.line,
        offset: start.saturating_add(flaw.offset),
    };
    pointed(alloc, &spot, code.as_str(), &flaw.cause)
}

/// The offset of a line, in bytes. Lines count from 1.
fn offset_of_line(text: &[u8], line: u64) -> usize {
    let mut offset: usize = 0;
    for _ in 1..line {
        let rest = text.get(offset..).unwrap_or(&[]);
        let length = first_line(rest).len();
        offset = offset.saturating_add(length).saturating_add(1);
    }
    offset
}

/// The text before the first line feed.
fn first_line(text: &[u8]) -> &[u8] {
    match text.iter().position(|byte| *byte == b'\n') {
        Some(end) => text.get(..end).unwrap_or(text),
        None => text,
    }
}

/// A line without the carriage return at its end.
fn without_return(line: &[u8]) -> &[u8] {
    match line {
        [front @ .., b'\r'] => front,
        _ => line,
    }
}

/// What is wrong in a line that is refused with this number. The model is accepted.
fn flaw_in(
    alloc: Global,
    model: &[u8],
    line: &[u8],
    number: InputRefusalNumber,
) -> Result<Flaw, AllocError> {
    let fields = fields_of(alloc, line)?;
    let (index, summary) = match number {
        InputRefusalNumber::I1 => return malformed(alloc, line, &fields),
        InputRefusalNumber::I2 => return unknown_port(alloc, model, &fields),
        InputRefusalNumber::I3 => (
            0,
            format!(in alloc;
                "the time {} is before that of the input before",
                quoted(&fields, 0)
            )?,
        ),
        InputRefusalNumber::I4 => (
            2,
            format!(in alloc; "{} is no whole number of 64 bits", quoted(&fields, 2))?,
        ),
        InputRefusalNumber::I5 => (
            0,
            format!(in alloc;
                "the microstep of {} is above the limit of the run",
                quoted(&fields, 0)
            )?,
        ),
    };
    Ok(Flaw {
        offset: offset_of_field(&fields, index),
        cause: Cause {
            summary,
            sentences: String::new(alloc),
        },
    })
}

/// The flaw of a port that the root does not have, with the ports that it has.
fn unknown_port(alloc: Global, model: &[u8], fields: &[Field<'_>]) -> Result<Flaw, AllocError> {
    let names = input_names(alloc, model)?;
    let mut texts: Vec<&str> = Vec::new(alloc);
    for name in &names {
        texts.push(name.as_str())?;
    }
    let Quoted(text) = quoted(fields, 1);
    let wanted = WantedSentence {
        wanted: "an input port of the root",
        owner: "the root",
        names: &texts,
    };
    Ok(Flaw {
        offset: offset_of_field(fields, 1),
        cause: cause_of_unknown(alloc, text, &texts, wanted)?,
    })
}

/// The names of the root's input ports.
fn input_names(alloc: Global, model: &[u8]) -> Result<Vec<String>, AllocError> {
    match names_in(alloc, model) {
        Ok(names) => Ok(names),
        Err(JobError::Memory) => Err(AllocError),
        // The model was accepted before the inputs were read.
        Err(_) => Ok(Vec::new(alloc)),
    }
}

fn names_in(alloc: Global, model: &[u8]) -> Result<Vec<String>, JobError> {
    let checked = load(alloc, model)?;
    let tree = accept(alloc, model, &checked)?;
    Ok(tree.input_names(alloc)?)
}

/// A field in quotation marks.
fn quoted<'a>(fields: &[Field<'a>], number: usize) -> Quoted<'a> {
    match fields.get(number) {
        Some(field) => Quoted(str::from_utf8(field.bytes).unwrap_or("")),
        None => Quoted(""),
    }
}

fn offset_of_field(fields: &[Field<'_>], number: usize) -> usize {
    match fields.get(number) {
        Some(field) => field.offset,
        None => 0,
    }
}

/// The fields of a line. Blanks separate them.
fn fields_of(alloc: Global, line: &[u8]) -> Result<Vec<Field<'_>>, AllocError> {
    let mut fields = Vec::new(alloc);
    let mut offset: usize = 0;
    for bytes in line.split(|byte| is_blank(*byte)) {
        if !bytes.is_empty() {
            fields.push(Field { offset, bytes })?;
        }
        offset = offset.saturating_add(bytes.len()).saturating_add(1);
    }
    Ok(fields)
}

/// Whether a byte separates fields.
fn is_blank(byte: u8) -> bool {
    matches!(byte, b' ' | b'\t')
}

/// What is wrong in a line that is neither `TICK PORT VALUE` nor `TICK.MICRO PORT VALUE`.
fn malformed(alloc: Global, line: &[u8], fields: &[Field<'_>]) -> Result<Flaw, AllocError> {
    if let Err(error) = str::from_utf8(line) {
        return Ok(Flaw {
            offset: error.valid_up_to(),
            cause: Cause::of(alloc, "a byte belongs to no whole character", "")?,
        });
    }
    let mut flaw = if fields.len() == 3 {
        wrong_time(alloc, fields)?
    } else {
        wrong_count(alloc, fields)?
    };
    if line.iter().any(|byte| *byte == b'#') {
        flaw.cause.sentences.push_str(
            "A comment is a line of its own: nothing stands before its `#`.\n",
        )?;
    }
    Ok(flaw)
}

fn wrong_time(alloc: Global, fields: &[Field<'_>]) -> Result<Flaw, AllocError> {
    let summary = format!(in alloc;
        "the time {} is no `TICK` or `TICK.MICRO` in decimal digits, with a tick up to 10^15 and a microstep up to 1,000",
        quoted(fields, 0)
    )?;
    Ok(Flaw {
        offset: offset_of_field(fields, 0),
        cause: Cause {
            summary,
            sentences: String::new(alloc),
        },
    })
}

/// The flaw of a wrong number of fields. The mark is after the last field if there are too few, and
/// at the fourth one if there are too many.
fn wrong_count(alloc: Global, fields: &[Field<'_>]) -> Result<Flaw, AllocError> {
    if let Some(fourth) = fields.get(3) {
        let summary = "the line has more than the three fields `TICK PORT VALUE`";
        return Ok(Flaw {
            offset: fourth.offset,
            cause: Cause::of(alloc, summary, "")?,
        });
    }
    let offset = match fields.last() {
        Some(last) => last.offset.saturating_add(last.bytes.len()),
        None => 0,
    };
    let summary = format!(in alloc;
        "the line has {} of the three fields `TICK PORT VALUE`",
        fields.len()
    )?;
    Ok(Flaw {
        offset,
        cause: Cause {
            summary,
            sentences: String::new(alloc),
        },
    })
}
