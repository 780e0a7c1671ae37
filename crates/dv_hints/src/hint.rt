//! From a refusal to its cause.

use crate::causes::empty_cause;
use crate::ends::{leads_back, unknown_in, wrong_way_in};
use crate::known::Known;
use crate::missing::item_at;
use crate::models::{link_at, model_around};
use crate::reading::{ReadText, read};
use crate::reason::Search;
use crate::repeats::{repeat_at, repeated_link};
use crate::roots::{atomic_root, limit_at, own_part, too_long, unknown_root};
use crate::starts::start_at;
use crate::statements::look_through_model;
use crate::words::cause_of;
use dv_explain::{Cause, nesting_at, stray_at, unexpected_at};
use dv_lex::{GREATEST_LENGTH, RefusalNumber, TextError};
use dv_syntax::{Atomic, Coupled, Model};
use std::alloc::{AllocError, Global};

/// The cause of the refusal of a text. Its summary is empty if no more is known than the number
/// says.
///
/// # Errors
///
/// No memory for the tokens, the tree or the words.
pub fn hint_on(alloc: Global, text: &[u8], refusal: &TextError) -> Result<Cause, AllocError> {
    let offset = refusal.offset as usize;
    match refusal.number {
        RefusalNumber::E1 => Cause::of(alloc, "a byte that is not part of a valid character", ""),
        RefusalNumber::E2 if begins_like_trace(text) => stray_in_trace(alloc, text, offset),
        RefusalNumber::E2 => stray_at(alloc, text, offset),
        RefusalNumber::E3 => Cause::of(alloc, "a number above 9223372036854775807", ""),
        RefusalNumber::E4 => unexpected_at(alloc, text, offset),
        RefusalNumber::E5 => Cause::of(alloc, nesting_at(text, offset), ""),
        RefusalNumber::E17 if text.len() > GREATEST_LENGTH => too_long(alloc, text.len()),
        RefusalNumber::E6
        | RefusalNumber::E7
        | RefusalNumber::E8
        | RefusalNumber::E9
        | RefusalNumber::E10
        | RefusalNumber::E11
        | RefusalNumber::E12
        | RefusalNumber::E13
        | RefusalNumber::E14
        | RefusalNumber::E15
        | RefusalNumber::E16
        | RefusalNumber::E17 => match read(alloc, text)? {
            Some(read) => hint_in_tree(alloc, &read, refusal),
            None => empty_cause(alloc),
        },
    }
}

/// Whether a text begins with a time, `TICK.MICROSTEP`, as a trace does and a model never.
fn begins_like_trace(text: &[u8]) -> bool {
    let digits = text.iter().take_while(|byte| byte.is_ascii_digit()).count();
    match text.get(digits..) {
        Some([b'.', next, ..]) => digits > 0 && next.is_ascii_digit(),
        _ => false,
    }
}

/// The cause of E2 in a trace: the brackets around the values of a bag are met before anything is
/// said of the number at its beginning.
fn stray_in_trace(alloc: Global, text: &[u8], offset: usize) -> Result<Cause, AllocError> {
    let cause = stray_at(alloc, text, offset)?;
    Ok(Cause {
        summary: cause.summary,
        sentences: String::from_str(
            alloc,
            "This looks like a trace: a model begins with a word.\n",
        )?,
    })
}

/// The cause of a refusal of a text that has a tree.
fn hint_in_tree(alloc: Global, read: &ReadText, refusal: &TextError) -> Result<Cause, AllocError> {
    let offset = refusal.offset;
    if offset == read.file.root.offset {
        return hint_on_root(alloc, read, refusal.number);
    }
    match refusal.number {
        RefusalNumber::E15 => return own_part(alloc, read, offset),
        RefusalNumber::E17 => return limit_at(alloc, read, offset),
        RefusalNumber::E6 => {
            if let Some(cause) = repeat_at(alloc, read, offset)? {
                return Ok(cause);
            }
        }
        _ => {}
    }
    match model_around(&read.file, offset) {
        Some(Model::Atomic(atomic)) => hint_in_atomic(alloc, read, atomic, refusal),
        Some(Model::Coupled(coupled)) => hint_in_coupled(alloc, read, coupled, refusal),
        None => empty_cause(alloc),
    }
}

fn hint_on_root(
    alloc: Global,
    read: &ReadText,
    number: RefusalNumber,
) -> Result<Cause, AllocError> {
    match number {
        RefusalNumber::E7 => unknown_root(alloc, read),
        RefusalNumber::E16 => atomic_root(alloc, read),
        RefusalNumber::E17 => limit_at(alloc, read, read.file.root.offset),
        _ => empty_cause(alloc),
    }
}

fn hint_in_atomic(
    alloc: Global,
    read: &ReadText,
    model: &Atomic,
    refusal: &TextError,
) -> Result<Cause, AllocError> {
    match refusal.number {
        RefusalNumber::E10 => item_at(alloc, read, model, refusal.offset),
        RefusalNumber::E11 => start_at(alloc, model, refusal.offset),
        RefusalNumber::E6 | RefusalNumber::E7 | RefusalNumber::E8 | RefusalNumber::E9 => {
            let known = Known::of(alloc, model)?;
            let mut search = Search::new(refusal.number, refusal.offset);
            look_through_model(&known, model, &mut search);
            match search.found {
                Some(reason) => cause_of(alloc, read, model, &known, &reason),
                None => empty_cause(alloc),
            }
        }
        _ => empty_cause(alloc),
    }
}

fn hint_in_coupled(
    alloc: Global,
    read: &ReadText,
    model: &Coupled,
    refusal: &TextError,
) -> Result<Cause, AllocError> {
    match (refusal.number, link_at(model, refusal.offset)) {
        (RefusalNumber::E7, _) => unknown_in(alloc, read, model, refusal.offset),
        (RefusalNumber::E12, _) => wrong_way_in(alloc, read, model, refusal.offset),
        (RefusalNumber::E13, Some(link)) => leads_back(alloc, read, link),
        (RefusalNumber::E14, Some(link)) => repeated_link(alloc, read, model, link),
        _ => empty_cause(alloc),
    }
}
