//! From the words behind a subcommand to parts.

ghost use Rattle.std.specs.Prelude.{◌≡◌, ◌++◌, map, option_map, option_to_list, OnOk, string_bytes};
ghost use Rattle.dv_command.specs.Asked.{IfAnswered};
ghost use Rattle.dv_command.specs.Words.{Ready, is_value, joined_step, named_in, option_step, said_by, step, value_in};
ghost use Rattle.dv_command.specs.Steps.{reading_of, said_in, step_of};

use crate::subcommand::{Subcommand, is_flag, takes_value};
use crate::unasked::Unasked;
use std::alloc::{AllocError, Global};

/// A value, a flag, or an option with its value.
#[derive(Clone, Copy)]
pub(crate) enum Part<'a> {
    /// A value that belongs to no option.
    Value(&'a str),
    /// `--name`
    Flag(&'a str),
    /// `--name value` or `--name=value`: the name and the value.
    Setting(&'a str, &'a str),
}

/// How the next word is read.
#[derive(Clone, Copy)]
pub(crate) enum Index<'a> {
    /// As a value, a flag or an option.
    Ready,
    /// As the value of this option.
    Awaits(&'a str),
    /// As a value, even if it begins with a hyphen: `--` was read.
    Ended,
}

/// The answer to a word.
#[derive(Clone, Copy)]
pub(crate) struct Read<'a> {
    /// The part that the word completes, if it completes one.
    pub part: Option<Part<'a>>,
    /// How the next word is read.
    pub next: Index<'a>,
}

/// Whether a word is a value: it does not begin with a hyphen, or is a hyphen alone.
pub(crate) fn is_value(word: &str) -> bool
    ensures { result ≡ is_value word.now }
{
    match word.as_bytes() {
        [] => true,
        [_] => true,
        [first, _, ..] => *first != b'-',
    }
}

fn says(part: Part<'_>) -> Read<'_>
    ensures { result ≡ record { part = Some part.entry; next = Index.Ready } }
{
    Read {
        part: Some(part),
        next: Index::Ready,
    }
}

/// Reads `name=value`; `None` if no option of this name takes a value.
fn joined_step(subcommand: Subcommand, word: &str) -> Option<Read<'_>>
    ensures { option_map step_of result ≡ joined_step subcommand word.now }
{
    let (name, value) = word.split_once('=')?;
    if takes_value(subcommand, name) {
        Some(says(Part::Setting(name, value)))
    } else {
        None
    }
}

/// Reads a word that is no value; `None` if the subcommand has no such flag or option.
fn option_step(subcommand: Subcommand, word: &str) -> Option<Read<'_>>
    ensures { option_map step_of result ≡ option_step subcommand word.now }
{
    if word == "--" {
        Some(Read {
            part: None,
            next: Index::Ended,
        })
    } else if is_flag(subcommand, word) {
        Some(says(Part::Flag(word)))
    } else if takes_value(subcommand, word) {
        Some(Read {
            part: None,
            next: Index::Awaits(word),
        })
    } else {
        joined_step(subcommand, word)
    }
}

/// Reads the next word; `None` if it is not allowed here.
fn step<'a>(subcommand: Subcommand, index: Index<'a>, word: &'a str) -> Option<Read<'a>>
    ensures { option_map step_of result ≡ step subcommand (reading_of index.entry) word.now }
{
    match index {
        Index::Ready => {
            if is_value(word) {
                Some(says(Part::Value(word)))
            } else {
                option_step(subcommand, word)
            }
        }
        Index::Awaits(name) => {
            if is_value(word) {
                Some(says(Part::Setting(name, word)))
            } else {
                None
            }
        }
        Index::Ended => Some(Read {
            part: Some(Part::Value(word)),
            next: Index::Ended,
        }),
    }
}

/// Adds the part that a word completes, if there is one.
fn push_part<'a>(parts: &mut Vec<Part<'a>>, part: Option<Part<'a>>) -> Result<(), AllocError>
    ensures { OnOk result (map said_in parts.new.items
        ≡ map said_in parts.old.items ++ option_to_list (option_map said_in part.entry)) }
{
    if let Some(part) = part {
        parts.push(part)?;
    }
    Ok(())
}

/// The parts of all words.
///
/// # Errors
///
/// `Nothing`: a word is not allowed where it is, or the value of an option is missing. `Memory`: an
/// allocation was refused.
pub(crate) fn said_by<'a>(
    alloc: Global,
    subcommand: Subcommand,
    words: &'a [String],
) -> Result<Vec<Part<'a>>, Unasked>
    ensures { IfAnswered result (λ parts. option_map (λ said. map said_in said.items) parts
        ≡ said_by subcommand Ready (map string_bytes words.now)) }
{
    let mut parts = Vec::new(alloc);
    let mut index = Index::Ready;
    for word in words {
        let Some(read) = step(subcommand, index, word.as_str()) else {
            return Err(Unasked::Nothing);
        };
        push_part(&mut parts, read.part)?;
        index = read.next;
    }
    if let Index::Awaits(_) = index {
        return Err(Unasked::Nothing);
    }
    Ok(parts)
}
