//! Values and options among parts.

ghost use Rattle.std.specs.Prelude.{◌≡◌, ◌≤◌, List, ℕ, map, option_map, filter_map, IfOk, is_some, IfSome};
ghost use Rattle.dv_command.specs.Words.{at_most_one, given, named_in, value_in, values};
ghost use Rattle.dv_command.specs.Asked.{AsksText, IfAnswered, IsFitting, count_in, flag_in, is_left_out, number_of, text_in};
ghost use Rattle.dv_command.specs.Steps.{said_in};

use crate::number::number_in;
use crate::part::Part;
use crate::unasked::Unasked;
use std::alloc::{AllocError, Global};

fn value_in<'a>(part: Part<'a>) -> Option<&'a str>
    ensures { option_map (λ text. text.now) result ≡ value_in (said_in part.entry) }
{
    match part {
        Part::Value(text) => Some(text),
        Part::Flag(_) => None,
        Part::Setting(_, _) => None,
    }
}

fn named_in<'a>(wanted: &str, part: Part<'a>) -> Option<&'a str>
    ensures { option_map (λ text. text.now) result ≡ named_in wanted.now (said_in part.entry) }
{
    match part {
        Part::Value(_) => None,
        Part::Flag(name) => { if name == wanted { Some(name) } else { None } }
        Part::Setting(name, value) => { if name == wanted { Some(value) } else { None } }
    }
}

/// The values that belong to no option, in their order.
pub(crate) fn values<'a>(alloc: Global, parts: &[Part<'a>]) -> Result<Vec<&'a str>, AllocError>
    ensures { IfOk result (λ r. map (λ text. text.now) r.items ≡ values (map said_in parts.now)) }
{
    let mut texts = Vec::new(alloc);
    for part in parts {
        if let Some(text) = value_in(*part) {
            texts.push(text)?;
        }
    }
    Ok(texts)
}

/// All values that are given for the option of this name. For a flag, each is its name.
fn given<'a>(alloc: Global, name: &str, parts: &[Part<'a>]) -> Result<Vec<&'a str>, AllocError>
    ensures { IfOk result (λ r. map (λ text. text.now) r.items
        ≡ given name.now (map said_in parts.now)) }
{
    let mut texts = Vec::new(alloc);
    for part in parts {
        if let Some(text) = named_in(name, *part) {
            texts.push(text)?;
        }
    }
    Ok(texts)
}

/// The text, if there is one; `None` if there are several.
fn at_most_one<'a>(texts: &[&'a str]) -> Option<Option<&'a str>>
    ensures { option_map (option_map (λ text. text.now)) result
        ≡ at_most_one (map (λ text. text.now) texts.now) }
{
    match texts {
        [] => Some(None),
        [text] => Some(Some(*text)),
        [_, _, ..] => None,
    }
}

/// The value of an option, if it is given; `Nothing` if it is given more than once.
pub(crate) fn text_in<'a>(
    alloc: Global,
    name: &str,
    parts: &[Part<'a>],
) -> Result<Option<&'a str>, Unasked>
    ensures { IfAnswered result (λ r. option_map (option_map (λ text. text.now)) r
        ≡ text_in name.now (map said_in parts.now)) }
{
    let texts = given(alloc, name, parts)?;
    at_most_one(&texts).ok_or(Unasked::Nothing)
}

/// The same as `text_in`, with a copy of the value.
pub(crate) fn owned_text_in(
    alloc: Global,
    name: &str,
    parts: &[Part<'_>],
) -> Result<Option<String>, Unasked>
    ensures { IfAnswered result (IsFitting (AsksText name.now (map said_in parts.now))) }
{
    match text_in(alloc, name, parts)? {
        None => Ok(None),
        Some(text) => Ok(Some(String::from_str(alloc, text)?)),
    }
}

/// Whether a flag is given; `Nothing` if it is given more than once.
pub(crate) fn flag_in(alloc: Global, name: &str, parts: &[Part<'_>]) -> Result<bool, Unasked>
    ensures { IfAnswered result (λ r. r ≡ flag_in name.now (map said_in parts.now)) }
{
    let text = text_in(alloc, name, parts)?;
    Ok(text.is_some())
}

/// Whether an option is not given.
pub(crate) fn is_left_out(alloc: Global, name: &str, parts: &[Part<'_>]) -> Result<bool, AllocError>
    ensures { IfOk result (λ r. r ≡ is_left_out name.now (map said_in parts.now)) }
{
    let texts = given(alloc, name, parts)?;
    Ok(texts.is_empty())
}

/// The number in the value of an option, if it is given; `None` if the value is no number in this
/// range.
fn number_of(least: u64, greatest: u64, text: Option<&str>) -> Option<Option<u64>>
    ensures { result ≡ number_of least greatest (option_map (λ text. text.now) text.entry) }
{
    match text {
        None => Some(None),
        Some(text) => match number_in(least, greatest, text) {
            Some(number) => Some(Some(number)),
            None => None,
        },
    }
}

/// The number of an option, if it is given; `Nothing` if it is given more than once, or if its
/// value is not a number in this range.
pub(crate) fn count_in(
    alloc: Global,
    least: u64,
    greatest: u64,
    name: &str,
    parts: &[Part<'_>],
) -> Result<Option<u64>, Unasked>
    ensures { IfAnswered result (λ r. r
        ≡ count_in least greatest name.now (map said_in parts.now)) }
{
    let text = text_in(alloc, name, parts)?;
    number_of(least, greatest, text).ok_or(Unasked::Nothing)
}
