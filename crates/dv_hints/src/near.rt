//! Names that are similar to an unknown one.

use crate::causes::cause;
use crate::lists::Listed;
use dv_explain::{Cause, Quoted};
use std::alloc::{AllocError, Global};
use std::fmt;
use strsim::osa_distance;

/// The most characters of a name that is compared with others.
const GREATEST_LENGTH: usize = 60;

/// The most near names that are listed.
const MOST_LISTED: usize = 3;

/// Says that a name is unknown and which of these names are near, such as "unknown name `m`; `n` is
/// near".
///
/// # Errors
///
/// No memory for the comparisons or the words.
pub fn unknown_name(alloc: Global, text: &str, names: &[&str]) -> Result<String, AllocError> {
    let near = near_names(alloc, text, names)?;
    let unknown = UnknownName { text, near: &near };
    format!(in alloc; "{unknown}")
}

/// The cause of an unknown name, with the near ones of these names and with these sentences.
///
/// # Errors
///
/// No memory for the comparisons or the words.
pub fn cause_of_unknown<D: fmt::Display + Drop>(
    alloc: Global,
    text: &str,
    names: &[&str],
    sentences: D,
) -> Result<Cause, AllocError> {
    let near = near_names(alloc, text, names)?;
    cause(alloc, UnknownName { text, near: &near }, sentences)
}

/// Displayed as the summary that a name is unknown and others are near.
#[derive(Clone, Copy)]
struct UnknownName<'t, 'n> {
    text: &'t str,
    near: &'n [&'n str],
}

impl fmt::Display for UnknownName<'_, '_> {
    fn fmt<W: fmt::Write>(&self, f: &mut fmt::Formatter<W>) -> fmt::Result {
        let text = Quoted(self.text);
        let near = Listed {
            names: self.near.get(..MOST_LISTED).unwrap_or(self.near),
            before_last: " and ",
        };
        match self.near.len() {
            0 => write!(f, "unknown name {text}"),
            1 => write!(f, "unknown name {text}; {near} is near"),
            _ => write!(f, "unknown name {text}; {near} are near"),
        }
    }
}

/// Those of these names that are nearest to a text, if they are near it.
fn near_names<'a>(
    alloc: Global,
    text: &str,
    names: &[&'a str],
) -> Result<Vec<&'a str>, AllocError> {
    let mut near = Near::to(alloc, text);
    for name in names {
        near.compare(alloc, text, name)?;
    }
    Ok(near.names)
}

/// The names that are nearest to a text, of those compared so far.
#[derive(Drop)]
struct Near<'a> {
    names: Vec<&'a str>,
    /// How many edits it takes to get there; at the beginning, how many a near name may take.
    distance: usize,
}

impl<'a> Near<'a> {
    /// No near names yet. A name is near if at most one edit, or one for each three characters of
    /// the text, turns one into the other, and a character stays. An edit inserts, deletes or
    /// replaces a character, or swaps two neighbours. ASCII case does not count.
    fn to(alloc: Global, text: &str) -> Self {
        let edits = text.chars().count() / 3;
        Near {
            names: Vec::new(alloc),
            distance: edits.max(1),
        }
    }

    /// Compares the text with a name.
    fn compare(&mut self, alloc: Global, text: &str, name: &'a str) -> Result<(), AllocError> {
        if text.len() > GREATEST_LENGTH || name.len() > GREATEST_LENGTH {
            return Ok(());
        }
        let distance = distance_of(alloc, text, name)?;
        if distance >= text.chars().count().max(name.chars().count()) {
            return Ok(());
        }
        if distance < self.distance {
            self.names.clear();
        }
        if distance <= self.distance {
            self.distance = distance;
            self.names.push(name)?;
        }
        Ok(())
    }
}

/// How many edits turn one text into the other, without regard to ASCII case.
fn distance_of(alloc: Global, one: &str, other: &str) -> Result<usize, AllocError> {
    let one = one.to_ascii_lowercase(alloc)?;
    let other = other.to_ascii_lowercase(alloc)?;
    osa_distance(alloc, one.as_str(), other.as_str())
}
