//! Warnings that say the same of several copies of a model or of a part.

use crate::models::name_of;
use crate::warning::{Found, Warning};
use dv_syntax::Model;
use std::alloc::{AllocError, Global};
use std::collections::HashMap;
use std::fmt;

/// A warning, with how many later ones say the same. `Display` writes the sentence and how many.
#[derive(Clone, Copy)]
pub struct Told<'t> {
    /// The first of these warnings.
    pub found: Found<'t>,
    /// How many more there are, in other models or at other parts.
    pub more: u64,
}

impl fmt::Display for Told<'_> {
    fn fmt<W: fmt::Write>(&self, f: &mut fmt::Formatter<W>) -> fmt::Result {
        let warning = self.found.warning;
        match self.more {
            0 => write!(f, "{warning}"),
            more => write!(f, "{warning} ({more} more like it)"),
        }
    }
}

/// Where a sentence was told first: the place among the warnings that are told, and the model.
#[derive(Clone, Copy)]
struct First {
    place: usize,
    model: usize,
}

/// These warnings, which are in the order of the text, without those that say of another model or
/// part what was told already. Models and parts that were copied have many of them.
///
/// # Errors
///
/// Memory is refused.
pub(crate) fn told_once<'t>(
    alloc: Global,
    models: &[Model],
    all: Vec<Found<'t>>,
) -> Result<Vec<Told<'t>>, AllocError> {
    let mut told: Vec<Told<'t>> = Vec::new(alloc);
    let mut firsts: HashMap<String, First> = HashMap::new(alloc);
    for found in all {
        let model = models.partition_point(|model| name_of(model).offset <= found.offset);
        let sentence = sentence_of(alloc, found.warning)?;
        let first = firsts.get(&sentence).copied();
        match first {
            Some(first) if first.model != model || is_of_part(found.warning) => {
                count_one_more(&mut told, first.place);
            }
            Some(_) => told.push(Told { found, more: 0 })?,
            None => {
                let place = told.len();
                firsts.insert(sentence, First { place, model })?;
                told.push(Told { found, more: 0 })?;
            }
        }
    }
    Ok(told)
}

fn count_one_more(told: &mut Vec<Told<'_>>, place: usize) {
    if let Some(first) = told.get_mut(place) {
        first.more = first.more.saturating_add(1);
    }
}

/// Whether a warning is about a part, and not about its model.
fn is_of_part(warning: Warning<'_>) -> bool {
    matches!(
        warning,
        Warning::UnlinkedPart { .. } | Warning::UnfedPart { .. }
    )
}

/// The sentence of a warning, without the name of the part that it is about.
fn sentence_of(alloc: Global, warning: Warning<'_>) -> Result<String, AllocError> {
    let warning = match warning {
        Warning::UnlinkedPart { .. } => Warning::UnlinkedPart { part: "" },
        Warning::UnfedPart { port, others, .. } => Warning::UnfedPart {
            part: "",
            port,
            others,
        },
        other => other,
    };
    format!(in alloc; "{warning}")
}
