//! Items of an atomic model that are missing or written twice.

use crate::causes::{cause, empty_cause};
use crate::reading::ReadText;
use dv_explain::{Cause, Quoted};
use dv_syntax::{Atomic, Name};
use std::alloc::{AllocError, Global};
use std::collections::HashSet;
use std::fmt;

/// The most missing items that are listed.
const MOST_LISTED: usize = 8;

/// The cause of E10 at an offset: of the model's name if an item is missing, or else of the first
/// word of the second item.
///
/// # Errors
///
/// No memory for the words.
pub fn item_at(
    alloc: Global,
    read: &ReadText,
    model: &Atomic,
    offset: u32,
) -> Result<Cause, AllocError> {
    if model.name.offset == offset {
        missing(alloc, read, model)
    } else {
        twice(alloc, read, model, offset)
    }
}

/// An item of which a model has exactly one; a hold with the name of its phase.
#[derive(Clone, Copy)]
enum Item<'a> {
    Phases,
    Start,
    Hold(&'a str),
}

impl fmt::Display for Item<'_> {
    fn fmt<W: fmt::Write>(&self, f: &mut fmt::Formatter<W>) -> fmt::Result {
        match self {
            Item::Phases => f.write_str("`phases`"),
            Item::Start => f.write_str("`start`"),
            Item::Hold(phase) => write!(f, "the hold of {}", Quoted(phase)),
        }
    }
}

/// The cause of E10 for items that a model lacks.
fn missing(alloc: Global, read: &ReadText, model: &Atomic) -> Result<Cause, AllocError> {
    let items = lacking_items(alloc, read, model)?;
    let summary = Lacking {
        model: read.name(model.name.number),
        items: &items,
    };
    let phases = if model.phases.is_empty() {
        "The phases are declared by `phases z, w;`.\n"
    } else {
        ""
    };
    let start = if model.starts.is_empty() {
        "The phase at the start is chosen by `start z;`.\n"
    } else {
        ""
    };
    let hold = match items.last() {
        Some(Item::Hold(_)) => {
            "Each phase has a hold: `hold z: 5;`, or `hold z: forever;` until something arrives.\n"
        }
        Some(Item::Phases | Item::Start) | None => "",
    };
    cause(alloc, summary, format_args!("{phases}{start}{hold}"))
}

/// Displayed as the summary that a model lacks items.
#[derive(Clone, Copy)]
struct Lacking<'a> {
    model: &'a str,
    items: &'a [Item<'a>],
}

impl fmt::Display for Lacking<'_> {
    fn fmt<W: fmt::Write>(&self, f: &mut fmt::Formatter<W>) -> fmt::Result {
        write!(f, "{} lacks", Quoted(self.model))?;
        for (index, item) in self.items.iter().take(MOST_LISTED).enumerate() {
            let separator = if index == 0 { " " } else { ", " };
            write!(f, "{separator}{item}")?;
        }
        match self.items.len().saturating_sub(MOST_LISTED) {
            0 => Ok(()),
            more => write!(f, " and {more} more"),
        }
    }
}

/// The items that a model lacks, the holds last.
fn lacking_items<'a>(
    alloc: Global,
    read: &'a ReadText,
    model: &Atomic,
) -> Result<Vec<Item<'a>>, AllocError> {
    let mut items = Vec::new(alloc);
    if model.phases.is_empty() {
        items.push(Item::Phases)?;
    }
    if model.starts.is_empty() {
        items.push(Item::Start)?;
    }
    let held = held_phases(alloc, model)?;
    for phases in &model.phases {
        push_unheld(&mut items, read, &held, &phases.names)?;
    }
    Ok(items)
}

/// Adds the holds of those of these phases that have none.
fn push_unheld<'a>(
    items: &mut Vec<Item<'a>>,
    read: &'a ReadText,
    held: &HashSet<u32>,
    phases: &[Name],
) -> Result<(), AllocError> {
    for phase in phases {
        if !held.contains(&phase.number) {
            items.push(Item::Hold(read.name(phase.number)))?;
        }
    }
    Ok(())
}

/// The numbers of the names of the phases that have a hold.
fn held_phases(alloc: Global, model: &Atomic) -> Result<HashSet<u32>, AllocError> {
    let mut held = HashSet::new(alloc);
    for hold in &model.holds {
        held.insert(hold.phase.number)?;
    }
    Ok(held)
}

/// The cause of E10 for the second of two items, whose first word is at an offset.
fn twice(alloc: Global, read: &ReadText, model: &Atomic, offset: u32) -> Result<Cause, AllocError> {
    let Some((item, first)) = item_and_first(read, model, offset) else {
        return empty_cause(alloc);
    };
    let sentence = match item {
        Item::Phases => "`phases z, w;` names all phases.\n",
        Item::Start | Item::Hold(_) => "",
    };
    let first = read.position(first);
    cause(
        alloc,
        format_args!("{item} is written twice, first at {first}"),
        sentence,
    )
}

/// The item whose first word is at an offset, and the offset of the first item of that kind.
fn item_and_first<'a>(read: &'a ReadText, model: &Atomic, offset: u32) -> Option<(Item<'a>, u32)> {
    for phases in &model.phases {
        if phases.offset == offset {
            return Some((Item::Phases, model.phases.first()?.offset));
        }
    }
    for start in &model.starts {
        if start.offset == offset {
            return Some((Item::Start, model.starts.first()?.offset));
        }
    }
    for hold in &model.holds {
        if hold.offset == offset {
            let phase = hold.phase.number;
            return Some((Item::Hold(read.name(phase)), first_hold(model, phase)?));
        }
    }
    None
}

/// The offset of the first hold of the phase with a name of this number.
fn first_hold(model: &Atomic, phase: u32) -> Option<u32> {
    for hold in &model.holds {
        if hold.phase.number == phase {
            return Some(hold.offset);
        }
    }
    None
}
