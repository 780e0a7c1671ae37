//! The root, models that contain themselves, and limits on size.

use crate::causes::{cause, empty_cause};
use crate::ends::unknown;
use crate::lists::Choice;
use crate::models::{model_around, model_named, part_of_model_at};
use crate::reading::ReadText;
use crate::sizes::{TreeSize, size_of_root};
use crate::sorts::{Direction, name_of as name_of_declaration, sort_of};
use dv_bag::GREATEST_COUNT;
use dv_check::{GREATEST_COMPONENTS, GREATEST_DEPTH, GREATEST_INSTANCES, GREATEST_NAMES};
use dv_explain::{Cause, Quoted};
use dv_flat::GREATEST_LINKS;
use dv_lex::GREATEST_LENGTH;
use dv_syntax::{Atomic, Coupled, Declaration, Model, Name, StateCollection};
use std::alloc::{AllocError, Global};
use std::fmt;

/// The cause of E7 for the root.
///
/// # Errors
///
/// No memory for the words.
pub fn unknown_root(alloc: Global, read: &ReadText) -> Result<Cause, AllocError> {
    let names = coupled_names(alloc, read)?;
    unknown(alloc, read, read.file.root, "a coupled model", &names)
}

/// The names of the coupled models.
fn coupled_names<'a>(alloc: Global, read: &'a ReadText) -> Result<Vec<&'a str>, AllocError> {
    let mut names = Vec::new(alloc);
    for model in &read.file.models {
        if let Model::Coupled(coupled) = model {
            names.push(read.name(coupled.name.number))?;
        }
    }
    Ok(names)
}

/// The cause of E16: with the coupled models of the text, or else one to write around the atomic
/// model.
///
/// # Errors
///
/// No memory for the words.
pub fn atomic_root(alloc: Global, read: &ReadText) -> Result<Cause, AllocError> {
    let root = read.file.root;
    let summary = format_args!("{} is atomic", Quoted(read.name(root.number)));
    let names = coupled_names(alloc, read)?;
    if !names.is_empty() {
        let choice = Choice(&names);
        let sentence = format_args!("The root is a coupled model: {choice}.\n");
        return cause(alloc, summary, sentence);
    }
    match model_named(&read.file, root.number) {
        Some(Model::Atomic(atomic)) => cause(alloc, summary, wrapping(alloc, read, atomic)?),
        Some(Model::Coupled(_)) | None => cause(alloc, summary, ""),
    }
}

/// A sentence with a line feed that shows a coupled model with an atomic one as its part, and with
/// its ports.
fn wrapping(alloc: Global, read: &ReadText, model: &Atomic) -> Result<String, AllocError> {
    let name = read.name(model.name.number);
    let top = if name == "Top" { "Whole" } else { "Top" };
    let mut ports = String::new(alloc);
    let mut links = String::new(alloc);
    for declaration in &model.declarations {
        let port = read.name(name_of_declaration(declaration).number);
        let (word, from, to) = match sort_of(declaration).direction() {
            Some(Direction::Input) => ("in", "self", "a"),
            Some(Direction::Output) => ("out", "a", "self"),
            None => continue,
        };
        write!(ports, "{word} {port}; ")?;
        write!(links, "link {from}.{port} -> {to}.{port}; ")?;
    }
    format!(in alloc; "Write `coupled {top} {{ {ports}part a: {name}; {links}}} root {top};`.\n")
}

/// The cause of E15 for the part whose model is named at an offset.
///
/// # Errors
///
/// No memory for the words.
pub fn own_part(alloc: Global, read: &ReadText, offset: u32) -> Result<Cause, AllocError> {
    let Some(Model::Coupled(coupled)) = model_around(&read.file, offset) else {
        return empty_cause(alloc);
    };
    let Some(part) = part_of_model_at(coupled, offset) else {
        return empty_cause(alloc);
    };
    let own = Quoted(read.name(coupled.name.number));
    let model = Quoted(read.name(part.model.number));
    if part.model.number == coupled.name.number {
        cause(alloc, format_args!("{own} is a part of itself"), "")
    } else {
        let summary = format_args!("{model} has {own} among its parts, directly or further inside");
        cause(alloc, summary, "")
    }
}

/// The cause of E17 at an offset: the limit on a capacity, on the names of one kind, or on the tree
/// of the root.
///
/// # Errors
///
/// No memory for the words.
pub fn limit_at(alloc: Global, read: &ReadText, offset: u32) -> Result<Cause, AllocError> {
    if read.file.root.offset == offset {
        return too_large(alloc, read);
    }
    if let Some(collection) = collection_at(read, offset) {
        let capacity = collection.capacity.value.value();
        let summary = format_args!("the capacity {capacity} is outside of 1..{GREATEST_COUNT}");
        return cause(alloc, summary, "");
    }
    match model_around(&read.file, offset) {
        Some(model) => {
            let (name, count, kind) = names_like(model, offset);
            let name = Quoted(read.name(name.number));
            let summary = format_args!("{name} has {count} {kind}, more than {GREATEST_NAMES}");
            cause(alloc, summary, "")
        }
        None => empty_cause(alloc),
    }
}

/// The name of a model, how many names it has of the kind of the one at an offset, and what these
/// are.
fn names_like(model: &Model, offset: u32) -> (Name, usize, &'static str) {
    match model {
        Model::Atomic(atomic) => {
            let (count, kind) = names_of_atomic(atomic, offset);
            (atomic.name, count, kind)
        }
        Model::Coupled(coupled) => {
            let (count, kind) = names_of_coupled(coupled, offset);
            (coupled.name, count, kind)
        }
    }
}

fn names_of_atomic(atomic: &Atomic, offset: u32) -> (usize, &'static str) {
    let declared = &atomic.declarations;
    let ports = declared.iter().filter(|item| is_port(item)).count();
    match declared
        .iter()
        .find(|item| name_of_declaration(item).offset == offset)
    {
        Some(item) if is_port(item) => (ports, "ports"),
        Some(_) => (
            declared.len().saturating_sub(ports),
            "variables, flags, bags and queues",
        ),
        None => (phase_count(atomic), "phases"),
    }
}

fn phase_count(atomic: &Atomic) -> usize {
    let mut count: usize = 0;
    for phases in &atomic.phases {
        count = count.saturating_add(phases.names.len());
    }
    count
}

fn is_port(declaration: &Declaration) -> bool {
    sort_of(declaration).direction().is_some()
}

fn names_of_coupled(coupled: &Coupled, offset: u32) -> (usize, &'static str) {
    if coupled.parts.iter().any(|part| part.name.offset == offset) {
        (coupled.parts.len(), "parts")
    } else {
        (
            coupled.inputs.len().saturating_add(coupled.outputs.len()),
            "ports",
        )
    }
}

/// The cause of E17 for a text of so many bytes.
///
/// # Errors
///
/// No memory for the words.
pub fn too_long(alloc: Global, length: usize) -> Result<Cause, AllocError> {
    let summary = format_args!("the text has {length} bytes, more than {GREATEST_LENGTH}");
    cause(alloc, summary, "")
}

fn too_large(alloc: Global, read: &ReadText) -> Result<Cause, AllocError> {
    let root = Quoted(read.name(read.file.root.number));
    let size = size_of_root(alloc, &read.file)?;
    cause(alloc, TooLarge { root, size }, "")
}

/// Displayed as the limit on trees that the tree of a root exceeds.
#[derive(Clone, Copy)]
struct TooLarge<'a> {
    root: Quoted<'a>,
    size: TreeSize,
}

impl fmt::Display for TooLarge<'_> {
    fn fmt<W: fmt::Write>(&self, f: &mut fmt::Formatter<W>) -> fmt::Result {
        let TooLarge { root, size } = self;
        if size.levels > GREATEST_DEPTH {
            write!(
                f,
                "{root} nests coupled models more than {GREATEST_DEPTH} deep"
            )
        } else if size.components == 0 {
            write!(f, "{root} has no component")
        } else if size.components > GREATEST_COMPONENTS as u64 {
            write!(
                f,
                "{root} has {} components, more than {GREATEST_COMPONENTS}",
                size.components
            )
        } else if size.instances > GREATEST_INSTANCES as u64 {
            write!(
                f,
                "{root} has {} models in its tree, more than {GREATEST_INSTANCES}",
                size.instances
            )
        } else {
            write!(f, "{root} has more than {GREATEST_LINKS} links")
        }
    }
}

/// The bag or queue whose capacity is at an offset.
fn collection_at(read: &ReadText, offset: u32) -> Option<StateCollection> {
    let Some(Model::Atomic(atomic)) = model_around(&read.file, offset) else {
        return None;
    };
    for declaration in &atomic.declarations {
        if let Declaration::Held(collection) = declaration
            && collection.capacity.offset == offset
        {
            return Some(*collection);
        }
    }
    None
}
