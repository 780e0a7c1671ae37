//! Names and links that are written twice.

use crate::causes::{cause, empty_cause};
use crate::ends::link_text;
use crate::models::{model_around, name_of};
use crate::reading::ReadText;
use crate::sorts::{Rule, name_of as name_of_declaration, sort_of};
use dv_explain::{Cause, Quoted};
use dv_syntax::{Atomic, Coupled, End, Link, Model, Name, RuleSort};
use std::alloc::{AllocError, Global};

/// Names that all have to be different. There is one such space for each case.
#[derive(Clone, Copy, PartialEq, Eq)]
enum Space {
    Models,
    /// Ports, variables, flags, bags and queues of an atomic model.
    Declarations,
    Phases,
    /// The phases of the rules of one kind.
    Rules(RuleSort),
    /// Ports of a coupled model.
    Ports,
    Parts,
}

/// A declared name, with the space in which it has to differ from others, and its kind in words.
#[derive(Clone, Copy)]
struct Located {
    name: Name,
    space: Space,
    kind: &'static str,
}

/// The cause of E6 for the name at an offset, if it is declared a second time there. Variables of
/// loops are not looked at.
///
/// # Errors
///
/// No memory for the names or the words.
pub fn repeat_at(alloc: Global, read: &ReadText, offset: u32) -> Result<Option<Cause>, AllocError> {
    let names = names_around(alloc, read, offset)?;
    match first_of(&names, offset) {
        Some(first) => Ok(Some(cause_of_repeat(alloc, read, first)?)),
        None => Ok(None),
    }
}

/// The first declaration of the name at an offset, if it is an earlier one.
fn first_of(names: &[Located], offset: u32) -> Option<&Located> {
    let second = located_at(names, offset)?;
    let mut first = second;
    for located in names {
        if is_same(located, second) && located.name.offset < first.name.offset {
            first = located;
        }
    }
    if first.name.offset < offset {
        Some(first)
    } else {
        None
    }
}

fn located_at(names: &[Located], offset: u32) -> Option<&Located> {
    for located in names {
        if located.name.offset == offset {
            return Some(located);
        }
    }
    None
}

fn is_same(one: &Located, other: &Located) -> bool {
    one.space == other.space && one.name.number == other.name.number
}

/// The cause of E6 for a name with this first declaration.
fn cause_of_repeat(alloc: Global, read: &ReadText, first: &Located) -> Result<Cause, AllocError> {
    let name = Quoted(read.name(first.name.number));
    let position = read.position(first.name.offset);
    let kind = first.kind;
    match first.space {
        Space::Rules(_) => cause(
            alloc,
            format_args!("the phase {name} has {kind} twice, first at {position}"),
            "Put the statements of both into one rule.\n",
        ),
        Space::Models | Space::Declarations | Space::Phases | Space::Ports | Space::Parts => cause(
            alloc,
            format_args!("{name} is declared twice, first as {kind} at {position}"),
            "",
        ),
    }
}

/// The names of the models, and those that the model at an offset declares.
fn names_around(alloc: Global, read: &ReadText, offset: u32) -> Result<Vec<Located>, AllocError> {
    let mut names = Vec::new(alloc);
    for model in &read.file.models {
        names.push(Located {
            name: name_of(model),
            space: Space::Models,
            kind: "a model",
        })?;
    }
    match model_around(&read.file, offset) {
        Some(Model::Atomic(atomic)) => push_atomic(&mut names, atomic)?,
        Some(Model::Coupled(coupled)) => push_coupled(&mut names, coupled)?,
        None => {}
    }
    Ok(names)
}

fn push_atomic(names: &mut Vec<Located>, model: &Atomic) -> Result<(), AllocError> {
    for declaration in &model.declarations {
        names.push(Located {
            name: name_of_declaration(declaration),
            space: Space::Declarations,
            kind: sort_of(declaration).words(),
        })?;
    }
    for item in &model.phases {
        push_all(names, &item.names, Space::Phases, "a phase")?;
    }
    for rule in &model.rules {
        names.push(Located {
            name: rule.phase,
            space: Space::Rules(rule.sort),
            kind: Rule(Some(rule.sort)).words(),
        })?;
    }
    Ok(())
}

fn push_coupled(names: &mut Vec<Located>, model: &Coupled) -> Result<(), AllocError> {
    push_all(names, &model.inputs, Space::Ports, "an input port")?;
    push_all(names, &model.outputs, Space::Ports, "an output port")?;
    for part in &model.parts {
        names.push(Located {
            name: part.name,
            space: Space::Parts,
            kind: "a part",
        })?;
    }
    Ok(())
}

fn push_all(
    located: &mut Vec<Located>,
    names: &[Name],
    space: Space,
    kind: &'static str,
) -> Result<(), AllocError> {
    for name in names {
        located.push(Located {
            name: *name,
            space,
            kind,
        })?;
    }
    Ok(())
}

/// The cause of E14 for a link of a model.
///
/// # Errors
///
/// No memory for the words.
pub fn repeated_link(
    alloc: Global,
    read: &ReadText,
    model: &Coupled,
    second: &Link,
) -> Result<Cause, AllocError> {
    for first in &model.links {
        if first.offset < second.offset
            && is_same_end(&first.from, &second.from)
            && is_same_end(&first.to, &second.to)
        {
            let written = link_text(read, second);
            let position = read.position(first.offset);
            let summary = format_args!("`{written}` is written twice, first at {position}");
            return cause(alloc, summary, "");
        }
    }
    empty_cause(alloc)
}

fn is_same_end(one: &End, other: &End) -> bool {
    one.port.number == other.port.number && number_of(one.part) == number_of(other.part)
}

fn number_of(name: Option<Name>) -> Option<u32> {
    Some(name?.number)
}
