//! Ends of links.

use crate::causes::{cause, empty_cause};
use crate::lists::{Choice, WantedSentence};
use crate::models::{
    model_around, model_named, name_of as name_of_model, part_named, part_of_model_at,
    port_direction,
};
use crate::near::cause_of_unknown;
use crate::reading::ReadText;
use crate::sorts::{Direction, name_of, sort_of};
use dv_explain::{Cause, Quoted};
use dv_syntax::{Atomic, Coupled, End, Link, Model, Name};
use std::alloc::{AllocError, Global};
use std::fmt;

/// Which end of a link.
#[derive(Clone, Copy)]
enum Side {
    From,
    To,
}

/// An end of a link, and which one it is.
#[derive(Clone, Copy)]
struct LocatedEnd {
    side: Side,
    end: End,
    link: Link,
}

impl Side {
    fn other(self) -> Self {
        match self {
            Side::From => Side::To,
            Side::To => Side::From,
        }
    }

    /// The verb for what a link does at this end.
    fn verb(self) -> &'static str {
        match self {
            Side::From => "begin",
            Side::To => "end",
        }
    }

    /// A sentence with a line feed on the ports that this end may have.
    fn rule(self) -> &'static str {
        match self {
            Side::From => {
                "A link begins at an output port of a part or at an input port of `self`.\n"
            }
            Side::To => {
                "A link ends at an input port of a part or at an output port of `self`.\n"
            }
        }
    }
}

impl LocatedEnd {
    fn of(link: &Link, side: Side) -> Self {
        LocatedEnd {
            side,
            end: match side {
                Side::From => link.from,
                Side::To => link.to,
            },
            link: *link,
        }
    }

    /// The direction that the port of the end has to have.
    fn wanted(&self) -> Direction {
        match (self.side, self.end.part) {
            (Side::From, Some(_)) | (Side::To, None) => Direction::Output,
            (Side::From, None) | (Side::To, Some(_)) => Direction::Input,
        }
    }

    /// The other end of the link.
    fn other(&self) -> Self {
        LocatedEnd::of(&self.link, self.side.other())
    }
}

/// The end of a link whose part or port is at an offset.
fn end_at(model: &Coupled, offset: u32) -> Option<LocatedEnd> {
    for link in &model.links {
        if is_at(&link.from, offset) {
            return Some(LocatedEnd::of(link, Side::From));
        }
        if is_at(&link.to, offset) {
            return Some(LocatedEnd::of(link, Side::To));
        }
    }
    None
}

fn is_at(end: &End, offset: u32) -> bool {
    match end.part {
        Some(part) => part.offset == offset || end.port.offset == offset,
        None => end.port.offset == offset,
    }
}

/// The cause of E7 at an offset in a coupled model: the model of a part, or the part or the port of
/// an end of a link.
///
/// # Errors
///
/// No memory for the words.
pub fn unknown_in(
    alloc: Global,
    read: &ReadText,
    model: &Coupled,
    offset: u32,
) -> Result<Cause, AllocError> {
    if let Some(part) = part_of_model_at(model, offset) {
        return unknown_model(alloc, read, part.model);
    }
    let Some(located) = end_at(model, offset) else {
        return empty_cause(alloc);
    };
    match located.end.part {
        Some(part) if part.offset == offset => {
            unknown_part(alloc, read, model, part, located.end.port)
        }
        _ => unknown_port(alloc, read, model, &located),
    }
}

/// The cause of E7 for a name, in a place that takes `wanted`, of which the text has `names`.
///
/// # Errors
///
/// No memory for the words.
pub fn unknown(
    alloc: Global,
    read: &ReadText,
    name: Name,
    wanted: &str,
    names: &[&str],
) -> Result<Cause, AllocError> {
    let owner = "the text";
    let sentence = WantedSentence {
        wanted,
        owner,
        names,
    };
    cause_of_unknown(alloc, read.name(name.number), names, sentence)
}

/// The cause of E7 for the model of a part.
fn unknown_model(alloc: Global, read: &ReadText, name: Name) -> Result<Cause, AllocError> {
    let mut names = Vec::new(alloc);
    for model in &read.file.models {
        names.push(read.name(name_of_model(model).number))?;
    }
    unknown(alloc, read, name, "a model", &names)
}

/// The cause of E7 for a part at an end of a link, whose port is also given.
fn unknown_part(
    alloc: Global,
    read: &ReadText,
    model: &Coupled,
    part: Name,
    port: Name,
) -> Result<Cause, AllocError> {
    let mut names = Vec::new(alloc);
    for other in &model.parts {
        names.push(read.name(other.name.number))?;
    }
    let sentence = WantedSentence {
        wanted: "a part or `self`",
        owner: "the model",
        names: &names,
    };
    let text = read.name(part.number);
    let port = read.name(port.number);
    if part.number == model.name.number {
        let own = format_args!("{sentence}A port of the model itself is written `self.{port}`.\n");
        cause_of_unknown(alloc, text, &names, own)
    } else if model_named(&read.file, part.number).is_some() {
        let quoted = Quoted(text);
        let other = format_args!("{sentence}{quoted} is a model: a link names a part of it.\n");
        cause_of_unknown(alloc, text, &names, other)
    } else {
        cause_of_unknown(alloc, text, &names, sentence)
    }
}

/// The cause of E7 for the port at an end of a link.
fn unknown_port(
    alloc: Global,
    read: &ReadText,
    model: &Coupled,
    located: &LocatedEnd,
) -> Result<Cause, AllocError> {
    let ports = ports_of(alloc, read, model, located)?;
    let sentence = ports_sentence(read, model, located, &ports);
    cause_of_unknown(alloc, read.name(located.end.port.number), &ports, sentence)
}

/// A sentence with a line feed on the ports that an end may have.
#[derive(Clone, Copy)]
struct PortsSentence<'a> {
    wanted: Direction,
    owner: Owner<'a>,
    ports: &'a [&'a str],
}

fn ports_sentence<'a>(
    read: &'a ReadText,
    model: &Coupled,
    located: &LocatedEnd,
    ports: &'a [&'a str],
) -> PortsSentence<'a> {
    PortsSentence {
        wanted: located.wanted(),
        owner: match face(read, model, located) {
            Some(model) => Owner(Some(read.name(name_of_model(model).number))),
            None => Owner(None),
        },
        ports,
    }
}

impl fmt::Display for PortsSentence<'_> {
    fn fmt<W: fmt::Write>(&self, f: &mut fmt::Formatter<W>) -> fmt::Result {
        let PortsSentence {
            wanted,
            owner,
            ports,
        } = self;
        if ports.is_empty() {
            write!(f, "This has to be {wanted}, but {owner} has none.\n")
        } else {
            write!(
                f,
                "This has to be {wanted} of {owner}: {}.\n",
                Choice(ports)
            )
        }
    }
}

/// The name of the model that has the port of an end, if it is known.
#[derive(Clone, Copy)]
struct Owner<'a>(Option<&'a str>);

impl fmt::Display for Owner<'_> {
    fn fmt<W: fmt::Write>(&self, f: &mut fmt::Formatter<W>) -> fmt::Result {
        match self.0 {
            Some(name) => write!(f, "{}", Quoted(name)),
            None => f.write_str("it"),
        }
    }
}

/// The model whose port an end names.
fn face<'a>(read: &'a ReadText, model: &Coupled, located: &LocatedEnd) -> Option<&'a Model> {
    match located.end.part {
        None => model_around(&read.file, model.name.offset),
        Some(name) => model_named(&read.file, part_named(model, name.number)?.model.number),
    }
}

/// The ports that an end may have instead of its own.
fn ports_of<'a>(
    alloc: Global,
    read: &'a ReadText,
    model: &Coupled,
    located: &LocatedEnd,
) -> Result<Vec<&'a str>, AllocError> {
    let wanted = located.wanted();
    match face(read, model, located) {
        Some(Model::Atomic(atomic)) => ports_of_atomic(alloc, read, atomic, wanted),
        Some(Model::Coupled(coupled)) => match wanted {
            Direction::Input => texts_of(alloc, read, &coupled.inputs),
            Direction::Output => texts_of(alloc, read, &coupled.outputs),
        },
        None => Ok(Vec::new(alloc)),
    }
}

/// The ports of an atomic model with a direction.
fn ports_of_atomic<'a>(
    alloc: Global,
    read: &'a ReadText,
    model: &Atomic,
    wanted: Direction,
) -> Result<Vec<&'a str>, AllocError> {
    let mut ports = Vec::new(alloc);
    for declaration in &model.declarations {
        if sort_of(declaration).direction() == Some(wanted) {
            ports.push(read.name(name_of(declaration).number))?;
        }
    }
    Ok(ports)
}

/// The texts of names.
fn texts_of<'a>(
    alloc: Global,
    read: &'a ReadText,
    names: &[Name],
) -> Result<Vec<&'a str>, AllocError> {
    let mut texts = Vec::new(alloc);
    for name in names {
        texts.push(read.name(name.number))?;
    }
    Ok(texts)
}

/// The cause of E12 for the port at an offset, with what to write instead: the link in the other
/// direction if that is allowed, or else another port.
///
/// # Errors
///
/// No memory for the words.
pub fn wrong_way_in(
    alloc: Global,
    read: &ReadText,
    model: &Coupled,
    offset: u32,
) -> Result<Cause, AllocError> {
    let Some(located) = end_at(model, offset) else {
        return empty_cause(alloc);
    };
    if is_turned(read, model, &located.other()) {
        let turned = ends_text(read, &located.link.to, &located.link.from);
        let instead = format_args!("The other direction is allowed: `{turned}`.\n");
        wrong_way(alloc, read, &located, instead)
    } else {
        let ports = ports_of(alloc, read, model, &located)?;
        let instead = ports_sentence(read, model, &located, &ports);
        wrong_way(alloc, read, &located, instead)
    }
}

/// The cause of E12 at an end of a link, with a sentence on what to write instead.
fn wrong_way<D: fmt::Display + Drop>(
    alloc: Global,
    read: &ReadText,
    located: &LocatedEnd,
    instead: D,
) -> Result<Cause, AllocError> {
    let found = located.wanted().opposite();
    let verb = located.side.verb();
    let part = part_name(read, &located.end);
    let port = read.name(located.end.port.number);
    cause(
        alloc,
        format_args!("a link can't {verb} at `{part}.{port}`, which is {found}"),
        format_args!("{}{instead}", located.side.rule()),
    )
}

/// Whether the port of an end has the wrong direction.
fn is_turned(read: &ReadText, model: &Coupled, located: &LocatedEnd) -> bool {
    let Some(face) = face(read, model, located) else {
        return false;
    };
    match port_direction(face, located.end.port.number) {
        Some(direction) => direction != located.wanted(),
        None => false,
    }
}

/// The name of the part of an end, or `self`.
fn part_name<'a>(read: &'a ReadText, end: &End) -> &'a str {
    match end.part {
        Some(part) => read.name(part.number),
        None => "self",
    }
}

/// A link, displayed as in a text: the names of the parts and the ports of its ends.
#[derive(Clone, Copy)]
pub struct LinkText<'a> {
    from: (&'a str, &'a str),
    to: (&'a str, &'a str),
}

impl fmt::Display for LinkText<'_> {
    fn fmt<W: fmt::Write>(&self, f: &mut fmt::Formatter<W>) -> fmt::Result {
        let (from, out) = self.from;
        let (to, input) = self.to;
        write!(f, "link {from}.{out} -> {to}.{input};")
    }
}

/// A link, to be displayed as in a text.
pub fn link_text<'a>(read: &'a ReadText, link: &Link) -> LinkText<'a> {
    ends_text(read, &link.from, &link.to)
}

fn ends_text<'a>(read: &'a ReadText, from: &End, to: &End) -> LinkText<'a> {
    LinkText {
        from: (part_name(read, from), read.name(from.port.number)),
        to: (part_name(read, to), read.name(to.port.number)),
    }
}

/// The cause of E13 for a link: from a part to itself, or from an input port of its model to an
/// output port of it.
///
/// # Errors
///
/// No memory for the words.
pub fn leads_back(alloc: Global, read: &ReadText, link: &Link) -> Result<Cause, AllocError> {
    let LinkText {
        from: (from, out),
        to: (to, back),
    } = link_text(read, link);
    let between = format_args!(
        "`link {from}.{out} -> PART.IN;` and `link PART.OUT -> {to}.{back};`"
    );
    match link.from.part {
        Some(_) => cause(
            alloc,
            format_args!("the part {} is coupled to itself", Quoted(from)),
            format_args!(
                "Keep what the part has to remember in its variables, or put a part between: {between}.\n"
            ),
        ),
        None => cause(
            alloc,
            format_args!(
                "the input port {} of the model is coupled to its output port {}",
                Quoted(out),
                Quoted(back)
            ),
            format_args!("Put a part between: {between}.\n"),
        ),
    }
}
