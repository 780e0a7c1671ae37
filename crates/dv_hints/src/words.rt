//! The causes at an offset of an atomic model, in words.

use crate::around::Around;
use crate::causes::cause;
use crate::known::Known;
use crate::lists::WantedSentence;
use crate::near::cause_of_unknown;
use crate::reading::ReadText;
use crate::reason::{Misplaced, Reason};
use crate::sorts::{NameSort, Rule, name_of, sort_of};
use crate::taker::{Taker, TypeWords};
use crate::wanted::{Wanted, WantedWords};
use dv_bag::{Discipline, ValueType};
use dv_explain::{Cause, Quoted};
use dv_syntax::{Atomic, Name};
use std::alloc::{AllocError, Global};
use std::fmt;

/// The cause with the words for a reason.
///
/// # Errors
///
/// No memory for the words.
pub fn cause_of(
    alloc: Global,
    read: &ReadText,
    model: &Atomic,
    known: &Known,
    reason: &Reason,
) -> Result<Cause, AllocError> {
    match reason {
        Reason::Name {
            name,
            sort,
            wanted,
            around,
        } => match sort {
            None => unknown(alloc, read, model, known, *name, *wanted, around),
            Some(sort) => other_sort(alloc, read, model, *name, *sort, *wanted, around),
        },
        Reason::Type { found, taker } => other_type(alloc, read, *found, *taker),
        Reason::Misplaced { what, around } => misplaced(alloc, read, *what, around),
        Reason::LoopVariable { variable, other } => {
            loop_variable(alloc, read, known, *variable, *other)
        }
    }
}

/// The cause of E7.
fn unknown(
    alloc: Global,
    read: &ReadText,
    model: &Atomic,
    known: &Known,
    name: Name,
    wanted: Wanted,
    around: &Around,
) -> Result<Cause, AllocError> {
    let text = read.name(name.number);
    let names = names_in_reach(alloc, read, model, wanted, around)?;
    let elsewhere = Elsewhere {
        name: text,
        sort: sort_elsewhere(known, name, wanted, around),
    };
    let meant = foreign_name(text, wanted, around);
    let sentence = wanted_here(read, wanted, around, &names);
    cause_of_unknown(
        alloc,
        text,
        &names,
        format_args!("{elsewhere}{meant}{sentence}"),
    )
}

/// The kind of a name that is unknown in its place, but known elsewhere in its model.
fn sort_elsewhere(known: &Known, name: Name, wanted: Wanted, around: &Around) -> Option<NameSort> {
    if wanted == Wanted::Phase {
        known.sort(around, name.number)
    } else if known.has_phase(name.number) {
        Some(NameSort::Phase)
    } else {
        None
    }
}

/// A sentence with a line feed on the kind of a name elsewhere, or nothing.
#[derive(Clone, Copy)]
struct Elsewhere<'a> {
    name: &'a str,
    sort: Option<NameSort>,
}

impl fmt::Display for Elsewhere<'_> {
    fn fmt<W: fmt::Write>(&self, f: &mut fmt::Formatter<W>) -> fmt::Result {
        match self.sort {
            Some(sort) => write!(f, "{} is {sort}.\n", Quoted(self.name)),
            None => Ok(()),
        }
    }
}

/// A sentence with a line feed on a name that has a meaning in other languages, or an empty text.
fn foreign_name(text: &str, wanted: Wanted, around: &Around) -> &'static str {
    match wanted {
        Wanted::Value => foreign_value(text, around),
        Wanted::Assigned => foreign_target(text),
        _ => "",
    }
}

/// A sentence on a name that is assigned in other languages.
fn foreign_target(text: &str) -> &'static str {
    match text {
        "phase" | "state" | "next" => "The next phase is chosen by `goto z;`.\n",
        "sigma" | "ta" => "How long a phase lasts is declared by `hold z: 5;`.\n",
        _ => "",
    }
}

/// A sentence on a name that is a value in other languages.
fn foreign_value(text: &str, around: &Around) -> &'static str {
    match text {
        "phase" | "state" => {
            "A rule belongs to one phase: what differs by phase is written in rules of their own.\n"
        }
        "inf" | "INF" | "Inf" | "infinity" | "INFINITY" | "Infinity" | "never"
            if around.rule.is_none() => {
            "A hold without an end is `forever`, by itself: `hold z: forever;`.\n"
        }
        "True" | "TRUE" | "yes" => "The truth values are `true` and `false`.\n",
        "False" | "FALSE" | "no" => "The truth values are `true` and `false`.\n",
        "e" | "time" | "now" | "t" | "clock" => {
            "A rule can't read the time: `elapsed`, in external rules, is the number of ticks since the last transition.\n"
        }
        "sigma" => "The rest of a hold can't be read: keep it in a variable, and hold for that.\n",
        "null" | "none" | "None" | "nil" | "NULL" =>
            "Each variable always has a number, from its start value on.\n",
        _ => "",
    }
}

/// The cause of E8 for a name.
fn other_sort(
    alloc: Global,
    read: &ReadText,
    model: &Atomic,
    name: Name,
    sort: NameSort,
    wanted: Wanted,
    around: &Around,
) -> Result<Cause, AllocError> {
    let text = read.name(name.number);
    let names = names_in_reach(alloc, read, model, wanted, around)?;
    let meant = meant_by(sort, wanted).replace(alloc, "NAME", text)?;
    let sentence = wanted_here(read, wanted, around, &names);
    cause(
        alloc,
        format_args!("{} is {sort}, and not {}", Quoted(text), sentence.wanted),
        format_args!("{meant}{sentence}"),
    )
}

/// A sentence with a line feed on how to use a name of this kind, written as NAME, or an empty
/// text.
fn meant_by(sort: NameSort, wanted: Wanted) -> &'static str {
    match (sort, wanted) {
        (NameSort::Input, Wanted::Value) => {
            "Its values are read by `size(NAME)`, `sum(NAME)`, `least(NAME)`, `most(NAME)` or `times(1, NAME)`.\n"
        }
        (NameSort::Held(Discipline::Bag), Wanted::Value) => {
            "It is read by `size(NAME)`, `sum(NAME)`, `least(NAME)`, `most(NAME)` or `times(1, NAME)`.\n"
        }
        (NameSort::Held(Discipline::Queue), Wanted::Value) => {
            "It is read by `size(NAME)` or `front(NAME)`.\n"
        }
        (NameSort::Output, Wanted::Value | Wanted::Assigned) => {
            "Send a value with `send NAME 1;` in an output rule.\n"
        }
        (NameSort::Input, Wanted::Assigned) => {
            "It can't be assigned: its values arrive by links.\n"
        }
        (NameSort::Held(Discipline::Bag), Wanted::Assigned | Wanted::Changed(_)) => {
            "It is changed by `add 1 to NAME;` and `drop 1 from NAME;`.\n"
        }
        (NameSort::Held(Discipline::Queue), Wanted::Assigned | Wanted::Changed(_)) => {
            "It is changed by `push 1 to NAME;` and `pop NAME;`.\n"
        }
        (NameSort::Variable, Wanted::Changed(_)) => {
            "A variable is changed by `NAME := NAME + 1;`.\n"
        }
        _ => "",
    }
}

/// The sentence on what a place takes, with the names that fit.
fn wanted_here<'a>(
    read: &ReadText,
    wanted: Wanted,
    around: &Around,
    names: &'a [&'a str],
) -> WantedSentence<'a, WantedWords> {
    WantedSentence {
        wanted: WantedWords {
            wanted,
            sees_inputs: around.sees_inputs(),
            knows_queues: read.knows_queues,
        },
        owner: "the model",
        names,
    }
}

/// The names that a place takes, in the order of their declarations; the variables of loops come
/// last.
fn names_in_reach<'a>(
    alloc: Global,
    read: &'a ReadText,
    model: &Atomic,
    wanted: Wanted,
    around: &Around,
) -> Result<Vec<&'a str>, AllocError> {
    if wanted == Wanted::Phase {
        return phases_of(alloc, read, model);
    }
    let mut names = Vec::new(alloc);
    for declaration in &model.declarations {
        if wanted.suits_at(sort_of(declaration), around) {
            names.push(read.name(name_of(declaration).number))?;
        }
    }
    if wanted == Wanted::Value {
        push_loop_variables(&mut names, read, around)?;
    }
    Ok(names)
}

fn push_loop_variables<'a>(
    names: &mut Vec<&'a str>,
    read: &'a ReadText,
    around: &Around,
) -> Result<(), AllocError> {
    for variable in around.loops.iter() {
        if let Some(variable) = variable {
            names.push(read.name(variable.number))?;
        }
    }
    Ok(())
}

fn phases_of<'a>(
    alloc: Global,
    read: &'a ReadText,
    model: &Atomic,
) -> Result<Vec<&'a str>, AllocError> {
    let mut names = Vec::new(alloc);
    for item in &model.phases {
        for phase in &item.names {
            names.push(read.name(phase.number))?;
        }
    }
    Ok(names)
}

/// The cause of E8 for an expression.
fn other_type(
    alloc: Global,
    read: &ReadText,
    found: ValueType,
    taker: Taker,
) -> Result<Cause, AllocError> {
    let wanted = TypeWords(taker.takes());
    let found = TypeWords(found);
    let rule = taker.words();
    match taker {
        Taker::Variable(name) | Taker::Flag(name) => {
            let name = Quoted(read.name(name.number));
            cause(
                alloc,
                format_args!("found {found}, and {name} takes {wanted}"),
                rule,
            )
        }
        Taker::Equality(_) => {
            cause(
                alloc,
                format_args!("found {found}, but the left operand is {wanted}"),
                rule,
            )
        }
        Taker::Prefix(_)
        | Taker::Join
        | Taker::Order
        | Taker::Arithmetic
        | Taker::Condition
        | Taker::Hold
        | Taker::Send
        | Taker::Change(_)
        | Taker::Times => cause(alloc, format_args!("found {found}, wanted {wanted}"), rule),
    }
}

/// The cause of E9.
fn misplaced(
    alloc: Global,
    read: &ReadText,
    what: Misplaced,
    around: &Around,
) -> Result<Cause, AllocError> {
    let rule = Rule(around.rule);
    let phase = read.name(around.phase.number);
    match what {
        Misplaced::Change(word) => cause(
            alloc,
            format_args!("`{word}` in {rule}"),
            format_args!(
                "An output rule only sends. Changes belong in other rules, such as \
                 `internal {phase}`, which runs after it at the same time.\n"
            ),
        ),
        Misplaced::Send(port) => cause(
            alloc,
            format_args!("`send` in {rule}"),
            format_args!(
                "Sends belong in output rules: `output {phase} {{ send {} 1; }}` runs when the \
                 hold of {} ends. To send at once, go to a phase whose hold is 0.\n",
                read.name(port.number),
                Quoted(phase)
            ),
        ),
        Misplaced::LoopVariable(name) => cause(
            alloc,
            format_args!(
                "{} is the variable of a loop",
                Quoted(read.name(name.number))
            ),
            "It can't be assigned: declare a variable for a value that has to be kept.\n",
        ),
        Misplaced::Elapsed => cause(
            alloc,
            format_args!("`elapsed` in {rule}"),
            "It can be read only in external rules: keep it there in a variable.\n",
        ),
        Misplaced::Input(port) => cause(
            alloc,
            format_args!(
                "the input port {} in {rule}",
                Quoted(read.name(port.number))
            ),
            "An input port can be read only in external and confluent rules: keep its values there in a variable or a bag.\n",
        ),
    }
}

/// The cause of E6 for the variable of a loop.
fn loop_variable(
    alloc: Global,
    read: &ReadText,
    known: &Known,
    variable: Name,
    other: u32,
) -> Result<Cause, AllocError> {
    let name = Quoted(read.name(variable.number));
    let first = other.min(variable.offset);
    let sort = match known.declared(variable.number) {
        Some(declared) if declared.offset == first => declared.sort,
        _ => NameSort::LoopVariable,
    };
    cause(
        alloc,
        format_args!(
            "{name} is declared twice, first as {sort} at {}",
            read.position(first)
        ),
        "The variable of a loop needs a name of its own; loops that are not nested may share one.\n",
    )
}
