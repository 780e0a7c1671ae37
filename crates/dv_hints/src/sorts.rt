//! The kinds of names and rules, in words.

use dv_bag::Discipline;
use dv_syntax::{Declaration, Name, RuleSort};
use std::fmt;

/// The kind of a name of an atomic model.
#[derive(Clone, Copy, PartialEq, Eq)]
pub enum NameSort {
    /// An input port.
    Input,
    /// An output port.
    Output,
    /// A variable of the state, which has a number.
    Variable,
    /// A flag of the state.
    Flag,
    /// A bag or a queue of the state.
    Held(Discipline),
    /// The variable of a loop.
    LoopVariable,
    /// A phase.
    Phase,
}

/// The kind of name that a declaration declares.
pub fn sort_of(declaration: &Declaration) -> NameSort {
    match declaration {
        Declaration::In(_) => NameSort::Input,
        Declaration::Out(_) => NameSort::Output,
        Declaration::Var(_) => NameSort::Variable,
        Declaration::Flag(_) => NameSort::Flag,
        Declaration::Held(collection) => NameSort::Held(collection.discipline),
    }
}

/// The name that a declaration declares.
pub fn name_of(declaration: &Declaration) -> Name {
    match declaration {
        Declaration::In(port) | Declaration::Out(port) => *port,
        Declaration::Var(variable) => variable.name,
        Declaration::Flag(flag) => flag.name,
        Declaration::Held(collection) => collection.name,
    }
}

impl NameSort {
    /// The direction of the port; `None` if the name is not that of a port.
    pub fn direction(self) -> Option<Direction> {
        match self {
            NameSort::Input => Some(Direction::Input),
            NameSort::Output => Some(Direction::Output),
            NameSort::Variable
            | NameSort::Flag
            | NameSort::Held(_)
            | NameSort::LoopVariable
            | NameSort::Phase => None,
        }
    }

    /// The kind in words, with its article.
    pub fn words(self) -> &'static str {
        match self {
            NameSort::Input => "an input port",
            NameSort::Output => "an output port",
            NameSort::Variable => "a variable",
            NameSort::Flag => "a flag",
            NameSort::Held(Discipline::Bag) => "a bag",
            NameSort::Held(Discipline::Queue) => "a queue",
            NameSort::LoopVariable => "the variable of a loop",
            NameSort::Phase => "a phase",
        }
    }
}

/// The direction of a port, as its model sees it.
#[derive(Clone, Copy, PartialEq, Eq)]
pub enum Direction {
    /// An input port.
    Input,
    /// An output port.
    Output,
}

impl Direction {
    /// The other direction.
    pub fn opposite(self) -> Self {
        match self {
            Direction::Input => Direction::Output,
            Direction::Output => Direction::Input,
        }
    }
}

impl fmt::Display for Direction {
    fn fmt<W: fmt::Write>(&self, f: &mut fmt::Formatter<W>) -> fmt::Result {
        f.write_str(match self {
            Direction::Input => NameSort::Input.words(),
            Direction::Output => NameSort::Output.words(),
        })
    }
}

impl fmt::Display for NameSort {
    fn fmt<W: fmt::Write>(&self, f: &mut fmt::Formatter<W>) -> fmt::Result {
        f.write_str(self.words())
    }
}

/// A rule of a kind, or else a hold.
#[derive(Clone, Copy)]
pub struct Rule(pub Option<RuleSort>);

impl Rule {
    /// The rule or the hold in words, with its article.
    pub fn words(self) -> &'static str {
        match self.0 {
            Some(RuleSort::Output) => "an output rule",
            Some(RuleSort::Internal) => "an internal rule",
            Some(RuleSort::External) => "an external rule",
            Some(RuleSort::Confluent) => "a confluent rule",
            None => "a hold",
        }
    }
}

impl fmt::Display for Rule {
    fn fmt<W: fmt::Write>(&self, f: &mut fmt::Formatter<W>) -> fmt::Result {
        f.write_str(self.words())
    }
}
