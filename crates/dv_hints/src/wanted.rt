//! The kinds of names that a place takes.

use crate::around::Around;
use crate::sorts::NameSort;
use dv_bag::Discipline;
use dv_syntax::BagCall;
use std::fmt;

/// What a place in an atomic model takes.
#[derive(Clone, Copy, PartialEq, Eq)]
pub enum Wanted {
    /// A phase.
    Phase,
    /// A variable, a flag or the variable of a loop, to be read.
    Value,
    /// A variable or a flag, to be assigned.
    Assigned,
    /// An output port.
    Sender,
    /// A collection or an input port, to be read.
    Values,
    /// A bag or an input port, to be read.
    Bag,
    /// A queue, to be read.
    Queue,
    /// A collection of a discipline, to be changed.
    Changed(Discipline),
}

impl Wanted {
    /// What a call reads.
    pub fn by(call: BagCall) -> Self {
        match call {
            BagCall::Size => Wanted::Values,
            BagCall::Sum | BagCall::Least | BagCall::Most => Wanted::Bag,
            BagCall::Front => Wanted::Queue,
        }
    }

    /// Whether a place that takes this accepts a name of a kind. Input ports are accepted in any
    /// rule.
    pub fn suits(self, sort: NameSort) -> bool {
        match self {
            Wanted::Phase => sort == NameSort::Phase,
            Wanted::Value => matches!(
                sort,
                NameSort::Variable | NameSort::Flag | NameSort::LoopVariable
            ),
            Wanted::Assigned => matches!(sort, NameSort::Variable | NameSort::Flag),
            Wanted::Sender => sort == NameSort::Output,
            Wanted::Values => matches!(sort, NameSort::Held(_) | NameSort::Input),
            Wanted::Bag => matches!(sort, NameSort::Held(Discipline::Bag) | NameSort::Input),
            Wanted::Queue => sort == NameSort::Held(Discipline::Queue),
            Wanted::Changed(discipline) => sort == NameSort::Held(discipline),
        }
    }

    /// As `suits`, but input ports are accepted only where they can be read.
    pub fn suits_at(self, sort: NameSort, around: &Around) -> bool {
        self.suits(sort) && (sort != NameSort::Input || around.sees_inputs())
    }
}

/// What a place takes, displayed in words. Input ports and queues are mentioned only if they can be
/// used there.
#[derive(Clone, Copy)]
pub struct WantedWords {
    /// What the place takes.
    pub wanted: Wanted,
    /// Whether input ports can be read there.
    pub sees_inputs: bool,
    /// Whether the words of queues are reserved in the text.
    pub knows_queues: bool,
}

impl fmt::Display for WantedWords {
    fn fmt<W: fmt::Write>(&self, f: &mut fmt::Formatter<W>) -> fmt::Result {
        f.write_str(match self.wanted {
            Wanted::Phase => "a phase",
            Wanted::Value | Wanted::Assigned => "a variable or a flag",
            Wanted::Sender => "an output port",
            Wanted::Values => match (self.sees_inputs, self.knows_queues) {
                (true, true) => "a bag, a queue or an input port",
                (true, false) => "a bag or an input port",
                (false, true) => "a bag or a queue",
                (false, false) => "a bag",
            },
            Wanted::Bag if self.sees_inputs => "a bag or an input port",
            Wanted::Bag | Wanted::Changed(Discipline::Bag) => "a bag",
            Wanted::Queue | Wanted::Changed(Discipline::Queue) => "a queue",
        })
    }
}
