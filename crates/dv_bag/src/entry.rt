//! The entries of a trace.

ghost use Rattle.std.specs.Prelude.{◌≡◌};
ghost use Rattle.dv_bag.specs.Words.{kind_word};

use crate::bag::Bag;
use crate::fault::Fault;
use crate::sent::Sent;
use crate::state::State;
use dv_time::Time;
use std::alloc::AllocError;
use std::fmt;
use std::str::FromStr;

/// Which transition took place.
#[derive(Clone, Copy, PartialEq, Eq)]
pub enum Kind {
    /// The hold ended, and nothing arrived.
    Internal,
    /// Something arrived before the hold ended.
    External,
    /// The hold ended, and something arrived at the same time.
    Confluent,
}

/// All kinds.
const KINDS: [Kind; 3] = [Kind::Internal, Kind::External, Kind::Confluent];

impl Kind {
    /// The word for it in a trace.
    pub fn word(self) -> &'static str
        ensures { result.now ≡ kind_word self }
    {
        match self {
            Kind::Internal => "i",
            Kind::External => "e",
            Kind::Confluent => "c",
        }
    }
}

impl fmt::Display for Kind {
    ghost use Rattle.std.specs.Prelude.{Some};

    ghost output = { λ k. Some (kind_word k) };

    fn fmt<W: fmt::Write>(&self, f: &mut fmt::Formatter<W>) -> fmt::Result {
        f.write_str(self.word())
    }
}

/// A word that is no kind of transition.
#[derive(Clone, Copy, PartialEq, Eq)]
pub struct NoKind;

impl FromStr for Kind {
    type Err = NoKind;

    ghost use Rattle.dv_bag.specs.Words.{ReadsKind};

    ghost from_str_gives = { ReadsKind };

    fn from_str(word: &str) -> Result<Kind, NoKind> {
        for kind in KINDS {
            if kind.word() == word {
                return Ok(kind);
            }
        }
        Err(NoKind)
    }
}

/// What happened to a component: a transition with the state after it, or a fault.
#[derive(Drop, PartialEq, Eq)]
pub enum What {
    /// A transition of this kind, with the state after it.
    Transition { kind: Kind, state: State },
    /// A fault, after which the component is quiet.
    Fault(Fault),
}

impl Clone for What {
    ghost is_clone = { λ w x. x ≡ w };

    fn clone(&self) -> Result<Self, AllocError> {
        match self {
            What::Transition { kind, state } => Ok(What::Transition {
                kind: *kind,
                state: state.clone()?,
            }),
            What::Fault(fault) => Ok(What::Fault(*fault)),
        }
    }
}

/// What happened to one component at one instant, and what it sent then, by output port.
#[derive(Drop, PartialEq, Eq)]
pub struct Entry {
    /// The time of the instant.
    pub time: Time,
    /// The number of the component.
    pub component: u32,
    /// What happened to it.
    pub what: What,
    /// What it sent at this instant.
    pub sent: Sent,
}

impl Clone for Entry {
    ghost is_clone = { λ e f. f ≡ e };

    fn clone(&self) -> Result<Self, AllocError> {
        Ok(Entry {
            time: self.time,
            component: self.component,
            what: self.what.clone()?,
            sent: self.sent.clone()?,
        })
    }
}

/// What left the model at one instant at one of its output ports.
#[derive(Drop, PartialEq, Eq)]
pub struct Outer {
    /// The time of the instant.
    pub time: Time,
    /// The index of the output port of the root.
    pub port: u32,
    /// The values that left at the port.
    pub values: Bag,
}

impl Clone for Outer {
    ghost is_clone = { λ o p. p ≡ o };

    fn clone(&self) -> Result<Self, AllocError> {
        Ok(Outer {
            time: self.time,
            port: self.port,
            values: self.values.clone()?,
        })
    }
}
