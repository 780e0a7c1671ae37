//! The form of each port.

use crate::forms::Form;
use std::alloc::{AllocError, Global};

/// What has passed by a port so far.
#[derive(Clone, Copy)]
pub(crate) enum Passed {
    /// No value.
    Nothing,
    /// At most one value in each tick, all of them 0 or 1, and the last one in this tick.
    Bits(u64),
    /// At most one value in each tick, and the last one in this tick.
    Numbers(u64),
    /// More than one value in some tick.
    Crowded,
}

/// What passes by a port at one time.
#[derive(Clone, Copy)]
pub(crate) enum Passing {
    /// 0 or 1.
    Bit,
    /// Another number.
    Number,
    /// Several numbers.
    Several,
}

impl Passing {
    /// One number.
    pub(crate) fn of(number: i64) -> Passing {
        match number {
            0 | 1 => Passing::Bit,
            _ => Passing::Number,
        }
    }
}

impl Passed {
    // What has passed after something passes in this tick.
    fn and(self, tick: u64, passing: Passing) -> Passed {
        match (self, passing) {
            (Passed::Crowded, _) | (_, Passing::Several) => Passed::Crowded,
            (Passed::Bits(last) | Passed::Numbers(last), Passing::Bit | Passing::Number)
                if last == tick => { Passed::Crowded }
            (Passed::Nothing | Passed::Bits(_), Passing::Bit) => Passed::Bits(tick),
            (Passed::Nothing | Passed::Bits(_), Passing::Number)
            | (Passed::Numbers(_), Passing::Bit | Passing::Number) => Passed::Numbers(tick),
        }
    }

    fn form(self) -> Form {
        match self {
            Passed::Bits(_) => Form::Wire,
            Passed::Nothing | Passed::Numbers(_) => Form::Integer,
            Passed::Crowded => Form::Text,
        }
    }
}

/// The form of each port.
#[derive(Drop)]
pub(crate) enum Ports {
    /// Each port is a string, with the values of one tick.
    Marked,
    /// Each port holds its last values: as a bit or a number if there is never more than one in a
    /// tick. What passed by a port is at the index of its code.
    Held(Vec<Passed>),
}

impl Ports {
    /// Ports with codes below `behind`, by which nothing has passed yet.
    pub(crate) fn new(alloc: Global, are_held: bool, behind: u64) -> Result<Self, AllocError> {
        if are_held {
            let passed = vec![in alloc; Passed::Nothing; behind as usize]?;
            Ok(Ports::Held(passed))
        } else {
            Ok(Ports::Marked)
        }
    }

    /// Notes what passes in a tick by the port with a code.
    pub(crate) fn pass(&mut self, tick: u64, code: u64, passing: Passing) {
        match self {
            Ports::Held(ports) => {
                if let Some(passed) = ports.get_mut(code as usize) {
                    *passed = passed.and(tick, passing);
                }
            }
            Ports::Marked => {}
        }
    }

    /// The form of the port with a code.
    pub(crate) fn form(&self, code: u64) -> Form {
        match self {
            Ports::Held(ports) => match ports.get(code as usize) {
                Some(passed) => passed.form(),
                None => Form::Text,
            },
            Ports::Marked => Form::Text,
        }
    }

    /// Whether ports show their last values until the next ones.
    pub(crate) fn are_held(&self) -> bool {
        match self {
            Ports::Held(_) => true,
            Ports::Marked => false,
        }
    }
}
