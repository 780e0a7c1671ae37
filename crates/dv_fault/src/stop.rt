//! Why a reaction ends early.

use dv_bag::Fault;
use dv_syntax::RuleSort;
use std::alloc::AllocError;

/// What has a fault.
#[derive(Clone, Copy, PartialEq, Eq)]
pub(crate) enum Site {
    /// The rule of this kind for the phase with this name.
    Rule { sort: RuleSort, phase: u32 },
    /// The hold of the phase with this name.
    Hold { phase: u32 },
    /// The arrivals at the input port with this name.
    Arrival { port: u32 },
}

/// Where a fault came from.
#[derive(Drop)]
pub(crate) struct Found {
    pub(crate) fault: Fault,
    pub(crate) site: Site,
    /// The offset of the statement, the hold or the port, in bytes of the text.
    pub(crate) offset: u32,
    /// Sentences on the values there, each with a line feed.
    pub(crate) sentences: String,
}

/// Why a reaction ends early.
#[derive(Drop)]
pub(crate) enum Stop {
    Fault(Found),
    Memory,
}

impl Stop {
    /// Stops with a fault, or because there was no memory to describe it.
    pub(crate) fn of(found: Result<Found, AllocError>) -> Stop {
        match found {
            Ok(found) => Stop::Fault(found),
            Err(AllocError) => Stop::Memory,
        }
    }
}

impl From<AllocError> for Stop {
    fn from(_error: AllocError) -> Self {
        Stop::Memory
    }
}
