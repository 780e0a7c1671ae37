//! The lists of an instant.

ghost use Rattle.std.specs.Prelude.{◌≡◌, []};

use dv_bag::Sent;
use dv_share::{Delivery, Received};
use std::alloc::Global;
use std::marker::Model;

/// What a component sends that does not emit. It is made once for a run.
#[derive(Drop)]
pub struct Nothing {
    sent: Sent,
}

impl Model for Nothing {
    ghost use Rattle.std.specs.Prelude.{◌≡◌, [], List};
    ghost use Rattle.dv_bag.specs.Bag.{Counts};

    ghost Value = { List Counts };

    ghost view = { λ n. n.sent };

    ghost invariant = { λ n. n.sent ≡ [] };
}

impl Nothing {
    /// It takes no memory.
    pub fn new(alloc: Global) -> Self {
        Nothing {
            sent: Sent::empty(alloc, 0),
        }
    }

    /// What is sent: nothing.
    #[inline]
    pub fn sent(&self) -> &Sent
        ensures { result.now ≡ [] }
    {
        &self.sent
    }
}

/// Lists that each instant fills anew, in the memory that they have.
#[derive(Drop)]
pub struct Scratch {
    /// The indices of the imminent components.
    pub due: Vec<u32>,
    /// What links carry, to components or to the outside.
    pub carried: Vec<Delivery>,
    /// What arrives at the components that emitted something or receive a value.
    pub received: Received,
    /// What a component sends that does not emit.
    pub nothing: Nothing,
}

impl Scratch {
    /// Empty lists. They take no memory yet.
    pub fn new(alloc: Global) -> Self {
        Scratch {
            due: Vec::new(alloc),
            carried: Vec::new(alloc),
            received: Received::new(alloc),
            nothing: Nothing::new(alloc),
        }
    }
}
