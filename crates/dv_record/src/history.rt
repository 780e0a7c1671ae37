//! What was told to a record, as ghost data for contracts. It takes no memory, and its methods do
//! nothing at run time.

ghost use Rattle.std.specs.Prelude.{◌≡◌, ◌∷◌, [], ◌++◌};
ghost use Rattle.std.specs.Borrow.{ftrue};
ghost use Rattle.dv_bag.specs.Part.{PartOf, nothing};
ghost use Rattle.dv_bag.specs.declared.entry.What.TheVariants as what;
ghost use Rattle.dv_record.specs.Told.{entry, lines_from};

use dv_bag::{Bags, Fault, Kind, Sent, State};
use dv_time::Time;
use std::marker::Model;

/// All that was told so far. A clause reads it as `part`. It takes no memory.
#[derive(Drop)]
pub struct History {
    pub ghost part: { PartOf },
}

impl Model for History {
    ghost also_owns = { λ _. ftrue };
}

// It owns nothing.
unsafe impl Send for History {}

impl History {
    /// Nothing was told.
    pub fn new() -> History
        ensures { result.part ≡ nothing }
    {
        History {}
    }

    /// A copy of this history.
    pub fn again(&self) -> History
        ensures { result.part ≡ self.now.part }
    {
        History {}
    }

    /// This history and then a transition of a component at a time, with the state after it and
    /// what it sent.
    pub fn and_moved(
        &self,
        time: &Time,
        component: &u32,
        kind: &Kind,
        state: &State,
        sent: &Sent,
    ) -> History
        ensures { result.part ≡ record self.now.part {
          entries = self.now.part.entries ++ entry time.now component.now
              (what.Transition kind.now state.now) sent.now ∷ [];
        } }
    {
        History {}
    }

    /// This history and then a fault of a component at a time, with what it sent.
    pub fn and_faulted(&self, time: &Time, component: &u32, fault: &Fault, sent: &Sent) -> History
        ensures { result.part ≡ record self.now.part {
          entries = self.now.part.entries
              ++ entry time.now component.now (what.Fault fault.now) sent.now ∷ [];
        } }
    {
        History {}
    }

    /// This history and then what left the model at a time, by output port.
    pub fn and_left(&self, time: &Time, values: &Bags) -> History
        ensures { result.part ≡ record self.now.part {
          outer = self.now.part.outer
              ++ lines_from time.now 0 values.now;
        } }
    {
        History {}
    }
}
