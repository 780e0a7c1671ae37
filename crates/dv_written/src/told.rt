//! An entry as ghost data, for contracts. It takes no memory, and its functions do nothing at run
//! time.

ghost use Rattle.std.specs.Prelude.{◌≡◌};
ghost use Rattle.std.specs.Borrow.{ftrue};
ghost use Rattle.dv_bag.specs.declared.entry.Entry.{Entry};
ghost use Rattle.dv_bag.specs.declared.entry.What.TheVariants as what;
ghost use Rattle.dv_record.specs.Told.{entry};

use dv_bag::{Fault, Kind, Sent, State};
use dv_time::Time;
use std::marker::Model;

/// What happened to a component. A clause reads it as `entry`. It takes no memory.
#[derive(Drop)]
pub(crate) struct ToldEntry {
    pub(crate) ghost entry: { Entry },
}

impl Model for ToldEntry {
    ghost also_owns = { λ _. ftrue };
}

// It owns nothing.
unsafe impl Send for ToldEntry {}

impl ToldEntry {
    /// A transition of a component at a time, with the state after it and what it sent.
    pub(crate) fn moved(
        time: &Time,
        component: &u32,
        kind: &Kind,
        state: &State,
        sent: &Sent,
    ) -> ToldEntry
        ensures { result.entry ≡ entry time.now component.now
            (what.Transition kind.now state.now) sent.now }
    {
        ToldEntry {}
    }

    /// A fault of a component at a time, with what it sent.
    pub(crate) fn faulted(time: &Time, component: &u32, fault: &Fault, sent: &Sent) -> ToldEntry
        ensures { result.entry
            ≡ entry time.now component.now (what.Fault fault.now) sent.now }
    {
        ToldEntry {}
    }
}
