//! An entry with the length of its line.

ghost use Rattle.std.specs.Prelude.{◌≡◌, length};
ghost use Rattle.dv_bag.specs.declared.entry.What.TheVariants as what;
ghost use Rattle.dv_record.specs.Told.{entry};
ghost use Rattle.dv_written.specs.Faults.{is_fault};

use crate::job::OfJob;
use crate::told::ToldEntry;
use dv_bag::{Fault, Kind, Sent, State};
use dv_time::Time;
use std::marker::{Model, PhantomData};

/// What happened to a component at one instant. A contract reads it as the entry. In memory are its
/// time, its component, whether it is a fault, and the length of its line in bytes. The line itself
/// is in the text of the part that has the entry.
#[derive(Drop)]
pub struct WrittenEntry<N: OfJob> {
    time: Time,
    component: u32,
    fault: bool,
    bytes: usize,
    told: ToldEntry,
    of: PhantomData<N>,
}

impl<N: OfJob> Model for WrittenEntry<N> {
    ghost use Rattle.std.specs.Prelude.{◌≡◌, length};
    ghost use Rattle.dv_bag.specs.declared.entry.Entry.{Entry};
    ghost use Rattle.dv_written.specs.Faults.{is_fault};

    ghost Value = { Entry };

    ghost view = { λ e. e.told.entry };

    ghost invariant = { λ e. (e.time ≡ e.told.entry.time)
        × (e.component ≡ e.told.entry.component)
        × (e.fault ≡ is_fault e.told.entry.what)
        × (e.bytes ≡ length (N.line e.told.entry)) };
}

impl<N: OfJob> WrittenEntry<N> {
    /// A transition of a component at a time, with the state after it and what it sent. Its line
    /// has `bytes` bytes.
    pub(crate) fn moved(
        bytes: usize,
        time: Time,
        component: u32,
        kind: Kind,
        state: &State,
        sent: &Sent,
    ) -> Self
        requires { bytes
            ≡ length (N.line (entry time component (what.Transition kind state.now) sent.now)) }
        ensures { result ≡ entry time component (what.Transition kind state.now) sent.now }
    {
        WrittenEntry {
            time,
            component,
            fault: false,
            bytes,
            told: ToldEntry::moved(&time, &component, &kind, state, sent),
            of: PhantomData,
        }
    }

    /// A fault of a component at a time, with what it sent. Its line has `bytes` bytes.
    pub(crate) fn faulted(
        bytes: usize,
        time: Time,
        component: u32,
        fault: Fault,
        sent: &Sent,
    ) -> Self
        requires { bytes ≡ length (N.line (entry time component (what.Fault fault) sent.now)) }
        ensures { result ≡ entry time component (what.Fault fault) sent.now }
    {
        WrittenEntry {
            time,
            component,
            fault: true,
            bytes,
            told: ToldEntry::faulted(&time, &component, &fault, sent),
            of: PhantomData,
        }
    }

    /// The time at which it happened.
    #[inline]
    pub fn time(&self) -> Time
        ensures { result ≡ self.now.time }
    {
        self.time
    }

    /// The number of the component.
    #[inline]
    pub fn component(&self) -> u32
        ensures { result ≡ self.now.component }
    {
        self.component
    }

    /// Whether it is a fault.
    pub fn is_fault(&self) -> bool
        ensures { result ≡ is_fault self.now.what }
    {
        self.fault
    }

    /// The length of its line in bytes.
    #[inline]
    pub fn line_length(&self) -> usize
        ensures { result ≡ length (N.line self.now) }
    {
        self.bytes
    }
}
