//! The trait of a record.

ghost use Rattle.std.specs.Prelude.{◌≡◌, ◌++◌, ◌≤◌, ◌^◌, OnErr, OnOk, length};
ghost use Rattle.dv_bag.specs.Part.{PartOf, nothing};
ghost use Rattle.dv_bag.specs.declared.entry.What.TheVariants as what;
ghost use Rattle.dv_record.specs.Told.{Handed, IsOpenAt, entry, lines_from, no_text, with_entry, with_lines};

use dv_bag::{Bags, Fault, Kind, Sent, State};
use dv_time::Time;
use std::alloc::{AllocError, Global};

/// Keeps what a process commits. At each instant it is told first what happened to each component,
/// then what left the model. `roll_back` takes back what was told since the last `settle`. Neither
/// of these two can fail.
pub trait Record: Drop {
    /// All that was told: entries and output lines.
    ghost told: { Self → PartOf };

    /// The part of it that `roll_back` keeps.
    ghost settled: { Self → PartOf };

    /// How the record writes what it is told as a text, what of that text was handed over, and
    /// which part was moved out.
    ghost handed: { Self → Handed };

    /// Tells of a transition of a component at a time, with the state after it and what it sent.
    ///
    /// # Errors
    ///
    /// No memory for it. The record is as before.
    fn moved(
        &mut self,
        time: Time,
        component: u32,
        kind: Kind,
        state: &State,
        sent: &Sent,
    ) -> Result<(), AllocError>
        requires is_open { IsOpenAt time (told self.old) }
        ensures told { OnOk result (told self.new ≡ with_entry
            (entry time component (what.Transition kind state.now) sent.now) (told self.old)) }
        ensures err { OnErr result (told self.new ≡ told self.old) }
        ensures settled { settled self.new ≡ settled self.old }
        ensures handed { handed self.new ≡ handed self.old };

    /// Tells of a fault of a component at a time, with what it sent.
    ///
    /// # Errors
    ///
    /// No memory for it. The record is as before.
    fn faulted(
        &mut self,
        time: Time,
        component: u32,
        fault: Fault,
        sent: &Sent,
    ) -> Result<(), AllocError>
        requires is_open { IsOpenAt time (told self.old) }
        ensures told { OnOk result (told self.new ≡ with_entry
            (entry time component (what.Fault fault) sent.now) (told self.old)) }
        ensures err { OnErr result (told self.new ≡ told self.old) }
        ensures settled { settled self.new ≡ settled self.old }
        ensures handed { handed self.new ≡ handed self.old };

    /// Tells what left the model at a time, by output port. Each port with values has an output
    /// line.
    ///
    /// # Errors
    ///
    /// No memory for the lines. Some of them may have been told, so the caller has to call
    /// `roll_back`.
    fn left(&mut self, time: Time, values: &Bags) -> Result<(), AllocError>
        requires is_open { IsOpenAt time (told self.old) }
        requires ports { length values.now ≤ 2 ^ 32 }
        ensures told { OnOk result (told self.new
            ≡ with_lines (lines_from time 0 values.now) (told self.old)) }
        ensures settled { settled self.new ≡ settled self.old }
        ensures handed { handed self.new ≡ handed self.old };

    /// Settles all that was told.
    fn settle(&mut self)
        ensures told { told self.new ≡ told self.old }
        ensures settled { settled self.new ≡ told self.old }
        ensures handed { handed self.new ≡ handed self.old };

    /// Takes back what was told since the last `settle`.
    fn roll_back(&mut self)
        ensures told { told self.new ≡ settled self.old }
        ensures settled { settled self.new ≡ settled self.old }
        ensures handed { handed self.new ≡ handed self.old };

    /// The bytes of the record's text that were not handed over yet. After those that were, they
    /// complete the text of all that was told. A record without a text has none.
    fn bytes(&self) -> &[u8]
        ensures { (handed self.now).text_of (told self.now)
            ≡ (handed self.now).text ++ result.now };

    /// Discards the bytes of the record's text, which were handed over. All that was told has to be
    /// settled.
    fn let_go(&mut self)
        requires { settled self.old ≡ told self.old }
        ensures told { told self.new ≡ told self.old }
        ensures settled { settled self.new ≡ settled self.old }
        ensures handed { handed self.new ≡ record (handed self.old) {
          text = (handed self.old).text_of (told self.old);
        } };
}

/// A record without a text that can be made from nothing but an allocator.
pub trait BlankRecord: Record {
    /// A record to which nothing was told.
    fn blank(alloc: Global) -> Self
        ensures told { Self.told result ≡ nothing }
        ensures settled { Self.settled result ≡ nothing }
        ensures handed { Self.handed result ≡ no_text };
}
