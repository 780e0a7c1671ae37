//! What a process asks of its components.

ghost use Rattle.std.specs.Prelude.{◌≡◌, ◌<◌, ◌≤◌, ◌++◌, ℕ, OnErr, OnOk, List, Some, map, slice_get, true};
ghost use Rattle.dv_bag.specs.Bag.{Counts};
ghost use Rattle.dv_bag.specs.Part.{joined};
ghost use Rattle.dv_bag.specs.Responses.{ticks_of};
ghost use Rattle.dv_conservative.specs.Events.{event_of};
ghost use Rattle.dv_conservative.specs.Process.{Outgoing, end_rank, is_port_of};
ghost use Rattle.dv_devs.specs.Cuts.{IsAllBefore};
ghost use Rattle.dv_devs.specs.NextTimes.{least_next};
ghost use Rattle.dv_record.specs.Told.{Handed};
ghost use Rattle.dv_time.specs.Time.{IsOfRun, rank};
ghost use Rattle.dv_written.specs.Rest.{rest_length};
ghost use Rattle.dv_proc.specs.Foreseeing.{IsOfHold, IsOfRunIf, rank_if};
ghost use Rattle.dv_proc.specs.Accesses.{CountsEmission, CountsInstant};
ghost use Rattle.dv_proc.specs.Local.{IsAfterEvents, IsAfterInstant, IsFirstInput, View, are_for_ports, carried_away, sent_at};
ghost use Rattle.dv_proc.specs.Packets.{meant_events};

use crate::packet::Event;
use crate::window::Frame;
use dv_bag::Response;
use dv_record::Record;
use dv_time::Time;
use dv_written::{OfJob, WrittenPart};
use std::alloc::AllocError;

/// The components of one process, the links among them and to other processes, the events that came
/// for them, and the record that is told what they commit. `roll_back` takes back what was done
/// since the last `settle`; neither can fail.
pub trait Local {
    /// What the methods work with and may change, such as a machine.
    type Work;

    /// The record that is told what the components commit.
    type Record: Record;

    /// Their state for contracts: the share, the components, the events, and what was committed.
    ghost view: { Self → View };

    /// The view after a `roll_back`.
    ghost settled: { Self → View };

    /// What they send at the time of the last `emit`.
    ghost sent: { Self → List (List Counts) };

    /// How the record writes what it is told, and what of that was handed over.
    ghost handed: { Self → Handed };

    /// How many visits of components were counted. This is never taken back.
    ghost visits: { Self → ℕ };

    /// The frame of the run.
    fn frame(&self) -> Frame
        ensures limit { result.limit ≡ (view self.now).share.limit }
        ensures horizon { result.horizon ≡ (view self.now).share.horizon };

    /// The response: a lower bound on the holds that external rules of the components begin.
    fn response(&self) -> Response
        ensures ticks { ticks_of result ≡ (view self.now).share.response }
        ensures hold { IsOfHold result };

    /// Whether a component with this number is here and has this input port.
    fn is_port(&self, component: u32, port: u32) -> bool
        ensures { result ≡ is_port_of (view self.now).share.flat.members component port };

    /// Keeps events until their time. This is settled at once.
    ///
    /// # Errors
    ///
    /// No memory. Nothing has changed.
    fn keep(&mut self, events: &[Event]) -> Result<(), AllocError>
        requires settled { settled self.old ≡ view self.old }
        requires ports { are_for_ports (view self.old).share (meant_events events.now) ≡ true }
        ensures kept { OnOk result
            (IsAfterEvents (meant_events events.now) (view self.old) (view self.new)) }
        ensures err { OnErr result (view self.new ≡ view self.old) }
        ensures settled { settled self.new ≡ view self.new }
        ensures visits { visits self.new ≡ visits self.old }
        ensures handed { handed self.new ≡ handed self.old };

    /// The least of the components' next times.
    fn next(&self) -> Option<Time>
        ensures least { rank_if (view self.now).share.limit result
            ≡ least_next (view self.now).components }
        ensures of_run { IsOfRunIf (view self.now).share.limit result };

    /// The first time, not before `from`, at which an event or an input from outside arrives.
    fn first_input(&self, from: Time) -> Option<Time>
        requires { IsOfRun (view self.now).share.limit from }
        ensures { IsFirstInput (view self.now) (rank (view self.now).share.limit from) result };

    /// Commits the instant at a time, which is after all that was committed. It counts one visit of
    /// each imminent component, as it emits, unless `emit` was called for this time; and one visit
    /// of each component that emitted something or receives a value.
    ///
    /// # Errors
    ///
    /// No memory. `roll_back` is to be called. Some of the visits may have been counted.
    fn react(&mut self, work: &mut Self::Work, now: Time) -> Result<(), AllocError>
        requires settled { settled self.old ≡ view self.old }
        requires of_run { IsOfRun (view self.old).share.limit now }
        requires before_end { rank (view self.old).share.limit now
            < end_rank (view self.old).share }
        requires later { IsAllBefore now (view self.old).committed }
        ensures reacted { OnOk result (IsAfterInstant
            (rank (view self.old).share.limit now) (view self.old) (view self.new)) }
        ensures visits { OnOk result (CountsInstant
            (rank (view self.old).share.limit now) (view self.old)
            (visits self.old) (visits self.new)) }
        ensures never_fall { visits self.old ≤ visits self.new }
        ensures settled { settled self.new ≡ settled self.old }
        ensures handed { handed self.new ≡ handed self.old };

    /// Computes what the components send at a time, from their states alone. It counts at most one
    /// visit of each imminent component.
    ///
    /// # Errors
    ///
    /// No memory. `roll_back` is to be called. Some of the visits may have been counted.
    fn emit(&mut self, work: &mut Self::Work, now: Time) -> Result<(), AllocError>
        requires of_run { IsOfRun (view self.old).share.limit now }
        requires before_end { rank (view self.old).share.limit now
            < end_rank (view self.old).share }
        ensures sent { OnOk result (sent self.new
            ≡ sent_at (view self.old) (rank (view self.old).share.limit now)) }
        ensures view { view self.new ≡ view self.old }
        ensures visits { CountsEmission (rank (view self.old).share.limit now) (view self.old)
            (visits self.old) (visits self.new) }
        ensures never_fall { visits self.old ≤ visits self.new }
        ensures settled { settled self.new ≡ settled self.old }
        ensures handed { handed self.new ≡ handed self.old };

    /// Appends the events of what they send on the outgoing link at an index, at the time of the
    /// last `emit`.
    ///
    /// # Errors
    ///
    /// No memory. Some events may have been added.
    fn send(&self, index: usize, now: Time, into: &mut Vec<Event>) -> Result<(), AllocError>
        ensures { OnOk result ((out : Outgoing)
            → slice_get (view self.now).share.outgoing index ≡ Some out
            → meant_events into.new.items ≡ meant_events into.old.items
            ++ map (event_of now) (carried_away (view self.now) out.links (sent self.now))) };

    /// How many visits of components were counted. The count stays at 2^64 - 1 once there.
    fn visits(&self) -> u64
        ensures { result ≡ visits self.now };

    /// The record, which was told what the components committed.
    fn record(&self) -> &Self::Record
        ensures told { Self.Record.told result.now ≡ (view self.now).committed }
        ensures handed { Self.Record.handed result.now ≡ handed self.now };

    /// The record, moved out.
    fn into_record(self) -> Self::Record
        ensures { Self.Record.told result ≡ (view self).committed };

    /// Makes all changes since the last `settle` final.
    fn settle(&mut self)
        ensures view { view self.new ≡ view self.old }
        ensures settled { settled self.new ≡ view self.old }
        ensures visits { visits self.new ≡ visits self.old }
        ensures handed { handed self.new ≡ handed self.old };

    /// Takes back all changes since the last `settle`, but no count of visits.
    fn roll_back(&mut self)
        ensures view { view self.new ≡ settled self.old }
        ensures settled { settled self.new ≡ settled self.old }
        ensures visits { visits self.new ≡ visits self.old }
        ensures handed { handed self.new ≡ handed self.old };

    /// Discards the bytes of the record, which were handed over. All has to be settled.
    fn let_go(&mut self)
        requires { settled self.old ≡ view self.old }
        ensures view { view self.new ≡ view self.old }
        ensures settled { settled self.new ≡ settled self.old }
        ensures visits { visits self.new ≡ visits self.old }
        ensures handed { handed self.new ≡ record (handed self.old) {
          text = (handed self.old).text_of (view self.old).committed;
        } };
}

/// Components whose record hands over what it was told while the run goes on, as lines.
pub trait LocalHandsOver<N: OfJob>: Local {
    /// How many bytes the lines have that were committed and not handed over yet.
    fn rest_length(&self) -> usize
        ensures { result ≡ rest_length N.line (Self.handed self.now).past
            (Self.view self.now).committed };

    /// Moves out what was committed and not handed over yet. All has to be settled.
    fn hand_over(&mut self) -> WrittenPart<N>
        requires { Self.settled self.old ≡ Self.view self.old }
        ensures view { Self.view self.new ≡ Self.view self.old }
        ensures settled { Self.settled self.new ≡ Self.settled self.old }
        ensures visits { Self.visits self.new ≡ Self.visits self.old }
        ensures part { (Self.view self.old).committed
            ≡ joined (Self.handed self.old).past result }
        ensures handed { Self.handed self.new
            ≡ record (Self.handed self.old) { past = (Self.view self.old).committed } };
}
