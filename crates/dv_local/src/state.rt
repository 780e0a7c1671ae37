//! The components of a process with all that changes in a run.

ghost use Rattle.std.specs.Prelude.{◌≡◌, ◌++◌, ◌<◌, ◌≤◌, ◌^◌, ℕ, List, [], IfOk, length, map, None, OnErr, OnOk, Some, slice_get, true};
ghost use Rattle.dv_bag.specs.Responses.{ticks_of};
ghost use Rattle.dv_bag.specs.Part.{joined, nothing};
ghost use Rattle.dv_bag.specs.Bag.{Counts};
ghost use Rattle.dv_conservative.specs.Events.{event_of};
ghost use Rattle.dv_conservative.specs.Process.{Outgoing, end_rank, is_port_of};
ghost use Rattle.dv_devs.specs.Cuts.{IsAllBefore};
ghost use Rattle.dv_devs.specs.NextTimes.{least_next};
ghost use Rattle.dv_proc.specs.Foreseeing.{IsOfHold, IsOfRunIf, rank_if};
ghost use Rattle.dv_proc.specs.Accesses.{CountsEmission, CountsInstant};
ghost use Rattle.dv_proc.specs.Local.{IsAfterEvents, IsAfterInstant, IsFirstInput, are_for_ports, carried_away, sent_at};
ghost use Rattle.dv_proc.specs.Packets.{meant_events};
ghost use Rattle.dv_react.specs.Components.{components_of};
ghost use Rattle.dv_share.specs.Share.{AreComponents, AreEmitted};
ghost use Rattle.dv_time.specs.Time.{IsOfRun, rank};
ghost use Rattle.dv_written.specs.Rest.{rest_length};
ghost use Rattle.dv_local.specs.Shares.{IsShare, share_by};
ghost use Rattle.dv_local.specs.States.{IsAtRest, IsKept, imminent_of, sent_of, settled_by, view_by};

use crate::arriving::arrive;
use crate::commit::commit;
use crate::components::Components;
use crate::emission::emit_all;
use crate::emitted::Emitted;
use crate::events::{add_events, bringing};
use crate::former::{Former, lists_for};
use crate::inbox::Inbox;
use crate::moment::Moment;
use crate::scratch::Scratch;
use crate::share::Share;
use crate::undo::{Undo, agenda_of, let_go, put_all_back};
use crate::waiting::{first_held, first_outside, is_taken};
use dv_agenda::Agenda;
use dv_bag::Response;
use dv_proc::{Event, Frame};
use dv_react::{Atomic, Instant, Running};
use dv_record::Record;
use dv_share::tables::index_of;
use dv_share::{away, outer};
use dv_time::{Time, earliest};
use dv_written::{HandsOver, OfJob, WrittenPart};
use std::alloc::{AllocError, Global};

// Lists with an item for each component of an instant have room for all components from the start,
// or for so many if there are more. Otherwise they would double whenever more components than ever
// before react at once, which may be late in a run.
const ROOM_AT_FIRST: usize = 1_024;

/// The components of one process, with all that changes in a run.
#[derive(Drop)]
pub struct LocalState<A, R> {
    /// The share, which never changes.
    pub share: Share<A>,
    /// The components as they are now.
    pub components: Components,
    /// When the hold of each component ends.
    pub agenda: Agenda,
    /// What came from other processes and is not committed.
    pub inbox: Inbox,
    /// The record, which is told all that happens.
    pub record: R,
    /// What is needed to take back the changes since all was settled.
    pub undo: Undo,
    /// What the components emitted, or their faults, in the order of their indices.
    pub emitted: Emitted,
    /// The time for which `emitted` was computed; `None` if components have changed since.
    pub emitted_at: Option<Time>,
    /// Lists of an instant, kept for their memory.
    pub scratch: Scratch,
    /// Where memory comes from.
    pub alloc: Global,
}

impl<A: Atomic + Drop, R: Record> LocalState<A, R> {
    /// Components of a share as a run begins: nothing came for them, and the record was told
    /// nothing.
    ///
    /// # Errors
    ///
    /// No memory for the agenda, or for the lists of an instant.
    pub fn new(
        alloc: Global,
        share: Share<A>,
        running: Vec<Running>,
        to: R,
    ) -> Result<LocalState<A, R>, AllocError>
        requires few { length running.items < 2 ^ 32 }
        requires comes { (a : A) (bags : List Counts) → A.comes a bags }
        requires share { IsShare A.fits share }
        requires components { AreComponents A.fits share.tables running.items }
        requires told { R.told to ≡ nothing }
        requires at_rest { R.settled to ≡ R.told to }
        ensures kept { IfOk result (λ x. IsKept A.behaviour A.fits A.comes x) }
        ensures share { IfOk result (λ x. (view_by A.behaviour R.told x).share
            ≡ share_by A.behaviour share) }
        ensures components { IfOk result (λ x. (view_by A.behaviour R.told x).components
            ≡ components_of share.tables.limit running.items) }
        ensures committed { IfOk result (λ x. (view_by A.behaviour R.told x).committed ≡ nothing) }
        ensures held { IfOk result (λ x. (n : ℕ) → (view_by A.behaviour R.told x).held n ≡ []) }
        ensures visits { IfOk result (λ x. x.components.visits ≡ 0) }
        ensures settled { IfOk result (λ x. settled_by A.behaviour R.settled x
            ≡ view_by A.behaviour R.told x) }
        ensures record { IfOk result (λ x. x.record ≡ to) }
    {
        let room = running.len().min(ROOM_AT_FIRST);
        let lists = lists_for(&running, share.tables.models.len());
        let before = Former::with_room(alloc, lists, room)?;
        let emitted = Emitted::with_room(alloc, room)?;
        let agenda = agenda_of(alloc, &running)?;
        let components = Components::new(running);
        Ok(LocalState {
            record: to,
            share,
            components,
            agenda,
            inbox: Inbox::new(alloc),
            undo: Undo {
                before,
                taken: None,
            },
            emitted,
            emitted_at: None,
            scratch: Scratch::new(alloc),
            alloc,
        })
    }

    /// The record, moved out.
    pub fn into_record(self) -> R
        ensures { result ≡ self.record }
    {
        self.record
    }
}

impl<A: Atomic, R: Record> LocalState<A, R> {
    /// The frame of the run.
    pub fn frame(&self) -> Frame
        requires { IsKept A.behaviour A.fits A.comes self.now }
        ensures limit { result.limit ≡ (view_by A.behaviour R.told self.now).share.limit }
        ensures horizon { result.horizon ≡ (view_by A.behaviour R.told self.now).share.horizon }
    {
        Frame {
            limit: self.share.tables.limit,
            horizon: self.share.horizon,
        }
    }

    /// The response: a lower bound on the holds that external rules of the components begin.
    pub fn response(&self) -> Response
        requires { IsKept A.behaviour A.fits A.comes self.now }
        ensures ticks { ticks_of result ≡ (view_by A.behaviour R.told self.now).share.response }
        ensures hold { IsOfHold result }
    {
        self.share.response
    }

    /// Whether a component with this number is here and has this input port.
    pub fn is_port(&self, component: u32, port: u32) -> bool
        requires { IsKept A.behaviour A.fits A.comes self.now }
        ensures { result
            ≡ is_port_of (view_by A.behaviour R.told self.now).share.flat.members component port }
    {
        let members = self.share.tables.members.as_slice();
        match index_of(members, component) {
            Some(index) => port < members[index].inputs,
            None => false,
        }
    }

    /// The least of the components' next times.
    pub fn next(&self) -> Option<Time>
        requires { IsKept A.behaviour A.fits A.comes self.now }
        ensures least { rank_if (view_by A.behaviour R.told self.now).share.limit result
            ≡ least_next (view_by A.behaviour R.told self.now).components }
        ensures of_run { IsOfRunIf (view_by A.behaviour R.told self.now).share.limit result }
    {
        self.agenda.first()
    }

    /// The first time, not before `from`, at which an event or an input from outside arrives.
    #[inline(always)]
    pub fn first_input(&self, from: Time) -> Option<Time>
        requires kept { IsKept A.behaviour A.fits A.comes self.now }
        requires of_run { IsOfRun (view_by A.behaviour R.told self.now).share.limit from }
        ensures { IsFirstInput (view_by A.behaviour R.told self.now)
            (rank (view_by A.behaviour R.told self.now).share.limit from) result }
    {
        // Most runs of one process have no input at all, and this is asked twice an instant.
        if self.share.inputs.as_slice().is_empty() && self.inbox.is_empty() {
            return None;
        }
        self.searched_input(from)
    }

    // `first_input`, by searches.
    #[inline(never)]
    fn searched_input(&self, from: Time) -> Option<Time>
        requires kept { IsKept A.behaviour A.fits A.comes self.now }
        requires of_run { IsOfRun (view_by A.behaviour R.told self.now).share.limit from }
        ensures { IsFirstInput (view_by A.behaviour R.told self.now)
            (rank (view_by A.behaviour R.told self.now).share.limit from) result }
    {
        let held = first_held(&self.inbox, self.undo.taken, from);
        let outside = first_outside(self.share.inputs.as_slice(), from);
        earliest(held, outside)
    }

    /// Keeps events until their time. This is settled at once.
    ///
    /// # Errors
    ///
    /// No memory. Nothing that contracts see has changed.
    pub fn keep(&mut self, events: &[Event]) -> Result<(), AllocError>
        requires kept { IsKept A.behaviour A.fits A.comes self.old }
        requires settled { settled_by A.behaviour R.settled self.old
            ≡ view_by A.behaviour R.told self.old }
        requires ports { are_for_ports (view_by A.behaviour R.told self.old).share
            (meant_events events.now) ≡ true }
        ensures is_kept { IsKept A.behaviour A.fits A.comes self.new }
        ensures kept { OnOk result (IsAfterEvents (meant_events events.now)
            (view_by A.behaviour R.told self.old) (view_by A.behaviour R.told self.new)) }
        ensures err { OnErr result (view_by A.behaviour R.told self.new
            ≡ view_by A.behaviour R.told self.old) }
        ensures settled { settled_by A.behaviour R.settled self.new
            ≡ view_by A.behaviour R.told self.new }
        ensures visits { self.new.components.visits ≡ self.old.components.visits }
        ensures handed { R.handed self.new.record ≡ R.handed self.old.record }
    {
        self.settle();
        let brought = bringing(self.alloc, self.share.tables.limit, events)?;
        self.inbox.add_all(&brought)
    }

    /// Computes what the components send at a time, from their states alone. Each imminent
    /// component is visited once. If this was already computed for the time, it is kept, without
    /// visits.
    ///
    /// # Errors
    ///
    /// No memory. No component has changed.
    #[inline(always)]
    pub fn emit(&mut self, work: &mut A::Work, now: Time) -> Result<(), AllocError>
        requires kept { IsKept A.behaviour A.fits A.comes self.old }
        requires of_run { IsOfRun (view_by A.behaviour R.told self.old).share.limit now }
        requires before_end { rank (view_by A.behaviour R.told self.old).share.limit now
            < end_rank (view_by A.behaviour R.told self.old).share }
        ensures kept { IsKept A.behaviour A.fits A.comes self.new }
        ensures sent { OnOk result (sent_of self.new
            ≡ sent_at (view_by A.behaviour R.told self.old)
            (rank (view_by A.behaviour R.told self.old).share.limit now)) }
        ensures view { view_by A.behaviour R.told self.new ≡ view_by A.behaviour R.told self.old }
        ensures visits { CountsEmission
            (rank (view_by A.behaviour R.told self.old).share.limit now)
            (view_by A.behaviour R.told self.old)
            self.old.components.visits self.new.components.visits }
        ensures never_fall { self.old.components.visits ≤ self.new.components.visits }
        ensures settled { settled_by A.behaviour R.settled self.new
            ≡ settled_by A.behaviour R.settled self.old }
        ensures at_rest { IsAtRest R.told R.settled self.old → IsAtRest R.told R.settled self.new }
        ensures handed { R.handed self.new.record ≡ R.handed self.old.record }
        ensures emitted { OnOk result (AreEmitted A.behaviour self.new.share.tables
            (rank self.new.share.tables.limit now) self.new.components.running
            self.new.emitted) }
        ensures few { OnOk result (length self.new.emitted
            ≤ imminent_of self.new.share.tables.limit now self.new.components.running) }
    {
        if is_taken(self.emitted_at, now) {
            return Ok(());
        }
        self.emitted_at = None;
        self.scratch.due.clear();
        self.agenda.due(now, &mut self.scratch.due)?;
        emit_all(
            self.alloc,
            &self.share.tables,
            work,
            &mut self.components,
            &self.scratch.due,
            &mut self.emitted,
        )?;
        self.emitted_at = Some(now);
        Ok(())
    }

    /// Commits the instant at a time, which is after all that was committed: the components react,
    /// and the record is told what happened and then what left the model. Each imminent component
    /// is visited once, unless what it emits was computed before, and each that emitted something
    /// or receives a value once more.
    ///
    /// # Errors
    ///
    /// No memory. `roll_back` is to be called.
    pub fn react_components(&mut self, work: &mut A::Work, now: Time) -> Result<(), AllocError>
        requires kept { IsKept A.behaviour A.fits A.comes self.old }
        requires settled { settled_by A.behaviour R.settled self.old
            ≡ view_by A.behaviour R.told self.old }
        requires of_run { IsOfRun (view_by A.behaviour R.told self.old).share.limit now }
        requires before_end { rank (view_by A.behaviour R.told self.old).share.limit now
            < end_rank (view_by A.behaviour R.told self.old).share }
        requires later { IsAllBefore now (view_by A.behaviour R.told self.old).committed }
        ensures kept { IsKept A.behaviour A.fits A.comes self.new }
        ensures reacted { OnOk result (IsAfterInstant
            (rank (view_by A.behaviour R.told self.old).share.limit now)
            (view_by A.behaviour R.told self.old) (view_by A.behaviour R.told self.new)) }
        ensures visits { OnOk result (CountsInstant
            (rank (view_by A.behaviour R.told self.old).share.limit now)
            (view_by A.behaviour R.told self.old)
            self.old.components.visits self.new.components.visits) }
        ensures never_fall { self.old.components.visits ≤ self.new.components.visits }
        ensures settled { settled_by A.behaviour R.settled self.new
            ≡ settled_by A.behaviour R.settled self.old }
        ensures handed { R.handed self.new.record ≡ R.handed self.old.record }
    {
        self.settle();
        self.emit(work, now)?;
        self.emitted_at = None;
        let share = &self.share;
        let tables = &share.tables;
        let instant = Instant {
            time: now,
            limit: tables.limit,
        };
        let emitted = self.emitted.as_slice();
        arrive(
            self.alloc,
            share,
            emitted,
            self.inbox.at(now),
            now,
            &mut self.scratch.carried,
            &mut self.scratch.received,
        )?;
        let moment = Moment {
            tables,
            instant: &instant,
            emitted,
            nothing: self.scratch.nothing.sent(),
        };
        commit(
            &moment,
            work,
            &self.scratch.received,
            &mut self.components,
            &mut self.agenda,
            &mut self.record,
            &mut self.undo.before,
        )?;
        outer(
            self.alloc,
            tables,
            &instant,
            emitted,
            &mut self.scratch.carried,
            &mut self.record,
        )?;
        self.undo.taken = Some(now);
        Ok(())
    }

    /// Appends the events of what the components send on the outgoing link at an index, at the time
    /// of the last `emit`.
    ///
    /// # Errors
    ///
    /// No memory. Some events may have been added.
    pub fn send(&self, index: usize, now: Time, into: &mut Vec<Event>) -> Result<(), AllocError>
        requires { IsKept A.behaviour A.fits A.comes self.now }
        ensures { OnOk result ((out : Outgoing)
            → slice_get (view_by A.behaviour R.told self.now).share.outgoing index ≡ Some out
            → meant_events into.new.items ≡ meant_events into.old.items
            ++ map (event_of now)
            (carried_away (view_by A.behaviour R.told self.now) out.links (sent_of self.now))) }
    {
        let ways = self.share.ways.as_slice();
        if index >= ways.len() {
            return Ok(());
        }
        let members = self.share.tables.members.as_slice();
        let emitted = self.emitted.as_slice();
        let deliveries = away(self.alloc, members, &ways[index].links, emitted)?;
        add_events(into, now, &deliveries)
    }

    /// Makes all changes final: empties the undo log, and removes the arrivals of the committed
    /// time.
    #[inline(always)]
    pub fn settle(&mut self)
        requires { IsKept A.behaviour A.fits A.comes self.old }
        ensures kept { IsKept A.behaviour A.fits A.comes self.new }
        ensures view { view_by A.behaviour R.told self.new ≡ view_by A.behaviour R.told self.old }
        ensures settled { settled_by A.behaviour R.settled self.new
            ≡ view_by A.behaviour R.told self.old }
        ensures at_rest { IsAtRest R.told R.settled self.new }
        ensures visits { self.new.components.visits ≡ self.old.components.visits }
        ensures handed { R.handed self.new.record ≡ R.handed self.old.record }
    {
        let_go(&mut self.inbox, self.undo.taken);
        self.undo.taken = None;
        self.undo.before.clear();
        self.record.settle();
    }

    /// Takes back all changes since the last `settle`, but no count of visits.
    pub fn roll_back(&mut self)
        requires { IsKept A.behaviour A.fits A.comes self.old }
        ensures kept { IsKept A.behaviour A.fits A.comes self.new }
        ensures view { view_by A.behaviour R.told self.new
            ≡ settled_by A.behaviour R.settled self.old }
        ensures settled { settled_by A.behaviour R.settled self.new
            ≡ settled_by A.behaviour R.settled self.old }
        ensures visits { self.new.components.visits ≡ self.old.components.visits }
        ensures handed { R.handed self.new.record ≡ R.handed self.old.record }
    {
        put_all_back(
            &mut self.components,
            &mut self.agenda,
            &mut self.undo.before,
        );
        self.record.roll_back();
        self.emitted_at = None;
        self.undo.taken = None;
    }

    /// Discards the bytes of the record, which were handed over. All has to be settled.
    pub fn let_go(&mut self)
        requires kept { IsKept A.behaviour A.fits A.comes self.old }
        requires settled { settled_by A.behaviour R.settled self.old
            ≡ view_by A.behaviour R.told self.old }
        ensures kept { IsKept A.behaviour A.fits A.comes self.new }
        ensures view { view_by A.behaviour R.told self.new ≡ view_by A.behaviour R.told self.old }
        ensures settled { settled_by A.behaviour R.settled self.new
            ≡ settled_by A.behaviour R.settled self.old }
        ensures visits { self.new.components.visits ≡ self.old.components.visits }
        ensures handed { R.handed self.new.record ≡ record (R.handed self.old.record) {
          text = (R.handed self.old.record).text_of (R.told self.old.record);
        } }
    {
        self.record.let_go();
    }
}

impl<A: Atomic, R: Record> LocalState<A, R> {
    /// How many bytes the lines have that were committed and not handed over yet.
    pub fn rest_length<N: OfJob>(&self) -> usize
    where
        R: HandsOver<N>,
        ensures { result ≡ rest_length N.line (R.handed self.now.record).past
            (R.told self.now.record) }
    {
        self.record.rest_length()
    }

    /// Moves out what was committed and not handed over yet, as lines. All has to be settled.
    pub fn hand_over<N: OfJob>(&mut self) -> WrittenPart<N>
    where
        R: HandsOver<N>,
        requires kept { IsKept A.behaviour A.fits A.comes self.old }
        requires settled { settled_by A.behaviour R.settled self.old
            ≡ view_by A.behaviour R.told self.old }
        ensures kept { IsKept A.behaviour A.fits A.comes self.new }
        ensures view { view_by A.behaviour R.told self.new ≡ view_by A.behaviour R.told self.old }
        ensures settled { settled_by A.behaviour R.settled self.new
            ≡ settled_by A.behaviour R.settled self.old }
        ensures visits { self.new.components.visits ≡ self.old.components.visits }
        ensures part { R.told self.old.record ≡ joined (R.handed self.old.record).past result }
        ensures handed { R.handed self.new.record ≡ record (R.handed self.old.record) {
          past = R.told self.old.record;
        } }
    {
        self.record.hand_over(self.alloc)
    }
}
