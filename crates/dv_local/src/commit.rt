//! How the components react at an instant, and the record is told.

ghost use Rattle.std.specs.Prelude.{◌≡◌, ◌<◌, ◌≤◌, ◌+◌, ◌++◌, ◌∷◌, [], List, Some, OnErr, OnOk, length, slice_get, slice_set};
ghost use Rattle.dv_bag.specs.Bag.{Counts};
ghost use Rattle.dv_devs.specs.Network.{entry_of};
ghost use Rattle.dv_proc.specs.Accesses.{IsCounted};
ghost use Rattle.dv_react.specs.Components.{rank_of};
ghost use Rattle.dv_react.specs.Outcomes.{sent_of};
ghost use Rattle.dv_react.specs.declared.running.Running.{Running as RunningOfCode};
ghost use Rattle.dv_record.specs.Told.{IsOpenAt};
ghost use Rattle.dv_share.specs.Indices.{AreRising, IsNext, indices_of};
ghost use Rattle.dv_share.specs.Rows.{number_of};
ghost use Rattle.dv_share.specs.Share.{AreComponents, AreEmitted, AreTables, StandByIndex, given_at};
ghost use Rattle.dv_share.specs.declared.index.Indexed.{Indexed as IndexedOfCode};
ghost use Rattle.dv_local.specs.Commits.{HasReacted, HaveReacted, IsGivenAt, what_by};
ghost use Rattle.dv_local.specs.Undoing.{AreWithin, undone, waits_of};

use crate::components::Components;
use crate::former::Former;
use crate::moment::Moment;
use crate::undo::time_of;
use dv_agenda::Agenda;
use dv_bag::State;
use dv_react::{Atomic, Happened};
use dv_record::Record;
use dv_share::{Received, Visit, next_cursor, sent_at};
use std::alloc::AllocError;

/// Lets the components that emitted something or receive a value react, one after the other. Each
/// is visited once. The record is told what happens, and components that change are logged in
/// `before` as they were.
///
/// # Errors
///
/// No memory. Some components may have reacted: to take that back, those in `before` are to be put
/// back, the last one first.
pub(crate) fn commit<A: Atomic, R: Record>(
    moment: &Moment<'_, A>,
    work: &mut A::Work,
    received: &Received,
    components: &mut Components,
    agenda: &mut Agenda,
    to: &mut R,
    before: &mut Former,
) -> Result<(), AllocError>
    requires tables { AreTables A.fits moment.now.tables.now }
    requires limit { moment.now.instant.now.limit ≡ moment.now.tables.now.limit }
    requires components { AreComponents A.fits moment.now.tables.now components.old.running }
    requires comes { (a : A) (bags : List Counts) → A.comes a bags }
    requires emitted { AreEmitted A.behaviour moment.now.tables.now (rank_of moment.now.instant.now)
        components.old.running moment.now.emitted.now }
    requires received { StandByIndex (length moment.now.tables.now.members.items)
        received.now.items }
    requires agenda { agenda.old ≡ waits_of components.old.running }
    requires within { AreWithin (length components.old.running) before.old }
    requires nothing { moment.now.nothing.now ≡ [] }
    requires is_open { IsOpenAt moment.now.instant.now.time (R.told to.old) }
    ensures reacted { OnOk result (HaveReacted A.behaviour A.fits moment.now.tables.now
        (rank_of moment.now.instant.now) components.old.running moment.now.emitted.now
        received.now.items (indices_of received.now.items) components.new.running
        (R.told to.old).entries (R.told to.new).entries) }
    ensures components { AreComponents A.fits moment.now.tables.now components.new.running }
    ensures agenda { agenda.new ≡ waits_of components.new.running }
    ensures within { AreWithin (length components.new.running) before.new }
    ensures before { undone before.new components.new.running
        ≡ undone before.old components.old.running }
    ensures visits { OnOk result (IsCounted (length received.now.items) (length received.now.items)
        components.old.visits components.new.visits) }
    ensures never_fall { components.old.visits ≤ components.new.visits }
    ensures count { length before.new + length (R.told to.old).entries
        ≡ length before.old + length (R.told to.new).entries }
    ensures outer { (R.told to.new).outer ≡ (R.told to.old).outer }
    ensures is_open { IsOpenAt moment.now.instant.now.time (R.told to.new) }
    ensures settled { R.settled to.new ≡ R.settled to.old }
    ensures handed { R.handed to.new ≡ R.handed to.old }
{
    let mut cursor = 0;
    for order in 0..received.len() {
        let arrival = received.at(order);
        cursor = next_cursor(moment.emitted, cursor, arrival.index);
        let visit = Visit { arrival, cursor };
        commit_one(moment, work, &visit, components, agenda, to, before)?;
    }
    Ok(())
}

// Visits the component at the index of an arrival and lets it react.
fn commit_one<A: Atomic, R: Record>(
    moment: &Moment<'_, A>,
    work: &mut A::Work,
    visit: &Visit<'_>,
    components: &mut Components,
    agenda: &mut Agenda,
    to: &mut R,
    before: &mut Former,
) -> Result<(), AllocError>
    requires tables { AreTables A.fits moment.now.tables.now }
    requires limit { moment.now.instant.now.limit ≡ moment.now.tables.now.limit }
    requires components { AreComponents A.fits moment.now.tables.now components.old.running }
    requires comes { (a : A) (bags : List Counts) → A.comes a bags }
    requires index { visit.now.arrival.now.index < length moment.now.tables.now.members.items }
    requires rise { AreRising (indices_of moment.now.emitted.now) }
    requires next { IsNext visit.now.arrival.now.index moment.now.emitted.now visit.now.cursor }
    requires given { IsGivenAt A.behaviour moment.now.tables.now (rank_of moment.now.instant.now)
        moment.now.emitted.now components.old.running visit.now.arrival.now.index }
    requires agenda { agenda.old ≡ waits_of components.old.running }
    requires within { AreWithin (length components.old.running) before.old }
    requires nothing { moment.now.nothing.now ≡ [] }
    requires is_open { IsOpenAt moment.now.instant.now.time (R.told to.old) }
    ensures reacted { OnOk result (HasReacted A.behaviour A.fits moment.now.tables.now
        (rank_of moment.now.instant.now) moment.now.emitted.now visit.now.arrival.now
        components.old.running
        components.new.running (R.told to.old).entries (R.told to.new).entries) }
    ensures components { AreComponents A.fits moment.now.tables.now components.new.running }
    ensures agenda { agenda.new ≡ waits_of components.new.running }
    ensures within { AreWithin (length components.new.running) before.new }
    ensures before { undone before.new components.new.running
        ≡ undone before.old components.old.running }
    ensures visits { IsCounted 1 1 components.old.visits components.new.visits }
    ensures count { length before.new + length (R.told to.old).entries
        ≡ length before.old + length (R.told to.new).entries }
    ensures outer { (R.told to.new).outer ≡ (R.told to.old).outer }
    ensures is_open { IsOpenAt moment.now.instant.now.time (R.told to.new) }
    ensures settled { R.settled to.new ≡ R.settled to.old }
    ensures handed { R.handed to.new ≡ R.handed to.old }
{
    components.visit(visit.arrival.index);
    let Some(happened) = components.react_visited(moment, work, visit, before)? else {
        return Ok(());
    };
    let component = components.visited();
    let time = time_of(component.wait);
    match tell(
        moment,
        visit.arrival.index,
        visit.cursor,
        happened,
        &component.state,
        to,
    ) {
        Ok(()) => {
            agenda.set(visit.arrival.index, time);
            Ok(())
        }
        Err(error) => {
            take_back(components, before);
            Err(error)
        }
    }
}

// Puts back the component that was visited last, as it was before it reacted.
fn take_back(components: &mut Components, before: &mut Former)
    requires { components.old.visited < length components.old.running }
    ensures back { (xs : List (IndexedOfCode RunningOfCode)) (x : IndexedOfCode RunningOfCode)
        → before.old ≡ xs ++ x ∷ [] → (before.new ≡ xs) × (components.new.running
        ≡ slice_set components.old.running components.old.visited x.what) }
    ensures visits { components.new.visits ≡ components.old.visits }
{
    if let Some(last) = before.pop() {
        components.replace(last.what);
    }
}

// Tells the record what happened to the component at an index, and what it sent.
fn tell<A, R: Record>(
    moment: &Moment<'_, A>,
    index: u32,
    cursor: usize,
    happened: Happened,
    state: &State,
    to: &mut R,
) -> Result<(), AllocError>
    requires index { index < length moment.now.tables.now.members.items }
    requires rise { AreRising (indices_of moment.now.emitted.now) }
    requires next { IsNext index moment.now.emitted.now cursor }
    requires nothing { moment.now.nothing.now ≡ [] }
    requires is_open { IsOpenAt moment.now.instant.now.time (R.told to.old) }
    ensures entries { OnOk result ((R.told to.new).entries ≡ (R.told to.old).entries
        ++ entry_of moment.now.instant.now.limit (rank_of moment.now.instant.now)
        (number_of (slice_get moment.now.tables.now.members.items index))
        (Some (what_by happened state.now, sent_of (given_at index moment.now.emitted.now)))) }
    ensures outer { (R.told to.new).outer ≡ (R.told to.old).outer }
    ensures err { OnErr result (R.told to.new ≡ R.told to.old) }
    ensures is_open { IsOpenAt moment.now.instant.now.time (R.told to.new) }
    ensures settled { R.settled to.new ≡ R.settled to.old }
    ensures handed { R.handed to.new ≡ R.handed to.old }
{
    let component = moment.tables.members[index as usize].number;
    let sent = sent_at(moment.emitted, cursor, index, moment.nothing);
    let time = moment.instant.time;
    match happened {
        Happened::Transition(kind) => to.moved(time, component, kind, state, sent),
        Happened::Fault(fault) => to.faulted(time, component, fault, sent),
    }
}
