//! One logical process.

ghost use Rattle.std.specs.Prelude.{◌≡◌, ◌<◌, ◌≤◌, ◌⊎◌, ◌&&◌, ◌||◌, ℕ, [], Bool, MatchOption, None, Some, map, IfErr, IfOk};
ghost use Rattle.std.specs.Prelude.{IsTrue, MatchResult, OnErr, OnOk, if◌then◌else◌, length, nat_eq, slice_index_or};
ghost use Rattle.std.specs.List.{list_all};
ghost use Rattle.dv_bag.specs.Part.{joined};
ghost use Rattle.dv_bag.specs.declared.state.State.{State};
ghost use Rattle.dv_conservative.specs.Process.{Outgoing as OutgoingAsMeant, first_time, is_event_of, least_clock, refusal_of, with_packet};
ghost use Rattle.dv_conservative.specs.Sound.{AllNumbers, IsSoundShare};
ghost use Rattle.dv_conservative.specs.Turn.{Done, IsTurnOf, Moved, Waiting, turned};
ghost use Rattle.dv_time.specs.Time.{IsOfRun, rank};
ghost use Rattle.dv_written.specs.Rest.{rest_length};
ghost use Rattle.dv_proc.specs.Accesses.{CountsTurn};
ghost use Rattle.dv_proc.specs.Advancing.{HasRoom};
ghost use Rattle.dv_proc.specs.Arriving.{AreApart, received_by};
ghost use Rattle.dv_proc.specs.Leaving.{position_by, promised_by, standing_by};
ghost use Rattle.dv_proc.specs.Midway.{IsMidway, meant_turned};
ghost use Rattle.dv_proc.specs.declared.outgoing.Outgoing.{Outgoing as OutgoingOfCode};
ghost use Rattle.dv_proc.specs.Packets.{meant_events, meant_packet};
ghost use Rattle.dv_proc.specs.Refusals.{IsByTest, meant_refusal};
ghost use Rattle.dv_proc.specs.Standing.{IsAccepted, IsBegun, IsDue, IsFar, IsProcess, IsStanding};

use crate::advance::{promise_at, step};
use crate::incoming::{Incoming, Refused, index_of, least_clock, new_incoming};
use crate::local::{Local, LocalHandsOver};
use crate::outgoing::{
    Outgoing, are_free, can_prepare_any, finish_all, new_outgoing, out_index_of, standing_on,
};
use crate::packet::{Event, Packet};
use crate::window::{Frame, are_in_order, is_same};
use dv_time::Time;
use dv_written::{OfJob, WrittenPart};
use std::alloc::{AllocError, Global};

/// What a turn did.
#[derive(Clone, Copy, PartialEq, Eq)]
pub enum Turned {
    /// The clock rose, or a packet was prepared.
    Moved,
    /// Nothing changed, and nothing will until a packet arrives or one is taken.
    Waiting,
    /// The clock is at the end, and no packet is waiting on a link.
    Done,
}

/// One logical process.
#[derive(Drop)]
pub struct Process<L: Local> {
    /// The components, and the links between them.
    pub local: L,
    /// The links that lead here.
    pub incoming: Vec<Incoming>,
    /// The links that lead away.
    pub outgoing: Vec<Outgoing>,
    /// All instants before it are committed.
    pub clock: Time,
    /// Where memory comes from.
    pub alloc: Global,
}

impl<L: Local> Process<L> {
    /// A process at 0.0 that has received and sent nothing, of components as a run begins, with the
    /// numbers of its incoming and outgoing links.
    ///
    /// # Errors
    ///
    /// No memory for the lists of links.
    pub fn new(
        alloc: Global,
        local: L,
        incoming: &[u32],
        outgoing: &[u32],
    ) -> Result<Self, AllocError>
    where
        L: Drop,
        requires settled { L.settled local ≡ L.view local }
        requires begun { IsBegun (L.view local) }
        requires unvisited { L.visits local ≡ 0 }
        requires sound { (fits : ℕ → State → Bool) × IsSoundShare fits (L.view local).share }
        requires linked { (L.view local).share.incoming ≡ incoming.now }
        requires away { map (λ (o : OutgoingAsMeant). o.number) (L.view local).share.outgoing
            ≡ outgoing.now }
        requires apart_in { AreApart incoming.now }
        requires apart_out { AreApart outgoing.now }
        ensures process { IfOk result (λ p. IsProcess (L.view p.local) p.incoming.items
            p.outgoing.items p.clock) }
        ensures settled { IfOk result (λ p. L.settled p.local ≡ L.view p.local) }
        ensures local { IfOk result (λ p. p.local ≡ local) }
        ensures received { IfOk result (λ p. (l : ℕ) → received_by p.incoming.items l ≡ []) }
        ensures standing { IfOk result (λ p. (l : ℕ) → standing_by p.outgoing.items l ≡ None) }
        ensures promised { IfOk result (λ p. (l : ℕ) → promised_by p.outgoing.items l
            ≡ first_time) }
        ensures clock { IfOk result (λ p. p.clock ≡ first_time) }
        ensures visits { IfOk result (λ p. L.visits p.local ≡ 0) }
    {
        let incoming = new_incoming(alloc, incoming)?;
        let outgoing = new_outgoing(alloc, outgoing)?;
        Ok(Process {
            local,
            incoming,
            outgoing,
            clock: Time::ZERO,
            alloc,
        })
    }

    /// The clock: every instant before it is committed.
    pub fn clock(&self) -> Time
        ensures { result ≡ self.now.clock }
    {
        self.clock
    }

    /// The packet that is prepared on the link with a number, if there is one.
    pub fn out(&self, link: u32) -> Option<&Packet>
        ensures { MatchOption result (standing_by self.now.outgoing.items link ≡ None)
            (λ p. standing_by self.now.outgoing.items link ≡ Some (meant_packet p.now)) }
    {
        standing_on(self.outgoing.as_slice(), link)
    }

    /// Takes the packet that is prepared on the link with a number, if there is one.
    pub fn sent(&mut self, link: u32) -> Option<Packet>
        requires { IsProcess (L.view self.old.local)
            self.old.incoming.items self.old.outgoing.items self.old.clock }
        ensures process { IsProcess (L.view self.new.local)
            self.new.incoming.items self.new.outgoing.items self.new.clock }
        ensures packet { MatchOption result (standing_by self.old.outgoing.items link ≡ None)
            (λ p. standing_by self.old.outgoing.items link ≡ Some (meant_packet p)) }
        ensures free { (l : ℕ) → standing_by self.new.outgoing.items l
            ≡ (if nat_eq l link then None else standing_by self.old.outgoing.items l) }
        ensures promised { (l : ℕ) → promised_by self.new.outgoing.items l
            ≡ promised_by self.old.outgoing.items l }
        ensures local { self.new.local ≡ self.old.local }
        ensures incoming { self.new.incoming ≡ self.old.incoming }
        ensures clock { self.new.clock ≡ self.old.clock }
    {
        match out_index_of(self.outgoing.as_slice(), link) {
            None => None,
            Some(index) => self.outgoing[index].take(),
        }
    }

    /// How many visits of components were counted, 0 in a new process. A turn raises it by at least
    /// the number of entries that it commits, and by at most twice the number of imminent
    /// components, plus the number of components that receive a value, counted over the instants
    /// that it emits or commits. A turn at which nothing is due leaves it as it was. The count is
    /// never taken back: a turn that fails keeps what it added. The count stays at 2^64 - 1 once
    /// there, and then the lower bound no longer holds.
    pub fn visits(&self) -> u64
        ensures { result ≡ L.visits self.now.local }
    {
        self.local.visits()
    }

    /// The record, which was told what was committed.
    pub fn record(&self) -> &L::Record
        ensures told { L.Record.told result.now ≡ (L.view self.now.local).committed }
        ensures handed { L.Record.handed result.now ≡ L.handed self.now.local }
    {
        self.local.record()
    }

    /// Discards the bytes of the record, which were handed over.
    pub fn let_go(&mut self)
        requires process { IsProcess (L.view self.old.local)
            self.old.incoming.items self.old.outgoing.items self.old.clock }
        requires settled { L.settled self.old.local ≡ L.view self.old.local }
        ensures process { IsProcess (L.view self.new.local)
            self.new.incoming.items self.new.outgoing.items self.new.clock }
        ensures settled { L.settled self.new.local ≡ L.view self.new.local }
        ensures view { L.view self.new.local ≡ L.view self.old.local }
        ensures visits { L.visits self.new.local ≡ L.visits self.old.local }
        ensures incoming { self.new.incoming ≡ self.old.incoming }
        ensures outgoing { self.new.outgoing ≡ self.old.outgoing }
        ensures clock { self.new.clock ≡ self.old.clock }
        ensures handed { L.handed self.new.local ≡ record (L.handed self.old.local) {
          text = (L.handed self.old.local).text_of (L.view self.old.local).committed;
        } }
    {
        self.local.let_go();
    }

    /// The record, moved out, and the clock.
    pub fn into_record(self) -> (L::Record, Time)
        ensures told { L.Record.told result.0 ≡ (L.view self.local).committed }
        ensures clock { result.1 ≡ self.clock }
    {
        let Process {
            local,
            incoming: _,
            outgoing: _,
            clock,
            alloc: _,
        } = self;
        (local.into_record(), clock)
    }

    /// Receives a packet.
    ///
    /// # Errors
    ///
    /// The first test that the packet fails, or no memory. The packet is returned with it, and
    /// nothing that contracts see has changed.
    pub fn receive(&mut self, packet: Packet) -> Result<(), (Refused, Packet)>
        requires process { IsProcess (L.view self.old.local)
            self.old.incoming.items self.old.outgoing.items self.old.clock }
        requires settled { L.settled self.old.local ≡ L.view self.old.local }
        ensures process { IsProcess (L.view self.new.local)
            self.new.incoming.items self.new.outgoing.items self.new.clock }
        ensures settled { L.settled self.new.local ≡ L.view self.new.local }
        ensures refused { MatchResult result
            (λ _. refusal_of (L.view self.old.local).share (received_by self.old.incoming.items)
            (meant_packet packet) ≡ None)
            (λ e. refusal_of (L.view self.old.local).share (received_by self.old.incoming.items)
            (meant_packet packet) ≡ meant_refusal e.0) }
        ensures taken { OnOk result (received_by self.new.incoming.items
            ≡ with_packet (received_by self.old.incoming.items) (meant_packet packet)) }
        ensures handed_back { IfErr result (λ e. e.1 ≡ packet) }
        ensures err_received { OnErr result (received_by self.new.incoming.items
            ≡ received_by self.old.incoming.items) }
        ensures err_local { OnErr result (L.view self.new.local ≡ L.view self.old.local) }
        ensures share { (L.view self.new.local).share ≡ (L.view self.old.local).share }
        ensures committed { (L.view self.new.local).committed
            ≡ (L.view self.old.local).committed }
        ensures visits { L.visits self.new.local ≡ L.visits self.old.local }
        ensures clock { self.new.clock ≡ self.old.clock }
        ensures outgoing { self.new.outgoing ≡ self.old.outgoing }
        ensures handed { L.handed self.new.local ≡ L.handed self.old.local }
    {
        let index = match self.test(&packet) {
            Ok(index) => index,
            Err(refused) => return Err((refused, packet)),
        };
        // For the prover alone.
        of_numbers(packet.events.as_slice());
        let Ok(()) = self.local.keep(packet.events.as_slice()) else {
            return Err((Refused::NoMemory, packet));
        };
        self.incoming[index].take(packet);
        Ok(())
    }

    /// Takes a turn. If the clock is before every channel clock, the instant at the clock is
    /// committed, the clock moves to the next time at which something is due, but at most to the
    /// least channel clock, and the components emit there. In any case a packet up to the promise
    /// is prepared on each outgoing link that is free, if that is later than what was promised
    /// before.
    ///
    /// # Errors
    ///
    /// No memory. Nothing that contracts see has changed, but for the count of visits.
    pub fn turn(&mut self, work: &mut L::Work) -> Result<Turned, AllocError>
        requires process { IsProcess (L.view self.old.local)
            self.old.incoming.items self.old.outgoing.items self.old.clock }
        requires settled { L.settled self.old.local ≡ L.view self.old.local }
        ensures process { IsProcess (L.view self.new.local)
            self.new.incoming.items self.new.outgoing.items self.new.clock }
        ensures settled { L.settled self.new.local ≡ L.view self.new.local }
        ensures turn { OnOk result (IsTurnOf (L.view self.old.local).share
            (received_by self.old.incoming.items)
            (position_by self.old.clock self.old.outgoing.items)
            (position_by self.new.clock self.new.outgoing.items)) }
        ensures far { OnOk result (IsFar (L.view self.old.local).share
            (received_by self.old.incoming.items)
            (rank (L.view self.old.local).share.limit self.new.clock)) }
        ensures answer { IfOk result (λ answer. meant_turned answer
            ≡ turned (L.view self.old.local).share
            (position_by self.old.clock self.old.outgoing.items)
            (position_by self.new.clock self.new.outgoing.items)) }
        ensures err_position { OnErr result
            (position_by self.new.clock self.new.outgoing.items
            ≡ position_by self.old.clock self.old.outgoing.items) }
        ensures err_local { OnErr result (L.view self.new.local ≡ L.view self.old.local) }
        ensures share { (L.view self.new.local).share ≡ (L.view self.old.local).share }
        ensures visits { OnOk result (CountsTurn
            (rank (L.view self.old.local).share.limit self.old.clock)
            (rank (L.view self.old.local).share.limit self.new.clock)
            (L.view self.old.local) (L.view self.new.local)
            (L.visits self.old.local) (L.visits self.new.local)) }
        ensures visits_stay { OnOk result (¬ IsDue (L.view self.old.local).share
            (received_by self.old.incoming.items)
            (rank (L.view self.old.local).share.limit self.old.clock)
            → ¬ IsDue (L.view self.old.local).share (received_by self.old.incoming.items)
            (rank (L.view self.old.local).share.limit self.new.clock)
            → L.visits self.new.local ≡ L.visits self.old.local) }
        ensures visits_never_fall { L.visits self.old.local ≤ L.visits self.new.local }
        ensures incoming { self.new.incoming ≡ self.old.incoming }
        ensures handed { L.handed self.new.local ≡ L.handed self.old.local }
    {
        let frame = self.local.frame();
        let least = least_clock(&frame, self.incoming.as_slice());
        if !self.clock.is_before(least) {
            return Ok(self.finish(&frame, least, false, self.clock));
        }
        let Ok(now) = step(
            &mut self.local,
            work,
            &frame,
            least,
            self.clock,
            self.outgoing.as_mut_slice(),
        ) else {
            self.local.roll_back();
            return Err(AllocError);
        };
        self.local.settle();
        Ok(self.finish(&frame, least, now.is_before(frame.end()), now))
    }

    // Ends a turn with the clock at `now`, and prepares packets. Without outgoing links there is no
    // promise to compute.
    #[inline(always)]
    fn finish(&mut self, frame: &Frame, least: Time, emitted: bool, now: Time) -> Turned
        requires limit { frame.now.limit ≡ (L.view self.old.local).share.limit }
        requires horizon { frame.now.horizon ≡ (L.view self.old.local).share.horizon }
        requires of_run { IsOfRun frame.now.limit least }
        requires least { rank frame.now.limit least
            ≡ least_clock (L.view self.old.local).share (received_by self.old.incoming.items) }
        requires midway { IsMidway (L.view self.old.local)
            self.old.incoming.items self.old.outgoing.items emitted now }
        requires room { IsTrue emitted → (j : ℕ) (d : OutgoingOfCode)
            → j < length self.old.outgoing.items
            → HasRoom (slice_index_or self.old.outgoing.items j d) }
        requires clock { IsOfRun frame.now.limit self.old.clock }
        requires heard { rank frame.now.limit self.old.clock ≤ rank frame.now.limit least }
        requires goes { (rank frame.now.limit now ≡ rank frame.now.limit least)
            ⊎ (rank frame.now.limit self.old.clock < rank frame.now.limit now) }
        ensures process { IsProcess (L.view self.new.local)
            self.new.incoming.items self.new.outgoing.items self.new.clock }
        ensures turn { IsTurnOf (L.view self.old.local).share
            (received_by self.old.incoming.items)
            (position_by self.old.clock self.old.outgoing.items)
            (position_by self.new.clock self.new.outgoing.items) }
        ensures answer { meant_turned result
            ≡ turned (L.view self.old.local).share
            (position_by self.old.clock self.old.outgoing.items)
            (position_by self.new.clock self.new.outgoing.items) }
        ensures clock { self.new.clock ≡ now }
        ensures local { self.new.local ≡ self.old.local }
        ensures incoming { self.new.incoming ≡ self.old.incoming }
    {
        let rose = self.clock.is_before(now);
        if self.outgoing.as_slice().is_empty() {
            self.clock = now;
            return answer(!now.is_before(frame.end()), true, rose, false);
        }
        let upto = promise_at(&self.local, frame, least, now);
        let prepared = can_prepare_any(self.outgoing.as_slice(), upto);
        finish_all(self.alloc, self.outgoing.as_mut_slice(), emitted, now, upto);
        self.clock = now;
        let free = are_free(self.outgoing.as_slice());
        answer(!now.is_before(frame.end()), free, rose, prepared)
    }

    // The index of a packet's link, if the packet passes all tests.
    fn test(&self, packet: &Packet) -> Result<usize, Refused>
        requires { IsStanding (L.view self.now.local).share
            self.now.incoming.items self.now.outgoing.items self.now.clock }
        ensures { MatchResult result
            (λ index. IsAccepted (L.view self.now.local).share self.now.incoming.items
            (meant_packet packet.now) index)
            (λ r. (refusal_of (L.view self.now.local).share (received_by self.now.incoming.items)
            (meant_packet packet.now) ≡ meant_refusal r) × IsByTest r) }
    {
        let frame = self.local.frame();
        let Some(index) = index_of(self.incoming.as_slice(), packet.link) else {
            return Err(Refused::NoSuchLink);
        };
        if !is_same(packet.from, self.incoming[index].clock) {
            return Err(Refused::OtherWindow);
        }
        if !frame.is_window(packet.from, packet.upto) {
            return Err(Refused::NoWindow);
        }
        if !are_in_order(packet.events.as_slice()) {
            return Err(Refused::OtherEvent);
        }
        if !are_of_window(&self.local, &frame, packet) {
            return Err(Refused::OtherEvent);
        }
        Ok(index)
    }
}

impl<L: Local> Process<L> {
    /// How many bytes the lines have that were committed and not handed over yet.
    pub fn rest_length<N: OfJob>(&self) -> usize
    where
        L: LocalHandsOver<N>,
        ensures { result ≡ rest_length N.line (L.handed self.now.local).past
            (L.view self.now.local).committed }
    {
        self.local.rest_length()
    }

    /// Moves out what was committed and not handed over yet, as lines.
    pub fn hand_over<N: OfJob>(&mut self) -> WrittenPart<N>
    where
        L: LocalHandsOver<N>,
        requires process { IsProcess (L.view self.old.local)
            self.old.incoming.items self.old.outgoing.items self.old.clock }
        requires settled { L.settled self.old.local ≡ L.view self.old.local }
        ensures process { IsProcess (L.view self.new.local)
            self.new.incoming.items self.new.outgoing.items self.new.clock }
        ensures settled { L.settled self.new.local ≡ L.view self.new.local }
        ensures view { L.view self.new.local ≡ L.view self.old.local }
        ensures visits { L.visits self.new.local ≡ L.visits self.old.local }
        ensures incoming { self.new.incoming ≡ self.old.incoming }
        ensures outgoing { self.new.outgoing ≡ self.old.outgoing }
        ensures clock { self.new.clock ≡ self.old.clock }
        ensures part { (L.view self.old.local).committed
            ≡ joined (L.handed self.old.local).past result }
        ensures handed { L.handed self.new.local ≡ record (L.handed self.old.local) {
          past = (L.view self.old.local).committed;
        } }
    {
        self.local.hand_over()
    }
}

// What a turn did. `ended`: the clock is at the end; `free`: no packet is waiting on a link;
// `rose`: the clock rose; `prepared`: a packet was prepared.
fn answer(ended: bool, free: bool, rose: bool, prepared: bool) -> Turned
    ensures { meant_turned result ≡ (if ended && free then Done
        else if rose || prepared then Moved else Waiting) }
{
    if ended && free {
        Turned::Done
    } else if rose || prepared {
        Turned::Moved
    } else {
        Turned::Waiting
    }
}

// Whether all events are within the window of their packet, and for ports of components here.
fn are_of_window<L: Local>(local: &L, frame: &Frame, packet: &Packet) -> bool
    requires limit { frame.now.limit ≡ (L.view local.now).share.limit }
    requires from { IsOfRun frame.now.limit packet.now.from }
    requires upto { IsOfRun frame.now.limit packet.now.upto }
    ensures { result ≡ list_all (is_event_of (L.view local.now).share (meant_packet packet.now))
        (meant_events packet.now.events.items) }
{
    for event in &packet.events {
        if !frame.is_within(packet.from, packet.upto, event.time)
            || !local.is_port(event.component, event.port)
        {
            return false;
        }
    }
    true
}

// For the prover alone: the values of events are numbers of the language.
fn of_numbers(events: &[Event])
    ensures { AllNumbers (meant_events events.now) }
{
    for event in events {
        let _value = event.number();
    }
}
