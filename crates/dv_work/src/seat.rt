//! A process with the ends of its links.

ghost use Rattle.std.specs.List.{list_any};
ghost use Rattle.std.specs.Prelude.{◌≡◌, ◌≢◌, ◌<◌, ◌+◌, ◌++◌, ◌↔◌, false, true, if◌then◌else◌, [], ◌∷◌, length, slice_get, None, Some};
ghost use Rattle.std.specs.Prelude.{IfErr, IsTrue, MatchOption, OnOk, OnErr};
ghost use Rattle.dv_board.specs.Posts.{IsPiece};
ghost use Rattle.dv_link.specs.Carries.{AreTrueOn, IsLinkOf};
ghost use Rattle.dv_proc.specs.Packets.{meant_packet};
ghost use Rattle.dv_work.specs.declared.pause.Pause.TheVariants.{Over, Owing};
ghost use Rattle.dv_work.specs.Ends.{IsIn, IsOut, given, taken};
ghost use Rattle.dv_work.specs.Seats.{HasNull, HasToldAtFirst, IsEmptied, Reports, Sits, holds_packet, stands_in};
ghost use Rattle.dv_work.specs.Seats.{IsAny, KeepsNoneBackAt, NoneIsNew, OthersStay};

use crate::bell::{Bell, Flag};
use crate::pause::Pause;
use crate::post::Stream;
use crate::room::Room;
use dv_board::Piece;
use dv_core::{LogicalProcess, ProcessHandsOver};
use dv_link::{Link, SendPass, TakePass};
use dv_proc::{Packet, Turned};
use dv_time::Time;
use dv_written::OfJob;
use std::alloc::AllocError;
use std::sync::Wait;

/// The end of a link that leads away from a process.
#[derive(Drop)]
pub struct Out {
    /// The number of the link.
    pub number: u32,
    /// The pass that putting needs.
    pub pass: SendPass,
    /// The held packet: one that found no room yet.
    pub held: Option<Packet>,
    /// The worker of the process to which the link leads.
    pub receiver: usize,
}

/// The end of a link that leads to a process.
#[derive(Drop)]
pub struct In {
    /// The number of the link.
    pub number: u32,
    /// The pass that taking needs.
    pub pass: TakePass,
    /// The worker of the process from which the link comes.
    pub sender: usize,
}

/// A process of a worker, with the ends of its links.
#[derive(Drop)]
pub struct Seat<P> {
    /// The number of the process.
    pub number: u32,
    /// The process.
    pub process: P,
    /// The ends of the links that lead away from it.
    pub outs: Vec<Out>,
    /// The ends of the links that lead to it.
    pub ins: Vec<In>,
    /// The time before which all that it committed was posted.
    pub posted: Time,
    /// Whether it is held back.
    pub pause: Pause,
}

/// What the workers of a run share.
#[derive(Drop)]
pub struct Floor<'a, N: OfJob> {
    /// The links of the job, by their numbers.
    pub links: &'a [Link<N>],
    /// The requests for room on the links, by the links' numbers.
    pub rooms: &'a [Room],
    /// Is raised when a worker ends before its processes are done; then the others end too.
    pub flag: &'a Flag,
    /// Where the workers post, and the bells at which they wait.
    pub stream: Stream<'a, N>,
}

// Rings the bell of a worker, if there is one.
fn ring(bells: &[Bell], worker: usize) {
    if let Some(bell) = bells.get(worker) {
        bell.ring();
    }
}

// Asks for room on a link.
fn ask_for_room(rooms: &[Room], link: u32) {
    if let Some(room) = rooms.get(link as usize) {
        room.ask();
    }
}

// Whether the sender of a link asked for room on it since the last call.
fn was_room_asked_for(rooms: &[Room], link: u32) -> bool {
    match rooms.get(link as usize) {
        Some(room) => room.was_asked_for(),
        None => false,
    }
}

// Rings the bell of the worker that sends on a link, if it asked for room.
fn ring_if_asked<N: OfJob>(floor: &Floor<'_, N>, end: &In) {
    if was_room_asked_for(floor.rooms, end.number) {
        ring(floor.stream.bells, end.sender);
    }
}

// Takes the packet at the front of a link, if there is one.
fn take_from<N: OfJob, R: Wait>(rt: &R, links: &[Link<N>], end: &mut In) -> Option<Packet>
    requires end { IsIn links.now end.old }
    requires channel { IsLinkOf N.job end.old.number }
    ensures end { IsIn links.now end.new }
    ensures number { end.new.number ≡ end.old.number }
    ensures taken { MatchOption result (taken end.new ≡ taken end.old)
        (λ p. taken end.new ≡ taken end.old ++ meant_packet p ∷ []) }
    ensures all_true { AreTrueOn N.job end.new.number (taken end.new) }
{
    links[end.number as usize].take(rt, &mut end.pass)
}

// Puts the held packet if the link has room. Returns whether it was put; if not, it is held as
// before.
fn put_held<N: OfJob, R: Wait>(rt: &R, links: &[Link<N>], end: &mut Out) -> bool
    requires end { IsOut links.now end.old }
    requires all_true { AreTrueOn N.job end.old.number (given end.old) }
    ensures end { IsOut links.now end.new }
    ensures number { end.new.number ≡ end.old.number }
    ensures given { given end.new ≡ given end.old }
    ensures held { end.new.held ≡ (if result then None else end.old.held) }
{
    let Some(packet) = end.held.take() else {
        return false;
    };
    match links[end.number as usize].put(rt, &mut end.pass, packet) {
        Ok(()) => return true,
        Err(full) => {
            end.held = Some(full.value);
            return false;
        }
    }
}

// Puts the held packet if the link has room. If not, it asks for room and tries once more, since
// room that came before the request rings no bell. Returns whether the packet was put; if not, it
// is held as before.
fn put_or_ask<N: OfJob, R: Wait>(rt: &R, floor: &Floor<'_, N>, end: &mut Out) -> bool
    requires end { IsOut floor.now.links.now end.old }
    requires all_true { AreTrueOn N.job end.old.number (given end.old) }
    ensures end { IsOut floor.now.links.now end.new }
    ensures number { end.new.number ≡ end.old.number }
    ensures given { given end.new ≡ given end.old }
    ensures held { end.new.held ≡ (if result then None else end.old.held) }
{
    if put_held(rt, floor.links, end) {
        return true;
    }
    if end.held.is_none() {
        return false;
    }
    ask_for_room(floor.rooms, end.number);
    put_held(rt, floor.links, end)
}

impl<P: LogicalProcess> Seat<P> {
    /// Takes the packet at the front of the link at an index, if there is one, and passes it to the
    /// process. Returns whether there was one.
    ///
    /// # Errors
    ///
    /// No memory to keep the packet, which is lost. The process is as before, and what it has
    /// committed stays true.
    pub fn take<N: OfJob, R: Wait>(
        &mut self,
        rt: &R,
        floor: &Floor<'_, N>,
        index: usize,
    ) -> Result<bool, AllocError>
        requires sits { Sits N.job P.state P.handed P.valid floor.now.links.now self.old }
        requires index { index < length self.old.ins.items }
        ensures ok { OnOk result (Sits N.job P.state P.handed P.valid floor.now.links.now self.new) }
        ensures err { OnErr result (Reports N.job P.state P.handed P.valid self.new) }
        ensures ends { length self.new.ins.items ≡ length self.old.ins.items }
        ensures outs { self.new.outs ≡ self.old.outs }
    {
        let end = &mut self.ins[index];
        let Some(packet) = take_from(rt, floor.links, end) else {
            return Ok(false);
        };
        ring_if_asked(floor, end);
        if let Err(_refused) = self.process.receive(packet) {
            return Err(AllocError);
        }
        Ok(true)
    }

    /// Whether a packet is prepared, and not put, for a link that leads away.
    fn has_standing(&self) -> bool
        ensures { result ≡ list_any (stands_in (P.state self.now.process)) self.now.outs.items }
    {
        self.outs
            .iter()
            .any(|end| self.process.out(end.number).is_some())
    }

    /// Updates whether the process is held back, and returns whether it makes a turn. It makes none
    /// if it is held back and owes nothing, or if a packet that it prepared is to be put first.
    pub fn may_turn<N: OfJob>(&mut self, floor: &Floor<'_, N>) -> bool
        requires sits { Sits N.job P.state P.handed P.valid floor.now.links.now self.old }
        ensures sits { Sits N.job P.state P.handed P.valid floor.now.links.now self.new }
        ensures outs { self.new.outs ≡ self.old.outs }
        ensures held_back { result ≡ false → self.new.pause ≢ Over }
        ensures owing { result ≡ false → self.new.pause ≡ Owing
            → list_any (stands_in (P.state self.new.process)) self.new.outs.items ≡ true }
    {
        let is_held_back = floor
            .stream
            .holds_back(self.number, self.pause.holds_back());
        self.pause = self.pause.renewed(is_held_back);
        match self.pause {
            Pause::Over => true,
            Pause::Owing => !self.has_standing(),
            Pause::Told => false,
        }
    }

    /// Makes one turn of the process.
    ///
    /// # Errors
    ///
    /// No memory. The process is as before.
    pub fn turn<N: OfJob>(
        &mut self,
        floor: &Floor<'_, N>,
        work: &mut P::Work,
    ) -> Result<Turned, AllocError>
        requires { Sits N.job P.state P.handed P.valid floor.now.links.now self.old }
        ensures sits { Sits N.job P.state P.handed P.valid floor.now.links.now self.new }
        ensures outs { self.new.outs ≡ self.old.outs }
    {
        let _ = floor.links.len();
        let turned = self.process.turn(work)?;
        self.pause = self.pause.after_a_turn();
        Ok(turned)
    }

    // Holds the packet that is prepared for the link at an index, if none is held there yet.
    fn hold<N: OfJob>(&mut self, floor: &Floor<'_, N>, index: usize)
        requires sits { Sits N.job P.state P.handed P.valid floor.now.links.now self.old }
        requires index { index < length self.old.outs.items }
        ensures sits { Sits N.job P.state P.handed P.valid floor.now.links.now self.new }
        ensures ends { length self.new.outs.items ≡ length self.old.outs.items }
        ensures told { HasToldAtFirst P.state index self.old
            → HasToldAtFirst P.state (index + 1) self.new }
        ensures others { OthersStay index self.old self.new }
        ensures standing { NoneIsNew (P.state self.old.process) (P.state self.new.process) }
        ensures kept { KeepsNoneBackAt IsAny P.state index self.old self.new }
    {
        let _ = floor.links.len();
        let end = &mut self.outs[index];
        let None = end.held else {
            return;
        };
        let Some(_standing) = self.process.out(end.number) else {
            return;
        };
        end.held = Some(self.process.sent(end.number));
    }

    /// Whether the next packet for the link at an index is a null message, and none is held there.
    pub fn has_null(&self, index: usize) -> bool
        requires { index < length self.now.outs.items }
        ensures { (end : Out) → slice_get self.now.outs.items index ≡ Some end
            → (IsTrue result ↔ HasNull (P.state self.now.process) end) }
    {
        let end = &self.outs[index];
        let None = end.held else {
            return false;
        };
        let Some(standing) = self.process.out(end.number) else {
            return false;
        };
        standing.events.is_empty()
    }

    /// Puts the next packet for the link at an index, if there is one and the link has room: the
    /// held packet, or else the prepared one. Returns whether it was put. If not, either all that
    /// the process prepared for this link was put, or its end holds a packet. A prepared packet is
    /// left only if the end held a packet before.
    pub fn put<N: OfJob, R: Wait>(&mut self, rt: &R, floor: &Floor<'_, N>, index: usize) -> bool
        requires sits { Sits N.job P.state P.handed P.valid floor.now.links.now self.old }
        requires index { index < length self.old.outs.items }
        ensures sits { Sits N.job P.state P.handed P.valid floor.now.links.now self.new }
        ensures ends { length self.new.outs.items ≡ length self.old.outs.items }
        ensures told { result ≡ false → HasToldAtFirst P.state index self.old
            → HasToldAtFirst P.state (index + 1) self.new }
        ensures others { OthersStay index self.old self.new }
        ensures standing { NoneIsNew (P.state self.old.process) (P.state self.new.process) }
        ensures kept { KeepsNoneBackAt IsAny P.state index self.old self.new }
    {
        self.hold(floor, index);
        let end = &mut self.outs[index];
        if !put_or_ask(rt, floor, end) {
            return false;
        }
        ring(floor.stream.bells, end.receiver);
        true
    }

    /// Whether an end of a link that leads away holds a packet.
    pub fn holds_packets(&self) -> bool
        ensures { result ≡ list_any holds_packet self.now.outs.items }
    {
        self.outs.iter().any(|end| end.held.is_some())
    }

    /// Shows that what the process has committed is its part of the whole run. It does nothing.
    pub fn account<N: OfJob>(&self, floor: &Floor<'_, N>)
        requires { Sits N.job P.state P.handed P.valid floor.now.links.now self.now }
        ensures { Reports N.job P.state P.handed P.valid self.now }
    {
        let _ = floor.links.len();
    }

    /// Moves out of the process what it committed since the last call and before its clock.
    pub fn piece<N: OfJob>(&mut self) -> Piece<N>
    where
        P: ProcessHandsOver<N>,
        requires { Reports N.job P.state P.handed P.valid self.old }
        ensures piece { IsPiece N.job result }
        ensures process { result.process ≡ self.old.number }
        ensures from { result.from ≡ self.old.posted }
        ensures clock { result.clock ≡ (P.state self.old.process).position.clock }
        ensures moved { IsEmptied P.state P.handed P.valid self.old self.new }
    {
        let clock = self.process.clock();
        let piece = Piece {
            process: self.number,
            from: self.posted,
            clock,
            part: self.process.hand_over(),
        };
        self.posted = clock;
        piece
    }
}
