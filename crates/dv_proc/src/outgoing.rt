//! The links that lead away from a process, with the events and the packet that wait on each.

ghost use Rattle.std.specs.Prelude.{◌≡◌, ◌<◌, ◌≤◌, ◌+◌, ◌++◌, [], ℕ, IfOk, IfSome, IsTrue, MatchOption, None, OnOk, Some};
ghost use Rattle.std.specs.Prelude.{if◌then◌else◌, is_none, length, slice_index_or, vec_capacity, vec_len};
ghost use Rattle.std.specs.List.{list_all, list_any};
ghost use Rattle.dv_time.specs.Time.{is_before};
ghost use Rattle.dv_proc.specs.Leaving.{AreNewOutgoing, is_prepared, out_index_from, standing_by};
ghost use Rattle.dv_proc.specs.Advancing.{AreBeside, HasRoom, IsFinished, IsFresh, IsSameLink};
ghost use Rattle.dv_proc.specs.Packets.{meant_packet};
ghost use Rattle.dv_proc.specs.declared.outgoing.Outgoing.{Outgoing};

use crate::local::Local;
use crate::packet::{Event, Packet};
use dv_time::Time;
use std::alloc::{AllocError, Global};
use std::mem;

/// A link that leads away. At most one packet is prepared on it at a time.
#[derive(Drop)]
pub struct Outgoing {
    /// The number of the link.
    pub number: u32,
    /// The packet that was prepared and not taken yet.
    pub standing: Option<Packet>,
    /// Where the window of the last prepared packet ends.
    pub promised: Time,
    /// The events that are in no packet yet.
    pub pending: Vec<Event>,
    /// The events of the time that was computed last.
    pub fresh: Vec<Event>,
}

impl Outgoing {
    // Moves what was computed to the pending events, unless a packet for its time was already
    // prepared. There is room: `fill` made it.
    fn keep_fresh(&mut self, now: Time)
        requires { vec_len self.old.pending + vec_len self.old.fresh
            ≤ vec_capacity self.old.pending }
        ensures number { self.new.number ≡ self.old.number }
        ensures standing { self.new.standing ≡ self.old.standing }
        ensures promised { self.new.promised ≡ self.old.promised }
        ensures pending { self.new.pending.items
            ≡ (if is_before now self.old.promised then self.old.pending.items
            else self.old.pending.items ++ self.old.fresh.items) }
    {
        if now.is_before(self.promised) {
            return;
        }
        if self
            .pending
            .extend_from_slice(self.fresh.as_slice())
            .is_err()
        {
            unreachable!("room was made");
        }
    }

    /// Computes what is sent at a time on the link, which is the one at an index, and reserves room
    /// for it among the pending events.
    ///
    /// # Errors
    ///
    /// No memory for the events.
    pub fn fill<L: Local>(&mut self, local: &L, index: usize, now: Time) -> Result<(), AllocError>
        ensures same { IsSameLink self.old self.new }
        ensures fresh { OnOk result
            (IsFresh (L.view local.now) (L.sent local.now) now index self.new) }
    {
        self.fresh.clear();
        local.send(index, now, &mut self.fresh)?;
        self.pending.reserve(self.fresh.len())
    }

    /// Takes the prepared packet, if there is one.
    pub fn take(&mut self) -> Option<Packet>
        ensures packet { result ≡ self.old.standing }
        ensures number { self.new.number ≡ self.old.number }
        ensures standing { self.new.standing ≡ None }
        ensures promised { self.new.promised ≡ self.old.promised }
        ensures pending { self.new.pending.items ≡ self.old.pending.items }
    {
        self.standing.take()
    }

    /// Whether a packet up to a time can be prepared: none is waiting, and the time is later than
    /// what was promised.
    pub fn can_prepare(&self, upto: Time) -> bool
        ensures { result ≡ is_prepared upto self.now }
    {
        self.standing.is_none() && self.promised.is_before(upto)
    }

    /// Ends a turn: what was computed at `now` becomes pending, if the components `emitted`, and a
    /// packet up to the promise `upto` is prepared, if it can be.
    pub fn finish(&mut self, alloc: Global, emitted: bool, now: Time, upto: Time)
        requires { IsTrue emitted → vec_len self.old.pending + vec_len self.old.fresh
            ≤ vec_capacity self.old.pending }
        ensures { IsFinished emitted now upto self.old self.new }
    {
        if emitted {
            self.keep_fresh(now);
        }
        self.prepare(alloc, upto);
    }

    // Prepares the packet of the next window up to a time, with all pending events, if it can be.
    fn prepare(&mut self, alloc: Global, upto: Time)
        ensures number { self.new.number ≡ self.old.number }
        ensures promised { self.new.promised
            ≡ (if is_prepared upto self.old then upto else self.old.promised) }
        ensures pending { self.new.pending.items
            ≡ (if is_prepared upto self.old then [] else self.old.pending.items) }
        ensures standing { self.new.standing ≡ (if is_prepared upto self.old
            then Some (record {
              link = self.old.number;
              from = self.old.promised;
              upto = upto;
              events = self.old.pending;
            })
            else self.old.standing) }
    {
        if !self.can_prepare(upto) {
            return;
        }
        let events = mem::replace(&mut self.pending, Vec::new(alloc));
        self.standing = Some(Packet {
            link: self.number,
            from: self.promised,
            upto,
            events,
        });
        self.promised = upto;
    }
}

/// Computes what is sent at a time on all links, and reserves room for it among the pending events.
///
/// # Errors
///
/// No memory for the events.
pub fn fill_all<L: Local>(local: &L, outgoing: &mut [Outgoing], now: Time) -> Result<(), AllocError>
    ensures same { AreBeside (λ j. IsSameLink) outgoing.old outgoing.new }
    ensures fresh { OnOk result ((j : ℕ) (d : Outgoing) → j < length outgoing.old
        → IsFresh (L.view local.now) (L.sent local.now) now j (slice_index_or outgoing.new j d)) }
{
    for index in 0..outgoing.len() {
        outgoing[index].fill(local, index, now)?;
    }
    Ok(())
}

/// Calls `finish` for all links.
pub fn finish_all(alloc: Global, outgoing: &mut [Outgoing], emitted: bool, now: Time, upto: Time)
    requires { IsTrue emitted → (j : ℕ) (d : Outgoing) → j < length outgoing.old
        → HasRoom (slice_index_or outgoing.old j d) }
    ensures { AreBeside (λ j. IsFinished emitted now upto) outgoing.old outgoing.new }
{
    for index in 0..outgoing.len() {
        outgoing[index].finish(alloc, emitted, now, upto);
    }
}

/// Whether a packet can be prepared on any link.
pub fn can_prepare_any(outgoing: &[Outgoing], upto: Time) -> bool
    ensures { result ≡ list_any (is_prepared upto) outgoing.now }
{
    outgoing.iter().any(|link| link.can_prepare(upto))
}

/// Whether no packet is waiting on any link.
pub fn are_free(outgoing: &[Outgoing]) -> bool
    ensures { result ≡ list_all (λ o. is_none o.standing) outgoing.now }
{
    outgoing.iter().all(|link| link.standing.is_none())
}

/// Links with these numbers as a run begins: nothing was sent, and 0.0 is promised.
///
/// # Errors
///
/// No memory for the list.
pub fn new_outgoing(alloc: Global, numbers: &[u32]) -> Result<Vec<Outgoing>, AllocError>
    ensures { IfOk result (λ links. AreNewOutgoing numbers.now links.items) }
{
    let mut links = Vec::with_capacity(alloc, numbers.len())?;
    for number in numbers {
        links.push(Outgoing {
            number: *number,
            standing: None,
            promised: Time::ZERO,
            pending: Vec::new(alloc),
            fresh: Vec::new(alloc),
        })?;
    }
    Ok(links)
}

/// The packet that is prepared on the link with a number, if there is one.
pub fn standing_on(outgoing: &[Outgoing], number: u32) -> Option<&Packet>
    ensures { MatchOption result (standing_by outgoing.now number ≡ None)
        (λ p. standing_by outgoing.now number ≡ Some (meant_packet p.now)) }
{
    for link in outgoing {
        if number == link.number {
            return link.standing.as_ref();
        }
    }
    None
}

/// The index of the link with a number.
pub fn out_index_of(outgoing: &[Outgoing], number: u32) -> Option<usize>
    ensures index { result ≡ out_index_from 0 number outgoing.now }
    ensures within { IfSome result (λ index. index < length outgoing.now) }
{
    for (index, link) in outgoing.iter().enumerate() {
        if number == link.number {
            return Some(index);
        }
    }
    None
}
