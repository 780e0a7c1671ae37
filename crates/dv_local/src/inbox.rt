//! The inbox of a process: what other processes sent, by time.

ghost use Rattle.std.specs.Prelude.{◌≡◌, ◌++◌, ◌<◌, [], List, length, true, if◌then◌else◌, OnOk, OnErr, MatchOption, IfSome, IsTrue, false};
ghost use Rattle.std.specs.FinMap as finite;
ghost use Rattle.dv_agenda.specs.Waits.{same_time};
ghost use Rattle.dv_time.specs.Time.{is_before};
ghost use Rattle.dv_time.specs.declared.time.Time.{Time};
ghost use Rattle.dv_local.specs.Arrivals.{arrivals_at, coming_at};

use crate::by_time::{ByTime, add_run, first_run, take_all_back};
use dv_proc::Event;
use dv_share::Delivery;
use std::alloc::{AllocError, Global};
use std::collections::BTreeMap;
use std::marker::Model;

/// What came from other processes and is not committed yet: the arrivals of each time, in the order
/// in which they came.
#[derive(Drop)]
pub struct Inbox {
    by_time: ByTime,
    alloc: Global,
}

impl Model for Inbox {
    ghost use Rattle.std.specs.FinMap as finite;
    ghost use Rattle.std.specs.Coded.{coded_list};
    ghost use Rattle.dv_time.specs.contracts.time.Time as time;
    ghost use Rattle.dv_share.specs.contracts.link.Delivery as delivery;
    ghost use Rattle.dv_local.specs.Arrivals.{AllFilled, Arrivals, arrivals_of};

    ghost Value = { Arrivals };

    ghost coded = { finite.code time.the_row.coded (coded_list delivery.the_row.coded) };

    ghost view = { λ a. arrivals_of a.by_time };

    ghost invariant = { λ a. AllFilled a.by_time };
}

impl Inbox {
    /// An empty inbox.
    pub fn new(alloc: Global) -> Self
        ensures empty { result ≡ finite.empty }
        ensures nothing { (t : Time) → arrivals_at t result ≡ [] }
    {
        Inbox {
            by_time: BTreeMap::new(alloc),
            alloc,
        }
    }

    /// Whether nothing arrives. In a process without incoming links this saves a search at each
    /// time.
    #[inline]
    pub fn is_empty(&self) -> bool
        ensures { IsTrue result → (t : Time) → arrivals_at t self.now ≡ [] }
    {
        self.by_time.is_empty()
    }

    /// The first time at which something arrives.
    pub fn first(&self) -> Option<dv_time::Time>
        ensures none { MatchOption result ((t : Time) → arrivals_at t self.now ≡ [])
            (λ first. 0 < length (arrivals_at first self.now)) }
        ensures least { MatchOption result ((t : Time) → arrivals_at t self.now ≡ [])
            (λ first. (t : Time) → is_before t first ≡ true → arrivals_at t self.now ≡ []) }
    {
        match self.by_time.first_key_value() {
            Some((time, _)) => Some(*time),
            None => None,
        }
    }

    /// The first time, not before `from`, at which something arrives.
    #[inline]
    pub fn first_from(&self, from: dv_time::Time) -> Option<dv_time::Time>
        ensures there { MatchOption result
            ((t : Time) → is_before t from ≡ false → arrivals_at t self.now ≡ [])
            (λ first. (is_before first from ≡ false) × (0 < length (arrivals_at first self.now))) }
        ensures least { IfSome result (λ first. (t : Time) → is_before t from ≡ false
            → is_before t first ≡ true
            → arrivals_at t self.now ≡ []) }
    {
        if self.is_empty() {
            return None;
        }
        self.searched_from(from)
    }

    // `first_from`, by a search.
    #[inline(never)]
    fn searched_from(&self, from: dv_time::Time) -> Option<dv_time::Time>
        ensures there { MatchOption result
            ((t : Time) → is_before t from ≡ false → arrivals_at t self.now ≡ [])
            (λ first. (is_before first from ≡ false) × (0 < length (arrivals_at first self.now))) }
        ensures least { IfSome result (λ first. (t : Time) → is_before t from ≡ false
            → is_before t first ≡ true
            → arrivals_at t self.now ≡ []) }
    {
        match self.by_time.range(from..).next() {
            Some((time, _)) => Some(*time),
            None => None,
        }
    }

    /// What arrives at a time.
    pub fn at(&self, time: dv_time::Time) -> &[Delivery]
        ensures { result.now ≡ arrivals_at time self.now }
    {
        if self.is_empty() {
            return &[];
        }
        match self.by_time.get(&time) {
            Some(list) => list.as_slice(),
            None => &[],
        }
    }

    /// Adds what events bring, each after what already arrives at its time.
    ///
    /// # Errors
    ///
    /// No memory. The inbox is unchanged.
    pub fn add_all(&mut self, events: &[Event]) -> Result<(), AllocError>
        ensures added { OnOk result ((t : Time)
            → arrivals_at t self.new ≡ arrivals_at t self.old ++ coming_at t events.now) }
        ensures err { OnErr result (self.new ≡ self.old) }
    {
        let mut done = 0;
        while done < events.len() {
            let rest = &events[done..];
            let (time, count) = first_run(rest);
            if add_run(&mut self.by_time, self.alloc, time, &rest[..count]).is_err() {
                take_all_back(&mut self.by_time, &events[..done]);
                return Err(AllocError);
            }
            done += count;
        }
        Ok(())
    }

    /// Removes what arrives at a time.
    #[inline]
    pub fn remove(&mut self, time: dv_time::Time)
        ensures { (t : Time) → arrivals_at t self.new
            ≡ (if same_time time t then [] else arrivals_at t self.old) }
    {
        if self.is_empty() {
            return;
        }
        self.take_out(time);
    }

    // `remove`, by a search.
    #[inline(never)]
    fn take_out(&mut self, time: dv_time::Time)
        ensures { (t : Time) → arrivals_at t self.new
            ≡ (if same_time time t then [] else arrivals_at t self.old) }
    {
        self.by_time.remove(&time);
    }
}
