//! A wheel of times: each component is in the slot of its wait.

ghost use Rattle.std.specs.Prelude.{◌≡◌, ◌≢◌, ℕ, None, Some, true, false, ◌+◌, ◌*◌, ◌^◌, ◌<◌, ◌≤◌, ◌++◌, IfOk, IsTrue, Option, OnErr, OnOk, List};
ghost use Rattle.std.specs.Prelude.{length, replicate, slice_index_or, slice_set, take};
ghost use Rattle.std.specs.Int.{bit_at};
ghost use Rattle.std.specs.Vec.{vec_capacity, vec_len};
ghost use Rattle.dv_time.specs.declared.time.Time.{Time};
ghost use Rattle.dv_time.specs.Time.{earliest};
ghost use Rattle.dv_agenda.specs.Agendas.{AreHeld, AreIn, HasMore, HasRoom, IsAgenda, IsIn, IsKept, IsKnown};
ghost use Rattle.dv_agenda.specs.Sets.{has};
ghost use Rattle.dv_agenda.specs.Waits.{due_at, ends_at, first_of, without};
ghost use Rattle.dv_agenda.specs.Wheel.{AreFrom, IsFrom, in_slot, slot};

use crate::bits;
use crate::first_wait::{FirstWait, found, if_found};
use crate::hand::Hand;
use crate::least::Least;
use crate::set::Set;
use crate::slot::slot_of;
use crate::wait::{is_due, push_due, wait_at};
use dv_time::{Time, earliest};
use std::alloc::{AllocError, Global};

/// The components by the slots of their waits.
///
/// There are 64 slots for each of the ten low digits of a tick in base 64, and one for all ticks
/// that differ from the present one above these (see `slot_of`).
#[derive(Drop)]
pub(crate) struct Wheel {
    /// The present tick. No component waits for an earlier one.
    pub(crate) present: u64,
    /// The slots that may have a component, as the bits of a word for each level.
    used: [u64; 11],
    /// The components of each slot, with the numbers `slot * span + index`.
    members: Set,
    /// What is known of the least wait in each slot.
    leasts: Vec<Least>,
    /// How many numbers a slot has: a multiple of 64 that is at least the number of components.
    span: usize,
}

/// The earliest of a wait and the waits of the components of a word.
#[inline]
fn least_of_word(
    waits: &[Option<Time>],
    word: u64,
    base: usize,
    least: Option<Time>,
) -> Option<Time>
    requires small { base ≤ 2 ^ 40 }
    requires above { earliest (first_of waits.now) least ≡ first_of waits.now }
    ensures above { earliest (first_of waits.now) result ≡ first_of waits.now }
    ensures below { (p : ℕ) → p < 64 → bit_at word p ≡ 1
        → earliest result (slice_index_or waits.now (base + p) None) ≡ result }
    ensures before { (w : Option Time) → earliest least w ≡ least → earliest result w ≡ result }
{
    let mut rest = word;
    let mut found = least;
    while rest != 0 {
        let index = base + bits::take_least(&mut rest);
        found = earliest(found, wait_at(waits, index));
    }
    found
}

/// Adds the components of a word that wait for a time to a list, in ascending order.
#[inline]
fn gather_word(
    waits: &[Option<Time>],
    word: u64,
    base: usize,
    time: Time,
    into: &mut Vec<u32>,
) -> Result<(), AllocError>
    requires few { length waits.now ≤ 2 ^ 32 }
    requires small { base ≤ 2 ^ 40 }
    requires others { (p : ℕ) → p < 64 → bit_at word p ≡ 0
        → ends_at time (slice_index_or waits.now (base + p) None) ≡ false }
    ensures due { (before : List ℕ)
        → into.old.items ≡ before ++ due_at time (take base waits.now)
        → OnOk result (into.new.items ≡ before ++ due_at time (take (base + 64) waits.now)) }
    ensures capacity { vec_capacity into.old ≤ vec_capacity into.new }
    ensures full { (before : List ℕ)
        → into.old.items ≡ before ++ due_at time (take base waits.now)
        → OnErr result (vec_capacity into.old < length before + length (due_at time waits.now)) }
{
    let mut rest = word;
    while rest != 0 {
        let index = base + bits::take_least(&mut rest);
        push_due(waits, index, time, into)?;
    }
    Ok(())
}

/// Whether the time of a wait has this slot.
#[inline]
fn in_slot(wait: Option<Time>, slot: usize, now: u64) -> bool
    ensures { result ≡ in_slot now slot wait }
{
    match wait {
        Some(time) => slot_of(time.tick, now) == slot,
        None => false,
    }
}

/// The earlier one of the present tick and the tick of a wait.
#[inline]
fn earlier(now: u64, wait: Option<Time>) -> u64
    ensures low { result ≤ now }
    ensures from { IsFrom result wait }
{
    match wait {
        Some(time) => { if time.tick < now { time.tick } else { now } }
        None => now,
    }
}

/// Whether a wait does not end before a tick. A wait for no time does not.
#[inline]
fn is_from(wait: Option<Time>, tick: u64) -> bool
    ensures { IsTrue result → IsFrom tick wait }
{
    match wait {
        Some(time) => time.tick >= tick,
        None => true,
    }
}

impl Wheel {
    /// A wheel for a number of components. None of them waits for a time yet.
    ///
    /// # Errors
    ///
    /// No memory for 641 bits a component and 641 times.
    pub(crate) fn new(alloc: Global, components: u32) -> Result<Self, AllocError>
        ensures { IfOk result (λ wheel. IsKept (replicate components None) wheel) }
    {
        let words = (components as usize + 63) / 64;
        let mut leasts = Vec::new(alloc);
        leasts.resize(641, Least::NOTHING)?;
        let members = Set::new(alloc, 641 * words)?;
        Ok(Wheel {
            present: 0,
            used: [0; 11],
            members,
            leasts,
            span: 64 * words,
        })
    }

    /// Puts a component into the slot of its wait.
    #[inline(always)]
    fn put(&mut self, index: usize, wait: Option<Time>)
        requires room { HasRoom self.old }
        requires index { index < self.old.span }
        ensures room { HasRoom self.new }
        ensures more { HasMore self.old self.new }
        ensures there { IsIn self.new index wait }
        ensures held { (ws : List (Option Time)) → slice_index_or ws index None ≡ wait
            → AreHeld ws self.old → AreHeld ws self.new }
    {
        if let Some(time) = wait {
            let slot = slot_of(time.tick, self.present);
            bits::insert(&mut self.used, slot);
            self.members.insert(slot * self.span + index);
            self.leasts[slot].enter(time);
        }
    }

    /// Puts all components into the slots of their waits.
    fn put_all(&mut self, waits: &[Option<Time>])
        requires room { HasRoom self.old }
        requires fits { length waits.now ≤ self.old.span }
        requires held { AreHeld waits.now self.old }
        ensures room { HasRoom self.new }
        ensures present { self.new.present ≡ self.old.present }
        ensures span { self.new.span ≡ self.old.span }
        ensures there { AreIn waits.now self.new }
        ensures held { AreHeld waits.now self.new }
    {
        for (index, wait) in waits.iter().enumerate() {
            self.put(index, *wait);
        }
    }

    /// Removes all components from the slots of their waits.
    fn take_all(&mut self, waits: &[Option<Time>])
        requires room { HasRoom self.old }
        requires fits { length waits.now ≤ self.old.span }
        ensures room { HasRoom self.new }
        ensures present { self.new.present ≡ self.old.present }
        ensures span { self.new.span ≡ self.old.span }
        ensures gone { (p : ℕ) (t : Time) → slice_index_or waits.now p None ≡ Some t
            → has self.new.members (slot t.tick self.old.present * self.old.span + p) ≡ 0 }
        ensures unused { (p : ℕ) (t : Time) → slice_index_or waits.now p None ≡ Some t
            → has self.new.used (slot t.tick self.old.present) ≡ 0 }
    {
        for (index, wait) in waits.iter().enumerate() {
            if let Some(time) = *wait {
                let slot = slot_of(time.tick, self.present);
                bits::remove(&mut self.used, slot);
                self.members.remove(slot * self.span + index);
            }
        }
    }

    /// Puts all components into their slots again. If a wait is before the present tick, the
    /// present tick goes back to it.
    #[inline(never)]
    pub(crate) fn put_anew(&mut self, waits: &[Option<Time>], wait: Option<Time>)
        requires room { HasRoom self.old }
        requires fits { length waits.now ≤ self.old.span }
        ensures low { self.new.present ≤ self.old.present }
        ensures from { IsFrom self.new.present wait }
        ensures room { HasRoom self.new }
        ensures span { self.new.span ≡ self.old.span }
        ensures there { AreIn waits.now self.new }
        ensures held { AreHeld waits.now self.new }
    {
        self.take_all(waits);
        self.leasts.fill(Least::NOTHING);
        self.present = earlier(self.present, wait);
        self.put_all(waits);
    }

    /// Whether a slot has no component. The word of a component is looked at first, since it mostly
    /// has others.
    #[inline]
    fn is_empty(&self, slot: usize, index: usize) -> bool
        requires room { HasRoom self.now }
        requires slot { slot < 641 }
        requires index { index < self.now.span }
        ensures { IsTrue result → (p : ℕ) → p < self.now.span
            → has self.now.members (slot * self.now.span + p) ≡ 0 }
    {
        if self.members.word((slot * self.span + index) / 64) != 0 {
            return false;
        }
        let base = slot * (self.span / 64);
        let end = base + self.span / 64;
        self.members.next_word(base, end) == end
    }

    /// Removes a component from the slot of its wait. A slot without components is not in use.
    #[inline]
    fn leave(&mut self, index: usize, wait: Option<Time>)
        requires room { HasRoom self.old }
        requires index { index < self.old.span }
        ensures room { HasRoom self.new }
        ensures present { self.new.present ≡ self.old.present }
        ensures span { self.new.span ≡ self.old.span }
        ensures others { (p : ℕ) (w : Option Time) → p < self.old.span → p ≢ index
            → IsIn self.old p w → IsIn self.new p w }
        ensures held { (ws : List (Option Time)) (w : Option Time) → index < length ws
            → slice_index_or ws index None ≡ wait
            → AreHeld ws self.old → AreHeld (slice_set ws index w) self.new }
    {
        if let Some(time) = wait {
            let slot = slot_of(time.tick, self.present);
            self.members.remove(slot * self.span + index);
            if self.is_empty(slot, index) {
                bits::remove(&mut self.used, slot);
                self.leasts[slot] = Least::NOTHING;
            } else {
                self.leasts[slot].leave(time);
            }
        }
    }

    /// Moves a component from the slot of one wait to the slot of another one.
    #[inline(never)]
    pub(crate) fn exchange(&mut self, index: usize, before: Option<Time>, wait: Option<Time>)
        requires room { HasRoom self.old }
        requires index { index < self.old.span }
        ensures present { self.new.present ≡ self.old.present }
        ensures kept { (ws : List (Option Time)) → index < length ws
            → slice_index_or ws index None ≡ before → IsFrom self.old.present wait
            → IsKept ws self.old → IsKept (slice_set ws index wait) self.new }
    {
        self.leave(index, before);
        self.put(index, wait);
    }

    /// Puts a component that is in no slot into the slot of its wait.
    #[inline(always)]
    pub(crate) fn enter(&mut self, index: usize, wait: Option<Time>)
        requires room { HasRoom self.old }
        requires index { index < self.old.span }
        ensures present { self.new.present ≡ self.old.present }
        ensures kept { (ws : List (Option Time)) → index < length ws
            → slice_index_or ws index None ≡ None → IsFrom self.old.present wait
            → IsKept ws self.old → IsKept (slice_set ws index wait) self.new }
    {
        self.put(index, wait);
    }

    /// Changes the wait of a component. If it is before the present tick, the present tick goes
    /// back to it.
    #[inline]
    pub(crate) fn replace(&mut self, waits: &mut [Option<Time>], index: usize, wait: Option<Time>)
        requires kept { IsKept waits.old self.old }
        requires index { index < length waits.old }
        ensures kept { IsKept waits.new self.new }
        ensures waits { waits.new ≡ slice_set waits.old index wait }
    {
        self.leave(index, waits[index]);
        waits[index] = wait;
        if is_from(wait, self.present) {
            self.put(index, wait);
            return;
        }
        self.put_anew(waits, wait);
    }

    /// The least wait of the components in a slot. Old members may be among them, so a wait of
    /// another slot may be the answer.
    #[inline]
    fn least_in(&self, waits: &[Option<Time>], slot: usize) -> Option<Time>
        requires room { HasRoom self.now }
        requires fits { length waits.now ≤ self.now.span }
        requires slot { slot < 641 }
        ensures above { earliest (first_of waits.now) result ≡ first_of waits.now }
        ensures below { (p : ℕ) → p < self.now.span
            → has self.now.members (slot * self.now.span + p) ≡ 1
            → earliest result (slice_index_or waits.now p None) ≡ result }
    {
        let base = slot * (self.span / 64);
        let end = base + self.span / 64;
        let mut least = None;
        let mut at = self.members.next_word(base, end);
        while at < end {
            least = least_of_word(waits, self.members.word(at), 64 * (at - base), least);
            at = self.members.next_word(at + 1, end);
        }
        least
    }

    /// The least wait of a slot, found by a walk through it if it is not known.
    #[inline]
    fn least_of(&self, waits: &[Option<Time>], at: usize) -> Option<Time>
        requires kept { IsKept waits.now self.now }
        requires high { at < 641 }
        ensures above { earliest (first_of waits.now) result ≡ first_of waits.now }
        ensures below { (p : ℕ) (t : Time) → slice_index_or waits.now p None ≡ Some t
            → slot t.tick self.now.present ≡ at → earliest result (Some t) ≡ result }
    {
        match self.leasts[at].known() {
            Some(time) => Some(time),
            None => self.least_in(waits, at),
        }
    }

    /// The first time that a component waits for.
    #[inline(never)]
    pub(crate) fn first(&self, waits: &[Option<Time>]) -> Option<Time>
        requires { IsKept waits.now self.now }
        ensures { result ≡ first_of waits.now }
    {
        let mut slot = bits::next(&self.used, 0, 641);
        while slot < 641 {
            let least = self.least_of(waits, slot);
            if in_slot(least, slot, self.present) {
                return least;
            }
            slot = bits::next(&self.used, slot + 1, 641);
        }
        None
    }

    /// Finds the first wait if it is not known.
    #[inline(always)]
    pub(crate) fn find(&self, waits: &[Option<Time>], first: &mut FirstWait)
        requires kept { IsKept waits.now self.now }
        requires known { IsKnown first.old waits.now }
        ensures known { first.new.known ≡ true }
        ensures wait { first.new.wait ≡ first_of waits.now }
    {
        if !first.known {
            *first = found(self.first(waits));
        }
    }

    /// The first wait, if it can be told without a walk through a slot.
    #[inline]
    pub(crate) fn at_hand(&self) -> FirstWait
        requires { HasRoom self.now }
        ensures { (waits : List (Option Time)) → IsKept waits self.now → IsKnown result waits }
    {
        let at = bits::next(&self.used, 0, 641);
        if at == 641 {
            return found(None);
        }
        if_found(self.leasts[at].known())
    }

    /// Adds the components that wait for a time to a list, in ascending order.
    #[inline(never)]
    pub(crate) fn gather(
        &self,
        waits: &[Option<Time>],
        time: Time,
        into: &mut Vec<u32>,
    ) -> Result<(), AllocError>
        requires kept { IsKept waits.now self.now }
        requires few { length waits.now ≤ 2 ^ 32 }
        ensures due { OnOk result (into.new.items ≡ into.old.items ++ due_at time waits.now) }
        ensures capacity { vec_capacity into.old ≤ vec_capacity into.new }
        ensures full { OnErr result (vec_capacity into.old < vec_len into.old + length
            (due_at time waits.now)) }
    {
        if time.tick < self.present {
            return Ok(());
        }
        let base = slot_of(time.tick, self.present) * (self.span / 64);
        let end = base + self.span / 64;
        let mut at = self.members.next_word(base, end);
        while at < end {
            gather_word(waits, self.members.word(at), 64 * (at - base), time, into)?;
            at = self.members.next_word(at + 1, end);
        }
        Ok(())
    }

    /// Puts the components in hand back into their slots.
    pub(crate) fn take_back(&mut self, waits: &[Option<Time>], first: FirstWait, hand: Hand)
        requires { IsAgenda waits.now self.old first hand }
        ensures { IsKept waits.now self.new }
    {
        if hand.left > 0 {
            self.put_anew(waits, Some(hand.time));
        }
    }

    /// Adds a component to a list if it waits for a time, or else puts it into the slot of its wait.
    #[inline(always)]
    fn part(
        &mut self,
        waits: &[Option<Time>],
        index: usize,
        time: Time,
        into: &mut Vec<u32>,
    ) -> Result<(), AllocError>
        requires room { HasRoom self.old }
        requires index { index < self.old.span }
        requires few { length waits.now ≤ 2 ^ 32 }
        requires held { AreHeld (without time waits.now) self.old }
        ensures room { HasRoom self.new }
        ensures more { HasMore self.old self.new }
        ensures there { OnOk result
            (IsIn self.new index (slice_index_or (without time waits.now) index None)) }
        ensures held { AreHeld (without time waits.now) self.new }
        ensures due { (before : List ℕ)
            → into.old.items ≡ before ++ due_at time (take index waits.now)
            → OnOk result (into.new.items ≡ before ++ due_at time (take (index + 1) waits.now)) }
        ensures capacity { vec_capacity into.old ≤ vec_capacity into.new }
        ensures full { (before : List ℕ)
            → into.old.items ≡ before ++ due_at time (take index waits.now)
            → OnErr result (vec_capacity into.old < length before + length
            (due_at time waits.now)) }
    {
        if is_due(waits, index, time) {
            return push_due(waits, index, time, into);
        }
        self.put(index, wait_at(waits, index));
        Ok(())
    }

    /// Adds the components of a word that wait for a time to a list, in ascending order, and puts
    /// the others into the slots of their waits.
    #[inline(always)]
    fn part_word(
        &mut self,
        waits: &[Option<Time>],
        word: u64,
        base: usize,
        time: Time,
        into: &mut Vec<u32>,
    ) -> Result<(), AllocError>
        requires room { HasRoom self.old }
        requires within { base + 64 ≤ self.old.span }
        requires few { length waits.now ≤ 2 ^ 32 }
        requires held { AreHeld (without time waits.now) self.old }
        requires others { (p : ℕ) → p < 64 → bit_at word p ≡ 0
            → ends_at time (slice_index_or waits.now (base + p) None) ≡ false }
        ensures room { HasRoom self.new }
        ensures more { HasMore self.old self.new }
        ensures there { OnOk result ((p : ℕ) → p < 64 → bit_at word p ≡ 1
            → IsIn self.new (base + p) (slice_index_or (without time waits.now) (base + p) None)) }
        ensures held { AreHeld (without time waits.now) self.new }
        ensures due { (before : List ℕ)
            → into.old.items ≡ before ++ due_at time (take base waits.now)
            → OnOk result (into.new.items ≡ before ++ due_at time (take (base + 64) waits.now)) }
        ensures capacity { vec_capacity into.old ≤ vec_capacity into.new }
        ensures full { (before : List ℕ)
            → into.old.items ≡ before ++ due_at time (take base waits.now)
            → OnErr result (vec_capacity into.old < length before + length
            (due_at time waits.now)) }
    {
        let mut rest = word;
        while rest != 0 {
            let index = base + bits::take_least(&mut rest);
            self.part(waits, index, time, into)?;
        }
        Ok(())
    }

    /// Moves the present tick on to the tick of a time before which no component waits.
    ///
    /// The components in the slot of that tick leave it: those that wait for the time are added to
    /// a list, in ascending order, and the others move to the slots that they have then.
    ///
    /// # Errors
    ///
    /// No memory for the list. The components of the slot may be in no slot then.
    pub(crate) fn take_due(
        &mut self,
        waits: &[Option<Time>],
        time: Time,
        into: &mut Vec<u32>,
    ) -> Result<(), AllocError>
        requires kept { IsKept waits.now self.old }
        requires few { length waits.now ≤ 2 ^ 32 }
        requires on { self.old.present ≤ time.tick }
        requires from { AreFrom waits.now time.tick }
        ensures kept { OnOk result (IsKept (without time waits.now) self.new) }
        ensures room { HasRoom self.new }
        ensures present { self.new.present ≡ time.tick }
        ensures span { self.new.span ≡ self.old.span }
        ensures due { OnOk result (into.new.items ≡ into.old.items ++ due_at time waits.now) }
        ensures capacity { vec_capacity into.old ≤ vec_capacity into.new }
        ensures full { OnErr result (vec_capacity into.old < vec_len into.old + length
            (due_at time waits.now)) }
    {
        let slot = slot_of(time.tick, self.present);
        self.present = time.tick;
        bits::remove(&mut self.used, slot);
        self.leasts[slot] = Least::NOTHING;
        let base = slot * (self.span / 64);
        let end = base + self.span / 64;
        let mut at = self.members.next_word(base, end);
        while at < end {
            let (word, next) = self.members.take_word(at, end);
            self.part_word(waits, word, 64 * (at - base), time, into)?;
            at = next;
        }
        Ok(())
    }
}
