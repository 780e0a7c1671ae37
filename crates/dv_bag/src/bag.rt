//! Bags of values.

ghost use Rattle.std.specs.Cmp.{decided, partial_equiv_from_equiv};
ghost use Rattle.std.specs.Prelude.{◌≡◌, ◌<◌, ◌≤◌, ◌*◌, ◌^◌, ◌*ℤ◌, ◌≤ℤ◌, neg_ℤ, pos, ◌↔◌, [], length, nat_eq};
ghost use Rattle.std.specs.Prelude.{unwrap_or, IfOk, IfErr, IfSome, OnOk, OnErr, IsOk, IsTrue};
ghost use Rattle.std.specs.Option.{option_copied};
ghost use Rattle.dv_bag.specs.Bag.{IsBag, count_of, least, most, index_of, size, sum_or_overflow, total};
ghost use Rattle.dv_bag.specs.Bag.{union, with_copies, without_one};
ghost use Rattle.dv_bag.specs.Same.{same_bag, same_bag-decides};
ghost use Rattle.dv_bag.specs.Numbers.{IsBagOfNumbers};
ghost use Rattle.dv_bag.specs.Limits.{greatest_count};

use crate::fault::Fault;
use crate::limits::room_at_once;
use crate::merge::merged;
use crate::put::put;
use smallvec::SmallVec;
use std::alloc::{AllocError, Global};
use std::default::MadeWith;
use std::marker::Model;

/// A bag of whole numbers. It stores copies of one value inline.
#[derive(Drop)]
pub struct Bag {
    pairs: SmallVec<(i64, u64), 1>,
}

impl Model for Bag {
    ghost use Rattle.dv_bag.specs.Bag.{Counts, IsBag};

    ghost Value = { Counts };

    ghost view = { λ b. b.pairs.items };

    ghost invariant = { λ b. IsBag b.pairs.items };
}

impl Bag {
    /// The empty bag, which takes no memory.
    pub fn new(alloc: Global) -> Self
        ensures { result ≡ [] }
    {
        Bag {
            pairs: SmallVec::new(alloc),
        }
    }

    /// A bag of `copies` copies of a value. It takes no memory.
    #[inline]
    pub fn of_copies(alloc: Global, value: i64, copies: u64) -> Self
        requires { 0 < copies }
        ensures { result ≡ with_copies value copies [] }
    {
        Bag {
            pairs: SmallVec::from_buf(alloc, [(value, copies)]),
        }
    }

    /// Adds a copy of a value.
    ///
    /// # Errors
    ///
    /// No memory for a value that the bag lacks. The bag is as before.
    pub fn insert(&mut self, value: i64) -> Result<(), AllocError>
        ensures ok { OnOk result (self.new ≡ with_copies value 1 self.old) }
        ensures err { OnErr result (self.new ≡ self.old) }
        ensures present { 0 < count_of value self.old → IsOk result }
    {
        self.insert_copies(value, 1)
    }

    /// Adds `copies` copies of a value. Zero copies change nothing.
    ///
    /// # Errors
    ///
    /// No memory for a value that the bag lacks. The bag is as before.
    #[inline]
    pub fn insert_copies(&mut self, value: i64, copies: u64) -> Result<(), AllocError>
        ensures ok { OnOk result (self.new ≡ with_copies value copies self.old) }
        ensures err { OnErr result (self.new ≡ self.old) }
        ensures present { 0 < count_of value self.old → IsOk result }
    {
        if copies == 0 {
            return Ok(());
        }
        add_copies(&mut self.pairs, value, copies)
    }

    /// Makes room for a value that the bag lacks, if there is none: for all values that it may
    /// hold, up to `ROOM_AT_ONCE`.
    ///
    /// # Errors
    ///
    /// No memory for them. The bag is as before.
    #[inline]
    pub(crate) fn make_room(&mut self, capacity: u64) -> Result<(), AllocError>
        ensures { self.new ≡ self.old }
    {
        let count = self.pairs.len();
        if count < self.pairs.capacity() {
            return Ok(());
        }
        let more = room_at_once(capacity).saturating_sub(count);
        self.pairs.reserve_exact(more)
    }

    /// Adds the values of another bag. Takes time and memory for the values of both.
    ///
    /// # Errors
    ///
    /// No memory for the values of both. The bag is as before.
    pub fn union(&mut self, other: &Bag) -> Result<(), AllocError>
        ensures ok { OnOk result (self.new ≡ union self.old other.now) }
        ensures err { OnErr result (self.new ≡ self.old) }
    {
        let alloc = *self.pairs.allocator();
        self.pairs = merged(alloc, self.pairs.as_slice(), other.pairs.as_slice())?;
        Ok(())
    }

    /// Makes this a copy of another bag, with as much capacity. Memory is used again.
    ///
    /// # Errors
    ///
    /// No memory for the capacity of the other bag. This bag is as before.
    pub fn copy_from(&mut self, other: &Bag) -> Result<(), AllocError>
        ensures ok { OnOk result (self.new ≡ other.now) }
        ensures err { OnErr result (self.new ≡ self.old) }
    {
        let room = other.pairs.capacity().max(other.pairs.len());
        self.pairs
            .reserve_exact(room.saturating_sub(self.pairs.len()))?;
        self.pairs.clear();
        self.pairs.extend_from_slice(other.pairs.as_slice())?;
        Ok(())
    }

    /// Removes a copy of a value, if there is one.
    pub fn drop_one(&mut self, value: i64)
        ensures { self.new ≡ without_one value self.old }
    {
        if let Ok(index) = search(self.pairs.as_slice(), value) {
            let present = self.pairs[index].1;
            if present == 1 {
                self.pairs.remove(index);
            } else {
                self.pairs[index] = (value, present - 1);
            }
        }
    }

    /// The number of values, each copy counted. It saturates at 2^64-1.
    #[inline]
    pub fn size(&self) -> u64
        ensures { result ≡ size self.now }
    {
        let mut size: u64 = 0;
        for pair in self.pairs.as_slice() {
            size = size.saturating_add(pair.1);
        }
        size
    }

    /// Whether the bag has no value.
    pub fn is_empty(&self) -> bool
        ensures none { IsTrue result ↔ (self.now ≡ []) }
        ensures size { result ≡ nat_eq (size self.now) 0 }
    {
        self.pairs.is_empty()
    }

    /// The sum of the values, each copy added.
    ///
    /// # Errors
    ///
    /// `Fault::Overflow` where the exact sum is outside -2^63..2^63-1.
    pub fn sum(&self) -> Result<i64, Fault>
        requires { total self.now ≤ greatest_count }
        ensures { result ≡ sum_or_overflow self.now }
    {
        let mut sum: i128 = 0;
        for pair in self.pairs.as_slice() {
            sum += weight(pair.0, pair.1);
        }
        i64::try_from(sum).map_err(|_| Fault::Overflow)
    }

    /// The least value.
    pub fn least(&self) -> Option<i64>
        ensures { result ≡ least self.now }
    {
        match self.pairs.as_slice() {
            [] => None,
            [first, ..] => Some(first.0),
        }
    }

    /// The greatest value.
    pub fn most(&self) -> Option<i64>
        ensures { result ≡ most self.now }
    {
        match self.pairs.as_slice() {
            [] => None,
            [.., last] => Some(last.0),
        }
    }

    /// How often a value is in the bag.
    pub fn times(&self, value: i64) -> u64
        ensures { result ≡ count_of value self.now }
    {
        match search(self.pairs.as_slice(), value) {
            Ok(index) => self.pairs[index].1,
            Err(_) => 0,
        }
    }

    /// States that each value is a number of the language. Does nothing.
    pub fn holds_numbers(&self)
        ensures { IsBagOfNumbers self.now }
    {
        // Each number is known to be one where it is read. An optimized build leaves the loop out.
        for pair in self.pairs.as_slice() {
            let _value = pair.0;
        }
    }

    /// The values in ascending order, each with its number of copies.
    pub fn pairs(&self) -> &[(i64, u64)]
        ensures walk { result.now ≡ self.now }
        ensures bag { IsBag self.now }
    {
        &self.pairs
    }
}

/// How often a number is in a bag, as a number of the language: 0 if there is no bag.
pub fn copies_of(number: i64, bag: Option<&Bag>) -> i64
    requires { IfSome bag (λ bag. total bag.now ≤ greatest_count) }
    ensures { result ≡ pos (count_of number (unwrap_or (option_copied bag.entry) [])) }
{
    match bag {
        Some(bag) => bag.times(number) as i64,
        None => 0,
    }
}

// The index of a value among the pairs, or the index at which it would go in. Usually that is the
// last one or the end.
#[inline]
fn search(pairs: &[(i64, u64)], value: i64) -> Result<usize, usize>
    requires { IsBag pairs.now }
    ensures found { IfOk result (λ index. (index ≡ index_of value pairs.now)
        × (index < length pairs.now) × (0 < count_of value pairs.now)) }
    ensures absent { IfErr result (λ index. (index ≡ index_of value pairs.now)
        × (index ≤ length pairs.now) × (count_of value pairs.now ≡ 0)) }
{
    let [.., last] = pairs else {
        return Err(0);
    };
    if last.0 == value {
        Ok(pairs.len() - 1)
    } else if last.0 < value {
        Err(pairs.len())
    } else {
        search_all(pairs, value)
    }
}

// The index of a value among the pairs, or the index at which it would go in, by binary search.
#[inline(never)]
fn search_all(pairs: &[(i64, u64)], value: i64) -> Result<usize, usize>
    requires { IsBag pairs.now }
    ensures found { IfOk result (λ index. (index ≡ index_of value pairs.now)
        × (index < length pairs.now) × (0 < count_of value pairs.now)) }
    ensures absent { IfErr result (λ index. (index ≡ index_of value pairs.now)
        × (index ≤ length pairs.now) × (count_of value pairs.now ≡ 0)) }
{
    pairs.binary_search_by_key(&value, |&(present, _)| present)
}

// Adds `copies` copies of a value to the pairs. It fails only if there is no memory for a new pair.
#[inline]
fn add_copies(
    pairs: &mut SmallVec<(i64, u64), 1>,
    value: i64,
    copies: u64,
) -> Result<(), AllocError>
    requires bag { IsBag pairs.old.items }
    requires some { 0 < copies }
    ensures ok { OnOk result (pairs.new.items ≡ with_copies value copies pairs.old.items) }
    ensures err { OnErr result (pairs.new ≡ pairs.old) }
    ensures bag { IsBag pairs.new.items }
    ensures present { 0 < count_of value pairs.old.items → IsOk result }
{
    match search(pairs.as_slice(), value) {
        Ok(index) => {
            let pair = &mut pairs[index];
            *pair = (value, pair.1.saturating_add(copies));
            Ok(())
        }
        Err(index) => {
            put(pairs, index, (value, copies))?;
            Ok(())
        }
    }
}

// The sum of `copies` copies of a value.
fn weight(value: i64, copies: u64) -> i128
    ensures product { result ≡ pos copies *ℤ value }
    ensures low { neg_ℤ (pos (2 ^ 63 * copies)) ≤ℤ result }
    ensures high { result ≤ℤ pos (2 ^ 63 * copies) }
{
    i128::from(copies) * i128::from(value)
}

impl MadeWith<Global> for Bag {
    ghost is_made_with = { λ b. b ≡ [] };

    fn made_with(alloc: Global) -> Self {
        Bag::new(alloc)
    }
}

impl Clone for Bag {
    ghost is_clone = { λ b c. c ≡ b };

    fn clone(&self) -> Result<Self, AllocError> {
        Ok(Bag {
            pairs: self.pairs.clone()?,
        })
    }
}

impl PartialEq for Bag {
    ghost eq = { same_bag };

    ghost laws = { partial_equiv_from_equiv (decided same_bag same_bag-decides) };

    fn eq(&self, other: &Self) -> bool {
        self.pairs == other.pairs
    }
}

impl Eq for Bag {
    ghost laws = { decided same_bag same_bag-decides };
}
