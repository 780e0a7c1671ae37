//! Queues of values.

ghost use Rattle.std.specs.Cmp.{decided, partial_equiv_from_equiv};
ghost use Rattle.std.specs.List.{All};
ghost use Rattle.std.specs.Option.{option_copied};
ghost use Rattle.std.specs.Prelude.{◌≡◌, ◌∷◌, ◌++◌, [], drop, length, slice_get, IfOk, IsTrue, OnErr, OnOk};
ghost use Rattle.dv_bag.specs.Bag.{is_number};
ghost use Rattle.dv_bag.specs.Collections.{singles};
ghost use Rattle.dv_bag.specs.Same.{same_values, same_values-decides};

use crate::limits::room_at_once;
use std::alloc::{AllocError, Global};
use std::collections::VecDeque;
use std::marker::Model;
use std::mem;

/// A list of whole numbers. Values are added at the end, and the first one is removed.
#[derive(Drop)]
pub struct Queue {
    values: VecDeque<i64>,
}

impl Model for Queue {
    ghost use Rattle.std.specs.Prelude.{List, ℤ};

    ghost Value = { List ℤ };

    ghost view = { λ q. q.values.items };
}

impl Queue {
    /// The empty queue, which takes no memory.
    pub fn new(alloc: Global) -> Self
        ensures { result ≡ [] }
    {
        Queue {
            values: VecDeque::new(alloc),
        }
    }

    /// The number of values.
    pub fn len(&self) -> usize
        ensures { result ≡ length self.now }
    {
        self.values.len()
    }

    /// The value at an index, if there is one.
    pub fn get(&self, number: usize) -> Option<i64>
        ensures { result ≡ slice_get self.now number }
    {
        self.values.get(number).copied()
    }

    /// Appends a value.
    ///
    /// # Errors
    ///
    /// No memory for it. The queue is as before.
    pub fn push(&mut self, value: i64) -> Result<(), AllocError>
        ensures ok { OnOk result (self.new ≡ self.old ++ value ∷ []) }
        ensures err { OnErr result (self.new ≡ self.old) }
    {
        Ok(self.values.push_back(value)?)
    }

    /// Makes room for one more value, if there is none: for all values that it may hold, up to
    /// `ROOM_AT_ONCE`.
    ///
    /// # Errors
    ///
    /// No memory for them. The queue is as before.
    pub(crate) fn make_room(&mut self, capacity: u64) -> Result<(), AllocError>
        ensures { self.new ≡ self.old }
    {
        let count = self.values.len();
        if count < self.values.capacity() {
            return Ok(());
        }
        let more = room_at_once(capacity).saturating_sub(count);
        self.values.reserve_exact(more)
    }

    /// Makes this a copy of another queue, with as much capacity. Memory is used again.
    ///
    /// # Errors
    ///
    /// No memory for the capacity of the other queue. This queue is as before.
    pub fn copy_from(&mut self, other: &Queue) -> Result<(), AllocError>
        ensures ok { OnOk result (self.new ≡ other.now) }
        ensures err { OnErr result (self.new ≡ self.old) }
    {
        let more = other.values.capacity().saturating_sub(self.len());
        self.values.reserve_exact(more)?;
        self.values.clear();
        let nothing = VecDeque::new(*self.values.allocator());
        let mut values = mem::replace(&mut self.values, nothing).into_vec();
        let (first, rest) = other.values.as_slices();
        values.extend_from_slice(first)?;
        values.extend_from_slice(rest)?;
        self.values = VecDeque::from_vec(values);
        Ok(())
    }

    /// Removes the first value, if there is one.
    pub fn pop(&mut self)
        ensures { self.new ≡ drop 1 self.old }
    {
        let _ = self.values.pop_front();
    }

    /// The values in order, each as a pair with a count of 1.
    ///
    /// # Errors
    ///
    /// No memory for them.
    pub fn singles(&self, alloc: Global) -> Result<Vec<(i64, u64)>, AllocError>
        ensures { IfOk result (λ pairs. pairs.items ≡ singles self.now) }
    {
        let mut pairs = Vec::with_capacity(alloc, self.len())?;
        for number in 0..self.len() {
            pairs.push((self.values[number], 1))?;
        }
        Ok(pairs)
    }

    /// States that each value is a number of the language. Does nothing.
    pub fn holds_numbers(&self)
        ensures { All (λ v. IsTrue (is_number v)) self.now }
    {
        for number in 0..self.len() {
            let _value = self.values[number];
        }
    }
}

impl Clone for Queue {
    ghost is_clone = { λ q r. r ≡ q };

    fn clone(&self) -> Result<Self, AllocError> {
        Ok(Queue {
            values: self.values.clone()?,
        })
    }
}

impl PartialEq for Queue {
    ghost eq = { same_values };

    ghost laws = { partial_equiv_from_equiv (decided same_values same_values-decides) };

    fn eq(&self, other: &Self) -> bool {
        self.values == other.values
    }
}

impl Eq for Queue {
    ghost laws = { decided same_values same_values-decides };
}
