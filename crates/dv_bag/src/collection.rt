//! Collections of values that states hold: bags and queues.

ghost use Rattle.std.specs.Cmp.{decided, partial_equiv_from_equiv};
ghost use Rattle.std.specs.Prelude.{◌≡◌, ◌<◌, ◌≤◌, true, IfOk, OnErr, OnOk};
ghost use Rattle.dv_bag.specs.Collections.{count_in, discipline_of, edited, makes_more, without_first};
ghost use Rattle.dv_bag.specs.declared.collection.Collection.TheVariants as collection;
ghost use Rattle.dv_bag.specs.Limits.{greatest_count};
ghost use Rattle.dv_bag.specs.Numbers.{HasNumbers};
ghost use Rattle.dv_bag.specs.Same.{same_collection, same_collection-decides};

use crate::bag::Bag;
use crate::discipline::{Change, Discipline};
use crate::queue::Queue;
use std::alloc::{AllocError, Global};
use std::marker::Model;

/// A bag or a queue.
#[derive(Drop)]
pub enum Collection {
    /// The values of a bag.
    Bag(Bag),
    /// The values of a queue.
    Queue(Queue),
}

impl Collection {
    /// Whether it is a bag or a queue.
    pub fn discipline(&self) -> Discipline
        ensures { result ≡ discipline_of self.now }
    {
        match self {
            Collection::Bag(_) => Discipline::Bag,
            Collection::Queue(_) => Discipline::Queue,
        }
    }

    /// The number of its values, each copy counted.
    pub fn count(&self) -> u64
        requires { count_in self.now ≤ greatest_count }
        ensures { result ≡ count_in self.now }
    {
        match self {
            Collection::Bag(bag) => bag.size(),
            Collection::Queue(queue) => queue.len() as u64,
        }
    }

    /// Makes room for one more value, if there is none: for all values that it may hold, up to
    /// `ROOM_AT_ONCE`.
    ///
    /// # Errors
    ///
    /// No memory for them. The collection is as before.
    pub(crate) fn make_room(&mut self, capacity: u64) -> Result<(), AllocError>
        ensures { self.new ≡ self.old }
    {
        match self {
            Collection::Bag(bag) => bag.make_room(capacity),
            Collection::Queue(queue) => queue.make_room(capacity),
        }
    }

    /// Applies a change with a value. A change for the other discipline has no effect.
    ///
    /// # Errors
    ///
    /// No memory for the value. The collection is as before.
    pub fn edit(&mut self, change: Change, value: i64) -> Result<(), AllocError>
        ensures ok { OnOk result (self.new ≡ edited change value self.old) }
        ensures err { OnErr result (self.new ≡ self.old) }
    {
        match (self, change) {
            (Collection::Bag(bag), Change::Add) => bag.insert(value),
            (Collection::Bag(bag), Change::Drop) => {
                bag.drop_one(value);
                Ok(())
            }
            (Collection::Queue(queue), Change::Push) => queue.push(value),
            (Collection::Bag(_), Change::Push)
            | (Collection::Queue(_), Change::Add | Change::Drop) => Ok(()),
        }
    }

    /// Makes this a copy of another collection. Memory is used again if both have the same
    /// discipline.
    ///
    /// # Errors
    ///
    /// No memory for the values of the other. The collection is as before.
    pub fn copy_from(&mut self, other: &Collection) -> Result<(), AllocError>
        ensures ok { OnOk result (self.new ≡ other.now) }
        ensures err { OnErr result (self.new ≡ self.old) }
    {
        match other {
            Collection::Bag(bag) => self.copy_bag(bag),
            Collection::Queue(queue) => self.copy_queue(queue),
        }
    }

    // Makes this a copy of a bag.
    fn copy_bag(&mut self, other: &Bag) -> Result<(), AllocError>
        ensures ok { OnOk result (self.new ≡ collection.Bag other.now) }
        ensures err { OnErr result (self.new ≡ self.old) }
    {
        match self {
            Collection::Bag(bag) => bag.copy_from(other),
            Collection::Queue(_) => {
                *self = Collection::Bag(other.clone()?);
                Ok(())
            }
        }
    }

    // Makes this a copy of a queue.
    fn copy_queue(&mut self, other: &Queue) -> Result<(), AllocError>
        ensures ok { OnOk result (self.new ≡ collection.Queue other.now) }
        ensures err { OnErr result (self.new ≡ self.old) }
    {
        match self {
            Collection::Queue(queue) => queue.copy_from(other),
            Collection::Bag(_) => {
                *self = Collection::Queue(other.clone()?);
                Ok(())
            }
        }
    }

    /// Removes the first value of a queue, if there is one.
    pub fn pop(&mut self)
        ensures { self.new ≡ without_first self.old }
    {
        if let Collection::Queue(queue) = self {
            queue.pop();
        }
    }

    /// States that each value is a number of the language. Does nothing.
    pub fn holds_numbers(&self)
        ensures { HasNumbers self.now }
    {
        match self {
            Collection::Bag(bag) => bag.holds_numbers(),
            Collection::Queue(queue) => queue.holds_numbers(),
        }
    }
}

impl Clone for Collection {
    ghost is_clone = { λ c d. d ≡ c };

    fn clone(&self) -> Result<Self, AllocError> {
        match self {
            Collection::Bag(bag) => Ok(Collection::Bag(bag.clone()?)),
            Collection::Queue(queue) => Ok(Collection::Queue(queue.clone()?)),
        }
    }
}

impl PartialEq for Collection {
    ghost eq = { same_collection };

    ghost laws = { partial_equiv_from_equiv (decided same_collection same_collection-decides) };

    fn eq(&self, other: &Self) -> bool {
        match (self, other) {
            (Collection::Bag(one), Collection::Bag(two)) => one == two,
            (Collection::Queue(one), Collection::Queue(two)) => one == two,
            _ => false,
        }
    }
}

impl Eq for Collection {
    ghost laws = { decided same_collection same_collection-decides };
}

/// A collection of a state, in memory of its own, with at most `GREATEST_COUNT` values, each copy
/// counted. Two are equal if they have the same values.
#[derive(Drop)]
pub struct Held {
    collection: Box<Collection>,
}

impl Model for Held {
    ghost use Rattle.std.specs.Prelude.{◌≤◌};
    ghost use Rattle.dv_bag.specs.Collections.{count_in};
    ghost use Rattle.dv_bag.specs.Limits.{greatest_count};
    ghost use Rattle.dv_bag.specs.declared.collection.Collection.{Collection};

    ghost Value = { Collection };

    ghost view = { λ h. h.collection.value };

    ghost invariant = { λ h. count_in h.collection.value ≤ greatest_count };
}

impl Held {
    /// Moves a collection to memory of its own.
    ///
    /// # Errors
    ///
    /// No memory for it. The collection is dropped.
    pub fn new(alloc: Global, collection: Collection) -> Result<Self, AllocError>
        requires { count_in collection ≤ greatest_count }
        ensures { IfOk result (λ held. held ≡ collection) }
    {
        Ok(Held {
            collection: Box::new(alloc, collection)?,
        })
    }

    /// The collection.
    pub fn as_collection(&self) -> &Collection
        ensures same { result.now ≡ self.now }
        ensures few { count_in result.now ≤ greatest_count }
    {
        self.collection.as_ref()
    }

    /// Makes room for one more value, if there is none: for all values that it may hold, up to
    /// `ROOM_AT_ONCE`.
    ///
    /// # Errors
    ///
    /// No memory for them. The collection is as before.
    pub(crate) fn make_room(&mut self, capacity: u64) -> Result<(), AllocError>
        ensures { self.new ≡ self.old }
    {
        self.collection.make_room(capacity)
    }

    /// Applies a change with a value.
    ///
    /// # Errors
    ///
    /// No memory for the value. The collection is as before.
    pub(crate) fn edit(&mut self, change: Change, value: i64) -> Result<(), AllocError>
        requires { makes_more change ≡ true → count_in self.old < greatest_count }
        ensures ok { OnOk result (self.new ≡ edited change value self.old) }
        ensures err { OnErr result (self.new ≡ self.old) }
    {
        self.collection.edit(change, value)
    }

    /// Makes this a copy of another one, in its own memory.
    ///
    /// # Errors
    ///
    /// No memory for the values of the other. The collection is as before.
    pub(crate) fn copy_from(&mut self, other: &Held) -> Result<(), AllocError>
        ensures ok { OnOk result (self.new ≡ other.now) }
        ensures err { OnErr result (self.new ≡ self.old) }
    {
        self.collection.copy_from(other.collection.as_ref())
    }

    /// Removes the first value of a queue, if there is one.
    pub(crate) fn pop(&mut self)
        ensures { self.new ≡ without_first self.old }
    {
        self.collection.pop();
    }
}

impl Clone for Held {
    ghost is_clone = { λ h k. k ≡ h };

    fn clone(&self) -> Result<Self, AllocError> {
        Ok(Held {
            collection: self.collection.clone()?,
        })
    }
}

impl PartialEq for Held {
    ghost eq = { same_collection };

    ghost laws = { partial_equiv_from_equiv (decided same_collection same_collection-decides) };

    fn eq(&self, other: &Self) -> bool {
        self.collection == other.collection
    }
}

impl Eq for Held {
    ghost laws = { decided same_collection same_collection-decides };
}
