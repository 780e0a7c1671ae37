//! Parts of a trace.

ghost use Rattle.std.specs.Iterator.Adapters.{IterYieldsInOrder};
ghost use Rattle.std.specs.Prelude.{◌≡◌, ◌<◌, ◌^◌, [], ◌∷◌, ◌++◌, length, take, OnOk, OnErr};
ghost use Rattle.std.specs.Slice.Iter.{iter_rest};
ghost use Rattle.dv_bag.specs.Part.{joined, nothing, since};
ghost use Rattle.dv_bag.specs.declared.entry.Entry.{Entry};
ghost use Rattle.dv_bag.specs.declared.entry.Outer.{Outer};

use crate::entry::{Entry, Outer};
use dv_time::Time;
use std::alloc::{AllocError, Global};
use std::marker::Model;
use std::slice::Iter;

/// Entries of some components, and what those components sent outside, in the order in which they
/// were pushed.
#[derive(Drop)]
pub struct Part {
    entries: Vec<Entry>,
    outer: Vec<Outer>,
}

impl Model for Part {
    ghost use Rattle.dv_bag.specs.Part.{PartOf};

    ghost Value = { PartOf };

    ghost view = { λ p. record { entries = p.entries.items; outer = p.outer.items } };
}

impl Part {
    /// An empty part.
    pub fn new(alloc: Global) -> Self
        ensures { result ≡ nothing }
    {
        Part {
            entries: Vec::new(alloc),
            outer: Vec::new(alloc),
        }
    }

    /// Appends an entry.
    ///
    /// # Errors
    ///
    /// No memory for one more. The part is as before.
    pub fn push_entry(&mut self, entry: Entry) -> Result<(), AllocError>
        ensures ok { OnOk result
            (self.new ≡ record self.old { entries = self.old.entries ++ entry ∷ [] }) }
        ensures err { OnErr result (self.new ≡ self.old) }
    {
        Ok(self.entries.push(entry)?)
    }

    /// Appends a line of what was sent outside.
    ///
    /// # Errors
    ///
    /// No memory for one more. The part is as before.
    pub fn push_outer(&mut self, outer: Outer) -> Result<(), AllocError>
        ensures ok { OnOk result
            (self.new ≡ record self.old { outer = self.old.outer ++ outer ∷ [] }) }
        ensures err { OnErr result (self.new ≡ self.old) }
    {
        Ok(self.outer.push(outer)?)
    }

    /// The number of entries.
    pub fn entry_count(&self) -> usize
        ensures { result ≡ length self.now.entries }
    {
        self.entries.len()
    }

    /// The number of lines of what was sent outside.
    pub fn outer_count(&self) -> usize
        ensures { result ≡ length self.now.outer }
    {
        self.outer.len()
    }

    /// Appends all of another part.
    ///
    /// # Errors
    ///
    /// No memory for it. The part is as before.
    pub fn append(&mut self, mut more: Part) -> Result<(), AllocError>
        ensures ok { OnOk result (self.new ≡ joined self.old more) }
        ensures err { OnErr result (self.new ≡ self.old) }
    {
        self.entries.reserve(more.entries.len())?;
        self.outer.append(&mut more.outer)?;
        if self.entries.append(&mut more.entries).is_err() {
            unreachable!("room was made");
        }
        Ok(())
    }

    /// Keeps the first `entries` entries and the first `outer` lines.
    pub fn truncate(&mut self, entries: usize, outer: usize)
        ensures entries { self.new.entries ≡ take entries self.old.entries }
        ensures outer { self.new.outer ≡ take outer self.old.outer }
    {
        self.entries.truncate(entries);
        self.outer.truncate(outer);
    }

    /// Discards what is before a time.
    pub fn keep_since(&mut self, time: Time)
        ensures { self.new ≡ since time self.old }
    {
        self.entries.retain(|entry| !entry.time.is_before(time));
        self.outer.retain(|line| !line.time.is_before(time));
    }

    /// What is at a time or later. The rest is discarded.
    pub fn since(mut self, time: Time) -> Self
        ensures { result ≡ since time self }
    {
        self.keep_since(time);
        self
    }

    /// The entries, in the order in which they were pushed: a run pushes them by time and
    /// component.
    pub fn entries(&self) -> Iter<'_, Entry>
        ensures rest { iter_rest result ≡ self.now.entries }
        ensures fits { length self.now.entries < 2 ^ 64 }
        ensures runs { IterYieldsInOrder Entry }
    {
        self.entries.iter()
    }

    /// What was sent outside, in the order in which it was pushed: a run pushes it by time and
    /// port.
    pub fn outer(&self) -> Iter<'_, Outer>
        ensures rest { iter_rest result ≡ self.now.outer }
        ensures fits { length self.now.outer < 2 ^ 64 }
        ensures runs { IterYieldsInOrder Outer }
    {
        self.outer.iter()
    }
}

impl Clone for Part {
    ghost is_clone = { λ p q. q ≡ p };

    fn clone(&self) -> Result<Self, AllocError> {
        Ok(Part {
            entries: self.entries.clone()?,
            outer: self.outer.clone()?,
        })
    }
}

/// The part of all components.
pub type Trace = Part;
