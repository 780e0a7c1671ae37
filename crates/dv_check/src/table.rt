//! What names denote, in a table by their numbers.

ghost use Rattle.std.specs.Prelude.{◌≡◌, ℕ, ◌<◌, ◌==◌, if◌then◌else◌, is_none, length, Some, IfOk, OnOk};
ghost use Rattle.std.specs.Option.{option_copied};
ghost use Rattle.dv_check.specs.Tables.{no_value, table_value, value_at, with_first};

use std::alloc::{AllocError, Global};
use std::collections::HashMap;

/// How long the list of a table may be for each value that the table is made for.
const ENTRIES_FOR_EACH: usize = 4;

/// For each number the value that was added first. Names of a text are numbered from 0 on, so that
/// of many names many have small numbers: their values are in a list by number, and the others in a
/// map.
#[derive(Drop)]
pub struct Table<V: Drop> {
    /// The number at which the map begins.
    limit: usize,
    low: Vec<Option<V>>,
    high: HashMap<u32, V>,
}

impl<V: Drop> Table<V> {
    /// An empty table for `count` values. A number past the end of the list is looked up in the
    /// map, so that a few great numbers make no long list.
    #[tactic(auto, using(crate::proofs::Tables::table_none))]
    pub fn with_room(alloc: Global, count: usize) -> Self
        ensures { table_value result ≡ no_value }
    {
        Table {
            limit: count.saturating_mul(ENTRIES_FOR_EACH),
            low: Vec::new(alloc),
            high: HashMap::new(alloc),
        }
    }

    /// Adds a value if there is none for the number. Returns whether it was added.
    pub fn add(&mut self, number: u32, value: V) -> Result<bool, AllocError>
        ensures new { IfOk result (λ is_new. is_new ≡ is_none (table_value self.old number)) }
        ensures added { OnOk result
            (table_value self.new ≡ with_first (table_value self.old) number value) }
    {
        let is_new = self.get(number).is_none();
        if is_new {
            if (number as usize) < self.limit {
                put_at(&mut self.low, number as usize, value)?;
            } else {
                self.high.insert(number, value)?;
            }
        }
        Ok(is_new)
    }

    /// The value of a number, if there is one.
    #[tactic(auto, unfolding(crate::specs::Tables::table_value))]
    pub fn get(&self, number: u32) -> Option<&V>
        ensures { option_copied result ≡ table_value self.now number }
    {
        if (number as usize) < self.limit {
            value_at(&self.low, number as usize)
        } else {
            self.high.get(&number)
        }
    }
}

// The value at an index of a list, in which values may be missing.
#[tactic(auto, unfolding(crate::specs::Tables::value_at))]
fn value_at<V>(entries: &[Option<V>], index: usize) -> Option<&V>
    ensures { option_copied result ≡ value_at entries.now index }
{
    match entries.get(index) {
        Some(entry) => entry.as_ref(),
        None => None,
    }
}

// Puts a value at an index, with empty entries before it if the list is too short.
fn put_at<V: Drop>(entries: &mut Vec<Option<V>>, index: usize, value: V) -> Result<(), AllocError>
    ensures { OnOk result ((q : ℕ) → value_at entries.new.items q
        ≡ (if index == q then Some value else value_at entries.old.items q)) }
{
    lengthen(entries, index)?;
    entries[index] = Some(value);
    Ok(())
}

// Adds empty entries to a list until it reaches an index.
#[tactic(auto, using(crate::proofs::Tables::value_past))]
fn lengthen<V: Drop>(entries: &mut Vec<Option<V>>, index: usize) -> Result<(), AllocError>
    ensures values { (q : ℕ) → value_at entries.new.items q ≡ value_at entries.old.items q }
    ensures reaches { OnOk result (index < length entries.new.items) }
{
    while entries.len() <= index {
        entries.push(None)?;
    }
    Ok(())
}
