//! What names denote: the first declaration of a name counts.

ghost use Rattle.std.specs.Prelude.{◌≡◌, is_none, IfOk, OnOk};
ghost use Rattle.std.specs.Option.{option_copied};
ghost use Rattle.dv_check.specs.Tables.{entry_for, no_value, value_for, with_first};

use crate::table::Table;
use std::alloc::{AllocError, Global};

/// The greatest number of values in a list that is searched from the front.
const GREATEST_FEW: usize = 8;

/// For each number the value that was added first. Most lists of names are short, and searching a
/// short list is faster than making a table.
#[derive(Drop)]
pub enum Directory<V: Drop> {
    /// At most eight numbers with their values, which are searched from the front.
    Few(Vec<(u32, V)>),
    /// A table of more values.
    Many(Box<Table<V>>),
}

#[tactic(auto, unfolding(crate::specs::Tables::value_for))]
impl<V: Drop> Directory<V> {
    /// An empty directory for `count` values.
    ///
    /// # Errors
    ///
    /// No memory for a table.
    #[tactic(auto, using(crate::proofs::Tables::entry_none), unfolding(crate::specs::Tables::value_for))]
    pub fn with_room(alloc: Global, count: usize) -> Result<Self, AllocError>
        ensures { IfOk result (λ directory. value_for directory ≡ no_value) }
    {
        if count <= GREATEST_FEW {
            Ok(Directory::Few(Vec::new(alloc)))
        } else {
            Ok(Directory::Many(Box::new(alloc, Table::with_room(alloc, count))?))
        }
    }

    /// Adds a value if there is none for the number. Returns whether it was added.
    ///
    /// # Errors
    ///
    /// No memory for one more value.
    pub fn add(&mut self, number: u32, value: V) -> Result<bool, AllocError>
        ensures new { IfOk result (λ is_new. is_new ≡ is_none (value_for self.old number)) }
        ensures added { OnOk result
            (value_for self.new ≡ with_first (value_for self.old) number value) }
    {
        match self {
            Directory::Few(entries) => add_entry(entries, number, value),
            Directory::Many(table) => table.add(number, value),
        }
    }

    /// The value of a number, if there is one.
    pub fn get(&self, number: u32) -> Option<&V>
        ensures { option_copied result ≡ value_for self.now number }
    {
        match self {
            Directory::Few(entries) => entry_for(entries, number),
            Directory::Many(table) => table.get(number),
        }
    }
}

// Adds a value to a list of numbers with values if there is none for the number. Returns whether it
// was added.
#[tactic(auto, using(crate::proofs::Tables::entry_more, crate::proofs::Tables::stays_first))]
fn add_entry<V: Drop>(
    entries: &mut Vec<(u32, V)>,
    number: u32,
    value: V,
) -> Result<bool, AllocError>
    ensures new { IfOk result (λ is_new. is_new ≡ is_none (entry_for entries.old.items number)) }
    ensures added { OnOk result (entry_for entries.new.items
        ≡ with_first (entry_for entries.old.items) number value) }
{
    let is_new = entry_for(entries, number).is_none();
    if is_new {
        entries.push((number, value))?;
    }
    Ok(is_new)
}

// The first value of a number in a list.
#[tactic(auto, unfolding(crate::specs::Tables::entry_for, crate::specs::Names::first_of))]
fn entry_for<V>(entries: &[(u32, V)], number: u32) -> Option<&V>
    ensures { option_copied result ≡ entry_for entries.now number }
{
    for entry in entries {
        if entry.0 == number {
            return Some(&entry.1);
        }
    }
    None
}
