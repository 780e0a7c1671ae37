//! Sets of names.

ghost use Rattle.std.specs.Prelude.{◌≡◌, IfOk};
ghost use Rattle.dv_check.specs.Names.{among};
ghost use Rattle.dv_check.specs.Tables.{has_name};

use crate::number_set::NumberSet;
use dv_syntax::Name;
use std::alloc::{AllocError, Global};

/// The greatest number of names that are searched from the front.
const GREATEST_FEW: usize = 8;

/// The names of one list. Most lists are short, and searching a short list is faster than making a
/// table.
#[derive(Drop)]
pub enum NameSet {
    /// At most eight names, which are searched from the front.
    Few(Vec<Name>),
    /// The numbers of more names.
    Many(NumberSet),
}

#[tactic(auto, unfolding(crate::specs::Tables::has_name))]
impl NameSet {
    /// The names of a list.
    ///
    /// # Errors
    ///
    /// No memory for a table.
    pub fn of(alloc: Global, names: Vec<Name>) -> Result<Self, AllocError>
        ensures { IfOk result (λ s. has_name s ≡ among names.items) }
    {
        if names.len() <= GREATEST_FEW {
            Ok(NameSet::Few(names))
        } else {
            Ok(NameSet::Many(NumberSet::of(alloc, &names)?))
        }
    }

    /// Whether it has a name with the number.
    pub fn contains(&self, number: u32) -> bool
        ensures { result ≡ has_name self.now number }
    {
        match self {
            NameSet::Few(names) => is_among(names, number),
            NameSet::Many(numbers) => numbers.contains(number),
        }
    }
}

// Whether a name of the list has the number.
#[tactic(auto, unfolding(crate::specs::Names::among))]
fn is_among(names: &[Name], number: u32) -> bool
    ensures { result ≡ among names.now number }
{
    for name in names {
        if name.number == number {
            return true;
        }
    }
    false
}
