//! Sets of the numbers of names.

ghost use Rattle.std.specs.Prelude.{◌≡◌, not, IfOk, OnOk};
ghost use Rattle.dv_check.specs.Tables.{has};
ghost use Rattle.dv_check.specs.Names.{among, no_number, with_number};

use crate::directory::Directory;
use dv_syntax::Name;
use std::alloc::{AllocError, Global};

/// A set of the numbers of names.
#[derive(Drop)]
pub struct NumberSet {
    numbers: Directory<()>,
}

impl NumberSet {
    /// An empty set for `count` numbers.
    #[tactic(auto, using(crate::proofs::Tables::set_of_none))]
    pub fn with_room(alloc: Global, count: usize) -> Result<Self, AllocError>
        ensures { IfOk result (λ set. has set ≡ no_number) }
    {
        Ok(NumberSet {
            numbers: Directory::with_room(alloc, count)?,
        })
    }

    /// The numbers of these names.
    #[tactic(auto, using(crate::proofs::Lists::among_more, crate::proofs::Lists::among_none))]
    pub fn of(alloc: Global, names: &[Name]) -> Result<Self, AllocError>
        ensures { IfOk result (λ s. has s ≡ among names.now) }
    {
        let mut set = NumberSet::with_room(alloc, names.len())?;
        for name in names {
            set.insert(name.number)?;
        }
        Ok(set)
    }

    /// Adds a number, and returns whether it is new.
    #[tactic(auto, unfolding(crate::specs::Tables::has))]
    pub fn insert(&mut self, number: u32) -> Result<bool, AllocError>
        ensures new { IfOk result (λ is_new. is_new ≡ not (has self.old number)) }
        ensures added { OnOk result (has self.new ≡ with_number (has self.old) number) }
    {
        let is_new = self.numbers.add(number, ())?;
        Ok(is_new)
    }

    /// Whether it has the number.
    #[tactic(auto, unfolding(crate::specs::Tables::has))]
    pub fn contains(&self, number: u32) -> bool
        ensures { result ≡ has self.now number }
    {
        self.numbers.get(number).is_some()
    }
}
