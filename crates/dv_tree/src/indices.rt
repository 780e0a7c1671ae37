//! The indices of names in a list.

ghost use Rattle.std.specs.Prelude.{◌≡◌, ℕ, length, IfOk};
ghost use Rattle.dv_check.specs.Tables.{value_for};
ghost use Rattle.dv_eval.specs.Scope.{index_of};
ghost use Rattle.dv_tree.specs.Indices.{AreFirsts};

use dv_check::Directory;
use smallvec::SmallVec;
use std::alloc::{AllocError, Global};
use std::marker::Model;

/// The greatest number of names that are searched from the front.
const GREATEST_FEW: usize = 8;

/// Names by number, with the index of the first occurrence of each. Most lists are short:
/// those of few names are searched from the front, and need no allocation.
#[derive(Drop)]
pub(crate) struct Indices {
    numbers: SmallVec<u32, 4>,
    // The indices, if the names are not few.
    firsts: Option<Directory<usize>>,
}

impl Model for Indices {
    ghost use Rattle.std.specs.Prelude.{ℕ, List};
    ghost use Rattle.dv_tree.specs.Indices.{AreFirsts};

    ghost Value = { List ℕ };

    ghost view = { λ p. p.numbers.items };

    ghost invariant = { λ p. AreFirsts p.numbers.items p.firsts };
}

impl Indices {
    /// The indices of these names.
    ///
    /// # Errors
    ///
    /// No memory for the indices.
    pub(crate) fn of(alloc: Global, numbers: SmallVec<u32, 4>) -> Result<Self, AllocError>
        ensures { IfOk result (λ indices. indices ≡ numbers.items) }
    {
        let firsts = firsts_of_many(alloc, numbers.as_slice())?;
        Ok(Indices { numbers, firsts })
    }

    /// The index of a name.
    pub(crate) fn index_of(&self, number: u32) -> Option<usize>
        ensures { result ≡ index_of number self.now }
    {
        match &self.firsts {
            Some(firsts) => firsts.get(number).copied(),
            None => index_among(self.numbers.as_slice(), number),
        }
    }

    /// The number of names.
    pub(crate) fn len(&self) -> usize
        ensures { result ≡ length self.now }
    {
        self.numbers.len()
    }
}

// The index of the first occurrence of a name.
fn index_among(numbers: &[u32], number: u32) -> Option<usize>
    ensures { result ≡ index_of number numbers.now }
{
    for (index, other) in numbers.iter().enumerate() {
        if *other == number {
            return Some(index);
        }
    }
    None
}

// The index of the first occurrence of each name, if the names are not few.
fn firsts_of_many(alloc: Global, numbers: &[u32]) -> Result<Option<Directory<usize>>, AllocError>
    ensures { IfOk result (λ firsts. AreFirsts numbers.now firsts) }
{
    if numbers.len() <= GREATEST_FEW {
        return Ok(None);
    }
    Ok(Some(firsts(alloc, numbers)?))
}

// The index of the first occurrence of each name.
fn firsts(alloc: Global, numbers: &[u32]) -> Result<Directory<usize>, AllocError>
    ensures { IfOk result (λ firsts. (q : ℕ) → value_for firsts q ≡ index_of q numbers.now) }
{
    let mut firsts = Directory::with_room(alloc, numbers.len())?;
    for (index, number) in numbers.iter().enumerate() {
        firsts.add(*number, index)?;
    }
    Ok(firsts)
}
