//! What the variables of a state were.

ghost use Rattle.std.specs.Prelude.{◌≡◌, ◌≤◌, [], OnOk, length, take};

use crate::state::{Datum, Variables};
use std::alloc::{AllocError, Global};
use std::marker::Model;
use std::mem;

/// What the variables, flags, bags and queues of a state were. It is made once and then changed in
/// place: its memory serves the next state, whatever model that is of.
#[derive(Drop)]
pub struct KeptVariables {
    // What is kept, and after it data that were kept before.
    data: Vec<Datum>,
    // How many data are kept.
    count: usize,
}

impl Model for KeptVariables {
    ghost use Rattle.std.specs.Prelude.{List, ◌≤◌, length, take};
    ghost use Rattle.dv_bag.specs.declared.state.Datum.{Datum};

    ghost Value = { List Datum };

    ghost view = { λ k. take k.count k.data.items };

    ghost invariant = { λ k. k.count ≤ length k.data.items };
}

impl KeptVariables {
    /// No variables. They take no memory yet.
    pub fn new(alloc: Global) -> Self
        ensures { result ≡ [] }
    {
        KeptVariables {
            data: Vec::new(alloc),
            count: 0,
        }
    }

    /// Makes these a copy of others. Memory is used again, that of a collection if the other has a
    /// collection at the same index.
    ///
    /// # Errors
    ///
    /// No memory for more than these have. Their contents are then unspecified.
    #[inline(always)]
    pub fn copy_from(&mut self, other: &Variables) -> Result<(), AllocError>
        ensures { OnOk result (self.new ≡ other.now) }
    {
        let from = other.as_slice();
        if self.data.len() < from.len() {
            return self.copy_more(other);
        }
        self.count = from.len();
        let done = copy_plain(self.data.as_mut_slice(), from);
        if done == from.len() {
            return Ok(());
        }
        copy_rest(self.data.as_mut_slice(), from, done)
    }

    // The same for others that are more than there is room for. It is the last call of the one
    // above, as the copying of the rest is: so that one keeps no registers for later.
    #[cold]
    #[inline(never)]
    fn copy_more(&mut self, other: &Variables) -> Result<(), AllocError>
        ensures { OnOk result (self.new ≡ other.now) }
    {
        let from = other.as_slice();
        lengthen(&mut self.data, from.len())?;
        self.count = from.len();
        copy_rest(self.data.as_mut_slice(), from, 0)
    }

    /// Swaps these with others.
    pub fn swap(&mut self, other: &mut Variables)
        ensures kept { self.new ≡ other.old }
        ensures other { other.new ≡ self.old }
    {
        self.data.truncate(self.count);
        self.count = other.data.len();
        mem::swap(&mut self.data, &mut other.data);
    }

    /// The variables, moved out.
    pub fn into_variables(self) -> Variables
        ensures { result ≡ self }
    {
        let mut data = self.data;
        data.truncate(self.count);
        Variables { data }
    }
}

// Makes these data so many at least.
fn lengthen(kept: &mut Vec<Datum>, count: usize) -> Result<(), AllocError>
    ensures enough { OnOk result (count ≤ length kept.new.items) }
    ensures more { length kept.old.items ≤ length kept.new.items }
{
    for _index in kept.len()..count {
        kept.push(Datum::Flag(false))?;
    }
    Ok(())
}

// Makes data copies of the others at their indices, and returns how many: it stops where one of the
// two has memory of its own, or they are of two kinds. So there is nothing to drop, and no call.
#[inline(always)]
fn copy_plain(to: &mut [Datum], from: &[Datum]) -> usize
    requires { length from.now ≤ length to.old }
    ensures few { result ≤ length from.now }
    ensures copied { take result to.new ≡ take result from.now }
    ensures length { length to.new ≡ length to.old }
{
    for index in 0..from.len() {
        match (&mut to[index], &from[index]) {
            (Datum::Number(to), Datum::Number(from)) => *to = *from,
            (Datum::Flag(to), Datum::Flag(from)) => *to = *from,
            _ => return index,
        }
    }
    from.len()
}

// Makes the data from an index on copies of the others at their indices.
#[inline(never)]
fn copy_rest(to: &mut [Datum], from: &[Datum], start: usize) -> Result<(), AllocError>
    requires more { length from.now ≤ length to.old }
    requires start { start ≤ length from.now }
    requires first { take start to.old ≡ take start from.now }
    ensures copied { OnOk result (take (length from.now) to.new ≡ from.now) }
    ensures length { length to.new ≡ length to.old }
{
    for index in start..from.len() {
        to[index].copy_from(&from[index])?;
    }
    Ok(())
}
