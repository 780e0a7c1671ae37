//! Which process has which component.

ghost use Rattle.std.specs.Prelude.{◌≡◌, ℕ, ◌<◌, ◌≤◌, ◌^◌, length, IfOk};
ghost use Rattle.std.specs.List.{AllByRecursion, range_with_len};
ghost use Rattle.dv_partition.specs.Groups.{members_of, owner_of};
ghost use Rattle.dv_partition.specs.Limits.{greatest_processes};

use crate::by_key::by_key;
use std::alloc::{AllocError, Global};
use std::marker::Model;

/// The components of each process. Each component is in one process; contracts see the process of
/// each.
#[derive(Drop)]
pub struct Groups {
    owners: Vec<u32>,
    members: Vec<Vec<u32>>,
}

impl Model for Groups {
    ghost use Rattle.std.specs.Prelude.{length, map};
    ghost use Rattle.dv_partition.specs.Groups.{Grouping};
    ghost use Rattle.dv_partition.specs.Grouped.{AreGroups};

    ghost Value = { Grouping };

    ghost view = { λ g. record { processes = length g.members.items; owners = g.owners.items } };

    ghost invariant = { λ g. AreGroups (length g.members.items) g.owners.items
        (map (λ list. list.items) g.members.items) };
}

impl Groups {
    /// Groups by the process of each component.
    ///
    /// # Errors
    ///
    /// No memory for the lists of components.
    pub fn new(alloc: Global, processes: usize, owners: Vec<u32>) -> Result<Groups, AllocError>
        requires some { 0 < processes }
        requires few { processes ≤ greatest_processes }
        requires owned { AllByRecursion (λ p. p < processes) owners.items }
        requires fit { length owners.items ≤ 2 ^ 32 }
        ensures { IfOk result (λ groups. groups
            ≡ record { processes = processes; owners = owners.items }) }
    {
        let numbers = numbers_below(alloc, owners.len())?;
        let members = by_key(alloc, processes, &owners, numbers)?;
        Ok(Groups { owners, members })
    }

    /// The number of processes.
    pub fn processes(&self) -> usize
        ensures exact { result ≡ self.now.processes }
        ensures some { 0 < result }
        ensures few { result ≤ greatest_processes }
        ensures owned { (k : ℕ) → owner_of self.now k < result }
    {
        self.members.len()
    }

    /// The process of each component.
    pub fn owners(&self) -> &[u32]
        ensures exact { result.now ≡ self.now.owners }
        ensures owned { (k : ℕ) → owner_of self.now k < self.now.processes }
        ensures fit { length self.now.owners ≤ 2 ^ 32 }
    {
        &self.owners
    }

    /// The process of a component: 0 if there is no such component.
    pub fn owner(&self, component: u32) -> u32
        ensures exact { result ≡ owner_of self.now component }
        ensures below { result < self.now.processes }
        ensures few { self.now.processes ≤ greatest_processes }
    {
        let owners = self.owners.as_slice();
        let index = component as usize;
        if index < owners.len() {
            owners[index]
        } else {
            0
        }
    }

    /// The components of a process, in the order of their numbers.
    pub fn members(&self, process: usize) -> &[u32]
        requires { process < self.now.processes }
        ensures { result.now ≡ members_of self.now process }
    {
        &self.members[process]
    }
}

// The numbers below a count, in order.
fn numbers_below(alloc: Global, count: usize) -> Result<Vec<u32>, AllocError>
    requires { count ≤ 2 ^ 32 }
    ensures { IfOk result (λ numbers. numbers.items ≡ range_with_len 0 count) }
{
    let mut numbers = Vec::with_capacity(alloc, count)?;
    for number in 0..count {
        numbers.push(number as u32)?;
    }
    Ok(numbers)
}
