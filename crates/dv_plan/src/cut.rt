//! The links of a model, cut to processes: for each process the links among its components, those
//! from outside and to the outside, and those to each other process.

ghost use Rattle.std.specs.Prelude.{◌≡◌, ◌<◌, [], length, map, slice_index_or, IfOk};
ghost use Rattle.dv_conservative.specs.Channels.{all_channels};
ghost use Rattle.dv_partition.specs.Groups.{owner_of};
ghost use Rattle.dv_proc.specs.Channels.{meant_channel};
ghost use Rattle.dv_share.specs.Links.{links_of};
ghost use Rattle.dv_plan.specs.Cuts.{between, entrances_to, exits_from};

use crate::channels::channels;
use crate::keys::{by_pair, by_receiver, by_sender};
use crate::links::Links;
use dv_partition::Groups;
use dv_proc::Channel;
use dv_share::Link;
use std::alloc::{AllocError, Global};
use std::marker::Model;

/// The links of a model, cut to the processes of its components. Each list keeps the order of the
/// model.
#[derive(Drop)]
pub struct Cut<'g> {
    groups: &'g Groups,
    links: Links,
    pairs: Vec<Vec<Link>>,
    entrances: Vec<Vec<Link>>,
    exits: Vec<Vec<Link>>,
}

impl<'g> Model for Cut<'g> {
    ghost use Rattle.std.specs.Prelude.{map};
    ghost use Rattle.dv_plan.specs.Cuts.{CutOf};
    ghost use Rattle.dv_share.specs.Links.{links_of};
    ghost use Rattle.dv_plan.specs.Keys.{IsCut};

    ghost Value = { CutOf };

    ghost view = { λ c. record {
      grouping = c.groups.now;
      direct = links_of c.links.direct.items;
      entrances = links_of c.links.entrances.items;
      exits = links_of c.links.exits.items;
    } };

    ghost invariant = { λ c. IsCut c.groups.now
        c.links.direct.items c.links.entrances.items c.links.exits.items
        (map (λ list. list.items) c.pairs.items) (map (λ list. list.items) c.entrances.items)
        (map (λ list. list.items) c.exits.items) };
}

impl<'g> Cut<'g> {
    /// Cuts the links of a model to these groups, in one pass over the links.
    ///
    /// # Errors
    ///
    /// No memory for the lists.
    pub fn new(alloc: Global, groups: &'g Groups, links: Links) -> Result<Self, AllocError>
        ensures { IfOk result (λ cut. cut ≡ record {
          grouping = groups.now;
          direct = links_of links.direct.items;
          entrances = links_of links.entrances.items;
          exits = links_of links.exits.items;
        }) }
    {
        let pairs = by_pair(alloc, groups, &links.direct)?;
        let entrances = by_receiver(alloc, groups, &links.entrances)?;
        let exits = by_sender(alloc, groups, &links.exits)?;
        Ok(Cut {
            groups,
            links,
            pairs,
            entrances,
            exits,
        })
    }

    /// Which process has which component.
    pub fn groups(&self) -> &Groups
        ensures { result.now ≡ self.now.grouping }
    {
        self.groups
    }

    /// The channels between the processes, by number.
    ///
    /// # Errors
    ///
    /// No memory for the list.
    pub fn channels(&self, alloc: Global) -> Result<Vec<Channel>, AllocError>
        ensures { IfOk result (λ found. map meant_channel found.items
            ≡ all_channels (owner_of self.now.grouping) self.now.direct
            self.now.grouping.processes) }
    {
        channels(alloc, self.groups.processes() as u32, &self.pairs)
    }

    /// The links from the components of one process to those of another, or of the same one.
    pub fn between(&self, source: usize, target: usize) -> &[Link]
        requires source { source < self.now.grouping.processes }
        requires target { target < self.now.grouping.processes }
        ensures { links_of result.now ≡ between self.now source target }
    {
        let processes = self.groups.processes();
        list_at(&self.pairs, source * processes + target)
    }

    /// The links from outside to the components of a process.
    pub fn entrances(&self, process: usize) -> &[Link]
        requires { process < self.now.grouping.processes }
        ensures { links_of result.now ≡ entrances_to self.now process }
    {
        list_at(&self.entrances, process)
    }

    /// The links from the components of a process to the outside.
    pub fn exits(&self, process: usize) -> &[Link]
        requires { process < self.now.grouping.processes }
        ensures { links_of result.now ≡ exits_from self.now process }
    {
        list_at(&self.exits, process)
    }
}

// One of several lists.
fn list_at(lists: &[Vec<Link>], index: usize) -> &[Link]
    requires { index < length lists.now }
    ensures { result.now ≡ slice_index_or (map (λ list. list.items) lists.now) index [] }
{
    &lists[index]
}
