//! The components of a process, with a count of visits.

ghost use Rattle.std.specs.Prelude.{◌≡◌, ◌<◌, ◌≤◌, ◌+◌, ◌-◌, ◌^◌, IfOk, List, OnErr, Some, length, min, slice_get, slice_index_or, slice_set};
ghost use Rattle.dv_bag.specs.Bag.{Counts};
ghost use Rattle.dv_react.specs.Components.{rank_of};
ghost use Rattle.dv_react.specs.declared.running.Running.{Running as RunningOfCode};
ghost use Rattle.dv_share.specs.Indices.{AreRising, IsNext, indices_of};
ghost use Rattle.dv_share.specs.Share.{AreComponents, AreTables};
ghost use Rattle.dv_local.specs.Commits.{IsGivenAt};
ghost use Rattle.dv_local.specs.Reacting.{ReactsAt};

use crate::former::Former;
use crate::moment::Moment;
use dv_react::{Atomic, Happened, Running};
use dv_share::Visit;
use std::alloc::AllocError;
use std::marker::Model;
use std::mem;

/// The components by index. A visit goes to one of them and adds one to the count, which is never
/// taken back. Only the component visited last can be read and replaced, and `put_back` lets nobody
/// look at the one that was there. So no component is looked at without being counted.
#[derive(Drop)]
pub struct Components {
    running: Vec<Running>,
    // The index that was visited last.
    visited: u32,
    visits: u64,
}

impl Model for Components {
    ghost use Rattle.dv_local.specs.Components.{ComponentsOf};

    ghost Value = { ComponentsOf };

    ghost view = { λ c. record {
      running = c.running.items;
      visited = c.visited;
      visits = c.visits;
    } };
}

impl Components {
    /// Components without visits.
    pub fn new(running: Vec<Running>) -> Self
        ensures components { result.running ≡ running.items }
        ensures visits { result.visits ≡ 0 }
    {
        Components {
            running,
            visited: 0,
            visits: 0,
        }
    }

    /// Goes to the component at an index, which adds one to the count. The count stays at 2^64 - 1
    /// once there.
    #[inline]
    pub fn visit(&mut self, index: u32)
        ensures components { self.new.running ≡ self.old.running }
        ensures visited { self.new.visited ≡ index }
        ensures visits { self.new.visits ≡ min (self.old.visits + 1) (2 ^ 64 - 1) }
        ensures never_fall { self.old.visits ≤ self.new.visits }
    {
        self.visited = index;
        self.visits = self.visits.saturating_add(1);
    }

    /// The component that was visited last.
    #[inline]
    pub fn visited(&self) -> &Running
        requires { self.now.visited < length self.now.running }
        ensures { slice_get self.now.running self.now.visited ≡ Some result.now }
    {
        &self.running[self.visited as usize]
    }

    /// Replaces the component that was visited last, and returns the old one.
    #[inline]
    pub fn replace(&mut self, component: Running) -> Running
        requires { self.old.visited < length self.old.running }
        ensures before { (d : RunningOfCode)
            → result ≡ slice_index_or self.old.running self.old.visited d }
        ensures components { self.new.running
            ≡ slice_set self.old.running self.old.visited component }
        ensures visited { self.new.visited ≡ self.old.visited }
        ensures visits { self.new.visits ≡ self.old.visits }
    {
        mem::replace(&mut self.running[self.visited as usize], component)
    }

    /// Puts a component at an index, as it was before. This is no visit: the one that was there is
    /// dropped, and nobody looks at it.
    #[inline]
    pub fn put_back(&mut self, index: u32, component: Running)
        requires { index < length self.old.running }
        ensures components { self.new.running ≡ slice_set self.old.running index component }
        ensures visited { self.new.visited ≡ self.old.visited }
        ensures visits { self.new.visits ≡ self.old.visits }
    {
        self.running[index as usize] = component;
    }

    /// Lets the component that was visited last react in place, and returns what happened, if
    /// anything did; then the component as it was is logged.
    ///
    /// # Errors
    ///
    /// No memory. Nothing has changed.
    #[inline(always)]
    pub(crate) fn react_visited<A: Atomic>(
        &mut self,
        moment: &Moment<'_, A>,
        work: &mut A::Work,
        visit: &Visit<'_>,
        former: &mut Former,
    ) -> Result<Option<Happened>, AllocError>
        requires tables { AreTables A.fits moment.now.tables.now }
        requires limit { moment.now.instant.now.limit ≡ moment.now.tables.now.limit }
        requires components { AreComponents A.fits moment.now.tables.now self.old.running }
        requires comes { (a : A) (bags : List Counts) → A.comes a bags }
        requires visited { self.old.visited ≡ visit.now.arrival.now.index }
        requires index { visit.now.arrival.now.index < length moment.now.tables.now.members.items }
        requires rise { AreRising (indices_of moment.now.emitted.now) }
        requires next { IsNext visit.now.arrival.now.index moment.now.emitted.now visit.now.cursor }
        requires given { IsGivenAt A.behaviour moment.now.tables.now (rank_of moment.now.instant.now)
            moment.now.emitted.now self.old.running visit.now.arrival.now.index }
        ensures reacted { IfOk result (ReactsAt A.behaviour A.fits moment.now.tables.now
            (rank_of moment.now.instant.now) moment.now.emitted.now visit.now.arrival.now
            self.old.running self.new.running former.old former.new) }
        ensures same { OnErr result (self.new.running ≡ self.old.running) }
        ensures none { OnErr result (former.new ≡ former.old) }
        ensures visited { self.new.visited ≡ self.old.visited }
        ensures visits { self.new.visits ≡ self.old.visits }
    {
        let component = &mut self.running[self.visited as usize];
        former.react_logged(moment, work, component, visit)
    }

    /// The count of visits.
    pub fn visits(&self) -> u64
        ensures { result ≡ self.now.visits }
    {
        self.visits
    }
}
