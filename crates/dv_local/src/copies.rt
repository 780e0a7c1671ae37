//! Copies of components, as they were before they reacted.

ghost use Rattle.std.specs.Prelude.{◌≡◌, ◌-◌, ◌<◌, ◌≤◌, ◌↔◌, ◌++◌, [], List, Some, IfOk, IsSome, OnErr, OnOk, option_to_list, length, slice_get, take};
ghost use Rattle.dv_bag.specs.Bag.{Counts};
ghost use Rattle.dv_devs.specs.Behaviour.{emission};
ghost use Rattle.dv_react.specs.Components.{IsWaitOfRun, component_of, rank_of};
ghost use Rattle.dv_react.specs.Outcomes.{left_by, outcome_of};
ghost use Rattle.dv_share.specs.Outcomes.{IsOutcomeOf, behaviour_in};
ghost use Rattle.dv_share.specs.Indices.{AreRising, IsNext, indices_of};
ghost use Rattle.dv_share.specs.Share.{AreTables, FitsAt, given_at};
ghost use Rattle.dv_share.specs.declared.tables.Member.{Member};
ghost use Rattle.dv_local.specs.Reacting.{former_of};

use crate::moment::Moment;
use dv_react::{Atomic, Happened, Kept, Running};
use dv_share::{Indexed, Visit, react_member};
use std::alloc::{AllocError, Global};
use std::marker::Model;

/// Copies of components before they reacted, each with its index, the last one last. A discarded
/// copy keeps its memory for the next one, so a list is for components whose states need the same.
#[derive(Drop)]
pub struct Copies {
    // The copies, and after them those that were discarded.
    items: Vec<Indexed<Kept>>,
    // How many were not discarded.
    count: usize,
    alloc: Global,
}

impl Model for Copies {
    ghost use Rattle.std.specs.Prelude.{List, ◌≤◌, length, take};
    ghost use Rattle.dv_react.specs.declared.running.Running.{Running};
    ghost use Rattle.dv_share.specs.declared.index.Indexed.{Indexed};

    ghost Value = { List (Indexed Running) };

    ghost view = { λ c. take c.count c.items.items };

    ghost invariant = { λ c. c.count ≤ length c.items.items };
}

impl Copies {
    /// No copies. It takes no memory yet.
    pub fn new(alloc: Global) -> Self
        ensures { result ≡ [] }
    {
        Copies {
            items: Vec::new(alloc),
            count: 0,
            alloc,
        }
    }

    /// Discards the last copy, but keeps its memory.
    pub fn let_go(&mut self)
        ensures { self.new ≡ take (length self.old - 1) self.old }
    {
        self.count = self.count.saturating_sub(1);
    }

    /// Discards all copies, but keeps their memory.
    #[inline]
    pub fn clear(&mut self)
        ensures { self.new ≡ [] }
    {
        self.count = 0;
    }

    /// Moves out the last copy.
    pub fn pop(&mut self) -> Option<Indexed<Running>>
        ensures items { self.old ≡ self.new ++ option_to_list result }
        ensures some { IsSome result ↔ (0 < length self.old) }
    {
        self.items.truncate(self.count);
        let last = self.items.pop();
        self.count = self.items.len();
        match last {
            Some(copy) => Some(Indexed {
                index: copy.index,
                what: copy.what.into_running(),
            }),
            None => None,
        }
    }

    /// Lets a component react in place, and returns what happened, if anything did; then the last
    /// copy is the component as it was.
    ///
    /// # Errors
    ///
    /// No memory. The component is unchanged, and no copy was added.
    #[inline(always)]
    pub(crate) fn react_copied<A: Atomic>(
        &mut self,
        moment: &Moment<'_, A>,
        work: &mut A::Work,
        component: &mut Running,
        visit: &Visit<'_>,
    ) -> Result<Option<Happened>, AllocError>
        requires tables { AreTables A.fits moment.now.tables.now }
        requires limit { moment.now.instant.now.limit ≡ moment.now.tables.now.limit }
        requires index { visit.now.arrival.now.index < length moment.now.tables.now.members.items }
        requires wait { IsWaitOfRun moment.now.tables.now.limit component.old.wait }
        requires fits { (m : Member)
            → slice_get moment.now.tables.now.members.items visit.now.arrival.now.index ≡ Some m
            → FitsAt A.fits moment.now.tables.now.models.items m.model component.old.state }
        requires comes { (a : A) (bags : List Counts) → A.comes a bags }
        requires rise { AreRising (indices_of moment.now.emitted.now) }
        requires next { IsNext visit.now.arrival.now.index moment.now.emitted.now visit.now.cursor }
        requires given { (m : Member)
            → slice_get moment.now.tables.now.members.items visit.now.arrival.now.index ≡ Some m
            → given_at visit.now.arrival.now.index moment.now.emitted.now
            ≡ emission (behaviour_in A.behaviour moment.now.tables.now m)
            (rank_of moment.now.instant.now)
            (component_of moment.now.tables.now.limit component.old) }
        ensures outcome { IfOk result (λ happened. IsOutcomeOf A.behaviour A.fits
            moment.now.tables.now (rank_of moment.now.instant.now) component.old
            (given_at visit.now.arrival.now.index moment.now.emitted.now) visit.now.arrival.now
            (outcome_of component.new happened)) }
        ensures left { IfOk result (λ happened. component.new
            ≡ left_by component.old (outcome_of component.new happened)) }
        ensures copies { IfOk result (λ happened. self.new
            ≡ self.old ++ former_of visit.now.arrival.now.index component.old happened) }
        ensures same { OnErr result (component.new ≡ component.old) }
        ensures none { OnErr result (self.new ≡ self.old) }
    {
        let index = visit.arrival.index;
        keep(self.alloc, &mut self.items, self.count, index, component)?;
        let happened = react_member(
            moment.tables,
            work,
            moment.instant,
            component,
            &mut self.items[self.count].what,
            moment.emitted,
            visit,
        )?;
        if happened.is_some() {
            self.count += 1;
        }
        Ok(happened)
    }
}

// Copies a component, with its index, behind so many others. All that it calls comes last, so that
// it keeps no registers for later.
#[inline(never)]
fn keep(
    alloc: Global,
    items: &mut Vec<Indexed<Kept>>,
    count: usize,
    index: u32,
    component: &Running,
) -> Result<(), AllocError>
    requires { count ≤ length items.old.items }
    ensures kept { OnOk result (slice_get items.new.items count
        ≡ Some (record { index = index; what = component.now })) }
    ensures room { OnOk result (count < length items.new.items) }
    ensures same { take count items.new.items ≡ take count items.old.items }
    ensures more { length items.old.items ≤ length items.new.items }
{
    if count == items.len() {
        return keep_more(alloc, items, count, index, component);
    }
    let copy = &mut items[count];
    copy.index = index;
    copy.what.copy_from(component)
}

// The same where there is no room for one more.
#[cold]
#[inline(never)]
fn keep_more(
    alloc: Global,
    items: &mut Vec<Indexed<Kept>>,
    count: usize,
    index: u32,
    component: &Running,
) -> Result<(), AllocError>
    requires { count ≡ length items.old.items }
    ensures kept { OnOk result (slice_get items.new.items count
        ≡ Some (record { index = index; what = component.now })) }
    ensures room { OnOk result (count < length items.new.items) }
    ensures same { take count items.new.items ≡ take count items.old.items }
    ensures more { length items.old.items ≤ length items.new.items }
{
    let mut what = Kept::new(alloc);
    what.copy_from(component)?;
    Ok(items.push(Indexed { index, what })?)
}
