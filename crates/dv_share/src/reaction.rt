//! How a component of a share reacts at an instant.

ghost use Rattle.std.specs.Prelude.{◌≡◌, ◌≢◌, ◌<◌, List, None, Some, IfOk, OnErr, length, slice_get};
ghost use Rattle.dv_bag.specs.Bag.{Counts};
ghost use Rattle.dv_devs.specs.Behaviour.{emission};
ghost use Rattle.dv_react.specs.Components.{IsWaitOfRun, component_of, rank_of};
ghost use Rattle.dv_react.specs.Outcomes.{fault_of, left_by, outcome_of};
ghost use Rattle.dv_share.specs.Outcomes.{IsOutcomeOf, behaviour_in};
ghost use Rattle.dv_share.specs.Indices.{AreRising, IsNext, indices_of};
ghost use Rattle.dv_share.specs.Share.{AreTables, FitsAt, given_at};
ghost use Rattle.dv_share.specs.declared.tables.Member.{Member};

use crate::index::{Indexed, item_at};
use crate::tables::Tables;
use crate::visit::Visit;
use dv_bag::{Fault, Sent};
use dv_react::{Atomic, Happened, Instant, Kept, Running};
use std::alloc::AllocError;

/// Lets the visited member react in place, and returns what happened, if anything did. `before` is
/// the component as it is; after the reaction it is the component as it was.
///
/// # Errors
///
/// No memory for a state. The component is unchanged, and `before` is unspecified.
#[inline(always)]
pub fn react_member<A: Atomic>(
    tables: &Tables<A>,
    work: &mut A::Work,
    instant: &Instant,
    component: &mut Running,
    before: &mut Kept,
    emitted: &[Indexed<Result<Sent, Fault>>],
    visit: &Visit<'_>,
) -> Result<Option<Happened>, AllocError>
    requires tables { AreTables A.fits tables.now }
    requires limit { instant.now.limit ≡ tables.now.limit }
    requires index { visit.now.arrival.now.index < length tables.now.members.items }
    requires wait { IsWaitOfRun tables.now.limit component.old.wait }
    requires fits { (m : Member)
        → slice_get tables.now.members.items visit.now.arrival.now.index ≡ Some m
        → FitsAt A.fits tables.now.models.items m.model component.old.state }
    requires comes { (a : A) (bags : List Counts) → A.comes a bags }
    requires before { before.old ≡ component.old }
    requires rise { AreRising (indices_of emitted.now) }
    requires next { IsNext visit.now.arrival.now.index emitted.now visit.now.cursor }
    requires given { (m : Member)
        → slice_get tables.now.members.items visit.now.arrival.now.index ≡ Some m
        → given_at visit.now.arrival.now.index emitted.now
        ≡ emission (behaviour_in A.behaviour tables.now m)
        (rank_of instant.now) (component_of tables.now.limit component.old) }
    ensures outcome { IfOk result (λ happened. IsOutcomeOf A.behaviour A.fits tables.now
        (rank_of instant.now) component.old (given_at visit.now.arrival.now.index emitted.now)
        visit.now.arrival.now (outcome_of component.new happened)) }
    ensures left { IfOk result (λ happened. component.new
        ≡ left_by component.old (outcome_of component.new happened)) }
    ensures before { IfOk result (λ happened. happened ≢ None → before.new ≡ component.old) }
    ensures err { OnErr result (component.new ≡ component.old) }
{
    let member = &tables.members[visit.arrival.index as usize];
    let atomic = &tables.models[member.model as usize];
    let fault = fault_at(emitted, visit.cursor, visit.arrival.index);
    dv_react::react_component(
        atomic,
        work,
        instant,
        component,
        before,
        &visit.arrival.what,
        fault,
    )
}

// The fault of the output function at an index, if it had one.
#[inline(always)]
fn fault_at(emitted: &[Indexed<Result<Sent, Fault>>], cursor: usize, index: u32) -> Option<Fault>
    requires rise { AreRising (indices_of emitted.now) }
    requires next { IsNext index emitted.now cursor }
    ensures { result ≡ fault_of (given_at index emitted.now) }
{
    match item_at(emitted, cursor, index) {
        Some(Err(fault)) => Some(*fault),
        Some(Ok(_)) | None => None,
    }
}
