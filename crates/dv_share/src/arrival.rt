//! What arrives at the components of a share at an instant.

ghost use Rattle.std.specs.Prelude.{◌≡◌, ℕ, ◌++◌, [], IfOk, OnOk, length, replicate};
ghost use Rattle.dv_conservative.specs.Links.{carried, inbox};
ghost use Rattle.dv_share.specs.Links.{deliveries_of};
ghost use Rattle.dv_share.specs.Indices.{indices_of};
ghost use Rattle.dv_share.specs.Share.{AreAmong, AreReceived, AreTables, AreTouched, StandByIndex, coming, sent_in};

use crate::carry::{carry_emitted, carry_outside};
use crate::index::Indexed;
use crate::link::Delivery;
use crate::received::Received;
use crate::routes::Routes;
use crate::tables::Tables;
use crate::tally::FEW;
use dv_bag::{Bags, Fault, Sent};
use dv_react::Atomic;
use std::alloc::{AllocError, Global};

/// Fills `received` with the bags of what arrives: from outside, from the components by what they
/// emitted, and by deliveries from other processes. It gets an index for each component that
/// emitted something or receives a value, and no other. What leads to no component or port of the
/// share is left out. The old contents of `incoming` and `received` are discarded, their memory is
/// used again.
///
/// # Errors
///
/// No memory for the bags.
pub fn arrivals<A: Atomic>(
    tables: &Tables<A>,
    emitted: &[Indexed<Result<Sent, Fault>>],
    outside: &Bags,
    deliveries: &[Delivery],
    incoming: &mut Vec<Delivery>,
    received: &mut Received,
) -> Result<(), AllocError>
    requires tables { AreTables A.fits tables.now }
    requires emitted { StandByIndex (length tables.now.members.items) emitted.now }
    ensures received { OnOk result (AreReceived tables.now.members.items
        (coming tables.now emitted.now outside.now (deliveries_of deliveries.now))
        received.new.items) }
    ensures emitted { OnOk result (AreAmong (indices_of emitted.now)
        (indices_of received.new.items)) }
    ensures touched { OnOk result (AreTouched (indices_of emitted.now) received.new.items) }
{
    incoming.clear();
    carry_outside(incoming, &tables.entrances, outside)?;
    if are_few(&tables.links, emitted) && incoming.len() <= FEW && deliveries.len() <= FEW {
        return received.gather_along(
            &tables.members,
            &tables.links,
            emitted,
            incoming,
            deliveries,
        );
    }
    gather_many(tables, emitted, deliveries, incoming, received)
}

/// The same if nothing comes from outside or from other processes.
///
/// # Errors
///
/// No memory for the bags.
#[inline(never)]
pub fn arrivals_inside<A: Atomic>(
    tables: &Tables<A>,
    emitted: &[Indexed<Result<Sent, Fault>>],
    incoming: &mut Vec<Delivery>,
    received: &mut Received,
) -> Result<(), AllocError>
    requires tables { AreTables A.fits tables.now }
    requires emitted { StandByIndex (length tables.now.members.items) emitted.now }
    ensures received { OnOk result ((ports : ℕ) → AreReceived tables.now.members.items
        (coming tables.now emitted.now (replicate ports []) []) received.new.items) }
    ensures emitted { OnOk result (AreAmong (indices_of emitted.now)
        (indices_of received.new.items)) }
    ensures touched { OnOk result (AreTouched (indices_of emitted.now) received.new.items) }
{
    if are_few(&tables.links, emitted) {
        return received.gather_inside(&tables.members, &tables.links, emitted);
    }
    incoming.clear();
    gather_many(tables, emitted, &[], incoming, received)
}

// Whether few values can come to one component along links: no link leads to one, few values are
// sent in all, or each component sends few values and few links lead to one component.
#[inline]
fn are_few(links: &Routes, emitted: &[Indexed<Result<Sent, Fault>>]) -> bool {
    if links.most_to_one() == 0 {
        return true;
    }
    let mut all: usize = 0;
    let mut most: usize = 0;
    for emission in emitted {
        if let Ok(sent) = &emission.what {
            let count = sent.as_slice().len();
            all = all.saturating_add(count);
            most = most.max(count);
        }
    }
    all <= FEW || most.saturating_mul(links.most_to_one() as usize) <= FEW
}

// `arrivals`, with what comes from outside in `incoming`. All is listed first, and sorted if much
// comes to one component.
#[inline(never)]
fn gather_many<A: Atomic>(
    tables: &Tables<A>,
    emitted: &[Indexed<Result<Sent, Fault>>],
    deliveries: &[Delivery],
    incoming: &mut Vec<Delivery>,
    received: &mut Received,
) -> Result<(), AllocError>
    requires tables { AreTables A.fits tables.now }
    requires emitted { StandByIndex (length tables.now.members.items) emitted.now }
    ensures received { OnOk result (AreReceived tables.now.members.items
        (deliveries_of incoming.old.items ++ (carried tables.now.links
        (sent_in tables.now.members.items emitted.now) ++ deliveries_of deliveries.now))
        received.new.items) }
    ensures emitted { OnOk result (AreAmong (indices_of emitted.now)
        (indices_of received.new.items)) }
    ensures touched { OnOk result (AreTouched (indices_of emitted.now) received.new.items) }
{
    carry_emitted(incoming, &tables.members, &tables.links, emitted)?;
    incoming.extend_from_slice(deliveries)?;
    received.put_many_in_order(incoming)?;
    received.gather(&tables.members, emitted, incoming)
}

/// The bags that deliveries make for one component, which has so many input ports. It is fastest if
/// the deliveries are in the order of ports and values: then each value goes to the end of its bag.
///
/// # Errors
///
/// No memory for the bags.
pub fn bags_of(
    alloc: Global,
    component: u32,
    ports: u32,
    deliveries: &[Delivery],
) -> Result<Bags, AllocError>
    ensures { IfOk result (λ bags. bags ≡ inbox component (deliveries_of deliveries.now) 0 ports) }
{
    let mut bags = Bags::empty(alloc, ports as usize);
    for delivery in deliveries {
        if delivery.is_for(component, ports) {
            delivery.put(&mut bags)?;
        }
    }
    Ok(bags)
}
