//! What arrives at the components at an instant.

ghost use Rattle.std.specs.Prelude.{ℕ, OnOk, length};
ghost use Rattle.dv_bag.specs.Inputs.{inputs_at};
ghost use Rattle.dv_share.specs.Indices.{indices_of};
ghost use Rattle.dv_share.specs.Links.{deliveries_of};
ghost use Rattle.dv_share.specs.Share.{AreAmong, AreReceived, AreTables, AreTouched, StandByIndex, coming};
ghost use Rattle.dv_time.specs.Time.{IsOfRun, rank};
ghost use Rattle.dv_local.specs.Shares.{AreOfRun};

use crate::share::Share;
use crate::waiting::outside_at;
use dv_bag::{Fault, Sent};
use dv_react::Atomic;
use dv_share::{Delivery, Indexed, Received, arrivals, arrivals_inside};
use dv_time::Time;
use std::alloc::{AllocError, Global};

/// Fills `received` with what arrives at an instant: inputs from outside, what links carry of what
/// was emitted, and deliveries from other processes. The old contents of `carried` and `received`
/// are discarded, their memory is used again.
///
/// # Errors
///
/// No memory for the bags.
#[inline(always)]
pub(crate) fn arrive<A: Atomic>(
    alloc: Global,
    share: &Share<A>,
    emitted: &[Indexed<Result<Sent, Fault>>],
    deliveries: &[Delivery],
    now: Time,
    carried: &mut Vec<Delivery>,
    received: &mut Received,
) -> Result<(), AllocError>
    requires tables { AreTables A.fits share.now.tables }
    requires emitted { StandByIndex (length share.now.tables.members.items) emitted.now }
    requires inputs { (limit : ℕ) × IsOfRun limit now × AreOfRun limit share.now.inputs }
    ensures received { OnOk result ((limit : ℕ) → IsOfRun limit now
        → AreReceived share.now.tables.members.items (coming share.now.tables emitted.now
        (inputs_at limit share.now.ports share.now.inputs (rank limit now))
        (deliveries_of deliveries.now)) received.new.items) }
    ensures emitted { OnOk result (AreAmong (indices_of emitted.now)
        (indices_of received.new.items)) }
    ensures touched { OnOk result (AreTouched (indices_of emitted.now) received.new.items) }
{
    if share.inputs.as_slice().is_empty() && deliveries.is_empty() {
        return arrivals_inside(&share.tables, emitted, carried, received);
    }
    arrive_from_outside(alloc, share, emitted, deliveries, now, carried, received)
}

// `arrive`, with a bag for each input port of the outside.
#[inline(never)]
fn arrive_from_outside<A: Atomic>(
    alloc: Global,
    share: &Share<A>,
    emitted: &[Indexed<Result<Sent, Fault>>],
    deliveries: &[Delivery],
    now: Time,
    carried: &mut Vec<Delivery>,
    received: &mut Received,
) -> Result<(), AllocError>
    requires tables { AreTables A.fits share.now.tables }
    requires emitted { StandByIndex (length share.now.tables.members.items) emitted.now }
    requires inputs { (limit : ℕ) × IsOfRun limit now × AreOfRun limit share.now.inputs }
    ensures received { OnOk result ((limit : ℕ) → IsOfRun limit now
        → AreReceived share.now.tables.members.items (coming share.now.tables emitted.now
        (inputs_at limit share.now.ports share.now.inputs (rank limit now))
        (deliveries_of deliveries.now)) received.new.items) }
    ensures emitted { OnOk result (AreAmong (indices_of emitted.now)
        (indices_of received.new.items)) }
    ensures touched { OnOk result (AreTouched (indices_of emitted.now) received.new.items) }
{
    let outside = outside_at(alloc, &share.inputs, share.ports, now)?;
    arrivals(
        &share.tables,
        emitted,
        &outside,
        deliveries,
        carried,
        received,
    )
}
