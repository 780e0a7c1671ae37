//! What leaves the model at an instant.

ghost use Rattle.std.specs.Prelude.{◌≡◌, OnOk, length};
ghost use Rattle.dv_conservative.specs.Links.{carried, inbox};
ghost use Rattle.dv_devs.specs.Network.{outer_from};
ghost use Rattle.dv_react.specs.Components.{rank_of};
ghost use Rattle.dv_record.specs.Told.{IsOpenAt, with_lines};
ghost use Rattle.dv_share.specs.Indices.{AreRising};
ghost use Rattle.dv_share.specs.Links.{deliveries_of};
ghost use Rattle.dv_share.specs.Share.{StandByIndex, numbers_of, sent_in};

use crate::arrival::bags_of;
use crate::carry::carry_emitted;
use crate::index::Indexed;
use crate::link::Delivery;
use crate::tables::Tables;
use dv_bag::{Fault, Sent};
use dv_react::Instant;
use dv_record::Record;
use std::alloc::{AllocError, Global};

/// Tells a record what leaves the model of what was emitted: an output line for each output port of
/// the root with values. The old contents of `leaving` are discarded, its memory is used again.
///
/// # Errors
///
/// No memory for the lines. The record may have got some of them, and is to be rolled back.
pub fn outer<A, R: Record>(
    alloc: Global,
    tables: &Tables<A>,
    instant: &Instant,
    emitted: &[Indexed<Result<Sent, Fault>>],
    leaving: &mut Vec<Delivery>,
    to: &mut R,
) -> Result<(), AllocError>
    requires numbers { AreRising (numbers_of tables.now.members.items) }
    requires emitted { StandByIndex (length tables.now.members.items) emitted.now }
    requires is_open { IsOpenAt instant.now.time (R.told to.old) }
    ensures told { OnOk result (R.told to.new ≡ with_lines
        (outer_from instant.now.limit (rank_of instant.now) 0
        (inbox 0 (carried tables.now.exits (sent_in tables.now.members.items emitted.now)) 0
        tables.now.outputs)) (R.told to.old)) }
    ensures settled { R.settled to.new ≡ R.settled to.old }
    ensures handed { R.handed to.new ≡ R.handed to.old }
{
    leaving.clear();
    carry_emitted(leaving, &tables.members, &tables.exits, emitted)?;
    if leaving.is_empty() {
        return Ok(());
    }
    tell_lines(alloc, tables.outputs, instant, leaving, to)
}

// Tells a record the lines of what leaves the model. Mostly nothing does.
#[inline(never)]
fn tell_lines<R: Record>(
    alloc: Global,
    outputs: u32,
    instant: &Instant,
    leaving: &mut [Delivery],
    to: &mut R,
) -> Result<(), AllocError>
    requires { IsOpenAt instant.now.time (R.told to.old) }
    ensures told { OnOk result (R.told to.new ≡ with_lines
        (outer_from instant.now.limit (rank_of instant.now) 0
        (inbox 0 (deliveries_of leaving.old) 0 outputs)) (R.told to.old)) }
    ensures settled { R.settled to.new ≡ R.settled to.old }
    ensures handed { R.handed to.new ≡ R.handed to.old }
{
    leaving.sort_unstable();
    let bags = bags_of(alloc, 0, outputs, leaving)?;
    to.left(instant.time, &bags)
}
