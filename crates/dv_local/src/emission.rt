//! What the imminent components emit.

ghost use Rattle.std.specs.Prelude.{◌≡◌, ◌<◌, ℕ, OnOk, length};
ghost use Rattle.std.specs.List.{All};
ghost use Rattle.dv_proc.specs.Accesses.{IsCounted};
ghost use Rattle.dv_share.specs.Indices.{AreRising};
ghost use Rattle.dv_share.specs.Share.{AreComponents, AreDue, AreEmitted, AreTables, StandByIndex};

use crate::components::Components;
use crate::emitted::Emitted;
use dv_react::Atomic;
use dv_share::Tables;
use std::alloc::{AllocError, Global};

/// Fills `emitted` with what the output functions of the components at the due indices give. Each
/// is visited once, and none changes. The old contents of the list are discarded, its memory is
/// used again.
///
/// # Errors
///
/// No memory for what is sent. Some of the components were visited, and the list has what they
/// send.
#[inline(always)]
pub(crate) fn emit_all<A: Atomic>(
    alloc: Global,
    tables: &Tables<A>,
    work: &mut A::Work,
    components: &mut Components,
    due: &[u32],
    emitted: &mut Emitted,
) -> Result<(), AllocError>
    requires tables { AreTables A.fits tables.now }
    requires components { AreComponents A.fits tables.now components.old.running }
    requires rise { AreRising due.now }
    requires within { All (λ p. p < length components.old.running) due.now }
    ensures emitted { OnOk result ((now : ℕ)
        → AreDue tables.now.limit now components.old.running due.now
        → AreEmitted A.behaviour tables.now now components.old.running emitted.new) }
    ensures indices { StandByIndex (length components.old.running) emitted.new }
    ensures count { OnOk result (length emitted.new ≡ length due.now) }
    ensures components { components.new.running ≡ components.old.running }
    ensures visits { OnOk result (IsCounted (length due.now) (length due.now)
        components.old.visits components.new.visits) }
    ensures at_most { IsCounted 0 (length due.now) components.old.visits components.new.visits }
{
    emitted.clear();
    for index in due {
        components.visit(*index);
        emitted.add(alloc, tables, work, *index, components.visited())?;
    }
    Ok(())
}
