//! What an agenda knows of its first wait.

ghost use Rattle.std.specs.Prelude.{◌≡◌, ℕ, ◌<◌, true, List, Option, None, Some, length, slice_index_or, slice_set};
ghost use Rattle.dv_time.specs.declared.time.Time.{Time};
ghost use Rattle.dv_agenda.specs.Agendas.{IsKnown};
ghost use Rattle.dv_agenda.specs.Waits.{first_of};

use crate::wait::is_same;
use dv_time::{Time, earliest};

/// The first wait, or the last one that was known.
#[derive(Clone, Copy)]
pub(crate) struct FirstWait {
    pub(crate) wait: Option<Time>,
    pub(crate) known: bool,
}

/// A first wait that has just been found.
#[inline]
pub(crate) fn found(wait: Option<Time>) -> FirstWait
    ensures first { (ws : List (Option Time)) → wait ≡ first_of ws → IsKnown result ws }
    ensures wait { result.wait ≡ wait }
    ensures known { result.known ≡ true }
{
    FirstWait { wait, known: true }
}

/// A first wait that is known if it is a time.
#[inline]
pub(crate) fn if_found(wait: Option<Time>) -> FirstWait
    ensures { (ws : List (Option Time)) → ((t : Time) → wait ≡ Some t → Some t ≡ first_of ws)
        → IsKnown result ws }
{
    FirstWait {
        wait,
        known: wait.is_some(),
    }
}

/// Updates what is known when the wait of a component changes from `before` to `wait`.
#[inline]
pub(crate) fn change(first: &mut FirstWait, before: Option<Time>, wait: Option<Time>)
    ensures { (ws : List (Option Time)) (index : ℕ) → index < length ws
        → before ≡ slice_index_or ws index None → IsKnown first.old ws
        → IsKnown first.new (slice_set ws index wait) }
{
    if is_same(earliest(wait, first.wait), wait) {
        first.wait = wait;
        return;
    }
    if is_same(before, first.wait) {
        first.known = false;
    }
}
