//! Whether a part of a trace holds a fault.

ghost use Rattle.std.specs.Prelude.{◌≡◌};
ghost use Rattle.dv_written.specs.Faults.{has_fault};

use dv_merge::PartRefs;
use dv_written::OfJob;

/// Whether an entry of a part is a fault.
pub fn has_fault<N: OfJob>(part: &PartRefs<'_, N>) -> bool
    ensures { result ≡ has_fault part.now }
{
    part.has_fault()
}
