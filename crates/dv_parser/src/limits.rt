//! Limits on depth. The test takes no memory, and its answer is exact.

ghost use Rattle.std.specs.Prelude.{◌≡◌, ◌<◌, IfErr, OnOk};

use crate::parse_error::Obstacle;

/// Tests whether one more level is allowed when `left` levels are left. The offset is that of the
/// token that is refused.
///
/// # Errors
///
/// `TooDeep` at the offset if no level is left.
pub fn test_depth(left: u32, offset: u32) -> Result<(), Obstacle>
    ensures room { OnOk result (0 < left) }
    ensures deep { IfErr result (λ o. (o ≡ Obstacle.TooDeep offset) × (left ≡ 0)) }
{
    if left == 0 {
        Err(Obstacle::TooDeep(offset))
    } else {
        Ok(())
    }
}
