//! The slots of a wheel of times.

ghost use Rattle.std.specs.Prelude.{◌≡◌, ◌<◌};
ghost use Rattle.dv_agenda.specs.Wheel.{slot};

/// The slot of a tick that is not before the present tick `now`.
///
/// A slot is `64 * level + digit`, where the level is the place of the highest digit in base 64
/// that differs from `now`. Level 0 has the ticks that differ in the last digit alone, and `now`
/// itself. All ticks that differ above the tenth digit have slot 640.
#[inline]
pub(crate) fn slot_of(tick: u64, now: u64) -> usize
    ensures slot { result ≡ slot tick now }
    ensures high { result < 641 }
{
    let apart = tick ^ now;
    if apart < 64 {
        return (tick % 64) as usize;
    }
    let level = (63 - apart.leading_zeros()) / 6;
    if level > 9 {
        return 640;
    }
    64 * level as usize + (tick >> (6 * level)) as usize % 64
}
