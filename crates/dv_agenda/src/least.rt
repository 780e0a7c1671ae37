//! What is known of the least wait in a slot of a wheel.

ghost use Rattle.std.specs.Prelude.{◌≡◌, ℕ, ◌<◌, List, None, Option, Some, length, slice_index_or};
ghost use Rattle.std.specs.Prelude.{slice_set};
ghost use Rattle.dv_time.specs.declared.time.Time.{Time};
ghost use Rattle.dv_agenda.specs.Wheel.{IsHeld, IsLow, IsTold, slot};

use crate::wait::is_same;
use dv_time::Time;

/// A time before which no wait of a slot ends. It is the least wait of the slot, unless its tick is
/// the first one, which stands for a wait that is not known, or the last one.
#[derive(Clone, Copy)]
pub(crate) struct Least {
    pub(crate) time: Time,
}

impl Least {
    /// The least wait is not known.
    pub(crate) const UNKNOWN: Least = Least { time: Time::ZERO };

    /// There is no component.
    pub(crate) const NOTHING: Least = Least {
        time: Time {
            tick: u64::MAX,
            micro: 0,
        },
    };

    /// The least wait, if it is known.
    #[inline]
    pub(crate) fn known(self) -> Option<Time>
        ensures { (t : Time) → result ≡ Some t → IsTold self t }
    {
        if (self.time.tick == 0) | (self.time.tick == u64::MAX) {
            return None;
        }
        Some(self.time)
    }

    /// Updates the least wait of a slot when a component with this wait is added.
    #[inline]
    pub(crate) fn enter(&mut self, time: Time)
        ensures here { IsLow self.new (Some time) }
        ensures low { (w : Option Time) → IsLow self.old w → IsLow self.new w }
        ensures held { (ws : List (Option Time)) (now s index : ℕ)
            → slice_index_or ws index None ≡ Some time → slot time.tick now ≡ s
            → IsHeld ws now s self.old → IsHeld ws now s self.new }
    {
        if time.tick > self.time.tick {
            return;
        }
        if time.tick < self.time.tick || time.micro < self.time.micro {
            self.time = time;
        }
    }

    /// Updates the least wait of a slot when a component with this wait is removed.
    #[inline]
    pub(crate) fn leave(&mut self, time: Time)
        ensures low { (w : Option Time) → IsLow self.old w → IsLow self.new w }
        ensures held { (ws : List (Option Time)) (now s index : ℕ) (w : Option Time)
            → index < length ws → slice_index_or ws index None ≡ Some time
            → slot time.tick now ≡ s → IsHeld ws now s self.old
            → IsHeld (slice_set ws index w) now s self.new }
    {
        if is_same(Some(self.time), Some(time)) {
            *self = Least::UNKNOWN;
        }
    }
}
