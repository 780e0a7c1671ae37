//! Open loops.

ghost use Rattle.std.specs.Prelude.{◌≡◌};
ghost use Rattle.std.specs.Option.{option_map};
ghost use Rattle.dv_bag.specs.Bag.{values_of};
ghost use Rattle.dv_code.specs.Turns.{Advances, Opens, turn_of, walked_bag};

use crate::walk::Walk;
use dv_bag::Arrivals;

/// A loop at one of the values of a collection. Copies of a value are counted, not stored.
#[derive(Drop)]
pub(crate) struct OpenLoop {
    walk: Walk,
    // The index of the next value with its copies.
    begun: usize,
    item: i64,
    // The copies of the current value that are still to come.
    more: u64,
}

impl OpenLoop {
    /// A loop at the first value of a collection, if it has one.
    pub(crate) fn open(walk: Walk, arrivals: &Arrivals) -> Option<Self>
        ensures { Opens (values_of (walked_bag arrivals.now walk))
            (option_map (turn_of arrivals.now) result) }
    {
        let mut first = OpenLoop {
            walk,
            begun: 0,
            item: 0,
            more: 0,
        };
        if first.next(arrivals) {
            Some(first)
        } else {
            None
        }
    }

    /// Moves to the next value and returns `true`, or returns `false` if there is none.
    #[inline(always)]
    pub(crate) fn next(&mut self, arrivals: &Arrivals) -> bool
        ensures { Advances (turn_of arrivals.now self.old).rest result
            (turn_of arrivals.now self.new) }
    {
        if self.more > 0 {
            self.more -= 1;
            return true;
        }
        let Some((item, copies)) = self.walk.pair(self.begun, arrivals) else {
            return false;
        };
        self.item = item;
        self.more = copies - 1;
        self.begun += 1;
        true
    }

    /// The value at which the loop is.
    #[inline]
    pub(crate) fn item(&self) -> i64
        ensures { result ≡ self.now.item }
    {
        self.item
    }
}
