//! What an instant brings.

ghost use Rattle.std.specs.Prelude.{◌≡◌, ◌≤◌, IfSome, unwrap_or, []};
ghost use Rattle.std.specs.Option.{option_copied};
ghost use Rattle.dv_bag.specs.Arrivals.{AreFew, nothing_arrived};
ghost use Rattle.dv_bag.specs.Bag.{bag_at, total};
ghost use Rattle.dv_bag.specs.Limits.{greatest_count};

use crate::bag::Bag;
use crate::bags::Bags;
use std::marker::Model;

/// What an instant brings to an atomic model: the values that have arrived at the input ports, at
/// most `GREATEST_COUNT` at each, and the ticks since the last transition.
#[derive(Drop)]
pub struct Arrivals<'a> {
    received: Option<&'a Bags>,
    elapsed: u64,
}

impl<'a> Model for Arrivals<'a> {
    ghost use Rattle.std.specs.Prelude.{unwrap_or, []};
    ghost use Rattle.std.specs.Option.{option_copied};
    ghost use Rattle.dv_bag.specs.Arrivals.{AreFew, Arrivals as Meant};

    ghost Value = { Meant };

    ghost view = { λ a. record
        { received = unwrap_or (option_copied a.received) []; elapsed = a.elapsed } };

    ghost invariant = { λ a. AreFew (unwrap_or (option_copied a.received) []) };
}

impl<'a> Arrivals<'a> {
    /// The bags that arrived, by input port, and the ticks since the last transition.
    pub fn new(received: &'a Bags, elapsed: u64) -> Self
        requires { AreFew received.now }
        ensures { result ≡ record { received = received.now; elapsed = elapsed } }
    {
        Arrivals {
            received: Some(received),
            elapsed,
        }
    }

    /// Arrivals of no values, with an elapsed time of 0.
    pub fn nothing() -> Self
        ensures { result ≡ nothing_arrived }
    {
        Arrivals {
            received: None,
            elapsed: 0,
        }
    }

    /// The bag that arrived at an input port: `None` if the port is past the last.
    #[inline]
    pub fn bag(&self, port: usize) -> Option<&'a Bag>
        ensures bag { unwrap_or (option_copied result) [] ≡ bag_at self.now.received port }
        ensures few { IfSome result (λ bag. total bag.now ≤ greatest_count) }
    {
        self.received?.get(port)
    }

    /// States that no bag has more values than `GREATEST_COUNT`. Does nothing.
    pub fn are_few(&self)
        ensures { AreFew self.now.received }
    {
        let _ = &self.received;
    }

    /// The ticks since the last transition.
    pub fn elapsed(&self) -> u64
        ensures { result ≡ self.now.elapsed }
    {
        self.elapsed
    }
}
