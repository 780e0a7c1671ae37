//! The numbers of a text.

ghost use Rattle.std.specs.Prelude.{◌≡◌, ◌↔◌, ◌<◌, ◌^◌, IfSome, IsSome, pos};

use std::marker::Model;

/// A number of a text, from 0 to 2^63 - 1.
#[derive(Clone, Copy, PartialEq, Eq)]
pub struct Numeral {
    value: u64,
}

impl Model for Numeral {
    ghost use Rattle.std.specs.Prelude.{ℕ, ◌<◌, ◌^◌};

    ghost Value = { ℕ };

    ghost view = { λ n. n.value };

    ghost invariant = { λ n. n.value < 2 ^ 63 };

    ghost inverse = { λ v. record { value = v } };
}

impl Numeral {
    /// A value as a number of a text: `None` if it is above 2^63 - 1.
    pub fn new(value: u64) -> Option<Self>
        ensures in_range { IsSome result ↔ (value < 2 ^ 63) }
        ensures value { IfSome result (λ n. n ≡ value) }
    {
        if value < 1 << 63 {
            Some(Numeral { value })
        } else {
            None
        }
    }

    /// The value as a number of the language.
    pub fn value(self) -> i64
        ensures value { result ≡ pos self }
    {
        self.value as i64
    }
}
