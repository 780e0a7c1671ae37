//! The first refusal that was found so far.

ghost use Rattle.std.specs.Prelude.{◌≡◌, is_none};
ghost use Rattle.dv_lex.specs.Order.{ordinal, precedes};
ghost use Rattle.dv_check.specs.Findings.{nothing_found, with_refusal};
ghost use Rattle.dv_check.specs.Names.{refusal};

use dv_lex::{Refusal, RefusalNumber};

/// The first of the refusals that were found so far.
#[derive(Clone, Copy)]
pub struct Findings {
    /// The refusal that comes first of those found so far.
    pub first: Option<Refusal>,
}

impl Findings {
    /// No refusals.
    pub fn new() -> Self
        ensures { result ≡ nothing_found }
    {
        Findings { first: None }
    }

    /// Whether there is no refusal.
    pub fn is_empty(&self) -> bool
        ensures { result ≡ is_none self.now.first }
    {
        self.first.is_none()
    }

    /// Notes a refusal.
    pub fn note(&mut self, number: RefusalNumber, offset: u32)
        ensures { self.new ≡ with_refusal self.old (refusal number offset) }
    {
        let refusal = Refusal { number, offset };
        match self.first {
            Some(first) if !precedes(refusal, first) => {}
            _ => self.first = Some(refusal),
        }
    }
}

// Whether the first refusal comes before the second.
fn precedes(one: Refusal, other: Refusal) -> bool
    ensures { result ≡ precedes one other }
{
    one.offset < other.offset
        || (one.offset == other.offset && ordinal(one.number) < ordinal(other.number))
}

// The number of a refusal as an integer.
fn ordinal(number: RefusalNumber) -> u8
    ensures { result ≡ ordinal number }
{
    match number {
        RefusalNumber::E1 => 1,
        RefusalNumber::E2 => 2,
        RefusalNumber::E3 => 3,
        RefusalNumber::E4 => 4,
        RefusalNumber::E5 => 5,
        RefusalNumber::E6 => 6,
        RefusalNumber::E7 => 7,
        RefusalNumber::E8 => 8,
        RefusalNumber::E9 => 9,
        RefusalNumber::E10 => 10,
        RefusalNumber::E11 => 11,
        RefusalNumber::E12 => 12,
        RefusalNumber::E13 => 13,
        RefusalNumber::E14 => 14,
        RefusalNumber::E15 => 15,
        RefusalNumber::E16 => 16,
        RefusalNumber::E17 => 17,
    }
}
