//! Clocks, and what leaves.

ghost use Rattle.std.specs.Prelude.{◌≡◌, [], ◌∷◌, pos};
ghost use Rattle.dv_bag.specs.Part.{nothing};
ghost use Rattle.dv_bag.specs.declared.entry.Kind.TheVariants.{Internal};
ghost use Rattle.dv_devs.specs.Models.{clock};
ghost use Rattle.dv_devs.specs.Rows.{at, counter, no_input, one, outer_line, trace_to, transition};

/// A clock ticks at 5.0 and at 10.0, and its output leaves.
pub fn a_clock_ticks()
    ensures { trace_to 1 12 clock no_input ≡ record {
      entries = transition (at 5 0) 0 Internal (counter 0 (pos 1)) (one (pos 0) ∷ [])
          ∷ transition (at 10 0) 0 Internal (counter 0 (pos 2)) (one (pos 1) ∷ []) ∷ [];
      outer = outer_line (at 5 0) (pos 0) ∷ outer_line (at 10 0) (pos 1) ∷ [];
    } }
{}

/// With a horizon of 0 the clock does nothing.
pub fn horizon_zero()
    ensures { trace_to 1 0 clock no_input ≡ nothing }
{}

/// After its fourth tick the clock stops.
pub fn the_clock_stops()
    ensures { trace_to 1 30 clock no_input ≡ record {
      entries = transition (at 5 0) 0 Internal (counter 0 (pos 1)) (one (pos 0) ∷ [])
          ∷ transition (at 10 0) 0 Internal (counter 0 (pos 2)) (one (pos 1) ∷ [])
          ∷ transition (at 15 0) 0 Internal (counter 0 (pos 3)) (one (pos 2) ∷ [])
          ∷ transition (at 20 0) 0 Internal (counter 1 (pos 3)) (one (pos 3) ∷ []) ∷ [];
      outer = outer_line (at 5 0) (pos 0) ∷ outer_line (at 10 0) (pos 1)
          ∷ outer_line (at 15 0) (pos 2) ∷ outer_line (at 20 0) (pos 3) ∷ [];
    } }
{}
