//! Inputs during a hold.

ghost use Rattle.std.specs.Prelude.{◌≡◌, [], ◌∷◌, pos};
ghost use Rattle.dv_bag.specs.declared.entry.Kind.TheVariants.{Internal, External};
ghost use Rattle.dv_devs.specs.Models.{fed_cell, fed_stopwatch};
ghost use Rattle.dv_devs.specs.Rows.{at, counter, input_at, inputs_at, one, trace_to, transition};

/// An input at 3.0 does not change the hold that ends at 5.0.
pub fn hold_continues()
    ensures { trace_to 1 5 fed_cell (input_at 6 (one (pos 10))) ≡ record {
      entries = transition (at 3 0) 0 External (counter 0 (pos 10)) []
          ∷ transition (at 5 0) 0 Internal (counter 0 (pos 11)) (one (pos 10) ∷ []) ∷ [];
      outer = [];
    } }
{}

/// The elapsed time counts the ticks since the last transition, also one after which the hold
/// continued.
pub fn time_elapses_since_the_last_transition()
    ensures { trace_to 1 10 fed_stopwatch (inputs_at 6 15 (one (pos 7))) ≡ record {
      entries = transition (at 3 0) 0 External (counter 0 (pos 3)) []
          ∷ transition (at 7 1) 0 External (counter 0 (pos 7)) []
          ∷ transition (at 10 0) 0 Internal (counter 0 (pos 107)) (one (pos 7) ∷ []) ∷ [];
      outer = [];
    } }
{}
