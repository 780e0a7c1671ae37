//! Inputs at the end of a hold.

ghost use Rattle.std.specs.Prelude.{◌≡◌, [], ◌∷◌, pos};
ghost use Rattle.dv_bag.specs.declared.entry.Kind.TheVariants.{Internal, External, Confluent};
ghost use Rattle.dv_devs.specs.Models.{confluent_alone, fed_cell, relay_inputs, ring, short_hold, single, twice};
ghost use Rattle.dv_devs.specs.Rows.{at, counter, input_at, inputs_at, no_input, one, phase_alone, trace_to, transition};

/// An input at the end of the hold: the output function is applied to the state before it, then
/// come the internal and the external transition.
pub fn confluent_at_the_hold()
    ensures { trace_to 1 5 fed_cell (input_at 10 (one (pos 10))) ≡ record {
      entries = transition (at 5 0) 0 Confluent (counter 0 (pos 11)) (one (pos 0) ∷ []) ∷ [];
      outer = [];
    } }
{}

/// A value that travels by two ways arrives twice.
pub fn value_arrives_twice()
    ensures { trace_to 1 10 twice no_input ≡ record {
      entries = transition (at 5 0) 0 Internal (counter 0 (pos 1)) (one (pos 0) ∷ [])
          ∷ transition (at 5 0) 1 Confluent (counter 0 (pos 1)) (one (pos 0) ∷ [])
          ∷ transition (at 10 0) 0 Internal (counter 0 (pos 2)) (one (pos 1) ∷ [])
          ∷ transition (at 10 0) 1 Confluent (counter 0 (pos 4)) (one (pos 1) ∷ []) ∷ [];
      outer = [];
    } }
{}

/// Two relays in a ring: at 12.0 an input comes as the first one's delay ends, and at 22.0 the
/// value of each comes as the other's delay ends.
pub fn relays_meet()
    ensures { trace_to 1 22 (ring 10) relay_inputs ≡ record {
      entries = transition (at 2 0) 0 External (phase_alone 1) []
          ∷ transition (at 12 0) 0 Confluent (phase_alone 1) (one (pos 1) ∷ [])
          ∷ transition (at 12 0) 1 External (phase_alone 1) []
          ∷ transition (at 22 0) 0 Confluent (phase_alone 1) (one (pos 1) ∷ [])
          ∷ transition (at 22 0) 1 Confluent (phase_alone 1) (one (pos 1) ∷ []) ∷ [];
      outer = [];
    } }
{}

/// The hold that begins between the two rules of a default confluent transition needs no microstep:
/// at 2.1, the last one of its tick, a hold of 0 begins and is replaced.
pub fn the_hold_between_is_given_up()
    ensures { trace_to 1 3 (single short_hold (phase_alone 0) 5) (input_at 5 (one (pos 7)))
        ≡ record {
          entries = transition (at 2 1) 0 Confluent (phase_alone 0) [] ∷ [];
          outer = [];
        } }
{}

/// A confluent rule replaces both others, and a hold begins after it even without a goto.
pub fn a_confluent_rule_begins_a_hold()
    ensures { trace_to 1 5 (single confluent_alone (phase_alone 0) 4) (inputs_at 4 8 (one (pos 7)))
        ≡ record {
          entries = transition (at 2 0) 0 Confluent (phase_alone 0) []
              ∷ transition (at 4 0) 0 Confluent (phase_alone 0) [] ∷ [];
          outer = [];
        } }
{}
