//! What ends in a fault, and what does not, though it nearly does.

ghost use Rattle.std.specs.Prelude.{◌≡◌, [], ◌∷◌, pos};
ghost use Rattle.dv_bag.specs.declared.entry.Kind.TheVariants.{Internal, External, Confluent};
ghost use Rattle.dv_bag.specs.declared.fault.Fault.TheVariants.{Flood, Microsteps, Negative};
ghost use Rattle.dv_devs.specs.Models.{faulty_hold, fed_stopwatch, ring, single, spin};
ghost use Rattle.dv_devs.specs.Rows.{at, copies, counter, fault, input_at, inputs_at, no_input, one, phase_alone, trace_to, transition};

/// Holds of 0 reach the limit on microsteps.
pub fn microsteps_run_out()
    ensures { trace_to 3 0 (single spin (counter 0 (pos 0)) 1) no_input ≡ record {
      entries = transition (at 0 1) 0 Internal (counter 0 (pos 0)) []
          ∷ transition (at 0 2) 0 Internal (counter 0 (pos 0)) []
          ∷ fault (at 0 3) 0 Microsteps [] ∷ [];
      outer = [];
    } }
{}

/// Two relays without a delay send one value to each other again and again, until the one that
/// receives it at the last microstep has a fault. The other one has sent it and waits.
pub fn a_ring_runs_out_of_microsteps()
    ensures { trace_to 3 4 (ring 0) (input_at 8 (one (pos 7))) ≡ record {
      entries = transition (at 2 0) 0 External (phase_alone 1) []
          ∷ transition (at 2 1) 0 Internal (phase_alone 0) (one (pos 1) ∷ [])
          ∷ transition (at 2 1) 1 External (phase_alone 1) []
          ∷ transition (at 2 2) 0 External (phase_alone 1) []
          ∷ transition (at 2 2) 1 Internal (phase_alone 0) (one (pos 1) ∷ [])
          ∷ transition (at 2 3) 0 Internal (phase_alone 0) (one (pos 1) ∷ [])
          ∷ fault (at 2 3) 1 Microsteps [] ∷ [];
      outer = [];
    } }
{}

/// More than 4,096 values at a port are a flood, and 4,096 are not. What was sent at that instant
/// remains sent, and afterwards the component is quiet.
pub fn floods()
    ensures external { trace_to 1 12 fed_stopwatch (inputs_at 6 8 (copies (pos 1) 4097)) ≡ record {
      entries = fault (at 3 0) 0 Flood [] ∷ [];
      outer = [];
    } }
    ensures confluent { trace_to 1 12 fed_stopwatch (inputs_at 20 24 (copies (pos 1) 4097))
        ≡ record {
          entries = fault (at 10 0) 0 Flood (one (pos 0) ∷ []) ∷ [];
          outer = [];
        } }
    ensures none { trace_to 1 12 fed_stopwatch (input_at 20 (copies (pos 1) 4096)) ≡ record {
      entries = transition (at 10 0) 0 Confluent (counter 0 (pos 100)) (one (pos 0) ∷ []) ∷ [];
      outer = [];
    } }
{}

/// In a default confluent transition the hold of the internal rule, with its fault, comes before
/// the external rule.
pub fn the_hold_comes_before_the_external_rule()
    ensures { trace_to 1 5 (single faulty_hold (phase_alone 0) 4) (input_at 4 (one (pos 7)))
        ≡ record {
          entries = fault (at 2 0) 0 Negative [] ∷ [];
          outer = [];
        } }
{}
