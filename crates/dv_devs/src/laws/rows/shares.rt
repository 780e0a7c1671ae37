//! A component that runs alone.

ghost use Rattle.std.specs.Prelude.{◌≡◌, ℕ, [], ◌∷◌, nat_eq, pos};
ghost use Rattle.dv_bag.specs.declared.entry.Kind.TheVariants.{External, Confluent};
ghost use Rattle.dv_time.specs.Time.{end_of};
ghost use Rattle.dv_devs.specs.Models.{relay_inputs, ring, second_relay, sent_by_first};
ghost use Rattle.dv_devs.specs.Parts.{part_before};
ghost use Rattle.dv_devs.specs.Rows.{at, one, phase_alone, trace_to, transition};

/// The second of two relays, if it receives what the first one sends, has the trace that is its
/// part of the ring's trace.
pub fn a_relay_runs_alone()
    ensures alone { trace_to 1 22 (second_relay 10) (sent_by_first 1 10 relay_inputs)
        ≡ record {
          entries = transition (at 12 0) 1 External (phase_alone 1) []
              ∷ transition (at 22 0) 1 Confluent (phase_alone 1) (one (pos 1) ∷ []) ∷ [];
          outer = [];
        } }
    ensures part { part_before (λ k. nat_eq k 1) 1 (ring 10) relay_inputs (end_of 1 22)
        ≡ record {
          entries = transition (at 12 0) 1 External (phase_alone 1) []
              ∷ transition (at 22 0) 1 Confluent (phase_alone 1) (one (pos 1) ∷ []) ∷ [];
          outer = [];
        } }
{}
