//! Worked rows, computed in the definitions alone.

ghost use Rattle.std.specs.Prelude.{◌≡◌, [], ◌∷◌, Some, None, pos, true};
ghost use Rattle.dv_bag.specs.declared.entry.Kind.TheVariants.{Confluent, Internal};
ghost use Rattle.dv_devs.specs.Network.{trace_before};
ghost use Rattle.dv_devs.specs.Rows.{at, counter, no_input, one, outer_line, transition};
ghost use Rattle.dv_time.specs.Time.{end_of};
ghost use Rattle.dv_conservative.specs.Events.{events_between};
ghost use Rattle.dv_conservative.specs.Flat.{whole};
ghost use Rattle.dv_conservative.specs.Process.{P1, P2, P3, P4, events_by, packet_of, part_by, promise, refusal_of};
ghost use Rattle.dv_conservative.specs.Rows.{answer_to, clock_and_cell, event_at, nothing_received, packet, received_one};
ghost use Rattle.dv_conservative.specs.Rows.{relays, twice_linked, two_relays};
ghost use Rattle.dv_conservative.specs.Sound.{IsJob};
ghost use Rattle.dv_conservative.specs.True.{crossing_by};
ghost use Rattle.dv_conservative.specs.World.{outgoing_on, share_of};

/// A value that a link doubles arrives twice.
pub fn the_whole()
    ensures { trace_before 1 (whole twice_linked) no_input (end_of 1 10) ≡ record {
      entries = transition (at 5 0) 0 Internal (counter 0 (pos 1)) (one (pos 0) ∷ [])
          ∷ transition (at 5 0) 1 Confluent (counter 0 (pos 1)) (one (pos 0) ∷ [])
          ∷ transition (at 10 0) 0 Internal (counter 0 (pos 2)) (one (pos 1) ∷ [])
          ∷ transition (at 10 0) 1 Confluent (counter 0 (pos 4)) (one (pos 1) ∷ []) ∷ [];
      outer = outer_line (at 5 0) (pos 0) ∷ outer_line (at 10 0) (pos 1) ∷ [];
    } }
{}

/// There is one channel, from the clock's process to the cell's. The packet up to 5.1 carries what
/// the clock sends at 5.0, with its two copies.
pub fn the_clock_sends()
    ensures channels { clock_and_cell.channels ≡ record { source = 0; target = 1 } ∷ [] }
    ensures packet { packet_of (share_of clock_and_cell 0) (events_by nothing_received)
        (outgoing_on clock_and_cell 0 (record { source = 0; target = 1 })) (at 0 0) (at 5 1)
        ≡ packet 0 (at 0 0) (at 5 1)
        (record { time = at 5 0; component = 1; port = 0; value = pos 0; copies = 2 } ∷ []) }
{}

/// If it receives what crosses, the cell's process commits its part.
pub fn the_cell_alone()
    ensures { part_by (share_of clock_and_cell 1)
        (λ l. events_between 1
        (crossing_by clock_and_cell (record { source = 0; target = 1 })) 0 (end_of 1 10))
        (end_of 1 10)
        ≡ record {
          entries = transition (at 5 0) 1 Confluent (counter 0 (pos 1)) (one (pos 0) ∷ [])
              ∷ transition (at 10 0) 1 Confluent (counter 0 (pos 4)) (one (pos 1) ∷ []) ∷ [];
          outer = [];
        } }
{}

/// At 0.0 both promise up to 5.0, their next time, since neither ever answers an input. At 5.0, its
/// next time, the clock promises up to 5.1. A relay that may answer at once promises up to 0.1, and
/// past the end there is no promise.
pub fn promises()
    ensures cell { promise (share_of clock_and_cell 1) nothing_received 0 ≡ 10 }
    ensures clock { promise (share_of clock_and_cell 0) nothing_received 0 ≡ 10 }
    ensures now { promise (share_of clock_and_cell 0) nothing_received 10 ≡ 11 }
    ensures at_once { promise (share_of two_relays 1) nothing_received 0 ≡ 1 }
    ensures last { promise (share_of clock_and_cell 0) nothing_received (end_of 1 10)
        ≡ end_of 1 10 }
{}

/// How a process that has received nothing answers packets, and one packet that comes twice.
pub fn packets_are_refused()
    ensures other_link { answer_to (packet 1 (at 0 0) (at 1 0) []) ≡ Some P1 }
    ensures later { answer_to (packet 0 (at 0 1) (at 1 0) []) ≡ Some P2 }
    ensures later_and_empty { answer_to (packet 0 (at 0 1) (at 0 1) []) ≡ Some P2 }
    ensures no_window { answer_to (packet 0 (at 0 0) (at 0 0) []) ≡ Some P4 }
    ensures past_the_end { answer_to (packet 0 (at 0 0) (at 5 1) []) ≡ Some P4 }
    ensures past_the_limit { answer_to (packet 0 (at 0 0) (at 1 4) []) ≡ Some P4 }
    ensures at_its_end { answer_to (packet 0 (at 0 0) (at 1 0) (event_at (at 1 0) 1 (pos 1) ∷ []))
        ≡ Some P3 }
    ensures at_a_microstep { answer_to
        (packet 0 (at 0 0) (at 1 0) (event_at (at 0 4) 1 (pos 1) ∷ [])) ≡ Some P3 }
    ensures for_another { answer_to (packet 0 (at 0 0) (at 1 0) (event_at (at 0 2) 0 (pos 1) ∷ []))
        ≡ Some P3 }
    ensures out_of_order { answer_to (packet 0 (at 0 0) (at 1 0)
        (event_at (at 0 2) 1 (pos 2) ∷ event_at (at 0 2) 1 (pos 1) ∷ [])) ≡ Some P3 }
    ensures accepted { answer_to (packet 0 (at 0 0) (at 1 0) []) ≡ None }
    ensures again { refusal_of (share_of two_relays 1)
        (received_one (packet 0 (at 0 0) (at 1 0) []))
        (packet 0 (at 0 0) (at 1 0) []) ≡ Some P2 }
{}

/// Two relays in a ring, each in a process of its own, are a job; so the requirements on jobs can
/// be met.
pub fn two_relays_are_a_job()
    ensures { IsJob (λ k s. true) two_relays }
{}
