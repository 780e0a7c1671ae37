//! Worked rows, computed in the definitions alone.

ghost use Rattle.std.specs.Prelude.{◌≡◌, false, true, [], ◌∷◌, Err, Ok, pos};
ghost use Rattle.dv_bag.specs.Arrivals.{nothing_arrived};
ghost use Rattle.dv_bag.specs.declared.fault.Fault.TheVariants.{Empty, Full, Range};
ghost use Rattle.dv_bag.specs.declared.value.Value.TheVariants.{Truth};
ghost use Rattle.dv_code.specs.Machine.{Faulted, Finished};
ghost use Rattle.dv_gen.specs.Resolved.{AreTyped, rule_effect, value_of};
ghost use Rattle.dv_gen.specs.Generator.{program_of};
ghost use Rattle.dv_gen.specs.Rows.{desk, even_delivery, false_before_fault, great_delivery, intake, intake_code, leaving};
ghost use Rattle.dv_gen.specs.Rows.{leaving_code, mixed_delivery, outcome_after, outcome_at_desk, reset, reset_code, service};
ghost use Rattle.dv_gen.specs.Rows.{service_code, stock, store, to_second_phase, two_delivered, waiting};

/// A rule with a loop over an input port, a choice and an `and`: its program of 17 instructions,
/// and the effect of both for three values, the program within 35 steps.
pub fn a_rule_and_its_program()
    ensures typed { AreTyped store 1 0 intake }
    ensures program { program_of intake ≡ intake_code }
    ensures effect { rule_effect store mixed_delivery intake (stock 10 true [])
        ≡ Ok (to_second_phase (stock 60 true ((pos 3, 1) ∷ []))) }
    ensures run { outcome_after 35 intake_code mixed_delivery (stock 10 true [])
        ≡ Finished [] (to_second_phase (stock 60 true ((pos 3, 1) ∷ []))) }
{}

/// A third value for a bag of two is a fault, and so is a sum above its range, in the tree and in
/// its program.
pub fn a_rule_has_faults()
    ensures full { rule_effect store even_delivery intake (stock 10 true []) ≡ Err Full }
    ensures full_run { outcome_after 29 intake_code even_delivery (stock 10 true [])
        ≡ Faulted Full }
    ensures range { rule_effect store great_delivery intake (stock 10 true []) ≡ Err Range }
    ensures range_run { outcome_after 11 intake_code great_delivery (stock 10 true [])
        ≡ Faulted Range }
{}

/// The program of a choice without `else` has no jump behind its block.
pub fn a_choice_without_a_second_block()
    ensures typed { AreTyped store 0 0 reset }
    ensures program { program_of reset ≡ reset_code }
    ensures met { rule_effect store nothing_arrived reset (stock 10 true [])
        ≡ Ok (to_second_phase (stock 7 true [])) }
    ensures met_run { outcome_after 6 reset_code nothing_arrived (stock 10 true [])
        ≡ Finished [] (to_second_phase (stock 7 true [])) }
    ensures unmet { rule_effect store nothing_arrived reset (stock 10 false [])
        ≡ Ok (to_second_phase (stock 10 false [])) }
    ensures unmet_run { outcome_after 4 reset_code nothing_arrived (stock 10 false [])
        ≡ Finished [] (to_second_phase (stock 10 false [])) }
{}

/// A rule over a queue, and its program of 18 instructions, which runs within 29 steps: what
/// arrives is added at the end, the first value is read and removed, and a loop goes over the
/// values that the queue had when the loop began, even if they are removed during it.
pub fn a_rule_over_a_queue()
    ensures typed { AreTyped desk 1 0 service }
    ensures program { program_of service ≡ service_code }
    ensures effect { rule_effect desk two_delivered service (waiting 0 (pos 7 ∷ []))
        ≡ Ok (to_second_phase (waiting 735 [])) }
    ensures run { outcome_at_desk 29 service_code two_delivered (waiting 0 (pos 7 ∷ []))
        ≡ Finished [] (to_second_phase (waiting 735 [])) }
{}

/// A fourth value for a queue of three is a fault. So is the first value of an empty queue, read or
/// removed.
pub fn a_rule_over_a_queue_has_faults()
    ensures full { rule_effect desk two_delivered service (waiting 0 (pos 1 ∷ pos 2 ∷ []))
        ≡ Err Full }
    ensures full_run { outcome_at_desk 6 service_code two_delivered
        (waiting 0 (pos 1 ∷ pos 2 ∷ [])) ≡ Faulted Full }
    ensures front { rule_effect desk nothing_arrived service (waiting 0 []) ≡ Err Empty }
    ensures front_run { outcome_at_desk 2 service_code nothing_arrived (waiting 0 [])
        ≡ Faulted Empty }
    ensures leaving { program_of leaving ≡ leaving_code }
    ensures pop { rule_effect desk nothing_arrived leaving (waiting 0 []) ≡ Err Empty }
    ensures pop_run { outcome_at_desk 1 leaving_code nothing_arrived (waiting 0 [])
        ≡ Faulted Empty }
{}

/// If the first operand of `and` is false, the second is not evaluated, and its fault does not
/// count.
pub fn and_stops_early()
    ensures { value_of nothing_arrived [] (stock 0 true []) false_before_fault ≡ Ok (Truth false) }
{}
