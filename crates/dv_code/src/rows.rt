//! Worked rows, computed in the definitions alone.

ghost use Rattle.std.specs.Prelude.{◌≡◌, [], ◌∷◌, pos};
ghost use Rattle.dv_bag.specs.Arrivals.{nothing_arrived};
ghost use Rattle.dv_bag.specs.declared.fault.Fault.TheVariants as fault;
ghost use Rattle.dv_code.specs.Machine.{Faulted, Finished};
ghost use Rattle.dv_code.specs.Runs.{Ends};
ghost use Rattle.dv_code.specs.Rows.{IsRefused, each_pushed, each_sent, each_sent_marks, eight_values, front_of_bag};
ghost use Rattle.dv_code.specs.Rows.{front_pushed, jump_into_body, jump_to_itself, number_for_truth, one_popped, pop_in_output};
ghost use Rattle.dv_code.specs.Rows.{queue_left, queued, stored, three_sent, three_values, two_ends, value_left_at_end};
ghost use Rattle.dv_code.specs.Rows.{value_left_in_body};
ghost use Rattle.dv_code.specs.Valid.{IsProgram};

/// A program that sends each value of a bag is valid, under these marks.
pub fn a_program_and_its_marks()
    ensures { (valid : IsProgram each_sent) × (valid.valid.marks ≡ each_sent_marks) }
{}

/// With three values in the bag it sends these three, and ends with the 11th step.
pub fn a_run_of_eleven_steps()
    ensures { Ends each_sent nothing_arrived (stored three_values) 11 (Finished [] three_sent) }
{}

/// A loop walks a queue as it was when the loop began, from the first value to the last. A value is
/// pushed at the end, and popped at the front.
pub fn a_run_over_a_queue()
    ensures { Ends each_pushed nothing_arrived (queued (pos 7 ∷ pos 3 ∷ [])) 9
        (Finished [] (queue_left (pos 3 ∷ pos 7 ∷ pos 3 ∷ []))) }
{}

/// To pop or read the first value of an empty queue is a fault, and so is to push on a full one.
pub fn faults_of_queues()
    ensures pop { Ends one_popped nothing_arrived (queued []) 1 (Faulted fault.Empty) }
    ensures front { Ends front_pushed nothing_arrived (queued []) 1 (Faulted fault.Empty) }
    ensures push { Ends front_pushed nothing_arrived (queued eight_values) 2
        (Faulted fault.Full) }
{}

/// Programs that are not valid under any marks.
pub fn refused_programs()
    ensures value_left_in_body { IsRefused value_left_in_body }
    ensures jump_into_body { IsRefused jump_into_body }
    ensures jump_to_itself { IsRefused jump_to_itself }
    ensures number_for_truth { IsRefused number_for_truth }
    ensures value_left_at_end { IsRefused value_left_at_end }
    ensures empty { IsRefused [] }
    ensures two_ends { IsRefused two_ends }
    ensures front_of_bag { IsRefused front_of_bag }
    ensures pop_in_output { IsRefused pop_in_output }
{}
