//! Worked rows: models with their responses, computed in the definitions.

ghost use Rattle.std.specs.Prelude.{◌≡◌, ◌+ℤ◌, pos, None, Some};
ghost use Rattle.dv_eval.specs.Edges.{greatest, number};
ghost use Rattle.dv_syntax.specs.Trees.{Done, Parens};
ghost use Rattle.dv_bound.specs.Response.{least_number};
ghost use Rattle.dv_bound.specs.Rows.{low_in_server, the_drift, either, for_each, goto, minus, plus, response_by, response_to};
ghost use Rattle.dv_bound.specs.Rows.{the_load, first_in_line, jobs_waiting, least_job, line_waiting};

/// A hold counts with its least ticks, as far as the text shows them: those of a number, a
/// variable, the size of a bag or a queue, and of sums. Everything else counts as the least number,
/// in sums too; a hold below 0 counts as 0. A hold that is forever never ends.
pub fn holds_count_with_their_least_ticks()
    ensures number { response_to (Some (number 5)) ≡ Some 5 }
    ensures variable { response_to (Some the_load) ≡ Some 2 }
    ensures sum { response_to (Some (plus the_load (number 3))) ≡ Some 5 }
    ensures size { response_to (Some (plus jobs_waiting (number 1))) ≡ Some 1 }
    ensures size_of_queue { response_to (Some (plus line_waiting (number 1))) ≡ Some 1 }
    ensures in_parentheses { response_to (Some (Parens 1 (number 4))) ≡ Some 4 }
    ensures difference { response_to (Some (minus the_load (number 1))) ≡ Some 0 }
    ensures below_nothing { response_to (Some (minus (number 0) (number 1))) ≡ Some 0 }
    ensures of_a_difference { response_to (Some (plus (minus (number 9) (number 1)) greatest))
        ≡ Some 0 }
    ensures of_a_value { response_to (Some (plus (plus least_job (number 50)) greatest))
        ≡ Some 49 }
    ensures from_below { response_to (Some the_drift) ≡ Some 0 }
    ensures up_from_below { response_to (Some (plus the_drift (number 9))) ≡ Some 4 }
    ensures greatest { response_to (Some (plus greatest the_load)) ≡ Some 9223372036854775807 }
    ensures forever { response_to None ≡ None }
{}

/// What the text does not show counts as the least number, and a sum is kept within the numbers of
/// the language.
pub fn unknown_values_count_as_the_least_number()
    ensures difference { low_in_server (minus the_load (number 1)) ≡ least_number }
    ensures least_value { low_in_server least_job ≡ least_number }
    ensures first_value { low_in_server first_in_line ≡ least_number }
    ensures sum { low_in_server (plus least_job (number 50)) ≡ least_number +ℤ pos 50 }
    ensures sum_of_both { low_in_server (plus least_job least_job) ≡ least_number }
{}

/// Only the least of the holds to which external rules go counts, also from within blocks. The
/// start phase and the other rules do not count.
pub fn the_soonest_hold_counts()
    ensures nowhere { response_by Done ≡ None }
    ensures alone { response_by (goto 8 Done) ≡ Some 7 }
    ensures later { response_by (goto 8 (goto 7 Done)) ≡ Some 5 }
    ensures in_blocks { response_by (either (goto 8 Done) (for_each (goto 7 Done))) ≡ Some 5 }
    ensures start { response_by (goto 7 (goto 6 Done)) ≡ Some 1 }
    ensures without_a_hold { response_by (goto 9 Done) ≡ None }
{}
