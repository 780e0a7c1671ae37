//! Laws of the language. Each function states a law in its contract; its body does nothing.

ghost use Rattle.std.specs.Prelude.{◌≡◌, true, false, pos, negsuc, [], ◌∷◌, Ok, Err};
ghost use Rattle.dv_bag.specs.declared.discipline.Change.TheVariants.{Add, Drop, Push};
ghost use Rattle.dv_bag.specs.declared.fault.Fault.TheVariants as fault;
ghost use Rattle.dv_bag.specs.declared.value.Value.TheVariants as outcome;
ghost use Rattle.dv_syntax.specs.Trees.{Binary, Call, Changes, Done, Elapsed, Prefixed, Times};
ghost use Rattle.dv_syntax.specs.declared.tree.BagCall.TheVariants as call;
ghost use Rattle.dv_syntax.specs.declared.tree.Prefix.TheVariants as prefix;
ghost use Rattle.dv_syntax.specs.declared.tree.Operator.TheVariants as operator;
ghost use Rattle.dv_eval.specs.Edges.{by_nothing, failing, faulty, greatest, holding, least, minus, number, too_great, value};
ghost use Rattle.dv_eval.specs.Rows.{add_it, bag, effect_queued, effect_when, effect_with, elapsed_when, for_each};
ghost use Rattle.dv_eval.specs.Rows.{for_each_request, great, least_is_one, left, nested, next_digit, ones, pop_one, push_it};
ghost use Rattle.dv_eval.specs.Rows.{queue, queued, requests, send_it, some_there, turn_over, two_threes, value_queued};
ghost use Rattle.dv_eval.specs.Rows.{value_when, value_with};

/// Numbers have 64 bits and a sign. A quotient is rounded towards 0, and a remainder is what is
/// left of the division. If both operands fault, the fault of the left one counts.
pub fn expressions_at_the_edges()
    ensures greatest { value greatest ≡ Ok (outcome.Number (pos 9223372036854775807)) }
    ensures least { value least ≡ Ok (outcome.Number (negsuc 9223372036854775807)) }
    ensures sum_past_the_greatest { value too_great ≡ Err fault.Overflow }
    ensures least_less_one { value (Binary operator.Subtract least (number 1))
        ≡ Err fault.Overflow }
    ensures minus_the_least { value (Prefixed prefix.Minus 1 least) ≡ Err fault.Overflow }
    ensures least_by_minus_one { value (Binary operator.Divide least (minus 1))
        ≡ Err fault.Overflow }
    ensures nothing_is_left { value (Binary operator.Remainder least (minus 1))
        ≡ Ok (outcome.Number (pos 0)) }
    ensures towards_zero { value (Binary operator.Divide (minus 7) (number 2))
        ≡ Ok (outcome.Number (negsuc 2)) }
    ensures left_over { value (Binary operator.Remainder (minus 7) (number 2))
        ≡ Ok (outcome.Number (negsuc 0)) }
    ensures left_fault { value (Binary operator.Add by_nothing too_great) ≡ Err fault.Divide }
    ensures right_fault { value (Binary operator.Add too_great by_nothing) ≡ Err fault.Overflow }
{}

/// If the left operand decides, the right one is not evaluated, and its fault does not count. A
/// fault of the left operand is the fault of the expression, for any right one.
pub fn decided_operators_stop_early()
    ensures and_stops { value (Binary operator.And failing faulty) ≡ Ok (outcome.Truth false) }
    ensures and_goes_on { value (Binary operator.And holding faulty) ≡ Err fault.Divide }
    ensures and_left_fault { value (Binary operator.And faulty failing) ≡ Err fault.Divide }
    ensures or_stops { value (Binary operator.Or holding faulty) ≡ Ok (outcome.Truth true) }
    ensures or_goes_on { value (Binary operator.Or failing faulty) ≡ Err fault.Divide }
    ensures or_left_fault { value (Binary operator.Or faulty holding) ≡ Err fault.Divide }
    ensures not_failing { value (Prefixed prefix.Not 1 failing) ≡ Ok (outcome.Truth true) }
    ensures not_holding { value (Prefixed prefix.Not 1 holding) ≡ Ok (outcome.Truth false) }
{}

/// Calls count copies. An empty bag has no least and no greatest value, and none is read if the
/// left operand decides.
pub fn bags_in_expressions()
    ensures size { value_with two_threes (Call call.Size 1 bag) ≡ Ok (outcome.Number (pos 3)) }
    ensures sum { value_with two_threes (Call call.Sum 1 bag) ≡ Ok (outcome.Number (pos 8)) }
    ensures least { value_with two_threes (Call call.Least 1 bag) ≡ Ok (outcome.Number (pos 2)) }
    ensures most { value_with two_threes (Call call.Most 1 bag) ≡ Ok (outcome.Number (pos 3)) }
    ensures times { value_with two_threes (Times 1 (number 3) bag) ≡ Ok (outcome.Number (pos 2)) }
    ensures never { value_with two_threes (Times 1 (number 4) bag) ≡ Ok (outcome.Number (pos 0)) }
    ensures times_fault { value_with two_threes (Times 1 by_nothing bag) ≡ Err fault.Divide }
    ensures none { value_with [] (Call call.Size 1 bag) ≡ Ok (outcome.Number (pos 0)) }
    ensures nothing { value_with [] (Call call.Sum 1 bag) ≡ Ok (outcome.Number (pos 0)) }
    ensures no_least { value_with [] (Call call.Least 1 bag) ≡ Err fault.Empty }
    ensures no_most { value_with [] (Call call.Most 1 bag) ≡ Err fault.Empty }
    ensures asked_first { value_with [] (Binary operator.And some_there least_is_one)
        ≡ Ok (outcome.Truth false) }
    ensures asked_last { value_with [] (Binary operator.And least_is_one some_there)
        ≡ Err fault.Empty }
    ensures past_the_greatest { value_with great (Call call.Sum 1 bag) ≡ Err fault.Overflow }
{}

/// A bag takes values until it is full, and drops only values that it has.
pub fn bags_in_statements()
    ensures one_more { effect_with two_threes (Changes Add 1 (number 2) bag Done)
        ≡ Ok (left (pos 0) ((pos 2, 2) ∷ (pos 3, 2) ∷ []) []) }
    ensures last { effect_with ((pos 1, 5) ∷ []) (Changes Add 1 (number 1) bag Done)
        ≡ Ok (left (pos 0) ((pos 1, 6) ∷ []) []) }
    ensures full { effect_with ((pos 1, 6) ∷ []) (Changes Add 1 (number 1) bag Done)
        ≡ Err fault.Full }
    ensures value_first { effect_with ((pos 1, 6) ∷ []) (Changes Add 1 by_nothing bag Done)
        ≡ Err fault.Divide }
    ensures one_less { effect_with two_threes (Changes Drop 1 (number 3) bag Done)
        ≡ Ok (left (pos 0) ((pos 2, 1) ∷ (pos 3, 1) ∷ []) []) }
    ensures none_less { effect_with two_threes (Changes Drop 1 (number 4) bag Done)
        ≡ Ok (left (pos 0) two_threes []) }
{}

/// The values of a queue are counted, and the first one is read. An empty queue has no first value.
pub fn queues_in_expressions()
    ensures size { value_queued (pos 7 ∷ pos 3 ∷ pos 7 ∷ []) (Call call.Size 1 queue)
        ≡ Ok (outcome.Number (pos 3)) }
    ensures front { value_queued (pos 7 ∷ pos 3 ∷ []) (Call call.Front 1 queue)
        ≡ Ok (outcome.Number (pos 7)) }
    ensures no_front { value_queued [] (Call call.Front 1 queue) ≡ Err fault.Empty }
{}

/// A queue takes values at its end until it is full, and `pop` removes the first one, if there is
/// one. A fault of the value comes before one of the queue.
pub fn queues_in_statements()
    ensures pushed { effect_queued (pos 7 ∷ pos 3 ∷ []) (Changes Push 1 (number 5) queue Done)
        ≡ Ok (queued (pos 0) (pos 7 ∷ pos 3 ∷ pos 5 ∷ [])) }
    ensures last { effect_queued (ones 5) (Changes Push 1 (number 1) queue Done)
        ≡ Ok (queued (pos 0) (ones 6)) }
    ensures full { effect_queued (ones 6) (Changes Push 1 (number 1) queue Done)
        ≡ Err fault.Full }
    ensures value_first { effect_queued (ones 6) (Changes Push 1 by_nothing queue Done)
        ≡ Err fault.Divide }
    ensures popped { effect_queued (pos 7 ∷ pos 3 ∷ []) pop_one ≡ Ok (queued (pos 0) (pos 3 ∷ [])) }
    ensures none_popped { effect_queued [] pop_one ≡ Err fault.Empty }
{}

/// A loop goes over the values that its bag had when the loop began, in ascending order, each copy
/// once. The first fault ends it. Of two loop variables with one name the inner one counts.
pub fn loops_walk_bags()
    ensures sends { effect_with two_threes (for_each send_it)
        ≡ Ok (left (pos 0) two_threes two_threes) }
    ensures in_order { effect_with two_threes (for_each next_digit)
        ≡ Ok (left (pos 233) two_threes []) }
    ensures as_it_stood { effect_with two_threes (for_each add_it)
        ≡ Ok (left (pos 0) ((pos 2, 2) ∷ (pos 3, 4) ∷ []) []) }
    ensures fault_ends { effect_with ((pos 9, 5) ∷ []) (for_each next_digit) ≡ Err fault.Range }
    ensures nothing { effect_with [] (for_each next_digit) ≡ Ok (left (pos 0) [] []) }
    ensures inner { effect_with ((pos 1, 1) ∷ (pos 2, 1) ∷ []) nested
        ≡ Ok (left (pos 1212) ((pos 1, 1) ∷ (pos 2, 1) ∷ []) []) }
{}

/// A loop goes over the values that its queue had when the loop began, from the first on, even if
/// its block changes the queue.
pub fn loops_walk_queues()
    ensures in_order { effect_queued (pos 2 ∷ pos 1 ∷ pos 2 ∷ []) (for_each next_digit)
        ≡ Ok (queued (pos 212) (pos 2 ∷ pos 1 ∷ pos 2 ∷ [])) }
    ensures as_it_stood { effect_queued (pos 2 ∷ pos 1 ∷ []) (for_each (push_it Done))
        ≡ Ok (queued (pos 0) (pos 2 ∷ pos 1 ∷ pos 2 ∷ pos 1 ∷ [])) }
    ensures turned_over { effect_queued (pos 2 ∷ pos 1 ∷ pos 3 ∷ []) (for_each turn_over)
        ≡ Ok (queued (pos 213) (pos 2 ∷ pos 1 ∷ pos 3 ∷ [])) }
    ensures nothing { effect_queued [] (for_each pop_one) ≡ Ok (queued (pos 0) []) }
{}

/// A rule reads the bags that arrived and the ticks since the last transition, and changes neither.
/// What arrived is not in a bag of the state.
pub fn rules_see_what_arrived()
    ensures elapsed { elapsed_when 7 ≡ Ok (outcome.Number (pos 7)) }
    ensures last_number { elapsed_when 9223372036854775807
        ≡ Ok (outcome.Number (pos 9223372036854775807)) }
    ensures past_the_last { elapsed_when 9223372036854775808 ≡ Err fault.Overflow }
    ensures no_tick { value_with two_threes (Elapsed 1) ≡ Ok (outcome.Number (pos 0)) }
    ensures size { value_when [] two_threes (Call call.Size 1 requests)
        ≡ Ok (outcome.Number (pos 3)) }
    ensures sum { value_when [] two_threes (Call call.Sum 1 requests)
        ≡ Ok (outcome.Number (pos 8)) }
    ensures times { value_when [] two_threes (Times 1 (number 3) requests)
        ≡ Ok (outcome.Number (pos 2)) }
    ensures nothing { value_with two_threes (Call call.Size 1 requests)
        ≡ Ok (outcome.Number (pos 0)) }
    ensures state_alone { value_when [] two_threes (Call call.Size 1 bag)
        ≡ Ok (outcome.Number (pos 0)) }
    ensures sends { effect_when [] two_threes (for_each_request send_it)
        ≡ Ok (left (pos 0) [] two_threes) }
    ensures keeps { effect_when [] two_threes (for_each_request add_it)
        ≡ Ok (left (pos 0) two_threes []) }
    ensures not_to_a_port { effect_when [] two_threes (Changes Add 1 (number 2) requests Done)
        ≡ Ok (left (pos 0) [] []) }
{}
