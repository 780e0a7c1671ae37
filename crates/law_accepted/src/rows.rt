//! Worked rows: files that are accepted, and files with their answers, computed in the definitions.

ghost use Rattle.std.specs.Prelude.{◌≡◌, true, Some, None, [], ◌∷◌};
ghost use Rattle.dv_bag.specs.declared.discipline.Change.TheVariants.{Add, Push};
ghost use Rattle.dv_check.specs.Names.{refusal};
ghost use Rattle.dv_check.specs.Refusals.{refusal_of};
ghost use Rattle.dv_check.specs.Rules.{atomic_refusals};
ghost use Rattle.dv_lex.specs.declared.error.RefusalNumber.TheVariants as number;
ghost use Rattle.dv_syntax.specs.Trees.{Binary, Named, Prefixed, Times, TruthValue};
ghost use Rattle.dv_syntax.specs.declared.tree.BagCall.TheVariants.{Front, Size, Sum};
ghost use Rattle.dv_syntax.specs.declared.tree.Operator.TheVariants as operator;
ghost use Rattle.dv_syntax.specs.declared.tree.Prefix.TheVariants as prefix;
ghost use Rattle.law_accepted.specs.Bags.{assigning, below_nothing, heap, size_at, with_bag};
ghost use Rattle.law_accepted.specs.Broken.{of_an_unknown_part, on_one_line};
ghost use Rattle.law_accepted.specs.Clock.{clock, link_at, literal, named};
ghost use Rattle.law_accepted.specs.Flags.{with_flag};
ghost use Rattle.law_accepted.specs.Queues.{asking, changing_one, popping_from};

/// A clock, alone in a coupled model with an output, is accepted.
pub fn a_clock_is_accepted()
    ensures { refusal_of (clock (link_at 400 ∷ [])) ≡ None }
{}

/// The same link, repeated, is refused.
pub fn a_link_stands_once()
    ensures { refusal_of (clock (link_at 400 ∷ (link_at 450 ∷ [])))
        ≡ Some (refusal number.E14 450) }
{}

/// Of several refusals on one line the one at the least offset is the answer, for any numbers.
pub fn the_first_offset_is_answered()
    ensures { refusal_of on_one_line ≡ Some (refusal number.E7 38) }
{}

/// A repeated link is not refused as such if the model of its part is unknown.
pub fn unknown_ends_are_not_repeated()
    ensures { refusal_of of_an_unknown_part ≡ Some (refusal number.E7 69) }
{}

/// A flag takes a truth value: a number is refused at its first token. The operands of an operator
/// are tested one by one.
pub fn flags_take_truth_values()
    ensures negated { refusal_of (with_flag (Prefixed prefix.Not 86 (Named (named 1 90)))) ≡ None }
    ensures joined { refusal_of (with_flag (Binary operator.And (Named (named 1 86))
        (TruthValue 93 true))) ≡ None }
    ensures number { refusal_of (with_flag (literal 1 86)) ≡ Some (refusal number.E8 86) }
    ensures negated_number { refusal_of (with_flag (Prefixed prefix.Not 86 (literal 1 90)))
        ≡ Some (refusal number.E8 90) }
    ensures joined_number { refusal_of (with_flag (Binary operator.And (Named (named 1 86))
        (literal 1 93))) ≡ Some (refusal number.E8 93) }
    ensures added { refusal_of (with_flag (Binary operator.Add (TruthValue 86 true)
        (literal 1 93))) ≡ Some (refusal number.E8 86) }
{}

/// A bag is read by calls, which give numbers: its name alone is not a value. A call on another
/// name is refused at the name, and a call where a truth value is wanted at its word.
pub fn bags_are_asked_by_calls()
    ensures size { refusal_of (assigning (size_at 205 3)) ≡ None }
    ensures times { refusal_of (assigning (Times 205 (Named (named 2 211)) (named 3 214))) ≡ None }
    ensures alone { refusal_of (assigning (Named (named 3 205))) ≡ Some (refusal number.E8 205) }
    ensures of_a_variable { refusal_of (assigning (size_at 205 2))
        ≡ Some (refusal number.E8 210) }
    ensures unknown { refusal_of (assigning (size_at 205 9)) ≡ Some (refusal number.E7 210) }
    ensures of_a_truth_value { refusal_of (assigning (Times 205 (Named (named 4 211))
        (named 3 215))) ≡ Some (refusal number.E8 211) }
    ensures negated { refusal_of (assigning (Prefixed prefix.Not 205 (size_at 209 3)))
        ≡ Some (refusal number.E8 209) }
{}

/// A queue has a size and a first value, and is changed by `push` and `pop`. Calls and statements
/// for bags are refused at the name of a queue, and those for queues at the name of a bag.
pub fn queues_and_bags_have_words_of_their_own()
    ensures size { refusal_of (asking Size 3) ≡ None }
    ensures front { refusal_of (asking Front 3) ≡ None }
    ensures push { refusal_of (changing_one Push 3) ≡ None }
    ensures pop { refusal_of (popping_from 3) ≡ None }
    ensures sum_of_queue { refusal_of (asking Sum 3) ≡ Some (refusal number.E8 116) }
    ensures front_of_bag { refusal_of (asking Front 4) ≡ Some (refusal number.E8 116) }
    ensures add_to_queue { refusal_of (changing_one Add 3) ≡ Some (refusal number.E8 115) }
    ensures push_to_bag { refusal_of (changing_one Push 4) ≡ Some (refusal number.E8 115) }
    ensures pop_of_bag { refusal_of (popping_from 4) ≡ Some (refusal number.E8 109) }
{}

/// A hold that faults at the start is refused at the phase after `start`, but not if it names a bag
/// whose capacity is refused.
pub fn holds_of_refused_bags_are_not_asked()
    ensures asked { refusal_of (with_bag 8 below_nothing (literal 1 205))
        ≡ Some (refusal number.E11 81) }
    ensures not_asked { atomic_refusals (heap 0 below_nothing (literal 1 205))
        ≡ refusal number.E17 43 ∷ [] }
{}
