//! Laws of refusals and of checked files. Each function states a law in its contract; its body does
//! nothing.

ghost use Rattle.std.specs.Prelude.{◌≡◌, ℕ, ◌≤◌, true, false, List, Some, None, [], ◌∷◌, Contains};
ghost use Rattle.std.specs.List.{All};
ghost use Rattle.dv_bag.specs.declared.discipline.Change.TheVariants.{Add, Drop, Push};
ghost use Rattle.dv_lex.specs.Order.{first_refusal, precedes};
ghost use Rattle.dv_lex.specs.Texts.{IsTokensOf};
ghost use Rattle.dv_lex.specs.declared.error.Refusal.{Refusal};
ghost use Rattle.dv_lex.specs.declared.error.RefusalNumber.TheVariants as number;
ghost use Rattle.dv_lex.specs.declared.token.Token.{Token};
ghost use Rattle.dv_source.specs.Grammar.{IsFileOf};
ghost use Rattle.dv_syntax.specs.Trees.{Assign, Binary, Call, Changes, CoupledModel, CoupledTree, Does, Done, Elapsed, FileTree, If};
ghost use Rattle.dv_syntax.specs.Trees.{Named, Times, TruthValue};
ghost use Rattle.dv_syntax.specs.declared.tree.BagCall.TheVariants.{Front, Size, Sum};
ghost use Rattle.dv_syntax.specs.declared.tree.Command.TheVariants.{Pop};
ghost use Rattle.dv_syntax.specs.declared.tree.Operator.TheVariants.{And};
ghost use Rattle.dv_syntax.specs.declared.tree.RuleSort.TheVariants as rule;
ghost use Rattle.dv_syntax.specs.declared.tree.Link.{Link};
ghost use Rattle.dv_check.specs.CheckedFiles.{IsCheckedFile, IsThrough};
ghost use Rattle.dv_check.specs.Loops.{bag_at, flag_at, input_at, loop_at, name_at, one_at, queue_at, wrong_held, wrong_inside};
ghost use Rattle.dv_check.specs.Loops.{wrong_outside, wrong_queued, wrong_under};
ghost use Rattle.dv_check.specs.Cycles.{cycle_refusals};
ghost use Rattle.dv_check.specs.Names.{model_named, refusal};
ghost use Rattle.dv_check.specs.Nests.{around, part_at, rooted, tower};
ghost use Rattle.dv_check.specs.Refusals.{limit_refusals, refusal_of};
ghost use Rattle.dv_check.specs.Relays.{link_at, wrong_links};
ghost use Rattle.dv_check.specs.Tree.{parts_to, tree_of};
ghost use Rattle.dv_check.specs.Limits.{greatest_depth};
ghost use Rattle.dv_check.specs.Writable.{IsWritable};

use dv_lex::laws::tokens_are_no_more_than_bytes;

/// A checked file has a coupled root. The parts of each of its coupled models have known models.
/// Each link leads between two parts, or between a part and the model itself: from an output of a
/// part or an input of the model to an input of a part or an output of the model. The tree of the
/// root has 1 to 4,096 components and at most 8,192 instances with the root, and coupled models are
/// nested at most 16 deep, the root counted.
pub fn checked_files()
    ensures { (f : FileTree) → refusal_of f ≡ None → IsCheckedFile f }
{}

/// A file that was read from a text could be written down: the text spells it, with numbers of the
/// language and at most as many tokens as the text has bytes.
pub fn files_of_texts_are_writable()
    ensures { (text : List ℕ) (names : List (List ℕ)) (tokens : List Token) (f : FileTree) →
        IsTokensOf text names tokens → IsFileOf tokens f → IsWritable f }
{
    tokens_are_no_more_than_bytes();
}

/// The tree of a checked file is complete: with more levels than the limit it stays the same.
pub fn trees_are_whole()
    ensures { (f : FileTree) (m : CoupledTree) (levels : ℕ) → refusal_of f ≡ None
        → model_named f.root.number f.models ≡ Some (CoupledModel m)
        → greatest_depth ≤ levels → parts_to levels f.models m ≡ tree_of f.models m }
{}

/// The first refusal is one of the refusals, and none precedes it; if there is none, there are no
/// refusals.
pub fn first_refusal_is_the_least()
    ensures contained { (rs : List Refusal) (r : Refusal) → first_refusal rs ≡ Some r
        → Contains rs r }
    ensures least { (rs : List Refusal) (r : Refusal) → first_refusal rs ≡ Some r →
        All (λ (x : Refusal). precedes x r ≡ false) rs }
    ensures none { (rs : List Refusal) → first_refusal rs ≡ None → rs ≡ [] }
{}

/// `precedes` is a strict total order.
pub fn refusals_are_ordered()
    ensures irreflexive { (r : Refusal) → precedes r r ≡ false }
    ensures transitive { (a b c : Refusal) → precedes a b ≡ true → precedes b c ≡ true →
        precedes a c ≡ true }
    ensures total { (a b : Refusal) → precedes a b ≡ false → precedes b a ≡ false → a ≡ b }
{}

/// No link of a checked file leads from a coupled model itself to the model itself: no input is
/// routed to an output of the same model.
pub fn no_link_leads_through()
    ensures { (f : FileTree) (m : CoupledTree) (l : Link) → refusal_of f ≡ None →
        Contains f.models (CoupledModel m) → Contains m.links l → IsThrough l → ⊥ }
{}

/// The name of a loop's variable is its own: if an item of the model has it too, or the variable of
/// a loop around it, the second one in the text is refused. Loops one after the other may share a
/// name.
pub fn loop_variables_have_names_of_their_own()
    ensures item_before { wrong_inside (flag_at 1 30 ∷ []) (loop_at 100 1 2 Done Done)
        ≡ refusal number.E6 104 ∷ [] }
    ensures item_behind { wrong_inside (flag_at 1 200 ∷ []) (loop_at 100 1 2 Done Done)
        ≡ refusal number.E6 200 ∷ [] }
    ensures loop_around { wrong_inside [] (loop_at 100 1 2 (loop_at 113 1 2 Done Done) Done)
        ≡ refusal number.E6 117 ∷ [] }
    ensures side_by_side { wrong_inside [] (loop_at 100 1 2 Done (loop_at 113 1 2 Done Done)) ≡ [] }
{}

/// The variable of a loop is known only in the loop's block: not in the name of the bag that the
/// loop is over, and not behind the loop. In the block it is a number that no statement assigns, in
/// each sort of rule.
pub fn loop_variables_are_known_in_their_blocks()
    ensures not_in_front { wrong_inside [] (loop_at 100 1 1 Done Done)
        ≡ refusal number.E7 109 ∷ [] }
    ensures bag_of_the_name { wrong_inside (bag_at 1 30 8 ∷ []) (loop_at 100 1 1 Done Done)
        ≡ refusal number.E6 104 ∷ [] }
    ensures added { wrong_inside [] (loop_at 100 1 2 (Changes Add 113 (Named (name_at 1 117))
        (name_at 2 122) Done) Done) ≡ [] }
    ensures not_behind { wrong_inside [] (loop_at 100 1 2 Done (Changes Add 113
        (Named (name_at 1 117)) (name_at 2 122) Done)) ≡ refusal number.E7 117 ∷ [] }
    ensures assigned { wrong_inside [] (loop_at 100 1 2 (Assign (name_at 1 113) (one_at 118) Done)
        Done) ≡ refusal number.E9 113 ∷ [] }
    ensures assigned_outside { wrong_outside [] (loop_at 100 1 2 (Assign (name_at 1 113)
        (one_at 118) Done) Done) ≡ refusal number.E9 113 ∷ [] }
{}

/// An output rule changes no bag and no queue: `add`, `drop`, `push` and `pop` are refused there at
/// their first word, before anything else that is wrong.
pub fn output_rules_change_no_collection()
    ensures added { wrong_inside [] (Changes Add 100 (one_at 104) (name_at 2 109) Done) ≡ [] }
    ensures added_outside { wrong_outside [] (Changes Add 100 (one_at 104) (name_at 2 109) Done)
        ≡ refusal number.E9 100 ∷ [] }
    ensures dropped_outside { wrong_outside [] (Changes Drop 100 (one_at 105) (name_at 2 112) Done)
        ≡ refusal number.E9 100 ∷ [] }
    ensures popped_outside { wrong_outside (queue_at 1 30 8 ∷ []) (Does Pop 100 (name_at 1 104)
        Done) ≡ refusal number.E9 100 ∷ [] }
    ensures pushed_outside { wrong_outside (flag_at 1 30 ∷ []) (Changes Push 100
        (Named (name_at 1 105)) (name_at 2 110) Done) ≡ refusal number.E9 100
        ∷ (refusal number.E8 105 ∷ (refusal number.E8 110 ∷ [])) }
{}

/// Where a bag is wanted, a queue is refused; where a queue is wanted, everything else is. `size`
/// and loops take both.
pub fn queues_are_no_bags()
    ensures pushed { wrong_queued (Changes Push 100 (Call Front 105 (name_at 1 111)) (name_at 1 117)
        (Does Pop 119 (name_at 1 123) Done)) ≡ [] }
    ensures sized { wrong_queued (Changes Add 100 (Call Size 104 (name_at 1 109)) (name_at 2 115)
        Done) ≡ [] }
    ensures walked { wrong_queued (loop_at 100 4 1 Done Done) ≡ [] }
    ensures added { wrong_queued (Changes Add 100 (one_at 104) (name_at 1 109) Done)
        ≡ refusal number.E8 109 ∷ [] }
    ensures summed { wrong_queued (Changes Add 100 (Call Sum 104 (name_at 1 108)) (name_at 2 114)
        Done) ≡ refusal number.E8 108 ∷ [] }
    ensures counted { wrong_queued (Changes Add 100 (Times 104 (one_at 110) (name_at 1 113))
        (name_at 2 119) Done) ≡ refusal number.E8 113 ∷ [] }
    ensures pushed_to_a_bag { wrong_queued (Changes Push 100 (one_at 105) (name_at 2 110) Done)
        ≡ refusal number.E8 110 ∷ [] }
    ensures popped_from_a_bag { wrong_queued (Does Pop 100 (name_at 2 104) Done)
        ≡ refusal number.E8 104 ∷ [] }
    ensures front_of_a_bag { wrong_queued (Changes Push 100 (Call Front 105 (name_at 2 111))
        (name_at 1 117) Done) ≡ refusal number.E8 111 ∷ [] }
    ensures front_of_a_port { wrong_under rule.Output (input_at 1 30 ∷ []) (If 100 (Call Front 103
        (name_at 1 109)) Done Done) ≡ refusal number.E8 109 ∷ [] }
    ensures unknown { wrong_queued (Does Pop 100 (name_at 4 104) Done)
        ≡ refusal number.E7 104 ∷ [] }
{}

/// The capacity of a bag or a queue is from 1 to 4,096: any other number is refused.
pub fn capacities_have_bounds()
    ensures nothing { wrong_inside (bag_at 1 30 0 ∷ []) Done ≡ refusal number.E17 32 ∷ [] }
    ensures one { wrong_inside (bag_at 1 30 1 ∷ []) Done ≡ [] }
    ensures greatest { wrong_inside (bag_at 1 30 4096 ∷ []) Done ≡ [] }
    ensures too_great { wrong_inside (bag_at 1 30 4097 ∷ []) Done ≡ refusal number.E17 32 ∷ [] }
    ensures queue_too_great { wrong_inside (queue_at 1 30 4097 ∷ []) Done
        ≡ refusal number.E17 32 ∷ [] }
{}

/// A queue is empty at the start: the hold of the start phase faults if it reads the first value.
pub fn queues_are_empty_at_the_start()
    ensures sized { wrong_held (queue_at 1 30 8 ∷ []) (Call Size 68 (name_at 1 73)) ≡ [] }
    ensures front { wrong_held (queue_at 1 30 8 ∷ []) (Call Front 68 (name_at 1 74))
        ≡ refusal number.E11 56 ∷ [] }
{}

/// `elapsed` is known only in external rules, where it is a number; elsewhere it is refused and has
/// no type.
pub fn elapsed_is_known_in_external_rules()
    ensures external { wrong_under rule.External [] (Changes Add 100 (Elapsed 104) (name_at 2 115)
        Done) ≡ [] }
    ensures internal { wrong_under rule.Internal [] (Changes Add 100 (Elapsed 104) (name_at 2 115)
        Done) ≡ refusal number.E9 104 ∷ [] }
    ensures confluent { wrong_under rule.Confluent [] (Changes Add 100 (Elapsed 104) (name_at 2 115)
        Done) ≡ refusal number.E9 104 ∷ [] }
    ensures number { wrong_under rule.External [] (If 100 (Binary And (Elapsed 103)
        (TruthValue 115 true)) Done Done) ≡ refusal number.E8 103 ∷ [] }
    ensures no_type { wrong_under rule.Internal [] (If 100 (Binary And (Elapsed 103)
        (TruthValue 115 true)) Done Done) ≡ refusal number.E9 103 ∷ [] }
{}

/// The values at an input port can be read in external and confluent rules, and no rule changes
/// them.
pub fn inputs_are_read_where_they_come()
    ensures external { wrong_under rule.External (input_at 1 30 ∷ []) (Changes Add 100
        (Call Size 104 (name_at 1 109)) (name_at 2 115) Done) ≡ [] }
    ensures confluent { wrong_under rule.Confluent (input_at 1 30 ∷ []) (Changes Add 100
        (Call Size 104 (name_at 1 109)) (name_at 2 115) Done) ≡ [] }
    ensures internal { wrong_under rule.Internal (input_at 1 30 ∷ []) (Changes Add 100
        (Call Size 104 (name_at 1 109)) (name_at 2 115) Done) ≡ refusal number.E9 109 ∷ [] }
    ensures changed { wrong_under rule.External (input_at 1 30 ∷ []) (Changes Add 100 (one_at 104)
        (name_at 1 109) Done) ≡ refusal number.E8 109 ∷ [] }
{}

/// A link leads from an input of the model itself or an output of a part to an output of the model
/// itself or an input of a part. A link between two ends at one part is refused, and so is one
/// between two ends at the model itself.
pub fn links_lead_on()
    ensures between { wrong_links (link_at 200 (Some 4) 3 (Some 5) 2 ∷ []) ≡ [] }
    ensures entry { wrong_links (link_at 200 None 6 (Some 4) 2 ∷ []) ≡ [] }
    ensures exit { wrong_links (link_at 200 (Some 4) 3 None 7 ∷ []) ≡ [] }
    ensures part_to_itself { wrong_links (link_at 200 (Some 4) 3 (Some 4) 2 ∷ [])
        ≡ refusal number.E13 200 ∷ [] }
    ensures through { wrong_links (link_at 200 None 6 None 7 ∷ [])
        ≡ refusal number.E13 200 ∷ [] }
{}

/// An end of the wrong direction is refused at its port, and the link is not tested further.
pub fn ends_have_directions()
    ensures from_own_output { wrong_links (link_at 200 None 7 (Some 4) 2 ∷ [])
        ≡ refusal number.E12 210 ∷ [] }
    ensures to_own_input { wrong_links (link_at 200 (Some 4) 3 None 6 ∷ [])
        ≡ refusal number.E12 225 ∷ [] }
    ensures from_input_of_part { wrong_links (link_at 200 (Some 4) 2 (Some 5) 2 ∷ [])
        ≡ refusal number.E12 210 ∷ [] }
    ensures to_output_of_part { wrong_links (link_at 200 (Some 4) 3 (Some 4) 3 ∷ [])
        ≡ refusal number.E12 225 ∷ [] }
{}

/// A coupled part has ports as an atomic one has: a link leads to its inputs and from its outputs.
pub fn coupled_parts_show_their_ports()
    ensures to_its_input { wrong_links (link_at 200 (Some 4) 3 (Some 9) 2 ∷ []) ≡ [] }
    ensures from_its_output { wrong_links (link_at 200 (Some 9) 3 (Some 4) 2 ∷ []) ≡ [] }
    ensures to_its_output { wrong_links (link_at 200 (Some 4) 3 (Some 9) 3 ∷ [])
        ≡ refusal number.E12 225 ∷ [] }
    ensures from_its_input { wrong_links (link_at 200 (Some 9) 2 (Some 4) 2 ∷ [])
        ≡ refusal number.E12 210 ∷ [] }
{}

/// No model contains itself: a part whose model contains the model around it is refused at the name
/// of its model. A part that leads to such models without being on a cycle is accepted.
pub fn no_model_contains_itself()
    ensures itself { refusal_of (rooted (around 1 (part_at 22 0 1 ∷ []) ∷ []) 1)
        ≡ Some (refusal number.E15 30) }
    ensures each_other { cycle_refusals (around 1 (part_at 22 0 2 ∷ [])
        ∷ (around 2 (part_at 42 0 1 ∷ []) ∷ []))
        ≡ refusal number.E15 30 ∷ (refusal number.E15 50 ∷ []) }
    ensures leads_to_one { cycle_refusals (around 1 (part_at 22 0 2 ∷ [])
        ∷ (around 2 (part_at 42 0 2 ∷ []) ∷ [])) ≡ refusal number.E15 50 ∷ [] }
    ensures twice_inside { cycle_refusals (around 1 (part_at 22 0 2 ∷ (part_at 32 1 2 ∷ []))
        ∷ (around 2 [] ∷ [])) ≡ [] }
{}

/// Of the parts of one name only the first counts: a second one contains nothing, and is refused at
/// its name.
pub fn parts_of_a_repeated_name_contain_nothing()
    ensures second_leads_back { refusal_of (rooted (around 1 (part_at 22 0 2 ∷ [])
        ∷ (around 2 (part_at 42 0 3 ∷ (part_at 52 0 1 ∷ [])) ∷ (around 3 [] ∷ []))) 1)
        ≡ Some (refusal number.E6 57) }
    ensures first_leads_back { refusal_of (rooted (around 1 (part_at 22 0 2 ∷ [])
        ∷ (around 2 (part_at 42 0 1 ∷ (part_at 52 0 3 ∷ [])) ∷ (around 3 [] ∷ []))) 1)
        ≡ Some (refusal number.E15 30) }
{}

/// Coupled models are nested at most 16 deep, the root counted, and a root has a component; else
/// its name is refused.
pub fn trees_have_limits()
    ensures sixteen_deep { limit_refusals (rooted (tower 16) 16) ≡ [] }
    ensures seventeen_deep { limit_refusals (rooted (tower 17) 17) ≡ refusal number.E17 90 ∷ [] }
    ensures no_component { limit_refusals (rooted (around 1 [] ∷ []) 1)
        ≡ refusal number.E17 90 ∷ [] }
{}
