//! Laws of compiled models. Each function states laws in its contract; its body only calls the laws
//! that they follow from.

ghost use Rattle.std.specs.Prelude.{◌≡◌, ℕ, Bool, true, List, Some, None, Ok};
ghost use Rattle.dv_bag.specs.Bag.{Counts};
ghost use Rattle.dv_bag.specs.Arrivals.{AreFew};
ghost use Rattle.dv_bag.specs.declared.inputs.Input.{Input};
ghost use Rattle.dv_bag.specs.declared.state.State.{State};
ghost use Rattle.dv_bag.specs.Numbers.{HoldsNumbers};
ghost use Rattle.dv_bound.specs.Response.{IsNotBelow, response_of};
ghost use Rattle.dv_check.specs.Refusals.{refusal_of};
ghost use Rattle.dv_check.specs.Writable.{IsWritable};
ghost use Rattle.dv_devs.specs.Behaviour.{Change};
ghost use Rattle.dv_devs.specs.Fits.{Agrees, Keeps};
ghost use Rattle.dv_devs.specs.Network.{trace_before};
ghost use Rattle.dv_gen.specs.ModelCode.{IsCompilable, phase_codes};
ghost use Rattle.dv_plain.specs.Source.{behaviour_of, outside, trace_of};
ghost use Rattle.dv_syntax.specs.Trees.{AtomicTree, FileTree};
ghost use Rattle.dv_time.specs.Time.{end_of};
ghost use Rattle.law_accepted.specs.Fitting.{fits};
ghost use Rattle.law_compiled.specs.Behaviours.{behaviour_by};
ghost use Rattle.law_compiled.specs.Networks.{compiled_network};

use dv_bag::Bags;
use dv_bag::inputs::laws::what_comes_in_stands_in_bags;
use dv_bound::laws::holds_are_not_below_the_response;
use dv_code::laws::{programs_give_how_their_runs_end, valid_programs_end};
use dv_devs::laws::fits::alike_networks_run_alike;
use dv_flat::laws::links_route_as_the_tree;
use dv_gen::laws::{
    accepted_files_are_compilable, accepted_rules_are_well_typed,
    compiled_rules_have_the_rules_effect, generated_programs_are_valid, states_fit_the_tables,
};
use law_accepted::laws::{rules_keep_to_the_ranges, rules_send_bags, start_states_fit};

/// The rules of an accepted model lead from states that fit it to states that fit it, and in those
/// states its programs behave as its rules, for any arrivals that flood no port.
pub fn programs_behave_as_rules()
    ensures keeps { (m : AtomicTree) (comes : List Counts → Bool) → IsCompilable m
        → Keeps (fits m) comes (behaviour_of m) }
    ensures agrees { (m : AtomicTree) (comes : List Counts → Bool) → IsCompilable m
        → Agrees (fits m) comes (behaviour_of m) (behaviour_by (phase_codes m)) }
{
    rules_keep_to_the_ranges();
    accepted_rules_are_well_typed();
    generated_programs_are_valid();
    compiled_rules_have_the_rules_effect();
    states_fit_the_tables();
    valid_programs_end();
    programs_give_how_their_runs_end();
}

/// If the program of an external rule goes to a phase, the hold that begins there by its program is
/// not below the model's response, if it ends: from any state that fits, and for any arrivals that
/// flood no port. The state in which the hold begins holds only numbers of the language, as each
/// state of the code does by its type.
pub fn hold_programs_are_not_below_the_response()
    ensures { (m : AtomicTree) (elapsed ticks : ℕ) (bags : List Counts) (s : State) (c : Change)
        → IsCompilable m → AreFew bags → fits m s ≡ true
        → (behaviour_by (phase_codes m)).external elapsed bags s ≡ Ok c → c.goes ≡ true
        → HoldsNumbers c.state.variables
        → (behaviour_by (phase_codes m)).hold c.state ≡ Ok (Some ticks)
        → IsNotBelow (response_of m) ticks }
{
    programs_behave_as_rules();
    holds_are_not_below_the_response();
}

/// The compiled model is the model: the network of programs and links of an accepted text has the
/// trace of the text, for every list of inputs, horizon and microstep limit.
pub fn the_compiled_model_is_the_model()
    ensures { (f : FileTree) (inputs : List Input) (horizon limit : ℕ)
        → IsWritable f → refusal_of f ≡ None
        → trace_before limit (compiled_network limit f) (outside f limit inputs)
        (end_of limit horizon) ≡ trace_of f inputs horizon limit }
{
    programs_behave_as_rules();
    accepted_files_are_compilable();
    start_states_fit();
    rules_send_bags();
    what_comes_in_stands_in_bags();
    links_route_as_the_tree();
    alike_networks_run_alike::<Bags>();
}
