//! Laws of responses. Each function states a law in its contract; its body only calls laws of
//! states.

ghost use Rattle.std.specs.Prelude.{◌≡◌, ℕ, true, Ok, Some};
ghost use Rattle.std.specs.List.{All};
ghost use Rattle.dv_bag.specs.Arrivals.{Arrivals};
ghost use Rattle.dv_bag.specs.Numbers.{HoldsNumbers};
ghost use Rattle.dv_bag.specs.declared.state.State.{State};
ghost use Rattle.dv_bag.specs.declared.state.Effect.{Effect};
ghost use Rattle.dv_eval.specs.Meaning.{effect_of, hold_of};
ghost use Rattle.dv_eval.specs.Scope.{hold_ticks, phase_name, rule_body, scope_of};
ghost use Rattle.dv_syntax.specs.Trees.{AtomicTree};
ghost use Rattle.dv_syntax.specs.declared.tree.RuleSort.TheVariants.{External};
ghost use Rattle.law_accepted.specs.Fitting.{fits, in_phase};
ghost use Rattle.dv_bound.specs.Response.{IsNotBelow, external_gotos, response_of};

use law_accepted::laws::{accepted_names_are_known, rules_keep_to_the_ranges};

/// If an external rule goes to a phase, from any state that fits and with any arrivals, the hold
/// that begins there is not below the model's response, if it ends. The state in which it begins
/// holds only numbers of the language, in variables, bags and queues. Each state of the code does
/// so by its type: see `State::holds_numbers`.
pub fn holds_are_not_below_the_response()
    ensures { (m : AtomicTree) (phase index ticks : ℕ) (arrivals : Arrivals) (s : State)
        (e : Effect) → fits m s ≡ true →
        effect_of (scope_of m) (rule_body External phase m.rules) arrivals s ≡ Ok e →
        e.goto ≡ Some index → HoldsNumbers e.state.variables →
        hold_of (scope_of m) (hold_ticks (phase_name (scope_of m) index) m.holds)
        (in_phase e.state index) ≡ Ok (Some ticks) →
        IsNotBelow (response_of m) ticks }
{
    rules_keep_to_the_ranges();
    accepted_names_are_known();
}

/// The hold of a phase that a `goto` of an external rule names, even one that does not run, is not
/// below the model's response if it ends, in any state that fits and holds only numbers of the
/// language.
pub fn holds_of_gotos_are_not_below_the_response()
    ensures { (m : AtomicTree) → All (λ (phase : ℕ). (s : State) (ticks : ℕ) → fits m s ≡ true →
        HoldsNumbers s.variables →
        hold_of (scope_of m) (hold_ticks phase m.holds) s ≡ Ok (Some ticks) →
        IsNotBelow (response_of m) ticks) (external_gotos m) }
{
    accepted_names_are_known();
}
