//! Laws of states, names and values of accepted texts. Each function states a law in its contract;
//! its body does nothing.

ghost use Rattle.std.specs.Prelude.{◌≡◌, ℕ, ℤ, ◌<◌, length, true, List, Option, Ok, Some, []};
ghost use Rattle.std.specs.List.{All};
ghost use Rattle.dv_bag.specs.declared.value.Value.{Value};
ghost use Rattle.dv_bag.specs.declared.state.State.{State};
ghost use Rattle.dv_bag.specs.declared.state.Effect.{Effect};
ghost use Rattle.dv_bag.specs.Arrivals.{Arrivals};
ghost use Rattle.dv_bag.specs.BagLists.{AreBags};
ghost use Rattle.dv_bag.specs.declared.value.ValueType.{ValueType};
ghost use Rattle.dv_check.specs.Types.{Known, offset_refusals, type_of};
ghost use Rattle.dv_check.specs.Rules.{atomic_refusals, known_in, known_in_rule};
ghost use Rattle.dv_eval.specs.declared.scope.Domain.{Domain};
ghost use Rattle.dv_eval.specs.Scope.{is_declared, scope_of, start_state};
ghost use Rattle.dv_eval.specs.Meaning.{effect_of, meaning, moment_in, outermost};
ghost use Rattle.dv_syntax.specs.declared.tree.Name.{Name};
ghost use Rattle.dv_syntax.specs.declared.tree.RuleSort.{RuleSort};
ghost use Rattle.dv_syntax.specs.Trees.{AtomicTree, Expression, HoldTree, RuleTree, Statements};
ghost use Rattle.law_accepted.specs.Fitting.{are_names_known, are_ticks_known, context_within, domain_named, fits, HoldsDatum};
ghost use Rattle.law_accepted.specs.Fitting.{in_phase, is_of_type, known_within, LeadsToPhase, ReadsPort};

/// The start state of an accepted model fits the model: its phase is one of the model's, each
/// variable has a number within its range, each flag a truth value, and each bag and each queue no
/// more values than its capacity, which is at most 4,096.
pub fn start_states_fit()
    ensures { (m : AtomicTree) → atomic_refusals m ≡ [] → fits m (start_state m) ≡ true }
{}

/// From a state that fits its model a rule leads to one that fits, and a `goto` leads to a phase of
/// the model, in which the state fits too: for any arrivals, and any elapsed time.
pub fn rules_keep_to_the_ranges()
    ensures state { (m : AtomicTree) (body : Statements) (arrivals : Arrivals) (s : State)
        (e : Effect) → fits m s ≡ true →
        effect_of (scope_of m) body arrivals s ≡ Ok e → fits m e.state ≡ true }
    ensures goto { (m : AtomicTree) (body : Statements) (arrivals : Arrivals) (s : State)
        (e : Effect) → fits m s ≡ true →
        effect_of (scope_of m) body arrivals s ≡ Ok e → LeadsToPhase (scope_of m) e.goto }
    ensures phase { (m : AtomicTree) (s : State) (index : ℕ) → fits m s ≡ true →
        index < length (scope_of m).phases → fits m (in_phase s index) ≡ true }
{}

/// What a rule sends is a list of bags, for any arrivals.
pub fn rules_send_bags()
    ensures { (m : AtomicTree) (body : Statements) (arrivals : Arrivals) (s : State) (e : Effect)
        → effect_of (scope_of m) body arrivals s ≡ Ok e → AreBags e.sent }
{}

/// The rules and the holds of an accepted model name only what the model declares and the variables
/// of the loops around, which are never assigned. Where a bag or a queue is read, the name is that
/// of one in the state; where a bag is read in an external or a confluent rule, it may also be that
/// of an input port. Where one is changed, the name is that of one in the state, of the discipline
/// of the change. `elapsed` occurs in external rules alone. In a state that fits, a variable has a
/// number within its range, a flag a truth value, and a bag or a queue no more values than its
/// capacity; the name of an input port denotes what arrived there. No name is ever unknown.
pub fn accepted_names_are_known()
    ensures rules { (m : AtomicTree) → atomic_refusals m ≡ [] →
        All (λ (r : RuleTree). are_names_known (scope_of m) (Some r.sort) [] r.body ≡ true)
        m.rules }
    ensures holds { (m : AtomicTree) → atomic_refusals m ≡ [] →
        All (λ (h : HoldTree). are_ticks_known (scope_of m) h.ticks ≡ true) m.holds }
    ensures values { (m : AtomicTree) (s : State) (name : ℕ) (d : Domain) → fits m s ≡ true →
        domain_named (scope_of m) name ≡ Some d → HoldsDatum (scope_of m) s name d }
    ensures inputs { (m : AtomicTree) (name : ℕ) → atomic_refusals m ≡ [] →
        is_declared name (scope_of m).inputs ≡ true → ReadsPort (scope_of m) name }
{}

/// An expression that is accepted where a type is wanted is of that type. In a state that fits, its
/// value, if it has one, is of that type, outside of loops and in their blocks, in a hold and in
/// rules of each sort, for any arrivals: a truth value is never taken for a number, nor a number
/// for a truth value.
pub fn accepted_values_are_of_their_types()
    ensures typed { (known : Known) (wanted : ValueType) (e : Expression) →
        offset_refusals wanted known e ≡ [] → type_of known e ≡ Some wanted }
    ensures value { (m : AtomicTree) (rule : Option RuleSort) (arrivals : Arrivals) (s : State)
        (e : Expression) (t : ValueType) (v : Value) → fits m s ≡ true →
        type_of (known_in_rule rule (known_in m)) e ≡ Some t →
        meaning (scope_of m) (moment_in (outermost arrivals) s) e ≡ Ok v → is_of_type t v ≡ true }
    ensures in_loops { (m : AtomicTree) (rule : Option RuleSort) (arrivals : Arrivals)
        (bound : List (Name × ℤ)) (s : State) (e : Expression) (t : ValueType) (v : Value) →
        fits m s ≡ true →
        type_of (known_within bound (known_in_rule rule (known_in m))) e ≡ Some t →
        meaning (scope_of m) (moment_in (context_within arrivals bound) s) e ≡ Ok v →
        is_of_type t v ≡ true }
{}
