//! Laws of generated programs. Each function states a law in its contract.

ghost use Rattle.std.specs.Prelude.{◌≡◌, ◌≤◌, ◌^◌, ℕ, true, [], ◌∷◌, length, IfSome};
ghost use Rattle.std.specs.List.{All};
ghost use Rattle.dv_bag.specs.Arrivals.{Arrivals, nothing_arrived};
ghost use Rattle.dv_bag.specs.declared.state.State.{State};
ghost use Rattle.dv_bag.specs.declared.value.ValueType.TheVariants.{Number};
ghost use Rattle.dv_check.specs.Refusals.{refusal_of};
ghost use Rattle.dv_check.specs.Rules.{atomic_refusals};
ghost use Rattle.dv_check.specs.Writable.{IsWritable};
ghost use Rattle.dv_code.specs.Machine.{begins, first_effect, run};
ghost use Rattle.dv_code.specs.Shape.{AreSmall, Fits, Shape};
ghost use Rattle.dv_code.specs.Valid.{IsValid};
ghost use Rattle.dv_eval.specs.Meaning.{effect_of, meaning, moment_in, outermost};
ghost use Rattle.dv_eval.specs.Scope.{scope_of};
ghost use Rattle.dv_syntax.specs.Trees.{AtomicTree, FileTree, HoldTree, ModelTree, RuleTree};
ghost use Rattle.dv_syntax.specs.Grammar.{hold_spelling, loop_depth, rule_spelling};
ghost use Rattle.law_accepted.specs.Fitting.{fits};
ghost use Rattle.dv_gen.specs.Generator.{ending, goes, hold_ending, hold_program_of, program_of};
ghost use Rattle.dv_gen.specs.ModelCode.{HasProgramsWithin, IsCompilableModel, phase_codes};
ghost use Rattle.dv_gen.specs.Over.{AreOver};
ghost use Rattle.dv_gen.specs.Resolution.{goto_indices, hold_shape, hold_tree, rule_shape, rule_tree, tables_of};
ghost use Rattle.dv_gen.specs.Resolved.{AreTyped, Expression, IsTyped, Statements, gotos, rule_effect, type_of, value_of};

/// The program of a tree that is well typed is valid.
pub fn generated_programs_are_valid()
    ensures rule { (shape : Shape) (depth : ℕ) (body : Statements) → AreTyped shape depth 0 body
        → IsValid shape [] depth (program_of body) }
    ensures hold { (shape : Shape) (e : Expression) → IsTyped shape 0 e
        → IsValid shape (type_of e ∷ []) 0 (hold_program_of e) }
{}

/// The program of a rule ends with the effect of the rule, or with its fault, from every state that
/// fits and with any arrivals; the program of a hold ends with the value of the hold, or with its
/// fault.
pub fn generated_programs_do_what_the_tree_means()
    ensures rule { (shape : Shape) (depth : ℕ) (body : Statements) → AreTyped shape depth 0 body
        → (arrivals : Arrivals) (s : State) → Fits shape.slots s.variables
        → (n : ℕ) × (run shape (program_of body) arrivals n (begins shape s)
        ≡ ending (rule_effect shape arrivals body s)) }
    ensures hold { (shape : Shape) (e : Expression) → IsTyped shape 0 e
        → (arrivals : Arrivals) (s : State) → Fits shape.slots s.variables
        → (n : ℕ) × (run shape (hold_program_of e) arrivals n (begins shape s)
        ≡ hold_ending (first_effect shape s) (value_of arrivals [] s e)) }
{}

/// The phases of a program's deeds `Go` are those of the tree's gotos, in order. So the deeds of a
/// rule's program have the indices of the phases to which the rule goes in the text. The program of
/// a hold has no deeds.
pub fn generated_programs_go_where_the_tree_goes()
    ensures rule { (body : Statements) → goes (program_of body) ≡ gotos body }
    ensures text { (m : AtomicTree) (r : RuleTree) →
        goes (program_of (rule_tree m r.body)) ≡ goto_indices (scope_of m) r.body }
    ensures hold { (e : Expression) → goes (hold_program_of e) ≡ [] }
{}

/// The theorem of the compiler. The program of each rule of an accepted model is valid for its
/// sort, and from every state that fits and with any arrivals it ends with the effect that the rule
/// has in the text, or with its first fault; the program of each hold ends with the value of the
/// hold, or with its first fault.
pub fn compiled_rules_have_the_rules_effect()
    ensures valid_rules { (m : AtomicTree) → atomic_refusals m ≡ [] → All (λ (r : RuleTree).
        IsValid (rule_shape (scope_of m) r.sort) [] (loop_depth r.body)
        (program_of (rule_tree m r.body))) m.rules }
    ensures valid_holds { (m : AtomicTree) → atomic_refusals m ≡ [] → All (λ (h : HoldTree).
        IfSome h.ticks (λ e. IsValid (hold_shape (scope_of m)) (Number ∷ []) 0
        (hold_program_of (hold_tree m e)))) m.holds }
    ensures rules { (m : AtomicTree) → atomic_refusals m ≡ [] → All (λ (r : RuleTree).
        (arrivals : Arrivals) (s : State) → fits m s ≡ true → (n : ℕ)
        × (run (rule_shape (scope_of m) r.sort) (program_of (rule_tree m r.body)) arrivals n
        (begins (rule_shape (scope_of m) r.sort) s)
        ≡ ending (effect_of (scope_of m) r.body arrivals s))) m.rules }
    ensures holds { (m : AtomicTree) → atomic_refusals m ≡ [] → All (λ (h : HoldTree).
        IfSome h.ticks (λ e. (s : State) → fits m s ≡ true → (n : ℕ)
        × (run (hold_shape (scope_of m)) (hold_program_of (hold_tree m e)) nothing_arrived n
        (begins (hold_shape (scope_of m)) s)
        ≡ hold_ending (first_effect (hold_shape (scope_of m)) s)
        (meaning (scope_of m) (moment_in (outermost nothing_arrived) s) e)))) m.holds }
{
    generated_programs_are_valid();
    generated_programs_do_what_the_tree_means();
    accepted_rules_are_well_typed();
    states_fit_the_tables();
    indices_mean_what_names_mean();
}

/// The rules and holds of an accepted model are well typed after names are replaced by indices; the
/// loops of a rule are nested as deep as in the text.
pub fn accepted_rules_are_well_typed()
    ensures rules { (m : AtomicTree) → atomic_refusals m ≡ [] → All (λ (r : RuleTree).
        AreTyped (rule_shape (scope_of m) r.sort) (loop_depth r.body) 0 (rule_tree m r.body))
        m.rules }
    ensures holds { (m : AtomicTree) → atomic_refusals m ≡ [] → All (λ (h : HoldTree).
        IfSome h.ticks (λ e. (type_of (hold_tree m e) ≡ Number)
        × IsTyped (hold_shape (scope_of m)) 0 (hold_tree m e))) m.holds }
{}

/// A state that fits an accepted model fits the slots of its tables. The capacity of each bag and
/// queue is from 1 to 4,096.
pub fn states_fit_the_tables()
    ensures fits { (m : AtomicTree) (s : State) → fits m s ≡ true →
        Fits (tables_of (scope_of m)).slots s.variables }
    ensures small { (m : AtomicTree) → atomic_refusals m ≡ [] →
        AreSmall (tables_of (scope_of m)).slots }
{}

/// The programs of a model use its tables, and each is of its sort.
pub fn programs_stand_over_their_tables()
    ensures { (m : AtomicTree) → AreOver (tables_of (scope_of m)) (phase_codes m) }
{}

/// Indices in place of names change no meaning: in a state that fits, with any arrivals, the rules
/// and the holds of an accepted model mean what they mean in the text.
pub fn indices_mean_what_names_mean()
    ensures rules { (m : AtomicTree) → atomic_refusals m ≡ [] → All (λ (r : RuleTree).
        (arrivals : Arrivals) (s : State) → fits m s ≡ true →
        rule_effect (rule_shape (scope_of m) r.sort) arrivals (rule_tree m r.body) s
        ≡ effect_of (scope_of m) r.body arrivals s) m.rules }
    ensures holds { (m : AtomicTree) → atomic_refusals m ≡ [] → All (λ (h : HoldTree).
        IfSome h.ticks (λ e. (s : State) → fits m s ≡ true →
        value_of nothing_arrived [] s (hold_tree m e)
        ≡ meaning (scope_of m) (moment_in (outermost nothing_arrived) s) e)) m.holds }
{}

/// Each atomic model of an accepted file can be compiled: the loops of its rules are not nested too
/// deeply.
pub fn accepted_files_are_compilable()
    ensures { (f : FileTree) → IsWritable f → refusal_of f ≡ None
        → All (λ (m : ModelTree). IsCompilableModel m) f.models }
{}

/// A program has no more instructions than its rule, or its hold, has tokens. So the programs of a
/// file that could be written down have at most 2^27.
pub fn programs_are_no_longer_than_their_spellings()
    ensures rules { (m : AtomicTree) (r : RuleTree) →
        length (program_of (rule_tree m r.body)) ≤ length (rule_spelling r) }
    ensures holds { (m : AtomicTree) (h : HoldTree) → IfSome h.ticks (λ e.
        length (hold_program_of (hold_tree m e)) ≤ length (hold_spelling h)) }
    ensures writable { (f : FileTree) → IsWritable f →
        All (λ (m : ModelTree). HasProgramsWithin (2 ^ 27) m) f.models }
{}
