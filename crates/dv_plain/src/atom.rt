//! The behaviour of an atomic model, by the trees of its rules.

ghost use Rattle.std.specs.Prelude.{◌≡◌, ◌<◌, ◌^◌, length, map, option_map, slice_get, IfOk, IfSome, Some};
ghost use Rattle.std.specs.Option.{option_copied};
ghost use Rattle.dv_bag.specs.Outcome.{Gives};
ghost use Rattle.dv_eval.specs.Scope.{phase_name, rule_of, scope_of};
ghost use Rattle.dv_react.specs.Given.{GivesAs, change_to};
ghost use Rattle.dv_syntax.specs.Trees.{atomic_of, file_of, statements_of};
ghost use Rattle.dv_syntax.specs.declared.tree.RuleSort.TheVariants as sort;
ghost use Rattle.dv_tree.specs.Instances.{instances};
ghost use Rattle.dv_plain.specs.Source.{behaviour_of, change_by};

use dv_bag::{Arrivals, Fault, RuleError, Sent, State};
use dv_eval::{Scope, phase_hold, rule_body, rule_of, run_rule};
use dv_react::{Atomic, go_to};
use dv_syntax::{Atomic as AtomicModel, RuleSort, Stmt};
use dv_tree::Tree;
use std::alloc::Global;

/// An atomic model of a text, with its scope.
#[derive(Clone, Copy)]
pub struct Atom<'m> {
    /// The tree of the model.
    pub model: &'m AtomicModel,
    /// What its names mean.
    pub scope: &'m Scope,
    ghost of_model: { scope.now ≡ scope_of (atomic_of model.now) },
}

impl<'m> Atom<'m> {
    /// The model of a component.
    pub fn of(tree: &'m Tree<'_>, component: usize) -> Self
        requires { component < length (instances (file_of tree.now.file)) }
        ensures { slice_get (map (λ i. i.model) (instances (file_of tree.now.file))) component
            ≡ Some (atomic_of result.model.now) }
    {
        Atom {
            model: tree.atomic(component),
            scope: tree.scope(component),
        }
    }

    // The statements of the confluent rule for the phase of a state, if the phase has one.
    fn confluent_rule(&self, state: &State) -> Option<&'m [Stmt]>
        ensures { option_map statements_of (option_copied result) ≡ rule_of sort.Confluent
            (phase_name (scope_of (atomic_of self.now.model.now)) state.now.phase)
            (atomic_of self.now.model.now).rules }
    {
        rule_of(self.model, RuleSort::Confluent, self.phase_name(state))
    }

    // Changes a state as statements do. Returns whether a `goto` ran.
    fn change_by(
        &self,
        alloc: Global,
        statements: &[Stmt],
        arrivals: &Arrivals,
        state: &mut State,
    ) -> Result<bool, RuleError>
        ensures { GivesAs (change_to state.new) result (change_by (atomic_of self.now.model.now)
            (statements_of statements.now) arrivals.now state.old) }
    {
        let effect = run_rule(alloc, statements, state, arrivals, self.scope)?;
        *state = effect.state;
        Ok(go_to(state, effect.goto))
    }

    // The hold of a state's phase, in ticks; `None` is forever. One below 0 is the fault
    // `Negative`.
    fn hold_of(&self, state: &State) -> Result<Option<u64>, Fault>
        ensures value { result ≡ (behaviour_of (atomic_of self.now.model.now)).hold state.now }
        ensures bound { IfOk result (λ ticks. IfSome ticks (λ n. n < 2 ^ 63)) }
    {
        phase_hold(self.model, self.phase_name(state), state, self.scope)
    }

    // The name of the phase of a state.
    fn phase_name(&self, state: &State) -> u32
        ensures { result ≡ phase_name (scope_of (atomic_of self.now.model.now)) state.now.phase }
    {
        self.scope.phase_name(state.phase).unwrap_or(0)
    }
}

impl Atomic for Atom<'_> {
    type Work = Global;

    ghost behaviour = { λ a. behaviour_of (atomic_of a.model.now) };

    ghost fits = { λ _ _. Unit {0} };

    ghost comes = { λ _ _. Unit {0} };

    fn output(&self, work: &mut Global, state: &State, into: &mut Sent) -> Result<(), RuleError> {
        let statements = rule_body(self.model, RuleSort::Output, self.phase_name(state));
        *into = run_rule(*work, statements, state, &Arrivals::nothing(), self.scope)?.sent;
        Ok(())
    }

    fn internal(&self, work: &mut Global, state: &mut State) -> Result<bool, RuleError> {
        let statements = rule_body(self.model, RuleSort::Internal, self.phase_name(state));
        self.change_by(*work, statements, &Arrivals::nothing(), state)
    }

    fn external(
        &self,
        work: &mut Global,
        arrivals: &Arrivals,
        state: &mut State,
    ) -> Result<bool, RuleError> {
        let statements = rule_body(self.model, RuleSort::External, self.phase_name(state));
        self.change_by(*work, statements, arrivals, state)
    }

    fn confluent(
        &self,
        work: &mut Global,
        arrivals: &Arrivals,
        state: &mut State,
    ) -> Result<Option<bool>, RuleError> {
        match self.confluent_rule(state) {
            Some(statements) => Ok(Some(self.change_by(*work, statements, arrivals, state)?)),
            None => Ok(None),
        }
    }

    fn hold(&self, _work: &mut Global, state: &State) -> Result<Option<u64>, RuleError> {
        match self.hold_of(state) {
            Ok(ticks) => Ok(ticks),
            Err(fault) => Err(RuleError::Fault(fault)),
        }
    }
}
