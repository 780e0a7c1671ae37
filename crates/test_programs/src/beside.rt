//! A program, compared with the tree that it was made from.

use dv_bag::{Arrivals, Effect, RuleError, Sent, State, Value};
use dv_code::Valid;
use dv_eval::{Context, Moment, Scope, eval, run_rule};
use dv_syntax::{Expr, Stmt};
use std::alloc::{AllocError, Global};
use std::process::Abort;
use std::sync::ledger::Ledger;
use test_samples::{Compiled, Level, Pair, Runs, Tree, deliveries, state_at};

/// How many runs had an effect, or a number, and how many a fault.
#[derive(Clone, Copy, Debug, PartialEq, Eq)]
pub struct Endings {
    /// How many runs had an effect, or a number.
    pub effects: u64,
    /// How many runs had a fault.
    pub faults: u64,
}

/// How a run beside its tree came out.
#[derive(Clone, Copy, Debug, PartialEq, Eq)]
enum Likeness {
    SameEffect,
    SameFault,
    Different,
}

/// How a program and its tree compare, if the program ran.
fn likeness_of<T: PartialEq>(
    by_code: &Option<Result<T, RuleError>>,
    by_tree: &Result<T, RuleError>,
) -> Option<Likeness> {
    match (by_code, by_tree) {
        (None, _) => None,
        (Some(Ok(one)), Ok(other)) if one == other => Some(Likeness::SameEffect),
        (Some(Err(RuleError::Fault(one))), Err(RuleError::Fault(other))) if one == other => {
            Some(Likeness::SameFault)
        }
        _ => Some(Likeness::Different),
    }
}

/// Whether a program has sent what the effect of its tree has, or had the same fault.
fn is_sent(by_code: &Result<Sent, RuleError>, by_tree: &Result<Effect, RuleError>) -> bool {
    match (by_code, by_tree) {
        (Ok(sent), Ok(effect)) => *sent == effect.sent,
        (Err(RuleError::Fault(one)), Err(RuleError::Fault(other))) => one == other,
        _ => false,
    }
}

/// The number of a hold's expression.
fn hold_by_tree(ticks: &Expr, state: &State, scope: &Scope) -> Result<i64, RuleError> {
    let context = Context::Outermost(&Arrivals::nothing());
    let moment = Moment {
        state,
        context: &context,
    };
    match eval(ticks, &moment, scope) {
        Ok(Value::Number(number)) => Ok(number),
        Ok(Value::Truth(_)) => Err(RuleError::Memory),
        Err(fault) => Err(RuleError::Fault(fault)),
    }
}

/// Runs a program for what it sends, if it is that of an output rule, and fails the test where its
/// tree sends otherwise.
fn compare_output<L: Ledger>(
    rt: &impl Abort,
    runs: &mut Runs<L>,
    program: &Valid,
    state: &State,
    by_tree: &Result<Effect, RuleError>,
) {
    if let Some(sent) = runs.output(program, state) {
        assert!(rt; is_sent(&sent, by_tree));
    }
}

/// How the program of a rule and its tree compare.
fn rule_likeness<L: Ledger>(
    runs: &mut Runs<L>,
    program: &Valid,
    state: &State,
    arrivals: &Arrivals,
    by_tree: &Result<Effect, RuleError>,
) -> Option<Likeness> {
    likeness_of(&runs.rule(program, state, arrivals), by_tree)
}

/// How the program of a hold and its tree compare.
fn hold_likeness<L: Ledger>(
    runs: &mut Runs<L>,
    program: &Valid,
    state: &State,
    by_tree: &Result<i64, RuleError>,
) -> Option<Likeness> {
    likeness_of(&runs.hold(program, state), by_tree)
}

impl Endings {
    /// No runs yet.
    pub fn none() -> Self {
        Endings {
            effects: 0,
            faults: 0,
        }
    }

    /// Counts a run, and fails the test where a program and its tree differ, or the program did not
    /// run.
    fn count(&mut self, rt: &impl Abort, found: Option<Likeness>) {
        match found {
            Some(Likeness::SameEffect) => self.effects = self.effects.saturating_add(1),
            Some(Likeness::SameFault) => self.faults = self.faults.saturating_add(1),
            _ => assert!(rt; false, "{found:?}"),
        }
    }

    /// Runs a program and its tree from a state.
    fn compare<R: Abort + AllocGlobal, L: Ledger>(
        &mut self,
        rt: &R,
        runs: &mut Runs<L>,
        pair: &Pair,
        state: &State,
        arrivals: &Arrivals,
        scope: &Scope,
    ) {
        let found = match pair.tree {
            Tree::Rule(statements) => {
                let by_tree = run_rule(rt.alloc(), statements, state, arrivals, scope);
                compare_output(rt, runs, pair.program, state, &by_tree);
                rule_likeness(runs, pair.program, state, arrivals, &by_tree)
            }
            Tree::Hold(ticks) => {
                hold_likeness(
                    runs,
                    pair.program,
                    state,
                    &hold_by_tree(ticks, state, scope),
                )
            }
        };
        self.count(rt, found);
    }

    /// Compares the programs of a model with its rules and holds, from some states, with some
    /// arrivals.
    pub fn compare_model<R: Abort + AllocGlobal, L: Ledger>(
        &mut self,
        rt: &R,
        runs: &mut Runs<L>,
        model: &Compiled,
    ) -> Result<(), AllocError> {
        self.compare_pairs(rt, runs, model, &model.start)?;
        for level in [Level::Low, Level::Middle, Level::High] {
            let state = state_at(rt.alloc(), model.code.tables.slots(), level)?;
            self.compare_pairs(rt, runs, model, &state)?;
        }
        Ok(())
    }

    fn compare_pairs<R: Abort + AllocGlobal, L: Ledger>(
        &mut self,
        rt: &R,
        runs: &mut Runs<L>,
        model: &Compiled,
        state: &State,
    ) -> Result<(), AllocError> {
        for pair in &model.pairs(rt.alloc())? {
            self.compare_deliveries(rt, runs, pair, state, &model.scope)?;
        }
        Ok(())
    }

    fn compare_deliveries<R: Abort + AllocGlobal, L: Ledger>(
        &mut self,
        rt: &R,
        runs: &mut Runs<L>,
        pair: &Pair,
        state: &State,
        scope: &Scope,
    ) -> Result<(), AllocError> {
        for received in &deliveries(rt.alloc(), scope.inputs().len())? {
            if received.are_few() {
                let arrivals = Arrivals::new(received, 3);
                self.compare(rt, runs, pair, state, &arrivals, scope);
            }
        }
        Ok(())
    }
}
