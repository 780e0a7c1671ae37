//! The start, the rules and the holds of an atomic model.

ghost use Rattle.std.specs.Prelude.{◌≡◌, ◌<◌, ◌^◌, IfOk, IfSome, option_map};
ghost use Rattle.std.specs.Option.{option_copied};
ghost use Rattle.dv_bag.specs.Collections.{empty_of};
ghost use Rattle.dv_syntax.specs.Trees.{atomic_of, statements_of, ticks_of};
ghost use Rattle.dv_eval.specs.Scope.{hold_ticks, rule_body, rule_of, same_sort, scope_of, start_data, start_datum, start_phase};
ghost use Rattle.dv_eval.specs.Scope.{start_state, ticks_found};
ghost use Rattle.dv_eval.specs.Meaning.{hold_of};

use crate::expression::{eval, number_of};
use crate::moment::{Context, Moment};
use crate::scope::{Domain, Scope};
use dv_bag::{Arrivals, Bag, Collection, Datum, Discipline, Fault, Held, Queue, State, Variables};
use dv_syntax::{Atomic, RuleSort, Stmt, Ticks};
use std::alloc::{AllocError, Global};

/// The start state of a component of the model.
///
/// # Errors
///
/// No memory for the variables.
pub fn start_state(alloc: Global, model: &Atomic, scope: &Scope) -> Result<State, AllocError>
    requires { scope.now ≡ scope_of (atomic_of model.now) }
    ensures { IfOk result (λ state. state ≡ start_state (atomic_of model.now)) }
{
    Ok(State {
        phase: start_phase(model, scope),
        variables: start_data(alloc, scope)?,
    })
}

fn start_phase(model: &Atomic, scope: &Scope) -> u32
    ensures { result ≡ start_phase scope.now (atomic_of model.now).starts }
{
    match model.starts.first() {
        Some(start) => scope.phase(start.phase.number).unwrap_or(0),
        None => 0,
    }
}

fn start_data(alloc: Global, scope: &Scope) -> Result<Variables, AllocError>
    ensures { IfOk result (λ variables. variables ≡ start_data scope.now.variables) }
{
    let mut variables = Variables::new(alloc);
    for domain in scope.domains() {
        variables.push(start_datum(alloc, *domain)?)?;
    }
    Ok(variables)
}

fn start_datum(alloc: Global, domain: Domain) -> Result<Datum, AllocError>
    ensures { IfOk result (λ datum. datum ≡ start_datum domain) }
{
    match domain {
        Domain::Number(range) => Ok(Datum::Number(range.start)),
        Domain::Flag { start } => Ok(Datum::Flag(start)),
        Domain::Held { discipline, .. } => {
            let held = Held::new(alloc, empty_of(alloc, discipline))?;
            Ok(Datum::Held(held))
        }
    }
}

// An empty collection.
fn empty_of(alloc: Global, discipline: Discipline) -> Collection
    ensures { result ≡ empty_of discipline }
{
    match discipline {
        Discipline::Bag => Collection::Bag(Bag::new(alloc)),
        Discipline::Queue => Collection::Queue(Queue::new(alloc)),
    }
}

/// The statements of the first rule of a sort for a phase, if there is such a rule.
pub fn rule_of(model: &Atomic, sort: RuleSort, phase: u32) -> Option<&[Stmt]>
    ensures { option_map statements_of (option_copied result)
        ≡ rule_of sort phase (atomic_of model.now).rules }
{
    for rule in &model.rules {
        if rule.sort == sort && rule.phase.number == phase {
            return Some(&rule.body.statements);
        }
    }
    None
}

/// The statements of the first rule of a sort for a phase: none if there is no such rule.
pub fn rule_body(model: &Atomic, sort: RuleSort, phase: u32) -> &[Stmt]
    ensures { statements_of result.now ≡ rule_body sort phase (atomic_of model.now).rules }
{
    rule_of(model, sort, phase).unwrap_or(&[])
}

/// The ticks of a hold in a state: `None` if it is forever.
///
/// # Errors
///
/// The first fault of the expression, or `Negative` if its value is below 0.
pub fn hold(ticks: &Ticks, state: &State, scope: &Scope) -> Result<Option<u64>, Fault>
    ensures value { result ≡ hold_of scope.now (ticks_of ticks.now) state.now }
    ensures bound { IfOk result (λ ticks. IfSome ticks (λ n. n < 2 ^ 63)) }
{
    match ticks {
        Ticks::Forever => Ok(None),
        Ticks::After(expression) => {
            let moment = Moment {
                state,
                context: &Context::Outermost(&Arrivals::nothing()),
            };
            let ticks = number_of(eval(expression, &moment, scope)?);
            if ticks < 0 {
                return Err(Fault::Negative);
            }
            Ok(Some(ticks as u64))
        }
    }
}

/// The ticks of the first hold of a phase, if it has one.
pub fn phase_ticks(model: &Atomic, phase: u32) -> Option<&Ticks>
    ensures { ticks_found (option_copied result) ≡ hold_ticks phase (atomic_of model.now).holds }
{
    for item in &model.holds {
        if item.phase.number == phase {
            return Some(&item.ticks);
        }
    }
    None
}

/// The ticks of the first hold of a phase in a state: `None` if it is forever or the phase has no
/// hold.
///
/// # Errors
///
/// The first fault of the expression, or `Negative` if its value is below 0.
pub fn phase_hold(
    model: &Atomic,
    phase: u32,
    state: &State,
    scope: &Scope,
) -> Result<Option<u64>, Fault>
    ensures value { result ≡ hold_of scope.now
        (hold_ticks phase (atomic_of model.now).holds) state.now }
    ensures bound { IfOk result (λ ticks. IfSome ticks (λ n. n < 2 ^ 63)) }
{
    match phase_ticks(model, phase) {
        Some(ticks) => hold(ticks, state, scope),
        None => Ok(None),
    }
}
