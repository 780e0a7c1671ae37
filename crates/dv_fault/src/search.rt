//! The search for the statement of a rule that has a fault.

use crate::atom::Atom;
use crate::case::{offset_of, sentences_on_statement};
use crate::stop::{Found, Site, Stop};
use dv_bag::{Arrivals, Effect, Fault, RuleError, Sent, State, Value};
use dv_eval::{Context, Moment, eval, loop_values, run_statement};
use dv_syntax::{Expr, Rule, Stmt};
use std::alloc::AllocError;

/// A rule whose statements are run one after the other.
#[derive(Clone, Copy)]
struct Search<'a> {
    atom: &'a Atom<'a>,
    site: Site,
}

/// Finds the statement by which a rule has a fault in a state, with these arrivals.
///
/// # Errors
///
/// No memory for the states or the sentences.
pub(crate) fn find_in_rule(
    atom: &Atom<'_>,
    rule: &Rule,
    state: &State,
    arrivals: &Arrivals<'_>,
    fault: Fault,
) -> Result<Found, AllocError> {
    let site = Site::Rule {
        sort: rule.sort,
        phase: rule.phase.number,
    };
    let effect = Effect {
        state: state.clone()?,
        sent: Sent::empty(atom.alloc, atom.scope.output_count()),
        goto: None,
    };
    let search = Search { atom, site };
    match follow(
        &search,
        &rule.body.statements,
        &Context::Outermost(arrivals),
        effect,
    ) {
        Err(Stop::Fault(found)) => Ok(found),
        Err(Stop::Memory) => Err(AllocError),
        // The rule as a whole has the fault, so one of its statements has it.
        Ok(_) => Ok(Found {
            fault,
            site,
            offset: rule.phase.offset,
            sentences: String::new(atom.alloc),
        }),
    }
}

// How a statement ended.
#[derive(Drop)]
enum Tried {
    /// It ran, with this effect so far.
    Ran(Effect),
    /// It has a fault. The effect is that of the statements before it.
    Stopped(Effect, Fault),
}

fn try_statement(
    search: &Search<'_>,
    statement: &Stmt,
    context: &Context<'_, '_>,
    effect: Effect,
) -> Result<Tried, Stop> {
    let Search { atom, .. } = search;
    let before = effect.clone()?;
    match run_statement(atom.alloc, statement, context, atom.scope, effect) {
        Ok(effect) => Ok(Tried::Ran(effect)),
        Err(RuleError::Memory) => Err(Stop::Memory),
        Err(RuleError::Fault(fault)) => Ok(Tried::Stopped(before, fault)),
    }
}

// Runs statements one after the other. If one has a fault, the search goes on in its blocks.
#[cycle(follow)]
fn follow(
    search: &Search<'_>,
    statements: &[Stmt],
    context: &Context<'_, '_>,
    mut effect: Effect,
) -> Result<Effect, Stop> {
    for statement in statements {
        effect = match try_statement(search, statement, context, effect)? {
            Tried::Ran(effect) => effect,
            Tried::Stopped(before, fault) => enter(search, statement, context, before, fault)?,
        };
    }
    Ok(effect)
}

// Finds the fault of a statement that has one: in one of its blocks, or its own.
#[cycle(follow)]
fn enter(
    search: &Search<'_>,
    statement: &Stmt,
    context: &Context<'_, '_>,
    mut effect: Effect,
    fault: Fault,
) -> Result<Effect, Stop> {
    match statement {
        Stmt::If {
            condition,
            then_block,
            ..
        } => match truth_at(search, condition, context, &effect) {
            Ok(true) => follow(search, &then_block.statements, context, effect),
            Ok(false) => Ok(effect),
            Err(fault) => Err(stop_at(search, statement, context, effect, fault)),
        },
        Stmt::IfElse {
            condition,
            then_block,
            else_block,
            ..
        } => match truth_at(search, condition, context, &effect) {
            Ok(true) => follow(search, &then_block.statements, context, effect),
            Ok(false) => follow(search, &else_block.statements, context, effect),
            Err(fault) => Err(stop_at(search, statement, context, effect, fault)),
        },
        Stmt::For {
            variable,
            bag,
            block,
            ..
        } => {
            for value in &values_walked(search, bag.number, context, &effect)? {
                let within = Context::Within {
                    variable: variable.number,
                    value: *value,
                    outer: &*context,
                };
                effect = follow(search, &block.statements, &within, effect)?;
            }
            Ok(effect)
        }
        Stmt::Assign { .. } | Stmt::Command { .. } | Stmt::Send { .. } | Stmt::Change { .. } => {
            Err(stop_at(search, statement, context, effect, fault))
        }
    }
}

// The values of a loop in their order, with all copies.
fn values_walked(
    search: &Search<'_>,
    name: u32,
    context: &Context<'_, '_>,
    effect: &Effect,
) -> Result<Vec<i64>, AllocError> {
    let Search { atom, .. } = search;
    let mut values = Vec::new(atom.alloc);
    for pair in &loop_values(atom.alloc, name, &effect.state, context, atom.scope)? {
        push_copies(&mut values, pair.0, pair.1)?;
    }
    Ok(values)
}

fn push_copies(values: &mut Vec<i64>, value: i64, copies: u64) -> Result<(), AllocError> {
    for _copy in 0..copies {
        values.push(value)?;
    }
    Ok(())
}

// Whether a condition is true after the effect so far.
fn truth_at(
    search: &Search<'_>,
    condition: &Expr,
    context: &Context<'_, '_>,
    effect: &Effect,
) -> Result<bool, Fault> {
    let moment = Moment {
        state: &effect.state,
        context,
    };
    match eval(condition, &moment, search.atom.scope) {
        Ok(Value::Truth(truth)) => Ok(truth),
        Ok(Value::Number(number)) => Ok(number != 0),
        Err(fault) => Err(fault),
    }
}

// Stops at a statement that has a fault itself, after this effect.
fn stop_at(
    search: &Search<'_>,
    statement: &Stmt,
    context: &Context<'_, '_>,
    effect: Effect,
    fault: Fault,
) -> Stop {
    let moment = Moment {
        state: &effect.state,
        context,
    };
    Stop::of(found_at(search, statement, &moment, fault))
}

fn found_at(
    search: &Search<'_>,
    statement: &Stmt,
    moment: &Moment<'_, '_>,
    fault: Fault,
) -> Result<Found, AllocError> {
    Ok(Found {
        fault,
        site: search.site,
        offset: offset_of(statement),
        sentences: sentences_on_statement(search.atom, moment, statement, fault)?,
    })
}
