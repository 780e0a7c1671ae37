//! The effects of rules.

ghost use Rattle.std.specs.Prelude.{◌≡◌, slice_get, IfOk, Ok};
ghost use Rattle.dv_bag.specs.Bag.{values_of};
ghost use Rattle.dv_bag.specs.Collections.{values_in};
ghost use Rattle.dv_bag.specs.Outcome.{Gives};
ghost use Rattle.dv_bag.specs.declared.state.Datum.TheVariants as datum;
ghost use Rattle.dv_bag.specs.Effects.{with_datum, with_state};
ghost use Rattle.dv_syntax.specs.Trees.{Done, expression_of, statement_before, statements_of};
ghost use Rattle.dv_eval.specs.Steps.{repeated, with_value};
ghost use Rattle.dv_eval.specs.Contexts.{context_of};
ghost use Rattle.dv_eval.specs.Meaning.{assignment, assignment_in_range, changing, changing_to, collection_of_name, command_effect};
ghost use Rattle.dv_eval.specs.Meaning.{effect_of, in_loop, meaning, moment_in, number_of, popping, repetition, run, sending};
ghost use Rattle.dv_eval.specs.Meaning.{with_goto};

use crate::collection::collection_of_name;
use crate::expression::{eval, number_of, truth_of};
use crate::moment::{Context, Moment};
use crate::scope::{Domain, Scope, VariableRange};
use dv_bag::limits::{test_flood, test_range, test_room};
use dv_bag::{
    Arrivals, Change, Collection, DatumView, Effect, Fault, RuleError, Sent, State, Value,
};
use dv_syntax::laws::trees_keep_blocks;
use dv_syntax::{Command, Expr, Stmt};
use std::alloc::{AllocError, Global};

/// The effect of a rule's statements on a state, with what arrived.
///
/// # Errors
///
/// The first fault: one of an expression, `Range` of an assignment, `Full` of a value that is added
/// to a full bag or queue, `Empty` of `pop` on an empty queue, or `Flood` of the 4,097th value that
/// is sent. Or no memory.
pub fn run_rule(
    alloc: Global,
    statements: &[Stmt],
    state: &State,
    arrivals: &Arrivals,
    scope: &Scope,
) -> Result<Effect, RuleError>
    ensures { Gives result
        (effect_of scope.now (statements_of statements.now) arrivals.now state.now) }
{
    let effect = Effect {
        state: state.clone()?,
        sent: Sent::empty(alloc, scope.output_count()),
        goto: None,
    };
    run(
        alloc,
        statements,
        &Context::Outermost(arrivals),
        scope,
        effect,
    )
}

// Runs statements, one after the other.
#[cycle(run)]
fn run(
    alloc: Global,
    statements: &[Stmt],
    context: &Context,
    scope: &Scope,
    mut effect: Effect,
) -> Result<Effect, RuleError>
    ensures { Gives result
        (run scope.now (context_of context.now) (statements_of statements.now) effect) }
{
    for statement in statements {
        effect = run_statement(alloc, statement, context, scope, effect)?;
    }
    Ok(effect)
}

/// Runs one statement in a context, after the effect of those before it.
///
/// # Errors
///
/// Those of [`run_rule`].
#[cycle(run)]
pub fn run_statement(
    alloc: Global,
    statement: &Stmt,
    context: &Context,
    scope: &Scope,
    effect: Effect,
) -> Result<Effect, RuleError>
    ensures { Gives result
        (run scope.now (context_of context.now) (statement_before statement.now Done) effect) }
{
    // For the prover alone.
    trees_keep_blocks();
    match statement {
        Stmt::Assign { variable, value } => {
            assign_value(variable.number, value, context, scope, effect)
        }
        Stmt::Command { command, name, .. } => obey(*command, name.number, scope, effect),
        Stmt::Send { port, value, .. } => send_value(port.number, value, context, scope, effect),
        Stmt::If {
            condition,
            then_block,
            ..
        } => {
            let condition = value_of(condition, &effect.state, context, scope)?;
            if truth_of(condition) {
                run(alloc, &then_block.statements, context, scope, effect)
            } else {
                Ok(effect)
            }
        }
        Stmt::IfElse {
            condition,
            then_block,
            else_block,
            ..
        } => {
            let condition = value_of(condition, &effect.state, context, scope)?;
            if truth_of(condition) {
                run(alloc, &then_block.statements, context, scope, effect)
            } else {
                run(alloc, &else_block.statements, context, scope, effect)
            }
        }
        Stmt::For {
            variable,
            bag,
            block,
            ..
        } => {
            let pairs = loop_values(alloc, bag.number, &effect.state, context, scope)?;
            run_loop(
                alloc,
                &pairs,
                variable.number,
                &block.statements,
                context,
                scope,
                effect,
            )
        }
        Stmt::Change {
            change,
            value,
            collection,
            ..
        } => edit_by_value(*change, collection.number, value, context, scope, effect),
    }
}

// Runs a block for each of the values in order, once for each copy.
#[cycle(run)]
fn run_loop(
    alloc: Global,
    pairs: &[(i64, u64)],
    variable: u32,
    block: &[Stmt],
    context: &Context,
    scope: &Scope,
    mut effect: Effect,
) -> Result<Effect, RuleError>
    ensures { Gives result (repetition
        (λ n. run scope.now (in_loop (variable, n) (context_of context.now))
        (statements_of block.now))
        (values_of pairs.now) effect) }
{
    for pair in pairs {
        let within = Context::Within {
            variable,
            value: pair.0,
            outer: &*context,
        };
        effect = run_copies(alloc, pair.1, block, &within, scope, effect)?;
    }
    Ok(effect)
}

// Runs a block for `copies` copies of one value.
#[cycle(run)]
fn run_copies(
    alloc: Global,
    copies: u64,
    block: &[Stmt],
    context: &Context,
    scope: &Scope,
    mut effect: Effect,
) -> Result<Effect, RuleError>
    ensures { Gives result
        (repeated (run scope.now (context_of context.now) (statements_of block.now))
        copies effect) }
{
    for _ in 0..copies {
        effect = run(alloc, block, context, scope, effect)?;
    }
    Ok(effect)
}

/// The values of a loop over the collection of a name, in order, each with its number of copies.
/// They are those at the beginning of the loop; the state may change during it.
///
/// # Errors
///
/// No memory for them.
pub fn loop_values(
    alloc: Global,
    name: u32,
    state: &State,
    context: &Context,
    scope: &Scope,
) -> Result<Vec<(i64, u64)>, AllocError>
    ensures { IfOk result (λ pairs. values_of pairs.items ≡ values_in
        (collection_of_name scope.now (moment_in (context_of context.now) state.now) name)) }
{
    let moment = Moment { state, context };
    let collection = collection_of_name(name, &moment, scope);
    collection.pairs(alloc)
}

fn value_of(
    expression: &Expr,
    state: &State,
    context: &Context,
    scope: &Scope,
) -> Result<Value, Fault>
    ensures { result ≡ meaning scope.now (moment_in (context_of context.now) state.now)
        (expression_of expression.now) }
{
    eval(expression, &Moment { state, context }, scope)
}

// Assigns the value of an expression in the current state to a variable or a flag.
fn assign_value(
    name: u32,
    value: &Expr,
    context: &Context,
    scope: &Scope,
    effect: Effect,
) -> Result<Effect, RuleError>
    ensures { Gives result (with_value scope.now (context_of context.now)
        (expression_of value.now) (assignment scope.now name) effect) }
{
    let value = value_of(value, &effect.state, context, scope)?;
    Ok(assign(name, value, scope, effect)?)
}

// Sends the value of an expression in the current state at an output port.
fn send_value(
    name: u32,
    value: &Expr,
    context: &Context,
    scope: &Scope,
    effect: Effect,
) -> Result<Effect, RuleError>
    ensures { Gives result (with_value scope.now (context_of context.now)
        (expression_of value.now) (sending scope.now name) effect) }
{
    let value = value_of(value, &effect.state, context, scope)?;
    send(name, value, scope, effect)
}

// Changes a collection of the state by the value of an expression in the current state.
fn edit_by_value(
    change: Change,
    name: u32,
    value: &Expr,
    context: &Context,
    scope: &Scope,
    effect: Effect,
) -> Result<Effect, RuleError>
    ensures { Gives result (with_value scope.now (context_of context.now)
        (expression_of value.now) (λ v. changing scope.now change name (number_of v)) effect) }
{
    let value = value_of(value, &effect.state, context, scope)?;
    edit(change, name, number_of(value), scope, effect)
}

// Assigns a value to a variable or a flag.
fn assign(name: u32, value: Value, scope: &Scope, effect: Effect) -> Result<Effect, Fault>
    ensures { result ≡ assignment scope.now name value effect }
{
    let Some(index) = scope.variable(name) else {
        return Ok(effect);
    };
    match scope.domain(index) {
        None => Ok(effect),
        Some(Domain::Number(range)) => assign_number(range, index, number_of(value), effect),
        Some(Domain::Flag { .. }) => Ok(assign_flag(index, truth_of(value), effect)),
        Some(Domain::Held { .. }) => Ok(effect),
    }
}

// Assigns a number to a variable, if it is within the range.
fn assign_number(
    range: VariableRange,
    index: usize,
    number: i64,
    mut effect: Effect,
) -> Result<Effect, Fault>
    ensures { result ≡ assignment_in_range range index number effect }
{
    test_range(number, range.low, range.high)?;
    if index < effect.state.variables.len() {
        effect.state.variables.set_number(index, number);
    }
    Ok(effect)
}

fn assign_flag(index: usize, truth: bool, mut effect: Effect) -> Effect
    ensures { result ≡ with_state effect (with_datum effect.state index (datum.Flag truth)) }
{
    if index < effect.state.variables.len() {
        effect.state.variables.set_flag(index, truth);
    }
    effect
}

// Runs a command with a name.
fn obey(command: Command, name: u32, scope: &Scope, effect: Effect) -> Result<Effect, RuleError>
    ensures { Gives result (command_effect scope.now command name effect) }
{
    match command {
        Command::Goto => Ok(with_goto(scope.phase(name), effect)),
        Command::Pop => Ok(pop(name, scope, effect)?),
    }
}

fn with_goto(phase: Option<u32>, mut effect: Effect) -> Effect
    ensures { result ≡ with_goto phase effect }
{
    if phase.is_some() {
        effect.goto = phase;
    }
    effect
}

// Sends a value at an output port.
fn send(name: u32, value: Value, scope: &Scope, mut effect: Effect) -> Result<Effect, RuleError>
    ensures { Gives result (sending scope.now name value effect) }
{
    test_flood(effect.sent.total())?;
    let Some(port) = scope.output(name) else {
        return Ok(effect);
    };
    if port < effect.sent.len() {
        effect.sent.insert(port, number_of(value))?;
    }
    Ok(effect)
}

// Changes a collection of the state by a number.
fn edit(
    change: Change,
    name: u32,
    number: i64,
    scope: &Scope,
    effect: Effect,
) -> Result<Effect, RuleError>
    ensures { Gives result (changing scope.now change name number effect) }
{
    let Some(index) = scope.variable(name) else {
        return Ok(effect);
    };
    match scope.domain(index) {
        Some(Domain::Held { capacity, .. }) => edit_within(change, capacity, index, number, effect),
        _ => Ok(effect),
    }
}

// Changes the collection at an index by a number, if there is one of the right discipline.
fn edit_within(
    change: Change,
    capacity: u64,
    index: usize,
    number: i64,
    mut effect: Effect,
) -> Result<Effect, RuleError>
    ensures { Gives result (changing_to change (Some capacity)
        (slice_get effect.state.variables index) index number effect) }
{
    let Some(DatumView::Held(held)) = effect.state.variables.get(index) else {
        return Ok(effect);
    };
    if held.discipline() != change.discipline() {
        return Ok(effect);
    }
    if change.makes_more() {
        test_room(held.count(), capacity)?;
    }
    effect.state.variables.edit(change, index, number)?;
    Ok(effect)
}

// Removes the first value of a queue of the state.
fn pop(name: u32, scope: &Scope, mut effect: Effect) -> Result<Effect, Fault>
    ensures { result ≡ popping scope.now name effect }
{
    let Some(index) = scope.variable(name) else {
        return Ok(effect);
    };
    let Some(DatumView::Held(Collection::Queue(queue))) = effect.state.variables.get(index) else {
        return Ok(effect);
    };
    if queue.len() == 0 {
        return Err(Fault::Empty);
    }
    effect.state.variables.pop(index);
    Ok(effect)
}
