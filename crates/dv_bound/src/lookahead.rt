//! The response of an atomic model, in a time linear in its text.

ghost use Rattle.std.specs.Prelude.{◌≡◌, ◌<◌, ◌^◌, ℕ, None, Some, IfOk, OnOk, map};
ghost use Rattle.std.specs.List.{flat_map};
ghost use Rattle.dv_bag.specs.Responses.{ticks_of};
ghost use Rattle.dv_eval.specs.Scope.{hold_ticks, scope_of};
ghost use Rattle.dv_syntax.specs.Trees.{Statements, atomic_of, hold_of, rule_of, statement_before, statements_of};
ghost use Rattle.dv_syntax.specs.Trees.{ticks_of as expression_of_ticks};
ghost use Rattle.law_accepted.specs.Gotos.{gotos_in};
ghost use Rattle.dv_bound.specs.Response.{external_gotos_in, hold_response, response_of, ticks_in};
ghost use Rattle.dv_bound.specs.Short.{AreShort, IsShort};
ghost use Rattle.dv_bound.specs.Soonest.{entries_in, response_in, soonest};

use crate::low::low;
use crate::phase_responses::PhaseResponses;
use dv_bag::Response;
use dv_eval::Scope;
use dv_syntax::laws::trees_keep_blocks;
use dv_syntax::{Atomic, Command, Hold, Rule, RuleSort, Stmt, Ticks};
use std::alloc::{AllocError, Global};

/// The response of an atomic model with this scope: the least of the holds of the phases to which
/// its external rules go.
///
/// # Errors
///
/// No memory for a table of the holds.
pub fn response(alloc: Global, model: &Atomic, scope: &Scope) -> Result<Response, AllocError>
    requires { scope.now ≡ scope_of (atomic_of model.now) }
    ensures response { IfOk result (λ response.
        ticks_of response ≡ response_of (atomic_of model.now)) }
    ensures short { IfOk result (λ response. IsShort (ticks_of response)) }
{
    let responses = phase_responses(alloc, &model.holds, scope)?;
    Ok(soonest_of_rules(&responses, &model.rules))
}

// The responses of the holds: for each phase that of its first hold.
fn phase_responses(
    alloc: Global,
    holds: &[Hold],
    scope: &Scope,
) -> Result<PhaseResponses, AllocError>
    ensures responses { IfOk result (λ responses. (phase : ℕ)
        → response_in (entries_in responses) phase
        ≡ hold_response scope.now (hold_ticks phase (map hold_of holds.now))) }
    ensures short { IfOk result (λ _. AreShort scope.now holds.now) }
{
    let mut responses = PhaseResponses::new(alloc, holds.len());
    for hold in holds {
        responses.insert_if_absent(hold.phase.number, hold_response(&hold.ticks, scope))?;
    }
    Ok(responses)
}

// The response of a hold: it never ends sooner in any state of the model.
fn hold_response(ticks: &Ticks, scope: &Scope) -> Response
    ensures response { ticks_of result
        ≡ hold_response scope.now (expression_of_ticks ticks.now) }
    ensures short { IsShort (ticks_of result) }
{
    match ticks {
        Ticks::Forever => Response::Never,
        Ticks::After(expression) => Response::Ticks(ticks_in(low(expression, scope))),
    }
}

// A number as ticks, which are never below 0.
fn ticks_in(low: i64) -> u64
    ensures ticks { result ≡ ticks_in low }
    ensures short { result < 2 ^ 63 }
{
    low.max(0) as u64
}

// The least response of the phases to which external rules go.
fn soonest_of_rules(responses: &PhaseResponses, rules: &[Rule]) -> Response
    ensures { ticks_of result ≡ soonest (response_in (entries_in responses.now)) None
        (flat_map external_gotos_in (map rule_of rules.now)) }
{
    let mut so_far = Response::Never;
    for rule in rules {
        if rule.sort == RuleSort::External {
            so_far = soonest_of_statements(responses, &rule.body.statements, so_far);
        }
    }
    so_far
}

// The least of a response and those of the phases to which statements go.
#[cycle(gotos)]
fn soonest_of_statements(
    responses: &PhaseResponses,
    statements: &[Stmt],
    mut so_far: Response,
) -> Response
    ensures { ticks_of result ≡ soonest (response_in (entries_in responses.now)) (ticks_of so_far)
        (gotos_in (statements_of statements.now)) }
{
    for statement in statements {
        so_far = soonest_of_statement(responses, statement, so_far);
    }
    so_far
}

#[cycle(gotos)]
fn soonest_of_statement(responses: &PhaseResponses, statement: &Stmt, so_far: Response) -> Response
    ensures { (rest : Statements)
        → soonest (response_in (entries_in responses.now)) (ticks_of result) (gotos_in rest)
        ≡ soonest (response_in (entries_in responses.now)) (ticks_of so_far)
        (gotos_in (statement_before statement.now rest)) }
{
    // For the prover alone.
    trees_keep_blocks();
    match statement {
        Stmt::Command {
            command: Command::Goto,
            name,
            ..
        } => so_far.sooner(responses.of_phase(name.number)),
        Stmt::If { then_block, .. } => {
            soonest_of_statements(responses, &then_block.statements, so_far)
        }
        Stmt::IfElse {
            then_block,
            else_block,
            ..
        } => {
            let so_far = soonest_of_statements(responses, &then_block.statements, so_far);
            soonest_of_statements(responses, &else_block.statements, so_far)
        }
        Stmt::For { block, .. } => soonest_of_statements(responses, &block.statements, so_far),
        Stmt::Command {
            command: Command::Pop,
            ..
        }
        | Stmt::Assign { .. }
        | Stmt::Send { .. }
        | Stmt::Change { .. } => so_far,
    }
}
