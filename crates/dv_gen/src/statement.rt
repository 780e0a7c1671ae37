//! The code of statements.

ghost use Rattle.std.specs.Prelude.{◌≡◌, ◌+◌, ◌<◌, ◌≤◌, length, IfOk, OnOk};
ghost use Rattle.dv_code.specs.Limits.{deepest_loops};
ghost use Rattle.dv_syntax.specs.Grammar.{loop_depth};
ghost use Rattle.dv_syntax.specs.Trees.{Done, Statements as NamedStatements, expression_of, statement_before, statements_of};
ghost use Rattle.dv_gen.specs.Emission.{loops_of, with_branch, with_statements};
ghost use Rattle.dv_gen.specs.Resolution.{all_resolved, resolved};
ghost use Rattle.dv_gen.specs.Resolved.{Act, For, If as Choice, Statements, When};

use crate::draft::Draft;
use crate::expression::emit_expression;
use crate::loops::Loops;
use crate::names::Names;
use dv_code::{Action, Instruction, Source};
use dv_syntax::laws::trees_keep_blocks;
use dv_syntax::{Expr, Stmt};
use std::alloc::AllocError;

/// Writes the code of statements, one after the other.
///
/// # Errors
///
/// No memory for the code, or more instructions than a program may have.
#[cycle(statements)]
pub fn emit_statements(
    statements: &[Stmt],
    names: &Names,
    loops: &Loops,
    draft: &mut Draft,
) -> Result<(), AllocError>
    requires { length (loops_of loops.now) + loop_depth (statements_of statements.now)
        ≤ deepest_loops }
    ensures { OnOk result (draft.new ≡ with_statements draft.old
        (all_resolved names.now (loops_of loops.now) (statements_of statements.now))) }
{
    for statement in statements {
        emit_statement(statement, names, loops, draft)?;
    }
    Ok(())
}

#[cycle(statements)]
fn emit_statement(
    statement: &Stmt,
    names: &Names,
    loops: &Loops,
    draft: &mut Draft,
) -> Result<(), AllocError>
    requires { length (loops_of loops.now) + loop_depth (statement_before statement.now Done)
        ≤ deepest_loops }
    ensures { OnOk result ((rest : NamedStatements)
        → with_statements draft.new (all_resolved names.now (loops_of loops.now) rest)
        ≡ with_statements draft.old (all_resolved names.now (loops_of loops.now)
        (statement_before statement.now rest))) }
{
    // For the prover alone.
    trees_keep_blocks();
    match statement {
        Stmt::Assign { variable, value } => {
            emit_action(
                names.assignment(variable.number),
                value,
                names,
                loops,
                draft,
            )?;
        }
        Stmt::Command { command, name, .. } => {
            draft.push(Instruction::Do(names.deed(*command, name.number)))?;
        }
        Stmt::Send { port, value, .. } => {
            let action = Action::Send(names.output(port.number));
            emit_action(action, value, names, loops, draft)?;
        }
        Stmt::If {
            condition,
            then_block,
            ..
        } => {
            emit_when(&then_block.statements, condition, names, loops, draft)?;
        }
        Stmt::IfElse {
            condition,
            then_block,
            else_block,
            ..
        } => {
            let first: &[Stmt] = &then_block.statements;
            let other: &[Stmt] = &else_block.statements;
            if other.is_empty() {
                emit_when(first, condition, names, loops, draft)?;
            } else {
                let jump = emit_first_block(first, condition, names, loops, draft)?;
                emit_other_block(other, jump, names, loops, draft)?;
            }
        }
        Stmt::For {
            variable,
            bag,
            block,
            ..
        } => {
            let inner = Loops::Within {
                variable: variable.number,
                outer: &*loops,
            };
            emit_loop(
                &block.statements,
                names.source(bag.number),
                names,
                &inner,
                draft,
            )?;
        }
        Stmt::Change {
            change,
            value,
            collection,
            ..
        } => {
            let action = Action::Change(*change, names.slot(collection.number));
            emit_action(action, value, names, loops, draft)?;
        }
    }
    Ok(())
}

// Writes a block that runs if a condition is true.
#[cycle(statements)]
fn emit_when(
    block: &[Stmt],
    condition: &Expr,
    names: &Names,
    loops: &Loops,
    draft: &mut Draft,
) -> Result<(), AllocError>
    requires { length (loops_of loops.now) + loop_depth (statements_of block.now)
        ≤ deepest_loops }
    ensures { OnOk result ((rest : Statements) → with_statements draft.new rest
        ≡ with_statements draft.old (When
        (resolved names.now (loops_of loops.now) (expression_of condition.now))
        (all_resolved names.now (loops_of loops.now) (statements_of block.now)) rest)) }
{
    emit_expression(condition, names, loops, draft)?;
    // The target of the jump is known only behind the block. Until then it jumps to itself.
    let test = draft.address();
    draft.push(Instruction::JumpFalse(test))?;
    emit_statements(block, names, loops, draft)?;
    draft.replace(test, Instruction::JumpFalse(draft.address()));
    Ok(())
}

// Writes the block that runs if a condition is true, before an `else`. Returns the address of the
// jump past the other block, whose target is not known yet.
#[cycle(statements)]
fn emit_first_block(
    block: &[Stmt],
    condition: &Expr,
    names: &Names,
    loops: &Loops,
    draft: &mut Draft,
) -> Result<u32, AllocError>
    requires { length (loops_of loops.now) + loop_depth (statements_of block.now)
        ≤ deepest_loops }
    ensures within { IfOk result (λ jump. jump < length draft.new) }
    ensures code { IfOk result (λ jump. (other rest : Statements)
        → with_statements (with_branch draft.new jump other) rest
        ≡ with_statements draft.old (Choice
        (resolved names.now (loops_of loops.now) (expression_of condition.now))
        (all_resolved names.now (loops_of loops.now) (statements_of block.now)) other rest)) }
{
    emit_expression(condition, names, loops, draft)?;
    let test = draft.address();
    draft.push(Instruction::JumpFalse(test))?;
    emit_statements(block, names, loops, draft)?;
    let jump = draft.address();
    draft.push(Instruction::Jump(jump))?;
    draft.replace(test, Instruction::JumpFalse(draft.address()));
    Ok(jump)
}

// Writes the block of an `else`. The jump at an address leads past it.
#[cycle(statements)]
fn emit_other_block(
    block: &[Stmt],
    jump: u32,
    names: &Names,
    loops: &Loops,
    draft: &mut Draft,
) -> Result<(), AllocError>
    requires depth { length (loops_of loops.now) + loop_depth (statements_of block.now)
        ≤ deepest_loops }
    requires within { jump < length draft.old }
    ensures { OnOk result (draft.new ≡ with_branch draft.old jump
        (all_resolved names.now (loops_of loops.now) (statements_of block.now))) }
{
    emit_statements(block, names, loops, draft)?;
    draft.replace(jump, Instruction::Jump(draft.address()));
    Ok(())
}

// Writes a loop over the values of a collection. Its variable is the innermost one.
#[cycle(statements)]
fn emit_loop(
    block: &[Stmt],
    source: Source,
    names: &Names,
    loops: &Loops,
    draft: &mut Draft,
) -> Result<(), AllocError>
    requires { length (loops_of loops.now) + loop_depth (statements_of block.now)
        ≤ deepest_loops }
    ensures { OnOk result ((rest : Statements) → with_statements draft.new rest
        ≡ with_statements draft.old (For source
        (all_resolved names.now (loops_of loops.now) (statements_of block.now)) rest)) }
{
    let entry = draft.address();
    draft.push(Instruction::Loop(source, entry))?;
    let first = draft.address();
    emit_statements(block, names, loops, draft)?;
    draft.push(Instruction::Next(first))?;
    draft.replace(entry, Instruction::Loop(source, draft.address()));
    Ok(())
}

// Writes an action with the value of an expression.
fn emit_action(
    action: Action,
    value: &Expr,
    names: &Names,
    loops: &Loops,
    draft: &mut Draft,
) -> Result<(), AllocError>
    requires { length (loops_of loops.now) ≤ deepest_loops }
    ensures { OnOk result ((rest : Statements) → with_statements draft.new rest
        ≡ with_statements draft.old
        (Act action (resolved names.now (loops_of loops.now) (expression_of value.now)) rest)) }
{
    emit_expression(value, names, loops, draft)?;
    draft.push(Instruction::Perform(action))?;
    Ok(())
}
