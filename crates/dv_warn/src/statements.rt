//! The statements of a rule as a list.

use dv_syntax::{Block, Stmt};
use std::alloc::AllocError;

/// Adds the statements of a block to a list, each before the statements in its own blocks.
///
/// # Errors
///
/// Memory is refused.
#[cycle(statements)]
pub(crate) fn add_statements<'a>(
    block: &'a Block,
    statements: &mut Vec<&'a Stmt>,
) -> Result<(), AllocError> {
    for statement in &block.statements {
        add_statement(statement, statements)?;
    }
    Ok(())
}

#[cycle(statements)]
fn add_statement<'a>(
    statement: &'a Stmt,
    statements: &mut Vec<&'a Stmt>,
) -> Result<(), AllocError> {
    statements.push(statement)?;
    match statement {
        Stmt::If { then_block, .. } => add_statements(then_block, statements),
        Stmt::IfElse {
            then_block,
            else_block,
            ..
        } => {
            add_statements(then_block, statements)?;
            add_statements(else_block, statements)
        }
        Stmt::For { block, .. } => add_statements(block, statements),
        Stmt::Assign { .. } | Stmt::Command { .. } | Stmt::Send { .. } | Stmt::Change { .. } => {
            Ok(())
        }
    }
}
