//! Warnings about statements behind a `goto`.

use crate::findings::Findings;
use crate::mentions::ReadRule;
use crate::warning::Warning;
use dv_syntax::{Block, Command, Name, Stmt};
use std::alloc::AllocError;

/// Adds a warning for the first statement of each block that stands behind a `goto` of that block.
///
/// # Errors
///
/// Memory is refused.
pub(crate) fn find_behind_gotos(
    findings: &mut Findings<'_>,
    rules: &[ReadRule<'_>],
) -> Result<(), AllocError> {
    for rule in rules {
        find_in_block(findings, &rule.rule.body)?;
        find_in_blocks_of(findings, &rule.statements)?;
    }
    Ok(())
}

// Looks at the blocks that statements have themselves.
fn find_in_blocks_of(findings: &mut Findings<'_>, statements: &[&Stmt]) -> Result<(), AllocError> {
    for statement in statements {
        match statement {
            Stmt::If { then_block, .. } => find_in_block(findings, then_block)?,
            Stmt::IfElse {
                then_block,
                else_block,
                ..
            } => {
                find_in_block(findings, then_block)?;
                find_in_block(findings, else_block)?;
            }
            Stmt::For { block, .. } => find_in_block(findings, block)?,
            Stmt::Assign { .. } | Stmt::Command { .. } | Stmt::Send { .. } | Stmt::Change { .. } =>
                {}
        }
    }
    Ok(())
}

// Looks at the statements of a block, without those in their own blocks.
fn find_in_block(findings: &mut Findings<'_>, block: &Block) -> Result<(), AllocError> {
    let mut before: Option<Name> = None;
    for statement in &block.statements {
        if let Some(phase) = before {
            let phase = findings.name(phase);
            let warning = match phase_of(statement) {
                Some(_) => Warning::ReplacedGoto { phase },
                None => Warning::BehindGoto { phase },
            };
            return findings.note(offset_of(statement), warning);
        }
        before = phase_of(statement);
    }
    Ok(())
}

// The phase to which a statement goes, if it is a `goto`.
fn phase_of(statement: &Stmt) -> Option<Name> {
    match statement {
        Stmt::Command { command, name, .. } => match command {
            Command::Goto => Some(*name),
            Command::Pop => None,
        },
        Stmt::Assign { .. }
        | Stmt::Send { .. }
        | Stmt::If { .. }
        | Stmt::IfElse { .. }
        | Stmt::For { .. }
        | Stmt::Change { .. } => None,
    }
}

// The offset of the first word of a statement.
fn offset_of(statement: &Stmt) -> u32 {
    match statement {
        Stmt::Assign { variable, .. } => variable.offset,
        Stmt::Command { offset, .. }
        | Stmt::Send { offset, .. }
        | Stmt::If { offset, .. }
        | Stmt::IfElse { offset, .. }
        | Stmt::For { offset, .. }
        | Stmt::Change { offset, .. } => *offset,
    }
}
