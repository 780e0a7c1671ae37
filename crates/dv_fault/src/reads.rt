//! What expressions read.

use dv_syntax::{Command, Expr, Stmt};
use std::alloc::{AllocError, Global};

/// Something that an expression reads.
#[derive(Clone, Copy, PartialEq, Eq)]
pub(crate) enum Read {
    /// The state variable, the input port or the variable of a loop with this name.
    Name(u32),
    /// `elapsed`
    Elapsed,
}

/// What a statement reads, apart from its blocks: each once, in the order of the text.
///
/// # Errors
///
/// No memory for the list.
pub(crate) fn reads_of(alloc: Global, statement: &Stmt) -> Result<Vec<Read>, AllocError> {
    let mut reads = Vec::new(alloc);
    add_reads_of(statement, &mut reads)?;
    Ok(reads)
}

fn add_reads_of(statement: &Stmt, reads: &mut Vec<Read>) -> Result<(), AllocError> {
    match statement {
        Stmt::Assign { value, .. } | Stmt::Send { value, .. } | Stmt::Change { value, .. } => {
            add_reads(value, reads)
        }
        Stmt::If { condition, .. } | Stmt::IfElse { condition, .. } => add_reads(condition, reads),
        Stmt::For { bag, .. } => add_read(Read::Name(bag.number), reads),
        Stmt::Command {
            command: Command::Pop,
            name,
            ..
        } => add_read(Read::Name(name.number), reads),
        Stmt::Command {
            command: Command::Goto,
            ..
        } => Ok(()),
    }
}

/// Adds what an expression reads, each once, in the order of the text.
///
/// # Errors
///
/// No memory for the list.
pub(crate) fn add_reads(expression: &Expr, reads: &mut Vec<Read>) -> Result<(), AllocError> {
    match expression {
        Expr::Literal(_) | Expr::TruthValue { .. } => Ok(()),
        Expr::Elapsed { .. } => add_read(Read::Elapsed, reads),
        Expr::Named(name) => add_read(Read::Name(name.number), reads),
        Expr::Parens { inner, .. } => add_reads(inner, reads),
        Expr::Prefixed { operand, .. } => add_reads(operand, reads),
        Expr::Binary { left, right, .. } => {
            add_reads(left, reads)?;
            add_reads(right, reads)
        }
        Expr::Call { bag, .. } => add_read(Read::Name(bag.number), reads),
        Expr::Times { value, bag, .. } => {
            add_reads(value, reads)?;
            add_read(Read::Name(bag.number), reads)
        }
    }
}

fn add_read(read: Read, reads: &mut Vec<Read>) -> Result<(), AllocError> {
    if !reads.contains(&read) {
        reads.push(read)?;
    }
    Ok(())
}
