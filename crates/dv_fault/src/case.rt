//! Sentences on the faults of statements and holds.

use crate::atom::Atom;
use crate::operation::push_operation;
use crate::reads::{add_reads, reads_of};
use crate::values::{ValueText, push_reads};
use dv_bag::{Arrivals, Fault, GREATEST_COUNT, State};
use dv_eval::{Context, Domain, Moment, eval};
use dv_explain::Quoted;
use dv_syntax::{Command, Expr, Name, Stmt, Ticks};
use std::alloc::AllocError;

/// The offset of a statement: of its first word, or of the variable that it assigns.
pub(crate) fn offset_of(statement: &Stmt) -> u32 {
    match statement {
        Stmt::Assign { variable, .. } => variable.offset,
        Stmt::Command { offset, .. }
        | Stmt::Send { offset, .. }
        | Stmt::If { offset, .. }
        | Stmt::IfElse { offset, .. }
        | Stmt::For { offset, .. }
        | Stmt::Change { offset, .. } => *offset,
    }
}

/// Sentences on a statement that has a fault at a moment: the values that it reads, and why it
/// fails. Each ends with a line feed.
///
/// # Errors
///
/// No memory for the sentences.
pub(crate) fn sentences_on_statement(
    atom: &Atom<'_>,
    moment: &Moment<'_, '_>,
    statement: &Stmt,
    fault: Fault,
) -> Result<String, AllocError> {
    let mut text = String::new(atom.alloc);
    push_reads(&mut text, atom, moment, &reads_of(atom.alloc, statement)?)?;
    push_case(&mut text, atom, moment, statement, fault)?;
    Ok(text)
}

// Why a statement fails.
fn push_case(
    text: &mut String,
    atom: &Atom<'_>,
    moment: &Moment<'_, '_>,
    statement: &Stmt,
    fault: Fault,
) -> Result<(), AllocError> {
    match statement {
        Stmt::Assign { variable, value } => push_assigned(text, atom, moment, *variable, value),
        Stmt::Send { value, .. } => push_sent(text, atom, moment, value, fault),
        Stmt::Change {
            value,
            collection,
            ..
        } => push_changed(text, atom, moment, value, *collection),
        Stmt::If { condition, .. } | Stmt::IfElse { condition, .. } => {
            push_operation(text, atom, moment, condition)
        }
        Stmt::Command {
            command: Command::Pop,
            name,
            ..
        } => {
            let name = Quoted(atom.name(name.number));
            writeln!(text, "{name} is empty, so it has no value to take away.")
        }
        // These have no fault.
        Stmt::Command {
            command: Command::Goto,
            ..
        }
        | Stmt::For { .. } => Ok(()),
    }
}

// The assigned value and the range that it is outside of, or why there is no value.
fn push_assigned(
    text: &mut String,
    atom: &Atom<'_>,
    moment: &Moment<'_, '_>,
    variable: Name,
    value: &Expr,
) -> Result<(), AllocError> {
    let Ok(assigned) = eval(value, moment, atom.scope) else {
        return push_operation(text, atom, moment, value);
    };
    let Some(Domain::Number(range)) = atom.domain(variable.number) else {
        return Ok(());
    };
    let value = ValueText(assigned);
    let name = Quoted(atom.name(variable.number));
    writeln!(
        text,
        "The value {value} is outside {}..{}, the range of {name}.",
        range.low, range.high
    )
}

// That too many values are sent, or why there is no value.
fn push_sent(
    text: &mut String,
    atom: &Atom<'_>,
    moment: &Moment<'_, '_>,
    value: &Expr,
    fault: Fault,
) -> Result<(), AllocError> {
    if fault == Fault::Flood {
        return writeln!(text, "The rule had already sent {GREATEST_COUNT} values.");
    }
    push_operation(text, atom, moment, value)
}

// That the collection is full, or why there is no value.
fn push_changed(
    text: &mut String,
    atom: &Atom<'_>,
    moment: &Moment<'_, '_>,
    value: &Expr,
    collection: Name,
) -> Result<(), AllocError> {
    if eval(value, moment, atom.scope).is_err() {
        return push_operation(text, atom, moment, value);
    }
    let Some(Domain::Held { capacity, .. }) = atom.domain(collection.number) else {
        return Ok(());
    };
    let name = Quoted(atom.name(collection.number));
    let noun = if capacity == 1 { "value" } else { "values" };
    writeln!(
        text,
        "{name} already holds {capacity} {noun}, its capacity."
    )
}

/// Sentences on a hold that has a fault in a state: the values that it reads, and its value or why
/// it has none. Each ends with a line feed.
///
/// # Errors
///
/// No memory for the sentences.
pub(crate) fn sentences_on_hold(
    atom: &Atom<'_>,
    state: &State,
    ticks: &Ticks,
) -> Result<String, AllocError> {
    let mut text = String::new(atom.alloc);
    if let Ticks::After(expression) = ticks {
        let moment = Moment {
            state,
            context: &Context::Outermost(&Arrivals::nothing()),
        };
        push_hold(&mut text, atom, &moment, expression)?;
    }
    Ok(text)
}

fn push_hold(
    text: &mut String,
    atom: &Atom<'_>,
    moment: &Moment<'_, '_>,
    expression: &Expr,
) -> Result<(), AllocError> {
    let mut reads = Vec::new(atom.alloc);
    add_reads(expression, &mut reads)?;
    push_reads(text, atom, moment, &reads)?;
    match eval(expression, moment, atom.scope) {
        Ok(value) => writeln!(text, "The hold is {}.", ValueText(value)),
        Err(_) => push_operation(text, atom, moment, expression),
    }
}
