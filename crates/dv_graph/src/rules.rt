//! What the rules of an atomic model do: to which phases they go, and what they send.

use crate::expressions::{short_negation, short_text};
use dv_syntax::{Block, Command, Expr, Stmt};
use dv_tree::Tree;
use std::alloc::{AllocError, Global};

/// What a statement of a rule does, if a diagram shows it.
#[derive(Clone, Copy)]
pub(crate) enum Deed<'a> {
    /// It goes to the phase with this name.
    GoTo(u32),
    /// It sends the value of an expression from the port with this name.
    Send { port: u32, value: &'a Expr },
}

/// What a statement does, under which conditions and in which loops.
#[derive(Drop)]
pub(crate) struct Step<'a> {
    pub(crate) deed: Deed<'a>,
    /// The conditions and loops as text, from the outermost to the innermost, each after a
    /// separator.
    pub(crate) conditions: String,
}

/// How the steps of a rule are read.
#[derive(Clone, Copy)]
pub(crate) struct Reading<'r> {
    pub(crate) alloc: Global,
    pub(crate) tree: &'r Tree<'r>,
    /// The text before each condition or loop.
    pub(crate) separator: &'static str,
}

impl Reading<'_> {
    // The conditions, and the one that an expression is true.
    fn and_if(self, conditions: &str, condition: &Expr) -> Result<String, AllocError> {
        let separator = self.separator;
        let condition = short_text(self.alloc, self.tree, condition)?;
        format!(in self.alloc; "{conditions}{separator}if {condition}")
    }

    // The conditions, and the one that an expression is false.
    fn and_if_not(self, conditions: &str, condition: &Expr) -> Result<String, AllocError> {
        let separator = self.separator;
        let condition = short_negation(self.alloc, self.tree, condition)?;
        format!(in self.alloc; "{conditions}{separator}if {condition}")
    }

    // The conditions, and a loop.
    fn and_for(self, conditions: &str, variable: u32, bag: u32) -> Result<String, AllocError> {
        let separator = self.separator;
        let variable = self.tree.name(variable);
        let bag = self.tree.name(bag);
        format!(in self.alloc; "{conditions}{separator}for {variable} in {bag}")
    }
}

/// The steps of a block, in the order of the text.
///
/// # Errors
///
/// Memory is refused.
pub(crate) fn steps_of<'a>(
    reading: Reading<'_>,
    block: &'a Block,
) -> Result<Vec<Step<'a>>, AllocError> {
    let mut steps = Vec::new(reading.alloc);
    add_steps(reading, block, "", &mut steps)?;
    Ok(steps)
}

// Adds the steps of a block that runs under some conditions.
#[cycle(steps)]
fn add_steps<'a>(
    reading: Reading<'_>,
    block: &'a Block,
    conditions: &str,
    steps: &mut Vec<Step<'a>>,
) -> Result<(), AllocError> {
    for statement in &block.statements {
        add_steps_of(reading, statement, conditions, steps)?;
    }
    Ok(())
}

#[cycle(steps)]
fn add_steps_of<'a>(
    reading: Reading<'_>,
    statement: &'a Stmt,
    conditions: &str,
    steps: &mut Vec<Step<'a>>,
) -> Result<(), AllocError> {
    match statement {
        Stmt::Command {
            command: Command::Goto,
            name,
            ..
        } => add_step(reading, Deed::GoTo(name.number), conditions, steps),
        Stmt::Send { port, value, .. } => {
            let port = port.number;
            add_step(reading, Deed::Send { port, value }, conditions, steps)
        }
        Stmt::If {
            condition,
            then_block,
            ..
        } => {
            let inner = reading.and_if(conditions, condition)?;
            add_steps(reading, then_block, inner.as_str(), steps)
        }
        Stmt::IfElse {
            condition,
            then_block,
            else_block,
            ..
        } => {
            let inner = reading.and_if(conditions, condition)?;
            add_steps(reading, then_block, inner.as_str(), steps)?;
            let inner = reading.and_if_not(conditions, condition)?;
            add_steps(reading, else_block, inner.as_str(), steps)
        }
        Stmt::For {
            variable,
            bag,
            block,
            ..
        } => {
            let inner = reading.and_for(conditions, variable.number, bag.number)?;
            add_steps(reading, block, inner.as_str(), steps)
        }
        Stmt::Command {
            command: Command::Pop,
            ..
        }
        | Stmt::Assign { .. }
        | Stmt::Change { .. } => Ok(()),
    }
}

fn add_step<'a>(
    reading: Reading<'_>,
    deed: Deed<'a>,
    conditions: &str,
    steps: &mut Vec<Step<'a>>,
) -> Result<(), AllocError> {
    Ok(steps.push(Step {
        deed,
        conditions: String::from_str(reading.alloc, conditions)?,
    })?)
}
