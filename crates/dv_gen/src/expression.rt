//! The code of expressions.

ghost use Rattle.std.specs.Prelude.{◌≡◌, ◌≤◌, List, length, IfOk, OnOk};
ghost use Rattle.dv_code.specs.Known.{leaf_type, unary_type};
ghost use Rattle.dv_code.specs.declared.instruction.Instruction.{Instruction};
ghost use Rattle.dv_code.specs.Limits.{deepest_loops};
ghost use Rattle.dv_syntax.specs.Trees.{expression_of};
ghost use Rattle.dv_gen.specs.Emission.{junction, loops_of, unary_of, with_expression};
ghost use Rattle.dv_gen.specs.Resolution.{call_leaf, equal_of, front_of, infix_of, resolved, unequal_of};
ghost use Rattle.dv_gen.specs.Resolved.{Expression, Prefix as Prefixed, Read, type_of};

use crate::draft::Draft;
use crate::loops::Loops;
use crate::names::Names;
use dv_bag::ValueType;
use dv_code::types::{leaf_type, result_type, unary_type};
use dv_code::{Binary, Instruction, Leaf, Source, Unary};
use dv_syntax::{BagCall, Expr, Operator, Prefix};
use std::alloc::AllocError;

/// How the code of two operands is joined.
#[derive(Clone, Copy)]
pub enum Joint {
    /// The second operand is evaluated only if the first is true.
    IfTrue,
    /// The second operand is evaluated only if the first is false.
    IfFalse,
    /// Both operands are evaluated, and then the operation runs.
    Operation(Binary),
}

/// Writes the code of an expression, and returns the type of its value.
///
/// # Errors
///
/// No memory for the code, or more instructions than a program may have.
#[cycle(expression)]
pub fn emit_expression(
    expression: &Expr,
    names: &Names,
    loops: &Loops,
    draft: &mut Draft,
) -> Result<ValueType, AllocError>
    requires { length (loops_of loops.now) ≤ deepest_loops }
    ensures code { OnOk result (draft.new ≡ with_expression draft.old
        (resolved names.now (loops_of loops.now) (expression_of expression.now))) }
    ensures value { IfOk result (λ type. type
        ≡ type_of (resolved names.now (loops_of loops.now) (expression_of expression.now))) }
{
    match expression {
        Expr::Literal(number) => emit_leaf(Leaf::Number(number.value.value()), draft),
        Expr::TruthValue { value, .. } => emit_leaf(Leaf::Truth(*value), draft),
        Expr::Named(name) => emit_leaf(names.leaf(name.number, loops), draft),
        Expr::Parens { inner, .. } => emit_expression(inner, names, loops, draft),
        Expr::Prefixed {
            operator,
            operand,
            ..
        } => {
            emit_expression(operand, names, loops, draft)?;
            emit_unary(unary_of(*operator), draft)
        }
        Expr::Binary {
            operator,
            left,
            right,
        } => {
            let operand = emit_expression(left, names, loops, draft)?;
            emit_second(joint_of(*operator, operand), right, names, loops, draft)
        }
        Expr::Call { call, bag, .. } => {
            emit_leaf(call_leaf(*call, names.source(bag.number)), draft)
        }
        Expr::Elapsed { .. } => emit_leaf(Leaf::Elapsed, draft),
        Expr::Times { value, bag, .. } => {
            emit_expression(value, names, loops, draft)?;
            emit_unary(Unary::Times(names.source(bag.number)), draft)
        }
    }
}

// Writes the second operand of a binary operator behind the code of the first, joined to it.
#[cycle(expression)]
fn emit_second(
    joint: Joint,
    right: &Expr,
    names: &Names,
    loops: &Loops,
    draft: &mut Draft,
) -> Result<ValueType, AllocError>
    requires { length (loops_of loops.now) ≤ deepest_loops }
    ensures code { OnOk result ((before : List Instruction) (left : Expression)
        → draft.old ≡ with_expression before left
        → draft.new ≡ with_expression before (junction joint left
        (resolved names.now (loops_of loops.now) (expression_of right.now)))) }
    ensures value { IfOk result (λ type. (left right : Expression)
        → type ≡ type_of (junction joint left right)) }
{
    // The target of the jump is known only behind the second operand. Until then it jumps to
    // itself.
    let jump = draft.address();
    match joint {
        Joint::IfTrue => {
            draft.push(Instruction::FalseKeep(jump))?;
            emit_expression(right, names, loops, draft)?;
            draft.replace(jump, Instruction::FalseKeep(draft.address()));
            Ok(ValueType::Truth)
        }
        Joint::IfFalse => {
            draft.push(Instruction::TrueKeep(jump))?;
            emit_expression(right, names, loops, draft)?;
            draft.replace(jump, Instruction::TrueKeep(draft.address()));
            Ok(ValueType::Truth)
        }
        Joint::Operation(operation) => {
            emit_expression(right, names, loops, draft)?;
            draft.push(Instruction::Combine(operation))?;
            Ok(result_type(operation))
        }
    }
}

fn emit_leaf(leaf: Leaf, draft: &mut Draft) -> Result<ValueType, AllocError>
    ensures code { OnOk result (draft.new ≡ with_expression draft.old (Read leaf)) }
    ensures value { IfOk result (λ type. type ≡ leaf_type leaf) }
{
    draft.push(Instruction::Push(leaf))?;
    Ok(leaf_type(leaf))
}

// Writes a prefix operator behind the code of its operand.
fn emit_unary(unary: Unary, draft: &mut Draft) -> Result<ValueType, AllocError>
    ensures code { OnOk result ((before : List Instruction) (operand : Expression)
        → draft.old ≡ with_expression before operand
        → draft.new ≡ with_expression before (Prefixed unary operand)) }
    ensures value { IfOk result (λ type. type ≡ unary_type unary) }
{
    draft.push(Instruction::Apply(unary))?;
    Ok(unary_type(unary))
}

fn unary_of(prefix: Prefix) -> Unary
    ensures { result ≡ unary_of prefix }
{
    match prefix {
        Prefix::Minus => Unary::Negate,
        Prefix::Not => Unary::Not,
    }
}

// How an operator joins operands of this type.
fn joint_of(operator: Operator, operand: ValueType) -> Joint
    ensures { (left right : Expression) → operand ≡ type_of left
        → junction result left right ≡ infix_of operator left right }
{
    match operator {
        Operator::Or => Joint::IfFalse,
        Operator::And => Joint::IfTrue,
        Operator::Add => Joint::Operation(Binary::Add),
        Operator::Subtract => Joint::Operation(Binary::Subtract),
        Operator::Multiply => Joint::Operation(Binary::Multiply),
        Operator::Divide => Joint::Operation(Binary::Divide),
        Operator::Remainder => Joint::Operation(Binary::Remainder),
        Operator::Equal => Joint::Operation(equal_of(operand)),
        Operator::Unequal => Joint::Operation(unequal_of(operand)),
        Operator::Less => Joint::Operation(Binary::Less),
        Operator::AtMost => Joint::Operation(Binary::AtMost),
        Operator::Greater => Joint::Operation(Binary::Greater),
        Operator::AtLeast => Joint::Operation(Binary::AtLeast),
    }
}

fn equal_of(operand: ValueType) -> Binary
    ensures { result ≡ equal_of operand }
{
    match operand {
        ValueType::Number => Binary::Equal,
        ValueType::Truth => Binary::Same,
    }
}

fn unequal_of(operand: ValueType) -> Binary
    ensures { result ≡ unequal_of operand }
{
    match operand {
        ValueType::Number => Binary::Unequal,
        ValueType::Truth => Binary::Different,
    }
}

fn call_leaf(call: BagCall, source: Source) -> Leaf
    ensures { result ≡ call_leaf call source }
{
    match call {
        BagCall::Size => Leaf::Size(source),
        BagCall::Sum => Leaf::Sum(source),
        BagCall::Least => Leaf::Least(source),
        BagCall::Most => Leaf::Most(source),
        BagCall::Front => front_of(source),
    }
}

// The leaf that reads the first value of a queue. A port is no queue, and gives 0.
fn front_of(source: Source) -> Leaf
    ensures { result ≡ front_of source }
{
    match source {
        Source::Own(_, index) => Leaf::Front(index),
        Source::Port(_) => Leaf::Number(0),
    }
}
