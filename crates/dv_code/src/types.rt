//! The types of leaves, operators and actions.

ghost use Rattle.std.specs.Prelude.{◌≡◌};
ghost use Rattle.dv_code.specs.Known.{action_type, leaf_type, operand_type, result_type, unary_type};

use crate::instruction::{Action, Binary, Leaf, Unary};
use dv_bag::value::ValueType;

/// The type of a leaf's value.
pub fn leaf_type(leaf: Leaf) -> ValueType
    ensures { result ≡ leaf_type leaf }
{
    match leaf {
        Leaf::Truth(_) | Leaf::Flag(_) => ValueType::Truth,
        Leaf::Number(_)
        | Leaf::Variable(_)
        | Leaf::Item(_)
        | Leaf::Elapsed
        | Leaf::Size(_)
        | Leaf::Sum(_)
        | Leaf::Least(_)
        | Leaf::Most(_)
        | Leaf::Front(_) => ValueType::Number,
    }
}

/// The type of the operand of an operator on one value, and of its result.
pub fn unary_type(unary: Unary) -> ValueType
    ensures { result ≡ unary_type unary }
{
    match unary {
        Unary::Not => ValueType::Truth,
        Unary::Negate | Unary::Times(_) => ValueType::Number,
    }
}

/// The type of both operands of an operator on two values.
pub fn operand_type(binary: Binary) -> ValueType
    ensures { result ≡ operand_type binary }
{
    match binary {
        Binary::Same | Binary::Different => ValueType::Truth,
        Binary::Add
        | Binary::Subtract
        | Binary::Multiply
        | Binary::Divide
        | Binary::Remainder
        | Binary::Equal
        | Binary::Unequal
        | Binary::Less
        | Binary::AtMost
        | Binary::Greater
        | Binary::AtLeast => ValueType::Number,
    }
}

/// The type of the result of an operator on two values.
pub fn result_type(binary: Binary) -> ValueType
    ensures { result ≡ result_type binary }
{
    match binary {
        Binary::Add | Binary::Subtract | Binary::Multiply | Binary::Divide | Binary::Remainder =>
            ValueType::Number,
        Binary::Equal
        | Binary::Unequal
        | Binary::Less
        | Binary::AtMost
        | Binary::Greater
        | Binary::AtLeast
        | Binary::Same
        | Binary::Different => ValueType::Truth,
    }
}

/// The type of the value that an action takes.
pub fn action_type(action: Action) -> ValueType
    ensures { result ≡ action_type action }
{
    match action {
        Action::SetFlag(_) => ValueType::Truth,
        Action::SetVariable(_) | Action::Change(_, _) | Action::Send(_) => ValueType::Number,
    }
}
