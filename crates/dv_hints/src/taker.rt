//! What uses the value of an expression.

use dv_bag::{Change, ValueType};
use dv_syntax::{Name, OperatorClass, Prefix};
use std::fmt;

/// What uses the value of an expression, and so takes values of one type.
#[derive(Clone, Copy)]
pub enum Taker {
    /// An operator before its operand
    Prefix(Prefix),
    /// `and` or `or`
    Join,
    /// `<`, `<=`, `>` or `>=`
    Order,
    /// `=` or `!=`, with a left operand of this type
    Equality(ValueType),
    /// `+`, `-`, `*`, `/` or `%`
    Arithmetic,
    /// The condition of an `if`
    Condition,
    /// The ticks of a hold
    Hold,
    /// `send`
    Send,
    /// `add`, `drop` or `push`
    Change(Change),
    /// `times`
    Times,
    /// An assignment to this variable
    Variable(Name),
    /// An assignment to this flag
    Flag(Name),
}

impl Taker {
    /// How an operator takes both operands; `None` for `=` and `!=`, where the left one decides.
    pub fn by(class: OperatorClass) -> Option<Self> {
        match class {
            OperatorClass::Logic => Some(Taker::Join),
            OperatorClass::Equality => None,
            OperatorClass::Order => Some(Taker::Order),
            OperatorClass::Arithmetic => Some(Taker::Arithmetic),
        }
    }

    /// The type that is taken.
    pub fn takes(self) -> ValueType {
        match self {
            Taker::Prefix(Prefix::Not) | Taker::Join | Taker::Condition | Taker::Flag(_) => {
                ValueType::Truth
            }
            Taker::Equality(other) => other,
            Taker::Prefix(Prefix::Minus)
            | Taker::Order
            | Taker::Arithmetic
            | Taker::Hold
            | Taker::Send
            | Taker::Change(_)
            | Taker::Times
            | Taker::Variable(_) => ValueType::Number,
        }
    }

    /// A sentence with a line feed on what is taken.
    pub fn words(self) -> &'static str {
        match self {
            Taker::Prefix(Prefix::Minus) => "A minus sign takes a number.\n",
            Taker::Prefix(Prefix::Not) => "`not` takes a truth value, as in `not n > 0`.\n",
            Taker::Join => { "`and` and `or` join two truth values, as in `n > 0 and n < 9`.\n" }
            Taker::Order => "`<`, `<=`, `>` and `>=` compare two numbers.\n",
            Taker::Equality(_) => { "`=` and `!=` compare two numbers or two truth values.\n" }
            Taker::Arithmetic => "`+`, `-`, `*`, `/` and `%` take two numbers.\n",
            Taker::Condition => "A condition is a truth value, as in `if n > 0 { .. }`.\n",
            Taker::Hold => "A hold is a number of ticks, or `forever`.\n",
            Taker::Send => {
                "Numbers are sent: for a truth value send 1 or 0, as in `if f { send y 1; } else { send y 0; }`.\n"
            }
            Taker::Change(_) => "Bags and queues hold numbers.\n",
            Taker::Times => "`times` counts a number in a bag, as in `times(1, b)`.\n",
            Taker::Variable(_) => "A variable takes a number, and a flag a truth value.\n",
            Taker::Flag(_) => "A flag takes a truth value, as in `f := n > 0;`.\n",
        }
    }
}

/// A type, displayed in words.
#[derive(Clone, Copy)]
pub struct TypeWords(pub ValueType);

impl fmt::Display for TypeWords {
    fn fmt<W: fmt::Write>(&self, f: &mut fmt::Formatter<W>) -> fmt::Result {
        f.write_str(match self.0 {
            ValueType::Number => "a number",
            ValueType::Truth => "a truth value",
        })
    }
}
