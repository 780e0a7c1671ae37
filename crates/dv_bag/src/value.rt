//! Values of expressions.

/// The type of a value.
#[derive(Clone, Copy, PartialEq, Eq)]
pub enum ValueType {
    /// A number.
    Number,
    /// A truth value.
    Truth,
}

/// A value of an expression.
#[derive(Clone, Copy, PartialEq, Eq)]
pub enum Value {
    /// This number.
    Number(i64),
    /// This truth value.
    Truth(bool),
}
