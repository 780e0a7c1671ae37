//! The instructions of the stack machine.

use dv_bag::{Change, Discipline};

/// Where a collection is read.
#[derive(Clone, Copy, PartialEq, Eq)]
pub enum Source {
    /// The collection in a slot of the state, by its discipline and the index of the slot.
    Own(Discipline, u16),
    /// The bag that has arrived at an input port, by the index of the port.
    Port(u16),
}

/// An operand that is read, not computed.
#[derive(Clone, Copy, PartialEq, Eq)]
pub enum Leaf {
    /// This number.
    Number(i64),
    /// This truth value.
    Truth(bool),
    /// The number in a slot of the state.
    Variable(u16),
    /// The truth value in a slot of the state.
    Flag(u16),
    /// The value at which an open loop is. The outermost loop is number 0.
    Item(u16),
    /// The ticks since the last transition.
    Elapsed,
    /// The number of values of a collection.
    Size(Source),
    /// The sum of the values of a bag.
    Sum(Source),
    /// The least value of a bag.
    Least(Source),
    /// The greatest value of a bag.
    Most(Source),
    /// The first value of the queue in a slot of the state.
    Front(u16),
}

/// An operator on one value.
#[derive(Clone, Copy, PartialEq, Eq)]
pub enum Unary {
    /// The number with the other sign.
    Negate,
    /// The other truth value.
    Not,
    /// How often the number is in a bag.
    Times(Source),
}

/// An operator on two values, of which the second is on top.
#[derive(Clone, Copy, PartialEq, Eq)]
pub enum Binary {
    /// The sum.
    Add,
    /// The difference.
    Subtract,
    /// The product.
    Multiply,
    /// The quotient, towards 0.
    Divide,
    /// The remainder of the quotient towards 0.
    Remainder,
    /// Whether two numbers are equal.
    Equal,
    /// Whether two numbers differ.
    Unequal,
    /// Whether the first is less.
    Less,
    /// Whether the first is less or both are equal.
    AtMost,
    /// Whether the first is greater.
    Greater,
    /// Whether the first is greater or both are equal.
    AtLeast,
    /// Whether two truth values are the same.
    Same,
    /// Whether two truth values differ.
    Different,
}

/// What is done with the value on top.
#[derive(Clone, Copy, PartialEq, Eq)]
pub enum Action {
    /// The number goes into the variable of a slot.
    SetVariable(u16),
    /// The truth value goes into the flag of a slot.
    SetFlag(u16),
    /// The collection of a slot is changed with the number.
    Change(Change, u16),
    /// The number is sent by an output port.
    Send(u16),
}

/// What is done without a value of the stack.
#[derive(Clone, Copy, PartialEq, Eq)]
pub enum Deed {
    /// Sets the phase to which the rule goes; the last one counts.
    Go(u32),
    /// Pops the first value of the queue of a slot.
    Pop(u16),
}

/// One instruction. Addresses count from 0.
#[derive(Clone, Copy, PartialEq, Eq)]
pub enum Instruction {
    /// Pushes the value of a leaf.
    Push(Leaf),
    /// Pops a value and pushes that of an operator.
    Apply(Unary),
    /// Pops two values and pushes that of an operator.
    Combine(Binary),
    /// Pops the value on top and performs an action with it.
    Perform(Action),
    /// Performs a deed.
    Do(Deed),
    /// Continues at an address.
    Jump(u32),
    /// Pops the truth value on top; if it is false, continues at an address.
    JumpFalse(u32),
    /// If the truth value on top is false, keeps it and continues at an address; otherwise pops it.
    FalseKeep(u32),
    /// If the truth value on top is true, keeps it and continues at an address; otherwise pops it.
    TrueKeep(u32),
    /// Loops over the values of a collection as it is now; if it has none, continues past the loop,
    /// at an address.
    Loop(Source, u32),
    /// Moves the innermost loop to its next value and continues at the first address of its body;
    /// ends the loop if there is none.
    Next(u32),
    /// Ends the program.
    End,
}
