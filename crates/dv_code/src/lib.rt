//! Programs for a stack machine: their instructions, when they are valid, and the machine that runs
//! them.
//!
//! A program is a list of `Instruction`s over a `Shape`, which says which variables, ports and
//! phases it may use. `Valid` is a program that is valid by its type. By law a valid program is
//! never stuck, and its run ends in exactly one way: with an effect or a number, or by a fault. So
//! what a program gives is a function of the state and of what arrived. A `Machine` computes it
//! with a stack of operands and a stack of open loops, whose memory it keeps from run to run. A
//! loop over arrivals reads the bag at its port; a loop over a collection of the state walks a
//! copy, since the body may change the collection.
//!
//! When a program is made ready (`Valid::adopt`), each address gets an `Operation`, which does at
//! once what one to three instructions from there on do: it reads a leaf, or calculates with two of
//! them, or combines the number on top with an operand (a number, a variable, a loop's item) or
//! with the number below it, and puts a truth value where it goes: on the stack, into a flag, or it
//! jumps by it. Each operator and kind of operand has an operation of its own, so that one jump
//! finds all that is to be done. A value on top stays in hand, in a register, until an operation
//! uses it or it has to go on the stack. An operation does nothing if one of its instructions would
//! fault: then the instructions are performed one by one. So addresses stay the same, jumps may
//! lead anywhere, and faults are found in one place.
//!
//! Programs that do little are recognized at the same time (`Short`): nothing, a `goto`, a leaf
//! that is left or sent, a leaf added to a variable. `at_once` gives what these give, without the
//! machine. `dv_gen` makes programs from rules, `dv_valid` decides whether a list is a program,
//! `dv_coded` runs them as code of components, and `dv_listing` prints them. Nothing here knows
//! rules.
#![tactic(auto)]

/// What actions and deeds do.
mod actions;
/// What short programs give, without the machine.
pub mod at_once;
/// What is combined with the number in hand.
mod combining;
/// How programs are decoded to operations.
mod decode;
/// The effect of a run so far.
mod draft;
/// What is in hand.
mod hand;
/// The instructions.
pub mod instruction;
/// Laws of valid programs.
pub mod laws;
/// The values of leaves.
mod leaf;
/// Instructions as text.
pub mod listing;
/// What is read into the hand.
mod loading;
/// The open loops, as a stack.
mod loops;
/// The machine that runs programs.
pub mod machine;
/// One open loop.
mod open_loop;
/// What operations do.
mod operate;
/// Operations: several instructions at once.
mod operation;
/// The values of operators.
mod operators;
/// Where a run is between operations.
mod place;
/// Where values go.
mod putting;
/// Numbers that are read of collections.
mod reading;
/// Worked rows.
pub mod rows;
/// What a program may use.
pub mod shape;
/// Which programs are short.
pub mod short;
/// The collections that a program reads.
mod source;
/// Stacks.
mod stack;
/// How instructions are performed.
mod stacks;
/// A count of steps, for contracts alone.
pub mod steps;
/// The types of leaves, operators and actions.
pub mod types;
/// Valid programs.
pub mod valid;
/// The collections that loops walk.
mod walk;

pub use instruction::{Action, Binary, Deed, Instruction, Leaf, Source, Unary};
pub use machine::Machine;
pub use shape::{ProgramSort, Shape, Slot, Tables};
pub use short::Short;
pub use steps::Steps;
pub use valid::Valid;
