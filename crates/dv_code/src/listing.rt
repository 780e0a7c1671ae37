//! Instructions as text, in the words of a listing.

use crate::instruction::{Action, Binary, Deed, Instruction, Leaf, Source, Unary};
use dv_bag::{Change, Discipline};
use std::fmt;

impl fmt::Display for Source {
    ghost use Rattle.std.specs.Prelude.{Some};
    ghost use Rattle.dv_code.specs.Listing.{source_words};

    ghost output = { λ s. Some (source_words s) };

    fn fmt<W: fmt::Write>(&self, f: &mut fmt::Formatter<W>) -> fmt::Result {
        match self {
            Source::Own(Discipline::Bag, index) => write!(f, "bag {index}"),
            Source::Own(Discipline::Queue, index) => write!(f, "queue {index}"),
            Source::Port(port) => write!(f, "port {port}"),
        }
    }
}

impl fmt::Display for Leaf {
    ghost use Rattle.std.specs.Prelude.{Some};
    ghost use Rattle.dv_code.specs.Listing.{leaf_words};

    ghost output = { λ l. Some (leaf_words l) };

    fn fmt<W: fmt::Write>(&self, f: &mut fmt::Formatter<W>) -> fmt::Result {
        match self {
            Leaf::Number(number) => write!(f, "{number}"),
            Leaf::Truth(true) => f.write_str("true"),
            Leaf::Truth(false) => f.write_str("false"),
            Leaf::Variable(index) => write!(f, "variable {index}"),
            Leaf::Flag(index) => write!(f, "flag {index}"),
            Leaf::Item(number) => write!(f, "item {number}"),
            Leaf::Elapsed => f.write_str("elapsed"),
            Leaf::Size(source) => write!(f, "size of {source}"),
            Leaf::Sum(source) => write!(f, "sum of {source}"),
            Leaf::Least(source) => write!(f, "least of {source}"),
            Leaf::Most(source) => write!(f, "most of {source}"),
            Leaf::Front(index) => write!(f, "front of queue {index}"),
        }
    }
}

impl fmt::Display for Unary {
    ghost use Rattle.std.specs.Prelude.{Some};
    ghost use Rattle.dv_code.specs.Listing.{unary_words};

    ghost output = { λ u. Some (unary_words u) };

    fn fmt<W: fmt::Write>(&self, f: &mut fmt::Formatter<W>) -> fmt::Result {
        match self {
            Unary::Negate => f.write_str("negate"),
            Unary::Not => f.write_str("not"),
            Unary::Times(source) => write!(f, "times in {source}"),
        }
    }
}

impl fmt::Display for Binary {
    ghost use Rattle.std.specs.Prelude.{Some};
    ghost use Rattle.dv_code.specs.Listing.{binary_words};

    ghost output = { λ o. Some (binary_words o) };

    fn fmt<W: fmt::Write>(&self, f: &mut fmt::Formatter<W>) -> fmt::Result {
        f.write_str(match self {
            Binary::Add => "add",
            Binary::Subtract => "subtract",
            Binary::Multiply => "multiply",
            Binary::Divide => "divide",
            Binary::Remainder => "remainder",
            Binary::Equal => "equal",
            Binary::Unequal => "unequal",
            Binary::Less => "less",
            Binary::AtMost => "at most",
            Binary::Greater => "greater",
            Binary::AtLeast => "at least",
            Binary::Same => "same",
            Binary::Different => "different",
        })
    }
}

impl fmt::Display for Action {
    ghost use Rattle.std.specs.Prelude.{Some};
    ghost use Rattle.dv_code.specs.Listing.{action_words};

    ghost output = { λ a. Some (action_words a) };

    fn fmt<W: fmt::Write>(&self, f: &mut fmt::Formatter<W>) -> fmt::Result {
        match self {
            Action::SetVariable(index) => write!(f, "set variable {index}"),
            Action::SetFlag(index) => write!(f, "set flag {index}"),
            Action::Change(Change::Add, index) => write!(f, "add to bag {index}"),
            Action::Change(Change::Drop, index) => write!(f, "drop from bag {index}"),
            Action::Change(Change::Push, index) => write!(f, "push to queue {index}"),
            Action::Send(port) => write!(f, "send by port {port}"),
        }
    }
}

impl fmt::Display for Deed {
    ghost use Rattle.std.specs.Prelude.{Some};
    ghost use Rattle.dv_code.specs.Listing.{deed_words};

    ghost output = { λ d. Some (deed_words d) };

    fn fmt<W: fmt::Write>(&self, f: &mut fmt::Formatter<W>) -> fmt::Result {
        match self {
            Deed::Go(phase) => write!(f, "go to phase {phase}"),
            Deed::Pop(index) => write!(f, "pop from queue {index}"),
        }
    }
}

impl fmt::Display for Instruction {
    ghost use Rattle.std.specs.Prelude.{Some};
    ghost use Rattle.dv_code.specs.Listing.{instruction_words};

    ghost output = { λ i. Some (instruction_words i) };

    fn fmt<W: fmt::Write>(&self, f: &mut fmt::Formatter<W>) -> fmt::Result {
        match self {
            Instruction::Push(leaf) => write!(f, "push {leaf}"),
            Instruction::Apply(unary) => write!(f, "{unary}"),
            Instruction::Combine(binary) => write!(f, "{binary}"),
            Instruction::Perform(action) => write!(f, "{action}"),
            Instruction::Do(deed) => write!(f, "{deed}"),
            Instruction::Jump(to) => write!(f, "jump to {to}"),
            Instruction::JumpFalse(to) => write!(f, "if false jump to {to}"),
            Instruction::FalseKeep(to) => write!(f, "if false keep and jump to {to}"),
            Instruction::TrueKeep(to) => write!(f, "if true keep and jump to {to}"),
            Instruction::Loop(source, past) => write!(f, "loop over {source} up to {past}"),
            Instruction::Next(first) => write!(f, "next from {first}"),
            Instruction::End => f.write_str("end"),
        }
    }
}
