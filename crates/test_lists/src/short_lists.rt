//! Each list of up to three instructions over a small set.

use crate::taken::{Answers, taken};
use dv_bag::Discipline;
use dv_code::{Action, Binary, Deed, Instruction, Leaf, ProgramSort, Source, Unary};
use std::alloc::AllocError;
use std::process::Abort;
use std::test::Fail;
use test_samples::shape_of_collections;

/// The instructions of which lists are made. They speak of slot 0, a bag, of slot 1, a queue, and
/// of output port 0.
const INSTRUCTIONS: [Instruction; 16] = [
    Instruction::Push(Leaf::Truth(true)),
    Instruction::Push(Leaf::Number(1)),
    Instruction::Push(Leaf::Item(0)),
    Instruction::Push(Leaf::Front(1)),
    Instruction::Apply(Unary::Not),
    Instruction::Combine(Binary::Equal),
    Instruction::Perform(Action::Send(0)),
    Instruction::Jump(2),
    Instruction::JumpFalse(2),
    Instruction::FalseKeep(1),
    Instruction::TrueKeep(2),
    Instruction::Do(Deed::Pop(1)),
    Instruction::Loop(Source::Own(Discipline::Bag, 0), 2),
    Instruction::Loop(Source::Own(Discipline::Queue, 1), 2),
    Instruction::Next(1),
    Instruction::End,
];

/// Whether a list is a program of an output rule.
fn is_taken<R: Abort + AllocGlobal>(rt: &R, list: &[Instruction]) -> Result<bool, AllocError> {
    let shape = shape_of_collections(rt.alloc(), ProgramSort::Output)?;
    Ok(taken(rt, shape, list)?.is_some())
}

#[test]
fn short_lists_are_taken_as_the_definition_says(rt: HostRuntime) -> Result<(), Fail> {
    let mut of_three = Answers::none();
    for first in INSTRUCTIONS {
        is_taken(&rt, &[first])?;
        for second in INSTRUCTIONS {
            is_taken(&rt, &[first, second])?;
            for third in INSTRUCTIONS {
                of_three.count(is_taken(&rt, &[first, second, third])?);
            }
        }
    }
    // A number that is sent, and so the first value of the queue; a truth value that decides; a
    // jump over each of three instructions that agree with a mark; and an empty loop over the bag
    // and one over the queue. No value is taken from the queue in an output rule. There are 16 * 16
    // * 16 lists of three.
    let wanted = Answers {
        taken: 8,
        refused: 4_088,
    };
    assert!(rt; of_three == wanted);
    Ok(())
}
