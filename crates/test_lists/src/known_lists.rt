//! Lists of instructions that are programs, and lists that are not.

use crate::taken::taken;
use dv_bag::{Change, Discipline};
use dv_code::{Action, Deed, Instruction, Leaf, ProgramSort, Source};
use std::alloc::AllocError;
use std::process::Abort;
use std::test::Fail;
use test_samples::shape_of_collections;

const BAG: Source = Source::Own(Discipline::Bag, 0);

const QUEUE: Source = Source::Own(Discipline::Queue, 1);

const ITEM: Instruction = Instruction::Push(Leaf::Item(0));

const ONE: Instruction = Instruction::Push(Leaf::Number(1));

const TRUTH: Instruction = Instruction::Push(Leaf::Truth(true));

const ELAPSED: Instruction = Instruction::Push(Leaf::Elapsed);

const SEND: Instruction = Instruction::Perform(Action::Send(0));

const ADD: Instruction = Instruction::Perform(Action::Change(Change::Add, 0));

const PUSH: Instruction = Instruction::Perform(Action::Change(Change::Push, 1));

const POP: Instruction = Instruction::Do(Deed::Pop(1));

const FRONT: Instruction = Instruction::Push(Leaf::Front(1));

/// Lists that are programs of an output rule.
const OUTPUT_RULES: &[(&str, &[Instruction])] = &[
    (
        "a loop that sends each value",
        &[
            Instruction::Loop(BAG, 4),
            ITEM,
            SEND,
            Instruction::Next(1),
            Instruction::End,
        ],
    ),
    (
        "three loops in one another",
        &[
            Instruction::Loop(BAG, 6),
            Instruction::Loop(BAG, 5),
            Instruction::Loop(BAG, 4),
            Instruction::Next(3),
            Instruction::Next(2),
            Instruction::Next(1),
            Instruction::End,
        ],
    ),
    (
        "a loop over the queue in one over the bag",
        &[
            Instruction::Loop(BAG, 6),
            Instruction::Loop(QUEUE, 5),
            ITEM,
            SEND,
            Instruction::Next(2),
            Instruction::Next(1),
            Instruction::End,
        ],
    ),
    (
        "the number of values of the queue, and the first",
        &[
            Instruction::Push(Leaf::Size(QUEUE)),
            SEND,
            FRONT,
            SEND,
            Instruction::End,
        ],
    ),
];

/// Lists that are none.
const NO_PROGRAMS: &[(&str, &[Instruction])] = &[
    (
        "a loop that leaves a value at each turn",
        &[
            Instruction::Loop(BAG, 3),
            ITEM,
            Instruction::Next(1),
            Instruction::End,
        ],
    ),
    (
        "a jump into a loop",
        &[
            TRUTH,
            Instruction::JumpFalse(5),
            Instruction::Loop(BAG, 6),
            ITEM,
            SEND,
            Instruction::Next(3),
            Instruction::End,
        ],
    ),
    (
        "a jump into a loop, past a jump in it, and one out of it",
        &[
            TRUTH,
            Instruction::JumpFalse(4),
            Instruction::Loop(BAG, 6),
            Instruction::Jump(5),
            Instruction::Jump(6),
            Instruction::Next(3),
            Instruction::End,
        ],
    ),
    (
        "loops that overlap",
        &[
            TRUTH,
            Instruction::JumpFalse(4),
            Instruction::Loop(BAG, 8),
            Instruction::Jump(7),
            Instruction::Loop(BAG, 11),
            Instruction::Jump(10),
            Instruction::Jump(7),
            Instruction::Next(3),
            Instruction::Jump(11),
            Instruction::Jump(10),
            Instruction::Next(5),
            Instruction::End,
        ],
    ),
    (
        "a loop's end without a loop",
        &[Instruction::Jump(2), Instruction::Next(1), Instruction::End],
    ),
    ("a jump back", &[Instruction::Jump(0), Instruction::End]),
    (
        "a number that decides",
        &[ONE, Instruction::JumpFalse(2), Instruction::End],
    ),
    ("a value that is left", &[ONE, Instruction::End]),
    (
        "four loops in one another",
        &[
            Instruction::Loop(BAG, 8),
            Instruction::Loop(BAG, 7),
            Instruction::Loop(BAG, 6),
            Instruction::Loop(BAG, 5),
            Instruction::Next(4),
            Instruction::Next(3),
            Instruction::Next(2),
            Instruction::Next(1),
            Instruction::End,
        ],
    ),
    (
        "the first value of a bag",
        &[Instruction::Push(Leaf::Front(0)), SEND, Instruction::End],
    ),
    (
        "the sum of a queue",
        &[Instruction::Push(Leaf::Sum(QUEUE)), SEND, Instruction::End],
    ),
    (
        "a loop over a queue as a bag",
        &[
            Instruction::Loop(Source::Own(Discipline::Bag, 1), 2),
            Instruction::Next(1),
            Instruction::End,
        ],
    ),
    (
        "the number of values of a bag as a queue",
        &[
            Instruction::Push(Leaf::Size(Source::Own(Discipline::Queue, 0))),
            SEND,
            Instruction::End,
        ],
    ),
    ("no instruction", &[]),
    (
        "an address behind the end",
        &[Instruction::End, Instruction::End],
    ),
];

const SORTS: [ProgramSort; 5] = [
    ProgramSort::Output,
    ProgramSort::Internal,
    ProgramSort::External,
    ProgramSort::Confluent,
    ProgramSort::Hold,
];

/// Lists, and whether they are programs of each sort.
const BY_SORT: &[(&str, &[Instruction], [bool; 5])] = &[
    (
        "a number is sent",
        &[ONE, SEND, Instruction::End],
        [true, false, false, false, false],
    ),
    (
        "a number goes into the bag",
        &[ONE, ADD, Instruction::End],
        [false, true, true, true, false],
    ),
    (
        "the elapsed time goes into the bag",
        &[ELAPSED, ADD, Instruction::End],
        [false, false, true, false, false],
    ),
    (
        "a number goes into the queue",
        &[ONE, PUSH, Instruction::End],
        [false, true, true, true, false],
    ),
    (
        "a number goes into the bag as into a queue",
        &[
            ONE,
            Instruction::Perform(Action::Change(Change::Push, 0)),
            Instruction::End,
        ],
        [false; 5],
    ),
    (
        "a number goes out of the queue as out of a bag",
        &[
            ONE,
            Instruction::Perform(Action::Change(Change::Drop, 1)),
            Instruction::End,
        ],
        [false; 5],
    ),
    (
        "the queue loses its first value",
        &[POP, Instruction::End],
        [false, true, true, true, false],
    ),
    (
        "the bag loses its first value",
        &[Instruction::Do(Deed::Pop(0)), Instruction::End],
        [false; 5],
    ),
    (
        "a phase is named",
        &[Instruction::Do(Deed::Go(0)), Instruction::End],
        [false, true, true, true, false],
    ),
    (
        "a phase that the model has not is named",
        &[Instruction::Do(Deed::Go(1)), Instruction::End],
        [false; 5],
    ),
    (
        "a number is left",
        &[ONE, Instruction::End],
        [false, false, false, false, true],
    ),
    (
        "the first value of the queue is left",
        &[FRONT, Instruction::End],
        [false, false, false, false, true],
    ),
];

/// Fails the test where a list is a program of a sort, and should be none, or is none, and should
/// be one.
fn expect_answer<R: Abort + AllocGlobal>(
    rt: &R,
    name: &str,
    sort: ProgramSort,
    list: &[Instruction],
    wanted: bool,
) -> Result<(), AllocError> {
    let shape = shape_of_collections(rt.alloc(), sort)?;
    let found = taken(rt, shape, list)?;
    assert!(rt; found.is_some() == wanted, "{name}");
    Ok(())
}

/// Fails the test where the answers to a list of each sort are not these.
fn expect_answers<R: Abort + AllocGlobal>(
    rt: &R,
    name: &str,
    list: &[Instruction],
    answers: &[bool],
) -> Result<(), AllocError> {
    for (sort, wanted) in SORTS.iter().zip(answers) {
        expect_answer(rt, name, *sort, list, *wanted)?;
    }
    Ok(())
}

#[test]
fn output_rules_are_valid(rt: HostRuntime) -> Result<(), Fail> {
    for (name, list) in OUTPUT_RULES {
        expect_answer(&rt, name, ProgramSort::Output, list, true)?;
    }
    Ok(())
}

#[test]
fn no_other_lists_are_valid(rt: HostRuntime) -> Result<(), Fail> {
    for (name, list) in NO_PROGRAMS {
        expect_answer(&rt, name, ProgramSort::Output, list, false)?;
    }
    Ok(())
}

#[test]
fn programs_may_do_what_their_sort_may(rt: HostRuntime) -> Result<(), Fail> {
    for (name, list, answers) in BY_SORT {
        expect_answers(&rt, name, list, answers)?;
    }
    Ok(())
}
