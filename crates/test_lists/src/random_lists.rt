//! Random lists of instructions for the validator, and runs of those that it accepts.

ghost use Rattle.std.specs.Prelude.{◌≡◌, ◌<◌};

use crate::taken::{Answers, taken};
use dv_bag::{Arrivals, Change, Discipline, RuleError, State};
use dv_code::{
    Action, Binary, Deed, Instruction, Leaf, ProgramSort, Shape, Source, Tables, Unary, Valid,
};
use std::alloc::{AllocError, Global};
use std::marker::Brand;
use std::process::Abort;
use std::sync::Arc;
use std::sync::ledger::{Blank, Ledger};
use std::test::Fail;
use test_samples::{Level, Random, Runs, deliveries, state_at, tables_of_each_slot};

/// The most instructions of a list.
const LONGEST: u32 = 9;

/// How many lists were programs, and how many of their runs ended without a fault.
#[derive(Clone, Copy, Debug, PartialEq, Eq)]
struct Found {
    answers: Answers,
    whole_runs: u64,
    faults: u64,
}

fn random_sort(random: &mut Random) -> ProgramSort {
    match random.below(5) {
        0 => ProgramSort::Output,
        1 => ProgramSort::Internal,
        2 => ProgramSort::Confluent,
        3 => ProgramSort::Hold,
        _ => ProgramSort::External,
    }
}

fn random_source(random: &mut Random) -> Source {
    match random.below(8) {
        0 => Source::Port(0),
        1 => Source::Own(Discipline::Bag, 0),
        2 => Source::Own(Discipline::Queue, 2),
        3 | 4 => Source::Own(Discipline::Queue, 3),
        _ => Source::Own(Discipline::Bag, 2),
    }
}

fn random_leaf(random: &mut Random) -> Leaf {
    match random.below(10) {
        0 => Leaf::Truth(true),
        1 => Leaf::Variable(0),
        2 => Leaf::Flag(1),
        3 => Leaf::Item(0),
        4 => Leaf::Elapsed,
        5 => Leaf::Size(random_source(random)),
        6 => Leaf::Most(random_source(random)),
        7 => Leaf::Truth(false),
        8 => Leaf::Front(random_index(random)),
        _ => Leaf::Number(3),
    }
}

/// The address of the queue, or now and then that of the bag.
fn random_index(random: &mut Random) -> u16 {
    match random.below(4) {
        0 => 2,
        _ => 3,
    }
}

fn random_binary(random: &mut Random) -> Binary {
    match random.below(4) {
        0 => Binary::Add,
        1 => Binary::Divide,
        2 => Binary::Same,
        _ => Binary::Less,
    }
}

fn random_action(random: &mut Random) -> Action {
    match random.below(6) {
        0 => Action::SetVariable(0),
        1 => Action::SetFlag(1),
        2 => Action::Change(Change::Add, 2),
        3 => Action::Change(Change::Drop, 2),
        4 => Action::Change(Change::Push, random_index(random)),
        _ => Action::Send(0),
    }
}

fn random_deed(random: &mut Random) -> Deed {
    match random.below(2) {
        0 => Deed::Go(random.below(3)),
        _ => Deed::Pop(random_index(random)),
    }
}

/// An instruction for an address.
fn random_instruction(random: &mut Random, address: u32) -> Instruction {
    let ahead = address.saturating_add(random.below(5));
    let back = address.saturating_sub(random.below(4));
    match random.below(16) {
        0 => Instruction::Apply(Unary::Not),
        1 => Instruction::Apply(Unary::Times(random_source(random))),
        2 | 3 => Instruction::Combine(random_binary(random)),
        4 => Instruction::Do(random_deed(random)),
        5 => Instruction::Jump(ahead),
        6 => Instruction::JumpFalse(ahead),
        7 => Instruction::FalseKeep(ahead),
        8 => Instruction::TrueKeep(ahead),
        9 => Instruction::Loop(random_source(random), ahead),
        10 => Instruction::Next(back),
        11 | 12 => Instruction::Perform(random_action(random)),
        _ => Instruction::Push(random_leaf(random)),
    }
}

/// Some instructions, of which the last is mostly the end.
fn random_list(alloc: Global, random: &mut Random) -> Result<Vec<Instruction>, AllocError> {
    let mut code = Vec::new(alloc);
    for address in 0..random.below(LONGEST) {
        code.push(random_instruction(random, address))?;
    }
    if random.below(20) > 0 {
        code.push(Instruction::End)?;
    }
    Ok(code)
}

/// How a run of a program ends, from a state that fits it.
fn ending<L: Ledger>(
    runs: &mut Runs<L>,
    program: &Valid,
    state: &State,
    arrivals: &Arrivals,
) -> Result<(), RuleError> {
    if let Some(ticks) = runs.hold(program, state) {
        ticks?;
        return Ok(());
    }
    match runs.rule(program, state, arrivals) {
        Some(effect) => {
            effect?;
            Ok(())
        }
        None => Err(RuleError::Memory),
    }
}

impl Found {
    /// Counts a run, which has to end whole or by a fault.
    fn count_run(&mut self, rt: &impl Abort, ending: Result<(), RuleError>) {
        match ending {
            Ok(()) => self.whole_runs = self.whole_runs.saturating_add(1),
            Err(RuleError::Fault(_)) => self.faults = self.faults.saturating_add(1),
            Err(RuleError::Memory) => assert!(rt; false, "no memory, or no state"),
        }
    }

    /// Runs a program that was taken, from some states, with some arrivals.
    fn run<R: Abort + AllocGlobal, L: Ledger>(
        &mut self,
        rt: &R,
        runs: &mut Runs<L>,
        program: &Valid,
    ) -> Result<(), AllocError> {
        let slots = program.shape().tables().slots();
        for level in [Level::Low, Level::Middle, Level::High] {
            let state = state_at(rt.alloc(), slots, level)?;
            for received in &deliveries(rt.alloc(), 1)? {
                if received.are_few() {
                    let arrivals = Arrivals::new(received, 3);
                    let ending = ending(runs, program, &state, &arrivals);
                    self.count_run(rt, ending);
                }
            }
        }
        Ok(())
    }

    /// Tries a random list.
    fn try_random<R: Abort + AllocGlobal, L: Ledger>(
        &mut self,
        rt: &R,
        runs: &mut Runs<L>,
        tables: &Arc<Tables>,
        random: &mut Random,
    ) -> Result<(), AllocError> {
        let shape = Shape::new(Arc::try_clone(tables)?, random_sort(random));
        let list = random_list(rt.alloc(), random)?;
        self.try_list(rt, runs, shape, &list)
    }

    /// Asks the validator about a list, and runs what it takes.
    fn try_list<R: Abort + AllocGlobal, L: Ledger>(
        &mut self,
        rt: &R,
        runs: &mut Runs<L>,
        shape: Shape,
        list: &[Instruction],
    ) -> Result<(), AllocError> {
        let found = taken(rt, shape, list)?;
        self.answers.count(found.is_some());
        if let Some(program) = found {
            self.run(rt, runs, &program)?;
        }
        Ok(())
    }
}

fn try_lists<R: Abort + AllocGlobal, L: Ledger>(
    rt: &R,
    count: u32,
    blank: Blank,
) -> Result<Found, AllocError>
    requires name { blank.name ≡ L.name }
    requires parts { blank.parts ≡ L.parts }
    requires some { 0 < blank.parts }
{
    let mut runs = Runs::<L>::new(rt.alloc(), blank);
    let mut random = Random::new(7);
    let tables = tables_of_each_slot(rt.alloc())?;
    let mut found = Found {
        answers: Answers::none(),
        whole_runs: 0,
        faults: 0,
    };
    for _ in 0..count {
        found.try_random(rt, &mut runs, &tables, &mut random)?;
    }
    Ok(found)
}

#[test]
fn what_is_taken_of_random_lists_runs(rt: HostRuntime) -> Result<(), Fail> {
    let found = try_lists::<HostRuntime, Brand>(&rt, 10_000, Blank::new(1))?;
    let answers = found.answers;
    assert!(rt; answers.taken > 500 && answers.refused > 500, "{found:?}");
    assert!(rt; found.whole_runs > 1_000 && found.faults > 0, "{found:?}");
    Ok(())
}
