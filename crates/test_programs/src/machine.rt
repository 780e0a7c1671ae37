//! Runs that were worked out by hand.

ghost use Rattle.std.specs.Prelude.{◌≡◌, ◌<◌};

use dv_bag::{
    Arrivals, Bag, Bags, Collection, Datum, DatumView, Discipline, Effect, Fault, Held, Queue,
    RuleError, Sent, State, Variables,
};
use dv_code::{
    Action, Binary, Deed, Instruction, Leaf, ProgramSort, Shape, Slot, Source, Tables, Valid,
};
use dv_valid::validate;
use std::alloc::{AllocError, Global};
use std::marker::Brand;
use std::process::Abort;
use std::sync::Arc;
use std::sync::ledger::{Blank, Ledger};
use test_samples::{Runs, shape_of_collections};

/// A program over a number from 0 to 100, a flag, an input port, an output port and two phases.
fn program<R: Abort + AllocGlobal>(
    rt: &R,
    sort: ProgramSort,
    code: Vec<Instruction>,
) -> Result<Valid, AllocError> {
    let slots = vec![in rt.alloc(); Slot::Ranged { low: 0, high: 100 }, Slot::Flagged]?;
    let tables = Arc::new(rt.alloc(), Tables::new(slots, 1, 1, 2))?;
    let program = validate(rt.alloc(), Shape::new(tables, sort), code)?;
    Ok(program.expect(rt, "a program"))
}

/// Adds each value above 2 that has arrived to the number, where the flag is up, and goes to phase
/// 1.
fn adder<R: Abort + AllocGlobal>(rt: &R) -> Result<Valid, AllocError> {
    let code = vec![in rt.alloc();
        Instruction::Loop(Source::Port(0), 12),
        Instruction::Push(Leaf::Item(0)),
        Instruction::Push(Leaf::Number(2)),
        Instruction::Combine(Binary::Greater),
        Instruction::FalseKeep(6),
        Instruction::Push(Leaf::Flag(1)),
        Instruction::JumpFalse(11),
        Instruction::Push(Leaf::Variable(0)),
        Instruction::Push(Leaf::Item(0)),
        Instruction::Combine(Binary::Add),
        Instruction::Perform(Action::SetVariable(0)),
        Instruction::Next(1),
        Instruction::Do(Deed::Go(1)),
        Instruction::End,
    ]?;
    program(rt, ProgramSort::External, code)
}

/// Gives one tick more than the number.
fn one_more<R: Abort + AllocGlobal>(rt: &R) -> Result<Valid, AllocError> {
    let code = vec![in rt.alloc();
        Instruction::Push(Leaf::Variable(0)),
        Instruction::Push(Leaf::Number(1)),
        Instruction::Combine(Binary::Add),
        Instruction::End,
    ]?;
    program(rt, ProgramSort::Hold, code)
}

/// Sends 5, and then 1 divided by the number, with a 7 below it on the stack.
fn divider<R: Abort + AllocGlobal>(rt: &R) -> Result<Valid, AllocError> {
    let code = vec![in rt.alloc();
        Instruction::Push(Leaf::Number(5)),
        Instruction::Perform(Action::Send(0)),
        Instruction::Push(Leaf::Number(7)),
        Instruction::Push(Leaf::Number(1)),
        Instruction::Push(Leaf::Variable(0)),
        Instruction::Combine(Binary::Divide),
        Instruction::Combine(Binary::Add),
        Instruction::Perform(Action::Send(0)),
        Instruction::End,
    ]?;
    program(rt, ProgramSort::Output, code)
}

/// Sends each value of a bag of the state.
fn each_sent<R: Abort + AllocGlobal>(rt: &R) -> Result<Valid, AllocError> {
    let shape = shape_of_collections(rt.alloc(), ProgramSort::Output)?;
    let code = vec![in rt.alloc();
        Instruction::Loop(Source::Own(Discipline::Bag, 0), 4),
        Instruction::Push(Leaf::Item(0)),
        Instruction::Perform(Action::Send(0)),
        Instruction::Next(1),
        Instruction::End,
    ]?;
    Ok(validate(rt.alloc(), shape, code)?.expect(rt, "a program"))
}

fn counted(alloc: Global, number: i64, flag: bool) -> Result<State, AllocError> {
    let mut variables = Variables::new(alloc);
    variables.push(Datum::Number(number))?;
    variables.push(Datum::Flag(flag))?;
    Ok(State {
        phase: 0,
        variables,
    })
}

/// A state with a bag of two 3s and a 7, and an empty queue.
fn three_stored(alloc: Global) -> Result<State, AllocError> {
    let mut bag = Bag::new(alloc);
    bag.insert_copies(3, 2)?;
    bag.insert(7)?;
    let mut variables = Variables::new(alloc);
    variables.push(Datum::Held(Held::new(alloc, Collection::Bag(bag))?))?;
    let queue = Collection::Queue(Queue::new(alloc));
    variables.push(Datum::Held(Held::new(alloc, queue)?))?;
    Ok(State {
        phase: 0,
        variables,
    })
}

/// Two 3s, a 7 and a 2 at an input port.
fn four_values(alloc: Global) -> Result<Bags, AllocError> {
    let mut bags = Bags::empty(alloc, 1);
    for value in [3, 7, 3, 2] {
        if 0 < bags.len() {
            bags.insert(0, value)?;
        }
    }
    Ok(bags)
}

/// The number in the first slot.
fn number_in(state: &State) -> Option<i64> {
    match state.variables.get(0) {
        Some(DatumView::Number(number)) => Some(number),
        _ => None,
    }
}

/// What a rule has done that sends nothing.
#[derive(Clone, Copy, Debug, PartialEq, Eq)]
struct Outline {
    /// The number in the first slot.
    number: Option<i64>,
    phase: u32,
    goto: Option<u32>,
    is_silent: bool,
}

impl Outline {
    fn of(effect: &Effect) -> Self {
        Outline {
            number: number_in(&effect.state),
            phase: effect.state.phase,
            goto: effect.goto,
            is_silent: effect.sent.is_empty(),
        }
    }
}

/// What the adder does with the four values.
fn added_up<R: Abort + AllocGlobal, L: Ledger>(
    rt: &R,
    runs: &mut Runs<L>,
    flag: bool,
) -> Result<Outline, RuleError> {
    let program = adder(rt)?;
    let state = counted(rt.alloc(), 1, flag)?;
    outline_of_four(rt, runs, &program, &state)
}

/// What a program does with the four values.
fn outline_of_four<R: Abort + AllocGlobal, L: Ledger>(
    rt: &R,
    runs: &mut Runs<L>,
    program: &Valid,
    state: &State,
) -> Result<Outline, RuleError> {
    let bags = four_values(rt.alloc())?;
    assert!(rt; bags.are_few());
    outline_with(rt, runs, program, state, &Arrivals::new(&bags, 0))
}

/// What a program does with what has arrived.
fn outline_with<R: Abort + AllocGlobal, L: Ledger>(
    rt: &R,
    runs: &mut Runs<L>,
    program: &Valid,
    state: &State,
    arrivals: &Arrivals,
) -> Result<Outline, RuleError> {
    let effect = runs.rule(program, state, arrivals);
    Ok(Outline::of(&effect.expect(rt, "the state fits")?))
}

/// Fails the test unless 3, 3 and 7 of what has arrived are added to 1; 2 is not above 2.
fn expect_added<R: Abort + AllocGlobal, L: Ledger>(rt: &R, runs: &mut Runs<L>) {
    let wanted = Outline {
        number: Some(14),
        phase: 0,
        goto: Some(1),
        is_silent: true,
    };
    assert!(rt; added_up(rt, runs, true) == Ok(wanted));
}

/// Fails the test unless the number stays where the flag is down.
fn expect_same_number<R: Abort + AllocGlobal, L: Ledger>(rt: &R, runs: &mut Runs<L>) {
    let outline = added_up(rt, runs, false).expect(rt, "no fault");
    assert!(rt; outline.number == Some(1));
}

fn adds_up<R: Abort + AllocGlobal, L: Ledger>(rt: &R, blank: Blank)
    requires name { blank.name ≡ L.name }
    requires parts { blank.parts ≡ L.parts }
    requires some { 0 < blank.parts }
{
    let mut runs = Runs::<L>::new(rt.alloc(), blank);
    expect_added(rt, &mut runs);
    expect_same_number(rt, &mut runs);
}

#[test]
fn a_rule_walks_what_has_arrived(rt: HostRuntime) {
    adds_up::<HostRuntime, Brand>(&rt, Blank::new(1));
}

/// How many copies of two values were sent by the first port, and how many values in all.
#[derive(Clone, Copy, Debug, PartialEq, Eq)]
struct Counts {
    one: u64,
    other: u64,
    all: u64,
}

impl Counts {
    fn of(sent: &Sent, one: i64, other: i64) -> Result<Self, AllocError> {
        let bag = sent.bag(0)?;
        Ok(Counts {
            one: bag.times(one),
            other: bag.times(other),
            all: bag.size(),
        })
    }
}

/// What a program sends, of two values and in all.
fn sent_by<R: Abort + AllocGlobal, L: Ledger>(
    rt: &R,
    runs: &mut Runs<L>,
    program: &Valid,
    state: &State,
    values: (i64, i64),
) -> Result<Counts, RuleError> {
    let sent = runs.output(program, state).expect(rt, "the state fits")?;
    Ok(Counts::of(&sent, values.0, values.1)?)
}

/// What is sent of the bag: 3s, 7s and all.
fn sent_values<R: Abort + AllocGlobal, L: Ledger>(
    rt: &R,
    runs: &mut Runs<L>,
) -> Result<Counts, RuleError> {
    let program = each_sent(rt)?;
    let state = three_stored(rt.alloc())?;
    sent_by(rt, runs, &program, &state, (3, 7))
}

fn sends_each<R: Abort + AllocGlobal, L: Ledger>(rt: &R, blank: Blank)
    requires name { blank.name ≡ L.name }
    requires parts { blank.parts ≡ L.parts }
    requires some { 0 < blank.parts }
{
    let mut runs = Runs::<L>::new(rt.alloc(), blank);
    let wanted = Counts {
        one: 2,
        other: 1,
        all: 3,
    };
    assert!(rt; sent_values(rt, &mut runs) == Ok(wanted));
}

#[test]
fn a_rule_sends_what_a_bag_holds(rt: HostRuntime) {
    sends_each::<HostRuntime, Brand>(&rt, Blank::new(1));
}

/// What the divider sends: 5s, 8s and all.
fn divided<R: Abort + AllocGlobal, L: Ledger>(
    rt: &R,
    runs: &mut Runs<L>,
    number: i64,
) -> Result<Counts, RuleError> {
    let program = divider(rt)?;
    let state = counted(rt.alloc(), number, true)?;
    sent_by(rt, runs, &program, &state, (5, 8))
}

/// Fails the test unless the divider divides by 0. The fault leaves values on the stack.
fn expect_fault<R: Abort + AllocGlobal, L: Ledger>(rt: &R, runs: &mut Runs<L>) {
    assert!(rt; divided(rt, runs, 0) == Err(RuleError::Fault(Fault::Divide)));
}

/// The ticks that the hold gives.
fn ticks_given<R: Abort + AllocGlobal, L: Ledger>(
    rt: &R,
    runs: &mut Runs<L>,
) -> Result<i64, RuleError> {
    let program = one_more(rt)?;
    let state = counted(rt.alloc(), 41, false)?;
    runs.hold(&program, &state).expect(rt, "the state fits")
}

/// Fails the test unless the hold gives one tick more.
fn expect_one_more<R: Abort + AllocGlobal, L: Ledger>(rt: &R, runs: &mut Runs<L>) {
    assert!(rt; ticks_given(rt, runs) == Ok(42));
}

/// Fails the test unless the divider sends 5 and 7 + 1.
fn expect_sum<R: Abort + AllocGlobal, L: Ledger>(rt: &R, runs: &mut Runs<L>) {
    let wanted = Counts {
        one: 1,
        other: 1,
        all: 2,
    };
    assert!(rt; divided(rt, runs, 1) == Ok(wanted));
}

fn goes_on_after_a_fault<R: Abort + AllocGlobal, L: Ledger>(rt: &R, blank: Blank)
    requires name { blank.name ≡ L.name }
    requires parts { blank.parts ≡ L.parts }
    requires some { 0 < blank.parts }
{
    let mut runs = Runs::<L>::new(rt.alloc(), blank);
    expect_fault(rt, &mut runs);
    expect_one_more(rt, &mut runs);
    expect_sum(rt, &mut runs);
}

#[test]
fn a_machine_runs_on_after_a_fault(rt: HostRuntime) {
    goes_on_after_a_fault::<HostRuntime, Brand>(&rt, Blank::new(1));
}
