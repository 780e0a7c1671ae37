//! Inputs from outside.

ghost use Rattle.std.specs.Prelude.{◌≡◌, ℕ, ◌≤◌, [], ◌∷◌, ◌++◌, drop, false, IsTrue, ◌↔◌, length, IfOk, OnOk, OnErr};
ghost use Rattle.std.specs.List.{take_while};
ghost use Rattle.dv_time.specs.Time.{IsOfRun, is_before};
ghost use Rattle.dv_time.specs.declared.time.Time.{Time as TimeOfCode};
ghost use Rattle.dv_time.specs.Limits.{greatest_tick};
ghost use Rattle.dv_bag.specs.Inputs.{IsByTime, bags_at, inputs_before, is_at, last_time, next_from, time_at};
ghost use Rattle.dv_bag.specs.InputSteps.{with_input, with_inputs};

/// Laws of what comes in, and when.
pub mod laws;

use crate::bags::Bags;
use dv_time::Time;
use std::alloc::{AllocError, Global};
use std::marker::Model;

/// A value that comes in from outside, at a time and at an input port of the root.
#[derive(Clone, Copy, PartialEq, Eq)]
pub struct Input {
    /// The time at which it comes.
    pub time: Time,
    /// The index of the input port of the root.
    pub port: u32,
    /// The value.
    pub value: i64,
}

/// Inputs by ascending time. No tick is above `GREATEST_TICK`.
#[derive(Drop)]
pub struct Inputs {
    inputs: Vec<Input>,
}

impl Model for Inputs {
    ghost use Rattle.std.specs.Prelude.{List};
    ghost use Rattle.dv_bag.specs.Inputs.{IsByTime};
    ghost use Rattle.dv_bag.specs.declared.inputs.Input.{Input};

    ghost Value = { List Input };

    ghost view = { λ i. i.inputs.items };

    ghost invariant = { λ i. IsByTime i.inputs.items };
}

impl Inputs {
    /// An empty list of inputs. It takes no memory.
    pub fn new(alloc: Global) -> Self
        ensures { result ≡ [] }
    {
        Inputs {
            inputs: Vec::new(alloc),
        }
    }

    /// Appends an input.
    ///
    /// # Errors
    ///
    /// No memory for one more. The inputs are as before.
    pub fn push(&mut self, input: Input) -> Result<(), AllocError>
        requires not_before { is_before input.time (last_time self.old) ≡ false }
        requires within { input.time.tick ≤ greatest_tick }
        ensures ok { OnOk result (self.new ≡ self.old ++ input ∷ []) }
        ensures err { OnErr result (self.new ≡ self.old) }
    {
        Ok(self.inputs.push(input)?)
    }

    /// The number of inputs.
    pub fn len(&self) -> usize
        ensures { result ≡ length self.now }
    {
        self.inputs.len()
    }

    /// Whether there is no input.
    pub fn is_empty(&self) -> bool
        ensures { IsTrue result ↔ (self.now ≡ []) }
    {
        self.inputs.is_empty()
    }

    /// All inputs.
    pub fn as_slice(&self) -> &[Input]
        ensures inputs { result.now ≡ self.now }
        ensures by_time { IsByTime self.now }
    {
        self.inputs.as_slice()
    }

    /// The time of the last input: 0.0 if there is none.
    pub fn last_time(&self) -> Time
        ensures { result ≡ last_time self.now }
    {
        match self.inputs.as_slice() {
            [] => Time::ZERO,
            [.., last] => last.time,
        }
    }

    /// The index of the first input that a run under a microstep limit reaches at `time` or later:
    /// the number of inputs if there is none. The search begins at `index`, which must not be past
    /// it, and takes time for the inputs between.
    pub fn index_from(&self, index: usize, time: Time, limit: u32) -> usize
        requires { index ≤ inputs_before limit self.now time }
        ensures { result ≡ inputs_before limit self.now time }
    {
        index + count_passed(rest(self.inputs.as_slice(), index), time, limit)
    }

    /// The time of the input at `index`, if there is one. For the index of a time this is the next
    /// time at which a run reaches an input.
    pub fn next_time(&self, index: usize) -> Option<Time>
        ensures at_index { result ≡ time_at self.now index }
        ensures next { (limit : ℕ) (t : TimeOfCode) → index ≡ inputs_before limit self.now t
            → result ≡ next_from limit self.now t }
    {
        time_at(self.inputs.as_slice(), index)
    }

    /// What comes in at a time: a bag for each of `ports` ports. `index` is that of the first input
    /// that a run reaches at the time or later. Takes time and memory for what comes in.
    ///
    /// # Errors
    ///
    /// No memory for the bags.
    pub fn bags_at(
        &self,
        alloc: Global,
        ports: usize,
        time: Time,
        index: usize,
    ) -> Result<Bags, AllocError>
        requires { (limit : ℕ) × IsOfRun limit time × (index ≡ inputs_before limit self.now time) }
        ensures { IfOk result (λ bags. bags ≡ bags_at ports self.now time) }
    {
        let arriving = front_at(self.inputs.as_slice(), index, time);
        let mut bags = Bags::empty(alloc, ports);
        put_all(&mut bags, arriving)?;
        Ok(bags)
    }
}

// The time of the input at an index, if there is one.
fn time_at(inputs: &[Input], index: usize) -> Option<Time>
    ensures { result ≡ time_at inputs.now index }
{
    inputs.get(index).map(|input| input.time)
}

// The inputs from `index` on.
fn rest(inputs: &[Input], index: usize) -> &[Input]
    requires { index ≤ length inputs.now }
    ensures { result.now ≡ drop index inputs.now }
{
    &inputs[index..]
}

// How many of the first inputs a run passes on its way to `time`.
fn count_passed(inputs: &[Input], time: Time, limit: u32) -> usize
    ensures { result ≡ inputs_before limit inputs.now time }
{
    inputs
        .iter()
        .take_while(|input| input.time.is_before(time) || limit < input.time.micro)
        .count()
}

// How many of the first inputs are at `time`.
fn count_at(inputs: &[Input], time: Time) -> usize
    ensures { result ≡ length (take_while (is_at time) inputs.now) }
{
    inputs
        .iter()
        .take_while(|input| input.time.tick == time.tick && input.time.micro == time.micro)
        .count()
}

// The inputs at `time` from `index` on.
fn front_at(inputs: &[Input], index: usize, time: Time) -> &[Input]
    requires { index ≤ length inputs.now }
    ensures { result.now ≡ take_while (is_at time) (drop index inputs.now) }
{
    let rest = rest(inputs, index);
    &rest[..count_at(rest, time)]
}

// Adds the value of an input to the bag of its port, if there is one.
fn put(bags: &mut Bags, input: Input) -> Result<(), AllocError>
    ensures { OnOk result (bags.new ≡ with_input input bags.old) }
{
    let port = input.port as usize;
    if port < bags.len() {
        bags.insert(port, input.value)?;
    }
    Ok(())
}

// Adds the value of each input to the bag of its port.
fn put_all(bags: &mut Bags, inputs: &[Input]) -> Result<(), AllocError>
    ensures { OnOk result (bags.new ≡ with_inputs inputs.now bags.old) }
{
    for input in inputs {
        put(bags, *input)?;
    }
    Ok(())
}
