//! Runs of programs on states that may not fit them.

ghost use Rattle.std.specs.Prelude.{◌≡◌, ◌<◌, []};
ghost use Rattle.dv_code.specs.Shape.{Fits, left_by};

use crate::fitting::fits;
use dv_bag::{Arrivals, Effect, RuleError, Sent, State};
use dv_code::{Machine, ProgramSort, Steps, Valid};
use std::alloc::Global;
use std::sync::ledger::{Blank, Ledger};

/// A machine, with a count of its steps.
#[derive(Drop)]
pub struct Runs<L: Ledger> {
    machine: Machine,
    steps: Steps<L>,
}

impl<L: Ledger> Runs<L> {
    /// No runs yet.
    pub fn new(alloc: Global, blank: Blank) -> Self
        requires name { blank.name ≡ L.name }
        requires parts { blank.parts ≡ L.parts }
        requires some { 0 < blank.parts }
    {
        Runs {
            machine: Machine::new(alloc),
            steps: Steps::new(blank),
        }
    }

    /// What the program of a rule does, unless the state does not fit it.
    pub fn rule(
        &mut self,
        program: &Valid,
        state: &State,
        arrivals: &Arrivals,
    ) -> Option<Result<Effect, RuleError>> {
        if !fits(program.shape().tables().slots(), &state.variables) {
            return None;
        }
        match program.shape().sort() {
            ProgramSort::Hold => None,
            ProgramSort::Output
            | ProgramSort::Internal
            | ProgramSort::External
            | ProgramSort::Confluent => Some(self.rule_of_copy(program, state, arrivals)),
        }
    }

    // The program takes a copy of the state.
    fn rule_of_copy(
        &mut self,
        program: &Valid,
        state: &State,
        arrivals: &Arrivals,
    ) -> Result<Effect, RuleError>
        requires rule { left_by program.now.shape.sort ≡ [] }
        requires fits { Fits program.now.shape.slots state.now.variables }
    {
        let copy = state.clone()?;
        self.machine
            .run_rule(program, copy, arrivals, &mut self.steps)
    }

    /// What the program of an output rule sends, unless the state does not fit it.
    pub fn output(&mut self, program: &Valid, state: &State) -> Option<Result<Sent, RuleError>> {
        if !fits(program.shape().tables().slots(), &state.variables) {
            return None;
        }
        match program.shape().sort() {
            ProgramSort::Output => {
                Some(self.machine.run_output(program, state, &mut self.steps))
            }
            _ => None,
        }
    }

    /// What the program of a hold gives, unless the state does not fit it.
    pub fn hold(&mut self, program: &Valid, state: &State) -> Option<Result<i64, RuleError>> {
        if !fits(program.shape().tables().slots(), &state.variables) {
            return None;
        }
        match program.shape().sort() {
            ProgramSort::Hold => Some(self.machine.run_hold(program, state, &mut self.steps)),
            _ => None,
        }
    }
}
