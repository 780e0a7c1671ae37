//! What a component was before it reacted.

ghost use Rattle.std.specs.Prelude.{◌≡◌, OnOk};

use crate::running::Running;
use crate::wait::Wait;
use dv_bag::{KeptVariables, State};
use std::alloc::{AllocError, Global};
use std::marker::Model;
use std::mem;

/// What a component was before it reacted. Its memory serves the next one, whatever model that is
/// of.
#[derive(Drop)]
pub struct Kept {
    phase: u32,
    last: u64,
    wait: Wait,
    variables: KeptVariables,
}

impl Model for Kept {
    ghost use Rattle.dv_react.specs.declared.running.Running.{Running};

    ghost Value = { Running };

    ghost view = { λ k. record {
      state = record { phase = k.phase; variables = k.variables };
      last = k.last;
      wait = k.wait;
    } };
}

impl Kept {
    /// A quiet component without variables. It takes no memory yet.
    pub fn new(alloc: Global) -> Self {
        Kept {
            phase: 0,
            last: 0,
            wait: Wait::Quiet,
            variables: KeptVariables::new(alloc),
        }
    }

    /// Becomes a copy of a component, in the memory that it has, as far as that suffices.
    ///
    /// # Errors
    ///
    /// No memory for the other state. The copy is unspecified.
    #[inline(always)]
    pub fn copy_from(&mut self, other: &Running) -> Result<(), AllocError>
        ensures { OnOk result (self.new ≡ other.now) }
    {
        self.phase = other.state.phase;
        self.last = other.last;
        self.wait = other.wait;
        self.variables.copy_from(&other.state.variables)
    }

    /// Swaps what is kept with a component.
    #[cold]
    #[inline(never)]
    pub fn swap(&mut self, other: &mut Running)
        ensures kept { self.new ≡ other.old }
        ensures other { other.new ≡ self.old }
    {
        self.variables.swap(&mut other.state.variables);
        mem::swap(&mut self.phase, &mut other.state.phase);
        mem::swap(&mut self.last, &mut other.last);
        mem::swap(&mut self.wait, &mut other.wait);
    }

    /// The component, moved out.
    pub fn into_running(self) -> Running
        ensures { result ≡ self }
    {
        let state = State {
            phase: self.phase,
            variables: self.variables.into_variables(),
        };
        Running {
            state,
            last: self.last,
            wait: self.wait,
        }
    }
}
