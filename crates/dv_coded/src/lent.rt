//! References to the programs of models, as code for the kernel.

ghost use Rattle.std.specs.Option.{option_copied};
ghost use Rattle.std.specs.Prelude.{◌≡◌, IfOk, IfSome, map, slice_get};
ghost use Rattle.dv_gen.specs.Over.{IsOver};

use crate::bench::Bench;
use crate::programs::Programs;
use dv_bag::{Arrivals, RuleError, Sent, State};
use dv_gen::PhaseCode;
use dv_react::Atomic;
use std::alloc::{AllocError, Global};

/// A reference to the programs of an atomic model, which implements `Atomic`.
#[derive(Clone, Copy)]
pub struct Lent<'m> {
    /// The programs.
    pub programs: &'m Programs,
    // The programs by phase, so that a reaction finds them at once.
    phases: &'m [PhaseCode],
    ghost same: { phases.now ≡ programs.now.code.phases.items },
}

impl<'m> Lent<'m> {
    /// Refers to these programs.
    #[inline]
    pub fn of(programs: &'m Programs) -> Self
        ensures { result.programs.now ≡ programs.now }
    {
        Lent {
            programs,
            phases: &programs.code.phases,
        }
    }

    // The programs of the phase of a state, if there is such a phase.
    #[inline]
    fn phase(&self, state: &State) -> Option<&'m PhaseCode>
        ensures phase { option_copied result
            ≡ slice_get self.now.programs.now.code.phases.items state.now.phase }
        ensures over { IfSome result
            (λ c. IsOver self.now.programs.now.code.tables.value c.now) }
    {
        self.phases.get(state.phase as usize)
    }
}

/// A reference to each of the programs.
///
/// # Errors
///
/// No memory for the list.
pub fn lend<'m>(alloc: Global, all: &'m [Programs]) -> Result<Vec<Lent<'m>>, AllocError>
    ensures { IfOk result (λ lent. map (λ l. l.programs.now) lent.items ≡ all.now) }
{
    let mut lent = Vec::with_capacity(alloc, all.len())?;
    for programs in all {
        lent.push(Lent::of(programs))?;
    }
    Ok(lent)
}

impl Atomic for Lent<'_> {
    ghost use Rattle.dv_coded.specs.Lent.{behaviour_of_lent, lent_takes};

    type Work = Bench;

    ghost behaviour = { behaviour_of_lent };

    ghost fits = { lent_takes };

    ghost comes = { λ _ _. Unit {0} };

    #[inline(always)]
    fn output(&self, work: &mut Bench, state: &State, into: &mut Sent) -> Result<(), RuleError> {
        match self.phase(state) {
            Some(code) => work.output(&code.output, state, into),
            None => {
                *into = Sent::empty(work.alloc, 0);
                Ok(())
            }
        }
    }

    #[inline]
    fn internal(&self, work: &mut Bench, state: &mut State) -> Result<bool, RuleError> {
        match self.phase(state) {
            Some(code) => work.change(&code.internal, &Arrivals::nothing(), state),
            None => Ok(false),
        }
    }

    #[inline]
    fn external(
        &self,
        work: &mut Bench,
        arrivals: &Arrivals,
        state: &mut State,
    ) -> Result<bool, RuleError> {
        match self.phase(state) {
            Some(code) => work.change(&code.external, arrivals, state),
            None => Ok(false),
        }
    }

    #[inline]
    fn confluent(
        &self,
        work: &mut Bench,
        arrivals: &Arrivals,
        state: &mut State,
    ) -> Result<Option<bool>, RuleError> {
        let Some(code) = self.phase(state) else {
            return Ok(None);
        };
        match &code.confluent {
            Some(program) => match work.change_at_once(program, arrivals, state) {
                Ok(goes) => Ok(Some(goes)),
                Err(error) => Err(error),
            },
            None => Ok(None),
        }
    }

    #[inline(always)]
    fn hold(&self, work: &mut Bench, state: &State) -> Result<Option<u64>, RuleError> {
        let Some(code) = self.phase(state) else {
            return Ok(None);
        };
        match &code.hold {
            Some(program) => work.ticks(program, state),
            None => Ok(None),
        }
    }
}
