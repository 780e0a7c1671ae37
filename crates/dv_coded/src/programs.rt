//! The programs of an atomic model.

ghost use Rattle.std.specs.Prelude.{◌≡◌, IfOk};
ghost use Rattle.dv_eval.specs.Scope.{scope_of};
ghost use Rattle.dv_gen.specs.ModelCode.{IsCompilable, phase_codes};
ghost use Rattle.dv_gen.specs.Over.{AreOver};
ghost use Rattle.dv_gen.specs.Resolution.{tables_of};
ghost use Rattle.dv_syntax.specs.Trees.{atomic_of};

use dv_eval::Scope;
use dv_gen::laws::programs_stand_over_their_tables;
use dv_gen::{ModelCode, generate};
use dv_syntax::Atomic;
use std::alloc::{AllocError, Global};

/// The programs of an atomic model, all over its tables.
#[derive(Drop)]
pub struct Programs {
    /// The programs and the tables that they share.
    pub code: ModelCode,
    ghost over: { AreOver code.tables.value code.phases.items },
}

impl Programs {
    /// Makes the programs of an atomic model with this scope.
    ///
    /// # Errors
    ///
    /// No memory for the programs.
    pub fn of(alloc: Global, model: &Atomic, scope: &Scope) -> Result<Self, AllocError>
        requires scope { scope.now ≡ scope_of (atomic_of model.now) }
        requires compilable { IsCompilable (atomic_of model.now) }
        ensures tables { IfOk result
            (λ p. p.code.tables.value ≡ tables_of (scope_of (atomic_of model.now))) }
        ensures phases { IfOk result
            (λ p. p.code.phases.items ≡ phase_codes (atomic_of model.now)) }
    {
        // For the prover alone.
        programs_stand_over_their_tables();
        let code = generate(alloc, model, scope)?;
        Ok(Programs { code })
    }
}
