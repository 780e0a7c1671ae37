//! From an atomic model to its programs.

ghost use Rattle.std.specs.Prelude.{◌≡◌, map, option_map, IfOk};
ghost use Rattle.dv_code.specs.Shape.{AreSmall};
ghost use Rattle.dv_eval.specs.Scope.{scope_of};
ghost use Rattle.dv_syntax.specs.Trees.{atomic_of};
ghost use Rattle.dv_syntax.specs.declared.tree.RuleSort.TheVariants.{Output, Internal, External, Confluent};
ghost use Rattle.dv_gen.specs.Directories.{rule_found, ticks_found_in};
ghost use Rattle.dv_gen.specs.Emission.{HasFewNames, hold_code, rule_code};
ghost use Rattle.dv_gen.specs.Generators.{IsGeneratorOf, IsReady, code_of_phase, code_of_rule};
ghost use Rattle.dv_gen.specs.ModelCode.{IsCompilable, phase_codes};
ghost use Rattle.dv_gen.specs.Resolution.{slot_of, tables_of};

use crate::directory::PhaseDirectory;
use crate::laws::{accepted_rules_are_well_typed, states_fit_the_tables};
use crate::model_code::{ModelCode, PhaseCode};
use crate::names::Names;
use crate::program::{hold_program, rule_program};
use dv_code::{Slot, Tables, Valid};
use dv_eval::{Domain, Scope};
use dv_syntax::{Atomic, RuleSort, Ticks};
use std::alloc::{AllocError, Global};
use std::sync::Arc;

/// The programs of an atomic model with this scope.
///
/// # Errors
///
/// No memory for the programs. A program of 2^32 instructions counts as one without memory; by
/// `programs_are_no_longer_than_their_spellings` no file that could be written down has one.
pub fn generate(alloc: Global, model: &Atomic, scope: &Scope) -> Result<ModelCode, AllocError>
    requires scope { scope.now ≡ scope_of (atomic_of model.now) }
    requires compilable { IsCompilable (atomic_of model.now) }
    ensures tables { IfOk result
        (λ c. c.tables.value ≡ tables_of (scope_of (atomic_of model.now))) }
    ensures phases { IfOk result (λ c. c.phases.items ≡ phase_codes (atomic_of model.now)) }
{
    // For the prover alone.
    states_fit_the_tables();
    let tables = Arc::new(alloc, tables_of(alloc, scope)?)?;
    let phases = codes_over(alloc, model, scope, &tables)?;
    Ok(ModelCode { tables, phases })
}

// The programs of each phase of a model, with its tables.
fn codes_over(
    alloc: Global,
    model: &Atomic,
    scope: &Scope,
    tables: &Arc<Tables>,
) -> Result<Vec<PhaseCode>, AllocError>
    requires scope { scope.now ≡ scope_of (atomic_of model.now) }
    requires compilable { IsCompilable (atomic_of model.now) }
    requires tables { tables.now.value ≡ tables_of scope.now }
    requires small { AreSmall (tables_of scope.now).slots }
    ensures { IfOk result (λ codes. codes.items ≡ phase_codes (atomic_of model.now)) }
{
    let generator = Generator::of(alloc, model, scope, tables)?;
    generator.phase_codes(scope.phases())
}

/// What the programs of a model are made from.
#[derive(Drop)]
pub struct Generator<'a> {
    alloc: Global,
    names: Names<'a>,
    tables: &'a Arc<Tables>,
    directory: PhaseDirectory<'a>,
}

impl<'a> Generator<'a> {
    fn of(
        alloc: Global,
        model: &'a Atomic,
        scope: &'a Scope,
        tables: &'a Arc<Tables>,
    ) -> Result<Self, AllocError>
        requires scope { scope.now ≡ scope_of (atomic_of model.now) }
        requires compilable { IsCompilable (atomic_of model.now) }
        requires tables { tables.now.value ≡ tables_of scope.now }
        requires small { AreSmall (tables_of scope.now).slots }
        ensures ready { IfOk result (λ g. IsReady g) }
        ensures model { IfOk result (λ g. IsGeneratorOf (atomic_of model.now) g) }
    {
        // For the prover alone.
        accepted_rules_are_well_typed();
        Ok(Generator {
            alloc,
            names: Names::of(scope),
            tables,
            directory: PhaseDirectory::of(alloc, model)?,
        })
    }

    // The programs of phases, by their names.
    fn phase_codes(&self, phases: &[u32]) -> Result<Vec<PhaseCode>, AllocError>
        requires { IsReady self.now }
        ensures { IfOk result (λ codes. codes.items ≡ map (code_of_phase self.now) phases.now) }
    {
        let mut codes = Vec::new(self.alloc);
        for phase in phases {
            codes.push(self.phase_code(*phase)?)?;
        }
        Ok(codes)
    }

    fn phase_code(&self, phase: u32) -> Result<PhaseCode, AllocError>
        requires { IsReady self.now }
        ensures { IfOk result (λ code. code ≡ code_of_phase self.now phase) }
    {
        let hold = self.hold(phase)?;
        let (output, internal) = self.codes_at_the_end(phase)?;
        let (external, confluent) = self.codes_for_arrivals(phase)?;
        Ok(PhaseCode {
            output,
            internal,
            external,
            confluent,
            hold,
        })
    }

    // The programs of the output rule and of the internal rule, which run at the end of the hold.
    fn codes_at_the_end(&self, phase: u32) -> Result<(Valid, Valid), AllocError>
        requires { IsReady self.now }
        ensures { IfOk result (λ codes. (codes.0 ≡ code_of_rule self.now Output phase)
            × (codes.1 ≡ code_of_rule self.now Internal phase)) }
    {
        let output = self.rule_or_empty(RuleSort::Output, phase)?;
        let internal = self.rule_or_empty(RuleSort::Internal, phase)?;
        Ok((output, internal))
    }

    // The programs of the external rule, and of the confluent rule, if there is one.
    fn codes_for_arrivals(&self, phase: u32) -> Result<(Valid, Option<Valid>), AllocError>
        requires { IsReady self.now }
        ensures { IfOk result (λ codes. (codes.0 ≡ code_of_rule self.now External phase)
            × (codes.1 ≡ option_map (rule_code self.now.names Confluent)
            (rule_found self.now.directory Confluent phase))) }
    {
        let external = self.rule_or_empty(RuleSort::External, phase)?;
        let confluent = self.rule_if_any(RuleSort::Confluent, phase)?;
        Ok((external, confluent))
    }

    // The program of a rule. A missing rule is empty.
    fn rule_or_empty(&self, sort: RuleSort, phase: u32) -> Result<Valid, AllocError>
        requires { IsReady self.now }
        ensures { IfOk result (λ program. program ≡ code_of_rule self.now sort phase) }
    {
        let statements = self.directory.rule(sort, phase).unwrap_or(&[]);
        rule_program(self.alloc, statements, sort, &self.names, self.tables)
    }

    // The program of a rule, if there is one.
    fn rule_if_any(&self, sort: RuleSort, phase: u32) -> Result<Option<Valid>, AllocError>
        requires { IsReady self.now }
        ensures { IfOk result (λ program. program ≡ option_map (rule_code self.now.names sort)
            (rule_found self.now.directory sort phase)) }
    {
        match self.directory.rule(sort, phase) {
            Some(statements) => {
                let program = rule_program(self.alloc, statements, sort, &self.names, self.tables)?;
                Ok(Some(program))
            }
            None => Ok(None),
        }
    }

    // The program of a hold: none if it is forever.
    fn hold(&self, phase: u32) -> Result<Option<Valid>, AllocError>
        requires { IsReady self.now }
        ensures { IfOk result (λ program. program
            ≡ option_map (hold_code self.now.names) (ticks_found_in self.now.directory phase)) }
    {
        match self.directory.ticks(phase) {
            Some(Ticks::After(ticks)) => {
                let program = hold_program(self.alloc, ticks, &self.names, self.tables)?;
                Ok(Some(program))
            }
            Some(Ticks::Forever) | None => Ok(None),
        }
    }
}

// The tables of a model, which its programs use.
fn tables_of(alloc: Global, scope: &Scope) -> Result<Tables, AllocError>
    requires few { HasFewNames scope.now }
    requires small { AreSmall (tables_of scope.now).slots }
    ensures { IfOk result (λ tables. tables ≡ tables_of scope.now) }
{
    let slots = slots_of(alloc, scope.domains())?;
    Ok(Tables::new(
        slots,
        scope.inputs().len() as u32,
        scope.outputs().len() as u32,
        scope.phases().len() as u32,
    ))
}

fn slots_of(alloc: Global, domains: &[Domain]) -> Result<Vec<Slot>, AllocError>
    ensures { IfOk result (λ slots. slots.items ≡ map slot_of domains.now) }
{
    domains.iter().map(|domain| slot_of(*domain)).collect(alloc)
}

// The slot of a variable, a flag, a bag or a queue.
fn slot_of(domain: Domain) -> Slot
    ensures { result ≡ slot_of domain }
{
    match domain {
        Domain::Number(range) => Slot::Ranged {
            low: range.low,
            high: range.high,
        },
        Domain::Flag { .. } => Slot::Flagged,
        Domain::Held {
            discipline,
            capacity,
        } => Slot::Holding {
            discipline,
            capacity,
        },
    }
}
