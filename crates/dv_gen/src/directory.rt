//! The rules and the holds of an atomic model by the names of their phases.

ghost use Rattle.std.specs.Prelude.{◌≡◌, ℕ, map, option_map, IfOk};
ghost use Rattle.std.specs.Option.{option_copied};
ghost use Rattle.dv_eval.specs.Scope.{hold_ticks, rule_of, same_sort, ticks_found};
ghost use Rattle.dv_syntax.specs.Trees.{atomic_of, hold_of, rule_of as tree_of, statements_of};
ghost use Rattle.dv_syntax.specs.declared.tree.RuleSort.{RuleSort as DeclaredSort};
ghost use Rattle.dv_gen.specs.Directories.{rule_found, rule_in, rule_under, ticks_found_in, ticks_in, ticks_under};

use dv_check::Directory;
use dv_eval::{phase_ticks, rule_of};
use dv_syntax::{Atomic, Hold, Rule, RuleSort, Stmt, Ticks};
use std::alloc::{AllocError, Global};

/// The greatest number of rules, and of holds, that are searched from the front.
const GREATEST_FEW: usize = 8;

/// For the name of each phase its first rule of each sort, and its first hold. Each is found
/// without a look at more than a few of the others, so that all phases together take a time linear
/// in the model's text.
#[derive(Drop)]
pub enum PhaseDirectory<'a> {
    /// A model with at most eight rules and at most eight holds, which are searched from the front.
    Few(&'a Atomic),
    /// The rules and the holds of a longer model.
    Many(PhaseTables<'a>),
}

impl<'a> PhaseDirectory<'a> {
    /// The rules and the holds of a model.
    ///
    /// # Errors
    ///
    /// No memory for the names.
    pub fn of(alloc: Global, model: &'a Atomic) -> Result<Self, AllocError>
        ensures rules { IfOk result (λ directory. (sort : DeclaredSort) (phase : ℕ)
            → rule_found directory sort phase ≡ rule_of sort phase (atomic_of model.now).rules) }
        ensures holds { IfOk result (λ directory. (phase : ℕ)
            → ticks_found_in directory phase ≡ hold_ticks phase (atomic_of model.now).holds) }
    {
        if model.rules.len() <= GREATEST_FEW && model.holds.len() <= GREATEST_FEW {
            Ok(PhaseDirectory::Few(model))
        } else {
            Ok(PhaseDirectory::Many(PhaseTables::of(alloc, model)?))
        }
    }

    /// The statements of the first rule of a sort for a phase, if there is such a rule.
    pub fn rule(&self, sort: RuleSort, phase: u32) -> Option<&'a [Stmt]>
        ensures { option_map statements_of (option_copied result)
            ≡ rule_found self.now sort phase }
    {
        match self {
            PhaseDirectory::Few(model) => rule_of(model, sort, phase),
            PhaseDirectory::Many(tables) => tables.rule(sort, phase),
        }
    }

    /// The ticks of the first hold of a phase, if it has one.
    pub fn ticks(&self, phase: u32) -> Option<&'a Ticks>
        ensures { ticks_found (option_copied result) ≡ ticks_found_in self.now phase }
    {
        match self {
            PhaseDirectory::Few(model) => phase_ticks(model, phase),
            PhaseDirectory::Many(tables) => tables.ticks(phase),
        }
    }
}

/// The rules of each sort and the holds, in tables.
#[derive(Drop)]
pub struct PhaseTables<'a> {
    output: Directory<&'a [Stmt]>,
    internal: Directory<&'a [Stmt]>,
    external: Directory<&'a [Stmt]>,
    confluent: Directory<&'a [Stmt]>,
    holds: Directory<&'a Ticks>,
}

impl<'a> PhaseTables<'a> {
    fn of(alloc: Global, model: &'a Atomic) -> Result<Self, AllocError>
        ensures rules { IfOk result (λ tables. (sort : DeclaredSort) (phase : ℕ)
            → rule_in tables sort phase ≡ rule_of sort phase (atomic_of model.now).rules) }
        ensures holds { IfOk result (λ tables. (phase : ℕ)
            → ticks_in tables phase ≡ hold_ticks phase (atomic_of model.now).holds) }
    {
        Ok(PhaseTables {
            output: first_rules(alloc, RuleSort::Output, &model.rules)?,
            internal: first_rules(alloc, RuleSort::Internal, &model.rules)?,
            external: first_rules(alloc, RuleSort::External, &model.rules)?,
            confluent: first_rules(alloc, RuleSort::Confluent, &model.rules)?,
            holds: first_holds(alloc, &model.holds)?,
        })
    }

    fn rule(&self, sort: RuleSort, phase: u32) -> Option<&'a [Stmt]>
        ensures { option_map statements_of (option_copied result) ≡ rule_in self.now sort phase }
    {
        let rules = match sort {
            RuleSort::Output => &self.output,
            RuleSort::Internal => &self.internal,
            RuleSort::External => &self.external,
            RuleSort::Confluent => &self.confluent,
        };
        rules.get(phase).copied()
    }

    fn ticks(&self, phase: u32) -> Option<&'a Ticks>
        ensures { ticks_found (option_copied result) ≡ ticks_in self.now phase }
    {
        self.holds.get(phase).copied()
    }
}

// The first rule of a sort for each phase.
fn first_rules<'a>(
    alloc: Global,
    sort: RuleSort,
    rules: &'a [Rule],
) -> Result<Directory<&'a [Stmt]>, AllocError>
    ensures { IfOk result (λ first. (phase : ℕ)
        → rule_under first phase ≡ rule_of sort phase (map tree_of rules.now)) }
{
    let mut first = Directory::with_room(alloc, rules.len())?;
    for rule in rules {
        if is_of_sort(rule, sort) {
            let statements: &'a [Stmt] = &rule.body.statements;
            first.add(rule.phase.number, statements)?;
        }
    }
    Ok(first)
}

fn is_of_sort(rule: &Rule, sort: RuleSort) -> bool
    ensures { result ≡ same_sort rule.now.sort sort }
{
    rule.sort == sort
}

// The first hold of each phase.
fn first_holds<'a>(alloc: Global, holds: &'a [Hold]) -> Result<Directory<&'a Ticks>, AllocError>
    ensures { IfOk result (λ first. (phase : ℕ)
        → ticks_under first phase ≡ hold_ticks phase (map hold_of holds.now)) }
{
    let mut first = Directory::with_room(alloc, holds.len())?;
    for hold in holds {
        first.add(hold.phase.number, &hold.ticks)?;
    }
    Ok(first)
}
