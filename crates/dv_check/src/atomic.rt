//! The checks of an atomic model.

ghost use Rattle.std.specs.Prelude.{◌≡◌, map, Some, None, IfOk, IsTrue, OnOk};
ghost use Rattle.std.specs.Option.{option_copied};
ghost use Rattle.dv_eval.specs.Scope.{hold_ticks, phases_in, scope_of, start_state, state_variables_in, ticks_found};
ghost use Rattle.dv_eval.specs.Meaning.{hold_of};
ghost use Rattle.dv_lex.specs.declared.error.RefusalNumber.TheVariants.{E6, E10};
ghost use Rattle.dv_syntax.specs.Trees.{atomic_of, rule_of, ticks_of};
ghost use Rattle.dv_check.specs.Findings.{with_refusals};
ghost use Rattle.dv_check.specs.Holds.{NeverFaults};
ghost use Rattle.dv_check.specs.Names.{excess, refusal_if, repeats};
ghost use Rattle.dv_check.specs.Tables.{has_name};
ghost use Rattle.dv_check.specs.Rules.{atomic_refusals, can_ask_hold, holds_once_refusals, is_fault, is_hold_fine};
ghost use Rattle.dv_check.specs.Rules.{is_hold_missing, is_start_fault, known_by, name_of_declaration, name_of_state_variable};
ghost use Rattle.dv_check.specs.Rules.{names_refusals, once_refusals, phases_offsets, ports_in, ruled_phases, standing_refusals};
ghost use Rattle.dv_check.specs.Rules.{start_hold_refusals, start_offsets, ticks_refusals};

use crate::declarations::Declarations;
use crate::findings::Findings;
use crate::limits::GREATEST_NAMES;
use crate::name_set::NameSet;
use crate::names;
use crate::repeats::{find_excess, find_repeats, within_limit};
use crate::starts::Starts;
use dv_eval::{Scope, phase_hold, phase_ticks, start_state};
use dv_lex::RefusalNumber;
use dv_syntax::{Atomic, Declaration, Expr, Name, Rule, RuleSort, Ticks};
use std::alloc::{AllocError, Global};

/// Tests an atomic model.
pub fn check_atomic(alloc: Global, model: &Atomic, found: &mut Findings) -> Result<(), AllocError>
    ensures { OnOk result (found.new ≡ with_refusals found.old
        (atomic_refusals (atomic_of model.now))) }
{
    let phases = names::phases(alloc, &model.phases)?;
    check_names(alloc, model, &phases, found)?;
    check_standing(alloc, model, found)?;
    let declarations = Declarations::of(alloc, model, phases)?;
    declarations.check_items(model, found);
    check_start_hold(alloc, model, &declarations, found)?;
    Ok(())
}

// Names that are declared twice, and too many names.
fn check_names(
    alloc: Global,
    model: &Atomic,
    phases: &[Name],
    found: &mut Findings,
) -> Result<(), AllocError>
    requires { phases.now ≡ phases_in (atomic_of model.now).phases }
    ensures { OnOk result (found.new ≡ with_refusals found.old
        (names_refusals (atomic_of model.now))) }
{
    check_declared(alloc, &model.declarations, found)?;
    find_repeats(alloc, RefusalNumber::E6, phases, found)?;
    check_ruled(alloc, RuleSort::Output, &model.rules, found)?;
    check_ruled(alloc, RuleSort::Internal, &model.rules, found)?;
    check_ruled(alloc, RuleSort::External, &model.rules, found)?;
    check_ruled(alloc, RuleSort::Confluent, &model.rules, found)?;
    check_ports(alloc, &model.declarations, found)?;
    check_state_variables(alloc, &model.declarations, found)?;
    find_excess(phases, found);
    Ok(())
}

// Names that are declared twice.
fn check_declared(
    alloc: Global,
    declarations: &[Declaration],
    found: &mut Findings,
) -> Result<(), AllocError>
    ensures { OnOk result (found.new ≡ with_refusals found.old
        (repeats E6 (map name_of_declaration declarations.now))) }
{
    find_repeats(
        alloc,
        RefusalNumber::E6,
        &names::declared(alloc, declarations)?,
        found,
    )
}

// Too many ports. If there are few declarations, they are not counted.
#[tactic(auto, using(crate::proofs::Lists::few_ports))]
fn check_ports(
    alloc: Global,
    declarations: &[Declaration],
    found: &mut Findings,
) -> Result<(), AllocError>
    ensures { OnOk result (found.new ≡ with_refusals found.old
        (excess (ports_in declarations.now))) }
{
    if declarations.len() > GREATEST_NAMES {
        find_excess(&names::ports(alloc, declarations)?, found);
    }
    Ok(())
}

// Too many variables, flags and collections. If there are few declarations, they are not counted.
#[tactic(auto, using(crate::proofs::Lists::few_variables))]
fn check_state_variables(
    alloc: Global,
    declarations: &[Declaration],
    found: &mut Findings,
) -> Result<(), AllocError>
    ensures { OnOk result (found.new ≡ with_refusals found.old
        (excess (map name_of_state_variable (state_variables_in declarations.now)))) }
{
    if declarations.len() > GREATEST_NAMES {
        let variables = names::state_variables(alloc, declarations)?;
        find_excess(&names::names_of_state_variables(alloc, &variables)?, found);
    }
    Ok(())
}

// Two rules of one sort for one phase.
#[tactic(auto, using(crate::proofs::Lists::no_ruled_repeats))]
fn check_ruled(
    alloc: Global,
    sort: RuleSort,
    rules: &[Rule],
    found: &mut Findings,
) -> Result<(), AllocError>
    ensures { OnOk result (found.new ≡ with_refusals found.old
        (repeats E6 (ruled_phases sort (map rule_of rules.now)))) }
{
    if rules.len() < 2 {
        return Ok(());
    }
    find_repeats(
        alloc,
        RefusalNumber::E6,
        &names::ruled_phases(alloc, sort, rules)?,
        found,
    )
}

// `phases`, `start` and the holds, each of which must occur once.
fn check_standing(alloc: Global, model: &Atomic, found: &mut Findings) -> Result<(), AllocError>
    ensures { OnOk result (found.new ≡ with_refusals found.old
        (standing_refusals (atomic_of model.now))) }
{
    check_phases_once(model, found);
    check_start_once(model, found);
    check_holds_once(alloc, model, found)
}

fn check_phases_once(model: &Atomic, found: &mut Findings)
    ensures { found.new ≡ with_refusals found.old
        (once_refusals model.now.name.offset (phases_offsets (atomic_of model.now).phases)) }
{
    match &model.phases[..] {
        [] => found.note(RefusalNumber::E10, model.name.offset),
        [_] => {}
        [_, second, ..] => found.note(RefusalNumber::E10, second.offset),
    }
}

fn check_start_once(model: &Atomic, found: &mut Findings)
    ensures { found.new ≡ with_refusals found.old
        (once_refusals model.now.name.offset (start_offsets (atomic_of model.now).starts)) }
{
    match &model.starts[..] {
        [] => found.note(RefusalNumber::E10, model.name.offset),
        [_] => {}
        [_, second, ..] => found.note(RefusalNumber::E10, second.offset),
    }
}

fn check_holds_once(alloc: Global, model: &Atomic, found: &mut Findings) -> Result<(), AllocError>
    ensures { OnOk result (found.new ≡ with_refusals found.old
        (holds_once_refusals (atomic_of model.now))) }
{
    let held = names::held_phases(alloc, &model.holds)?;
    find_repeats(alloc, RefusalNumber::E10, &held, found)?;
    let held = NameSet::of(alloc, held)?;
    let phases = within_limit(GREATEST_NAMES, names::first_phases(&model.phases));
    check_holds_stand(model.name.offset, &held, phases, found);
    Ok(())
}

fn check_holds_stand(model_offset: u32, held: &NameSet, phases: &[Name], found: &mut Findings)
    ensures { found.new ≡ with_refusals found.old
        (refusal_if (is_hold_missing (has_name held.now) phases.now) E10 model_offset) }
{
    if is_hold_missing(held, phases) {
        found.note(RefusalNumber::E10, model_offset);
    }
}

fn is_hold_missing(held: &NameSet, phases: &[Name]) -> bool
    ensures { result ≡ is_hold_missing (has_name held.now) phases.now }
{
    for phase in phases {
        if !held.contains(phase.number) {
            return true;
        }
    }
    false
}

// The hold of the start phase, in the start state.
fn check_start_hold(
    alloc: Global,
    model: &Atomic,
    declarations: &Declarations,
    found: &mut Findings,
) -> Result<(), AllocError>
    ensures { OnOk result (found.new ≡ with_refusals found.old
        (start_hold_refusals (known_by declarations.now) (atomic_of model.now)
        model.now.starts.items)) }
{
    let Some(start) = model.starts.first() else {
        return Ok(());
    };
    if is_start_fault(alloc, declarations, model, &start.phase)? {
        found.note(RefusalNumber::E11, start.phase.offset);
    }
    Ok(())
}

// Whether the hold of a phase can be evaluated, and faults in the start state.
fn is_start_fault(
    alloc: Global,
    declarations: &Declarations,
    model: &Atomic,
    phase: &Name,
) -> Result<bool, AllocError>
    ensures { IfOk result (λ faults. faults ≡ is_start_fault (known_by declarations.now)
        (atomic_of model.now) phase.now) }
{
    if are_constant(phase_ticks(model, phase.number)) {
        return Ok(false);
    }
    if can_ask_hold(alloc, declarations, model, phase)? {
        faults_at_start(alloc, model, phase)
    } else {
        Ok(false)
    }
}

// Whether the ticks of a hold are the same in each state: forever, or a literal. Such a hold never
// faults, so no start state is made for it.
fn are_constant(ticks: Option<&Ticks>) -> bool
    ensures { IsTrue result → NeverFaults (ticks_found (option_copied ticks.entry)) }
{
    match ticks {
        None | Some(Ticks::Forever) => true,
        Some(Ticks::After(expression)) => matches!(expression, Expr::Literal(_)),
    }
}

// Whether the hold of a phase faults in the start state.
fn faults_at_start(alloc: Global, model: &Atomic, phase: &Name) -> Result<bool, AllocError>
    ensures { IfOk result (λ faults. faults ≡ is_fault (hold_of (scope_of (atomic_of model.now))
        (hold_ticks phase.now.number (atomic_of model.now).holds)
        (start_state (atomic_of model.now)))) }
{
    let scope = Scope::of(alloc, model)?;
    faults_at_start_in(alloc, model, phase, &scope)
}

// The same for a scope of the names of the model.
fn faults_at_start_in(
    alloc: Global,
    model: &Atomic,
    phase: &Name,
    scope: &Scope,
) -> Result<bool, AllocError>
    requires { scope.now ≡ scope_of (atomic_of model.now) }
    ensures { IfOk result (λ faults. faults ≡ is_fault (hold_of (scope_of (atomic_of model.now))
        (hold_ticks phase.now.number (atomic_of model.now).holds)
        (start_state (atomic_of model.now)))) }
{
    let state = start_state(alloc, model, scope)?;
    Ok(phase_hold(model, phase.number, &state, scope).is_err())
}

// Whether nothing is wrong with the hold of a phase and with the state variables that it names.
fn can_ask_hold(
    alloc: Global,
    declarations: &Declarations,
    model: &Atomic,
    phase: &Name,
) -> Result<bool, AllocError>
    ensures { IfOk result (λ can_ask. can_ask ≡ can_ask_hold (known_by declarations.now)
        (state_variables_in (atomic_of model.now).declarations) phase.now
        (hold_ticks phase.now.number (atomic_of model.now).holds)) }
{
    let ticks = phase_ticks(model, phase.number);
    if !is_hold_fine(declarations, phase, ticks) {
        return Ok(false);
    }
    let starts = Starts::of(alloc, &model.declarations)?;
    Ok(match ticks {
        Some(ticks) => starts.know_ticks(ticks),
        None => true,
    })
}

fn is_hold_fine(declarations: &Declarations, phase: &Name, ticks: Option<&Ticks>) -> bool
    ensures { result ≡ is_hold_fine (known_by declarations.now) phase.now
        (ticks_found (option_copied ticks.entry)) }
{
    let mut wrong = Findings::new();
    declarations.check_phase(phase, &mut wrong);
    check_found_ticks(declarations, ticks, &mut wrong);
    wrong.is_empty()
}

fn check_found_ticks(declarations: &Declarations, ticks: Option<&Ticks>, found: &mut Findings)
    ensures { found.new ≡ with_refusals found.old (ticks_refusals (known_by declarations.now)
        (ticks_found (option_copied ticks.entry))) }
{
    if let Some(ticks) = ticks {
        declarations.check_ticks(ticks, found);
    }
}
