//! The names in the lists of an atomic model.

ghost use Rattle.std.specs.Prelude.{◌≡◌, map, filter_map, IfOk};
ghost use Rattle.dv_eval.specs.Scope.{phases_in, state_variables_in};
ghost use Rattle.dv_syntax.specs.Trees.{hold_of, phases_of, rule_of};
ghost use Rattle.dv_check.specs.Rules.{first_phases, held_phase, held_phases, name_of_declaration, name_of_state_variable};
ghost use Rattle.dv_check.specs.Rules.{port_of, ports_in, ruled_phase, ruled_phases};

use dv_eval::{Domain, state_variable_of};
use dv_syntax::{Declaration, Hold, Name, Phases, Rule, RuleSort};
use std::alloc::{AllocError, Global};

/// The name of a port, variable, flag, bag or queue.
pub fn name_of_declaration(declaration: &Declaration) -> Name
    ensures { result ≡ name_of_declaration declaration.now }
{
    match declaration {
        Declaration::In(port) | Declaration::Out(port) => *port,
        Declaration::Var(variable) => variable.name,
        Declaration::Flag(flag) => flag.name,
        Declaration::Held(collection) => collection.name,
    }
}

/// The names of ports, variables, flags, bags and queues.
pub fn declared(alloc: Global, declarations: &[Declaration]) -> Result<Vec<Name>, AllocError>
    ensures { IfOk result (λ names. names.items ≡ map name_of_declaration declarations.now) }
{
    declarations
        .iter()
        .map(|declaration| name_of_declaration(declaration))
        .collect(alloc)
}

fn port_of(declaration: &Declaration) -> Option<Name>
    ensures { result ≡ port_of declaration.now }
{
    match declaration {
        Declaration::In(port) | Declaration::Out(port) => Some(*port),
        Declaration::Var(_) | Declaration::Flag(_) | Declaration::Held(_) => None,
    }
}

/// The names of all input and output ports.
pub fn ports(alloc: Global, declarations: &[Declaration]) -> Result<Vec<Name>, AllocError>
    ensures { IfOk result (λ names. names.items ≡ ports_in declarations.now) }
{
    declarations
        .iter()
        .filter_map(|declaration| port_of(declaration))
        .collect(alloc)
}

/// The variables, flags, bags and queues: the name and the domain of each.
pub fn state_variables(
    alloc: Global,
    declarations: &[Declaration],
) -> Result<Vec<(Name, Domain)>, AllocError>
    ensures { IfOk result (λ variables. variables.items ≡ state_variables_in declarations.now) }
{
    declarations
        .iter()
        .filter_map(|declaration| state_variable_of(declaration))
        .collect(alloc)
}

/// The names of variables, flags, bags and queues.
pub fn names_of_state_variables(
    alloc: Global,
    variables: &[(Name, Domain)],
) -> Result<Vec<Name>, AllocError>
    ensures { IfOk result (λ names. names.items ≡ map name_of_state_variable variables.now) }
{
    variables.iter().map(|variable| variable.0).collect(alloc)
}

/// The phases of all items of phases.
pub fn phases(alloc: Global, items: &[Phases]) -> Result<Vec<Name>, AllocError>
    ensures { IfOk result (λ names. names.items ≡ phases_in (map phases_of items.now)) }
{
    let mut names = Vec::new(alloc);
    for item in items {
        names.extend_from_slice(&item.names)?;
    }
    Ok(names)
}

/// The phases of the first item of phases, if there is one.
pub fn first_phases(items: &[Phases]) -> &[Name]
    ensures { result.now ≡ first_phases (map phases_of items.now) }
{
    match items.first() {
        Some(item) => &item.names,
        None => &[],
    }
}

fn ruled_phase(sort: RuleSort, rule: &Rule) -> Option<Name>
    ensures { result ≡ ruled_phase sort (rule_of rule.now) }
{
    if rule.sort == sort {
        Some(rule.phase)
    } else {
        None
    }
}

/// The phases of the rules of a sort, one for each rule.
#[tactic(auto, using(crate::proofs::Lists::filter_map_of_map))]
pub fn ruled_phases(alloc: Global, sort: RuleSort, rules: &[Rule]) -> Result<Vec<Name>, AllocError>
    ensures { IfOk result (λ names. names.items ≡ ruled_phases sort (map rule_of rules.now)) }
{
    rules
        .iter()
        .filter_map(|rule| ruled_phase(sort, rule))
        .collect(alloc)
}

fn held_phase(hold: &Hold) -> Name
    ensures { result ≡ held_phase (hold_of hold.now) }
{
    Name {
        number: hold.phase.number,
        offset: hold.offset,
    }
}

/// The phases of the holds, each at the offset of the word `hold`.
#[tactic(auto, using(crate::proofs::Lists::map_of_map))]
pub fn held_phases(alloc: Global, holds: &[Hold]) -> Result<Vec<Name>, AllocError>
    ensures { IfOk result (λ names. names.items ≡ held_phases (map hold_of holds.now)) }
{
    holds.iter().map(|hold| held_phase(hold)).collect(alloc)
}
