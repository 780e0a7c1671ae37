//! Warnings about unused names of an atomic model.

use crate::atomic::AtomicModel;
use crate::findings::Findings;
use crate::mentions::{Mention, ReadRule};
use crate::warning::{Direction, StateSort, Warning};
use dv_bag::Discipline;
use dv_eval::Scope;
use dv_syntax::{Declaration, Name, RuleSort};
use std::alloc::{AllocError, Global};
use std::collections::HashSet;

/// The numbers of the names that rules and holds use.
#[derive(Drop)]
pub(crate) struct Uses {
    read: HashSet<u32>,
    changed: HashSet<u32>,
    sent: HashSet<u32>,
    /// Whether an external or confluent rule reads no input port. It then uses all input ports,
    /// since it runs for a value at any of them.
    takes_anything: bool,
}

impl Uses {
    /// What the rules and the holds of a model use.
    ///
    /// # Errors
    ///
    /// Memory is refused.
    pub(crate) fn of(
        alloc: Global,
        rules: &[ReadRule<'_>],
        holds: &[Mention],
        scope: &Scope,
    ) -> Result<Self, AllocError> {
        let mut uses = Uses {
            read: HashSet::new(alloc),
            changed: HashSet::new(alloc),
            sent: HashSet::new(alloc),
            takes_anything: false,
        };
        uses.add_all(rules, holds, scope)?;
        Ok(uses)
    }

    fn add_all(
        &mut self,
        rules: &[ReadRule<'_>],
        holds: &[Mention],
        scope: &Scope,
    ) -> Result<(), AllocError> {
        self.add(holds)?;
        for rule in rules {
            self.add(&rule.mentions)?;
            self.takes_anything = self.takes_anything || takes_anything(rule, scope);
        }
        Ok(())
    }

    fn add(&mut self, mentions: &[Mention]) -> Result<(), AllocError> {
        for mention in mentions {
            match mention {
                Mention::Reads(name) => self.read.insert(*name)?,
                Mention::Changes(name) => self.changed.insert(*name)?,
                Mention::Sends(name) => self.sent.insert(*name)?,
                Mention::GoesTo(_) => false,
            };
        }
        Ok(())
    }
}

// Whether a rule runs for a value at any input port, whichever it is.
fn takes_anything(rule: &ReadRule<'_>, scope: &Scope) -> bool {
    matches!(rule.rule.sort, RuleSort::External | RuleSort::Confluent)
        && !reads_input(&rule.mentions, scope)
}

fn reads_input(mentions: &[Mention], scope: &Scope) -> bool {
    for mention in mentions {
        if let Mention::Reads(name) = mention
            && scope.input(*name).is_some()
        {
            return true;
        }
    }
    false
}

/// Adds warnings about the ports and state variables of a model that nothing uses.
///
/// # Errors
///
/// Memory is refused.
pub(crate) fn find_unused_names(
    findings: &mut Findings<'_>,
    model: AtomicModel<'_>,
    uses: &Uses,
) -> Result<(), AllocError> {
    for declaration in &model.atomic.declarations {
        find_unused_name(findings, model, declaration, uses)?;
    }
    Ok(())
}

fn find_unused_name(
    findings: &mut Findings<'_>,
    model: AtomicModel<'_>,
    declaration: &Declaration,
    uses: &Uses,
) -> Result<(), AllocError> {
    match declaration {
        Declaration::In(port) => {
            let is_used = uses.takes_anything || uses.read.contains(&port.number);
            let index = model.scope.input(port.number);
            let is_linked = model.links.has_link(Direction::Input, index);
            find_unused_port(findings, Direction::Input, *port, is_used, is_linked)
        }
        Declaration::Out(port) => {
            let is_used = uses.sent.contains(&port.number);
            let index = model.scope.output(port.number);
            let is_linked = model.links.has_link(Direction::Output, index);
            find_unused_port(findings, Direction::Output, *port, is_used, is_linked)
        }
        Declaration::Var(variable) => {
            find_unused_variable(findings, StateSort::Variable, variable.name, uses)
        }
        Declaration::Flag(flag) => {
            find_unused_variable(findings, StateSort::Flag, flag.name, uses)
        }
        Declaration::Held(held) => {
            find_unused_variable(findings, sort_of(held.discipline), held.name, uses)
        }
    }
}

fn sort_of(discipline: Discipline) -> StateSort {
    match discipline {
        Discipline::Bag => StateSort::Bag,
        Discipline::Queue => StateSort::Queue,
    }
}

fn find_unused_variable<'t>(
    findings: &mut Findings<'t>,
    sort: StateSort,
    variable: Name,
    uses: &Uses,
) -> Result<(), AllocError> {
    if uses.read.contains(&variable.number) {
        return Ok(());
    }
    let name = findings.name(variable);
    let warning = if uses.changed.contains(&variable.number) {
        Warning::UnreadVariable { sort, name }
    } else {
        Warning::UnusedVariable { sort, name }
    };
    findings.note(variable.offset, warning)
}

fn find_unused_port(
    findings: &mut Findings<'_>,
    direction: Direction,
    port: Name,
    is_used: bool,
    is_linked: bool,
) -> Result<(), AllocError> {
    let name = findings.name(port);
    let warning = match (is_used, is_linked) {
        (true, true) => return Ok(()),
        (false, true) => Warning::unused_inside(direction, name),
        (true, false) => Warning::unlinked_outside(direction, name),
        (false, false) => Warning::UnusedPort {
            direction,
            port: name,
        },
    };
    findings.note(port.offset, warning)
}
