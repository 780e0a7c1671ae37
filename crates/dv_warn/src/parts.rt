//! Warnings about parts and about ports of coupled models.

use crate::findings::Findings;
use crate::links::{InsideLinks, PartLinks, PortLinks};
use crate::warning::{Direction, Warning};
use dv_syntax::{Coupled, Name};
use dv_tree::ResolvedPart;
use std::alloc::AllocError;

/// Adds warnings about the ports of a coupled model that have no link inside of the model, or none
/// outside at any of its parts.
///
/// # Errors
///
/// Memory is refused.
pub(crate) fn find_unlinked_ports(
    findings: &mut Findings<'_>,
    coupled: &Coupled,
    inside: &PartLinks,
    outside: &PortLinks,
) -> Result<(), AllocError> {
    for direction in [Direction::Input, Direction::Output] {
        find_unlinked_of(findings, coupled, direction, inside, outside)?;
    }
    Ok(())
}

// Adds the warnings about the ports of a direction.
fn find_unlinked_of(
    findings: &mut Findings<'_>,
    coupled: &Coupled,
    direction: Direction,
    inside: &PartLinks,
    outside: &PortLinks,
) -> Result<(), AllocError> {
    for (index, name) in ports_of(coupled, direction).iter().enumerate() {
        let port = CoupledPort {
            direction,
            name: *name,
            is_linked_inside: inside.has_link(direction, index),
            is_linked_outside: outside.has_link(direction, Some(index)),
        };
        find_unlinked_port(findings, coupled.name, port)?;
    }
    Ok(())
}

// The names of the ports of a direction.
fn ports_of(coupled: &Coupled, direction: Direction) -> &[Name] {
    match direction {
        Direction::Input => &coupled.inputs,
        Direction::Output => &coupled.outputs,
    }
}

// A port of a coupled model, and on which sides of it there are links.
#[derive(Clone, Copy)]
struct CoupledPort {
    direction: Direction,
    name: Name,
    is_linked_inside: bool,
    is_linked_outside: bool,
}

fn find_unlinked_port(
    findings: &mut Findings<'_>,
    model: Name,
    port: CoupledPort,
) -> Result<(), AllocError> {
    let CoupledPort {
        direction,
        name,
        is_linked_inside,
        is_linked_outside,
    } = port;
    let port = findings.name(name);
    let warning = match (is_linked_inside, is_linked_outside) {
        (true, true) => return Ok(()),
        (true, false) => Warning::unlinked_outside(direction, port),
        (false, true) => Warning::UnlinkedInside {
            direction,
            model: findings.name(model),
            port,
        },
        (false, false) => Warning::UnusedPort { direction, port },
    };
    findings.note(name.offset, warning)
}

/// Adds warnings about the parts of a coupled model that have no links, or inputs without links.
///
/// # Errors
///
/// Memory is refused.
pub(crate) fn find_unlinked_parts(
    findings: &mut Findings<'_>,
    parts: &[ResolvedPart],
    inside: &InsideLinks,
    links: &[PortLinks],
) -> Result<(), AllocError> {
    for (part, part_links) in parts.iter().zip(&inside.parts) {
        if let Some(model) = links.get(part.model) {
            find_in_part(findings, part, part_links, model)?;
        }
    }
    Ok(())
}

fn find_in_part(
    findings: &mut Findings<'_>,
    part: &ResolvedPart,
    links: &PartLinks,
    model: &PortLinks,
) -> Result<(), AllocError> {
    if links.has_links() {
        find_unfed_input(findings, part, links, model)
    } else if model.has_ports() {
        let name = findings.name(part.name);
        findings.note(part.name.offset, Warning::UnlinkedPart { part: name })
    } else {
        Ok(())
    }
}

// One warning for all inputs of a part to which no link leads, if links lead to these inputs of
// other parts of the same model.
fn find_unfed_input(
    findings: &mut Findings<'_>,
    part: &ResolvedPart,
    links: &PartLinks,
    model: &PortLinks,
) -> Result<(), AllocError> {
    if let Some(input) = first_lacking(model.fed_inputs(), &links.inputs)
        && let Some(port) = findings.input_name(part.model, input)
    {
        let name = findings.name(part.name);
        let unfed = model.fed_inputs().len().saturating_sub(links.inputs.len());
        findings.note(
            part.name.offset,
            Warning::UnfedPart {
                part: name,
                port,
                others: unfed.saturating_sub(1),
            },
        )?;
    }
    Ok(())
}

// The first port that `others` lacks. Both lists are ascending, and `others` has only ports of the
// first list.
fn first_lacking(ports: &[usize], others: &[usize]) -> Option<usize> {
    for (offset, port) in ports.iter().enumerate() {
        if others.get(offset) != Some(port) {
            return Some(*port);
        }
    }
    None
}
