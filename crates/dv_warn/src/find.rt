//! Finds the warnings of a model.

use crate::alike::{Told, told_once};
use crate::atomic::AtomicModel;
use crate::constants::Nowhere;
use crate::divisors::find_zero_divisors;
use crate::findings::Findings;
use crate::gotos::find_behind_gotos;
use crate::links::{InsideLinks, PortLinks, links_inside, port_links};
use crate::mentions::{ReadRule, mentions_in_holds, rules_of};
use crate::models::find_unreached_models;
use crate::names::{Uses, find_unused_names};
use crate::parts::{find_unlinked_parts, find_unlinked_ports};
use crate::phases::{Phase, phases_of};
use crate::ranges::find_outside_ranges;
use crate::reach::{phases_behind_internal_rules, reached_phases};
use crate::rounds::find_endless_round;
use crate::rules::{Reach, find_constant_conditions, find_in_phase};
use crate::warning::Found;
use dv_syntax::Model;
use dv_tree::{Tree, level_at};
use std::alloc::{AllocError, Global};

/// The warnings about the model of a tree, in the order of the text; of those that say the same of
/// several models or parts the first one. A model that the root does not lead to gets only the warning that says so.
///
/// # Errors
///
/// Memory is refused.
pub fn find_warnings<'t>(alloc: Global, tree: &'t Tree<'t>) -> Result<Vec<Told<'t>>, AllocError> {
    let mut findings = Findings::new(alloc, tree);
    find_all(alloc, tree, &mut findings)?;
    told_once(alloc, &tree.file().models, findings.in_order()?)
}

fn find_all<'t>(
    alloc: Global,
    tree: &'t Tree<'t>,
    findings: &mut Findings<'t>,
) -> Result<(), AllocError> {
    find_unreached_models(alloc, tree, findings)?;
    let inside = links_inside(alloc, tree)?;
    let links = port_links(alloc, tree, &inside)?;
    let nowhere = Nowhere::new(alloc);
    find_in_atomic_models(alloc, tree, &links, &nowhere, findings)?;
    find_in_coupled_models(tree, &inside, &links, findings)
}

fn find_in_atomic_models<'t>(
    alloc: Global,
    tree: &'t Tree<'t>,
    links: &[PortLinks],
    nowhere: &Nowhere,
    findings: &mut Findings<'t>,
) -> Result<(), AllocError> {
    for ((model, scope), links) in tree.reached().iter().zip(tree.scopes()).zip(links) {
        if let Model::Atomic(atomic) = model {
            let model = AtomicModel {
                atomic,
                scope,
                links,
            };
            find_in_atomic(alloc, model, nowhere, findings)?;
        }
    }
    Ok(())
}

fn find_in_atomic(
    alloc: Global,
    model: AtomicModel<'_>,
    nowhere: &Nowhere,
    findings: &mut Findings<'_>,
) -> Result<(), AllocError> {
    let rules = rules_of(alloc, model.atomic)?;
    find_unused(alloc, model, &rules, findings)?;
    find_constant_conditions(findings, &rules, nowhere)?;
    find_behind_gotos(findings, &rules)?;
    find_outside_ranges(findings, &rules, model.scope, nowhere)?;
    find_zero_divisors(alloc, findings, &rules, model.scope)?;
    let phases = phases_of(alloc, model.atomic, model.scope, rules, nowhere)?;
    find_in_phases(alloc, model, &phases, findings)
}

fn find_unused(
    alloc: Global,
    model: AtomicModel<'_>,
    rules: &[ReadRule<'_>],
    findings: &mut Findings<'_>,
) -> Result<(), AllocError> {
    let holds = mentions_in_holds(alloc, model.atomic)?;
    let uses = Uses::of(alloc, rules, &holds, model.scope)?;
    find_unused_names(findings, model, &uses)
}

fn find_in_phases(
    alloc: Global,
    model: AtomicModel<'_>,
    phases: &[Phase<'_>],
    findings: &mut Findings<'_>,
) -> Result<(), AllocError> {
    let reached = reached_phases(alloc, model.atomic, model.scope, phases)?;
    let behind = phases_behind_internal_rules(alloc, model.scope, phases, &reached)?;
    find_endless_round(alloc, findings, model.scope, phases, &reached)?;
    let around = model.surroundings();
    for ((phase, is_reached), is_behind) in phases.iter().zip(&reached).zip(&behind) {
        let reach = Reach {
            is_start: model.starts_in(phase.name.number),
            is_reached: *is_reached,
            is_behind_internal_rule: *is_behind,
        };
        find_in_phase(findings, phase, around, reach)?;
    }
    Ok(())
}

fn find_in_coupled_models(
    tree: &Tree<'_>,
    inside: &[InsideLinks],
    links: &[PortLinks],
    findings: &mut Findings<'_>,
) -> Result<(), AllocError> {
    for (offset, model) in tree.reached().iter().enumerate() {
        if let Model::Coupled(coupled) = model
            && let Some(level) = level_at(tree.levels(), offset)
            && let Some(inside) = inside.get(offset)
            && let Some(outside) = links.get(offset)
        {
            find_unlinked_ports(findings, coupled, &inside.own, outside)?;
            find_unlinked_parts(findings, level.parts(), inside, links)?;
        }
    }
    Ok(())
}
