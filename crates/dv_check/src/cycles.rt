//! Models that contain themselves.

ghost use Rattle.std.specs.Prelude.{◌≡◌, map, drop, slice_index_or, IfOk, OnOk};
ghost use Rattle.std.specs.List.{flat_map};
ghost use Rattle.dv_syntax.specs.Trees.{model_of};
ghost use Rattle.dv_check.specs.Cycles.{cycle_refusals, cycle_refusals_from, model_cycle_refusals, part_cycle_refusals};
ghost use Rattle.dv_check.specs.Cycles.{positions_inside, same_number};
ghost use Rattle.dv_check.specs.Findings.{with_refusals};
ghost use Rattle.dv_check.specs.Tables.{value_for};

use crate::directory::Directory;
use crate::findings::Findings;
use crate::positions::{positions_inside, positions_of};
use crate::repeats::first_parts;
use dv_cycles::{Graph, strong_components};
use dv_lex::RefusalNumber;
use dv_syntax::{Model, Part};
use std::alloc::{AllocError, Global};

/// Tests that no model of a text contains itself: notes each part whose model contains the model
/// around it. Of the parts of one name only the first counts.
pub fn check_cycles(alloc: Global, models: &[Model], found: &mut Findings) -> Result<(), AllocError>
    ensures { OnOk result (found.new
        ≡ with_refusals found.old (cycle_refusals (map model_of models.now))) }
{
    let positions = positions_of(alloc, models)?;
    let graph = containment(alloc, &positions, models)?;
    let numbers = strong_components(alloc, &graph)?;
    find_cycles(alloc, &positions, &numbers, models, found)
}

// The graph of the models: an edge from each to the models of its parts that count.
fn containment(
    alloc: Global,
    positions: &Directory<usize>,
    models: &[Model],
) -> Result<Graph, AllocError>
    ensures { IfOk result (λ graph. graph
        ≡ map (positions_inside (value_for positions.now)) (map model_of models.now)) }
{
    let mut graph = Graph::new(alloc);
    for model in models {
        let inside = inside(alloc, positions, model)?;
        graph.push_node(&inside)?;
    }
    Ok(graph)
}

fn inside(
    alloc: Global,
    positions: &Directory<usize>,
    model: &Model,
) -> Result<Vec<usize>, AllocError>
    ensures { IfOk result (λ inside. inside.items
        ≡ positions_inside (value_for positions.now) (model_of model.now)) }
{
    match model {
        Model::Atomic(_) => Ok(Vec::new(alloc)),
        Model::Coupled(coupled) => {
            let parts = first_parts(alloc, &coupled.parts)?;
            positions_inside(alloc, positions, &parts)
        }
    }
}

// Notes the parts whose models are in the strong component of the model around them.
fn find_cycles(
    alloc: Global,
    positions: &Directory<usize>,
    numbers: &[usize],
    models: &[Model],
    found: &mut Findings,
) -> Result<(), AllocError>
    ensures { OnOk result (found.new ≡ with_refusals found.old (cycle_refusals_from
        (same_number numbers.now) (value_for positions.now) 0 (map model_of models.now))) }
{
    for (outer, model) in models.iter().enumerate() {
        check_model(alloc, positions, numbers, outer, model, found)?;
    }
    Ok(())
}

fn check_model(
    alloc: Global,
    positions: &Directory<usize>,
    numbers: &[usize],
    outer: usize,
    model: &Model,
    found: &mut Findings,
) -> Result<(), AllocError>
    ensures { OnOk result (found.new ≡ with_refusals found.old (model_cycle_refusals
        (same_number numbers.now) (value_for positions.now) outer (model_of model.now))) }
{
    match model {
        Model::Atomic(_) => Ok(()),
        Model::Coupled(coupled) => {
            let parts = first_parts(alloc, &coupled.parts)?;
            check_parts(positions, numbers, outer, &parts, found);
            Ok(())
        }
    }
}

fn check_parts(
    positions: &Directory<usize>,
    numbers: &[usize],
    outer: usize,
    parts: &[Part],
    found: &mut Findings,
)
    ensures { found.new ≡ with_refusals found.old (flat_map (part_cycle_refusals
        (same_number numbers.now) (value_for positions.now) outer) parts.now) }
{
    for part in parts {
        check_part(positions, numbers, outer, part, found);
    }
}

fn check_part(
    positions: &Directory<usize>,
    numbers: &[usize],
    outer: usize,
    part: &Part,
    found: &mut Findings,
)
    ensures { found.new ≡ with_refusals found.old (part_cycle_refusals
        (same_number numbers.now) (value_for positions.now) outer part.now) }
{
    if let Some(inner) = positions.get(part.model.number) {
        if number_at(numbers, *inner) == number_at(numbers, outer) {
            found.note(RefusalNumber::E15, part.model.offset);
        }
    }
}

// The number of the strong component of the model at a position.
fn number_at(numbers: &[usize], position: usize) -> usize
    ensures { result ≡ slice_index_or numbers.now position 0 }
{
    match numbers.get(position) {
        Some(number) => *number,
        None => 0,
    }
}
