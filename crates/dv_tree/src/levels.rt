//! The tables of coupled models.

ghost use Rattle.std.specs.Prelude.{◌≡◌, [], length, map, replicate, slice_index_or, option_copied, IfOk};
ghost use Rattle.std.specs.List.{filter_map};
ghost use Rattle.dv_check.specs.Names.{numbers_of};
ghost use Rattle.dv_eval.specs.Scope.{index_of};
ghost use Rattle.dv_syntax.specs.Trees.{coupled_of, model_of};
ghost use Rattle.dv_tree.specs.Couplings.{index_at};
ghost use Rattle.dv_tree.specs.Nodes.{level_at, nothing_in};
ghost use Rattle.dv_tree.specs.Reached.{borrowed_models};
ghost use Rattle.dv_tree.specs.Tables.{level_by, level_by_model, links_by, part_names, resolved_by, ports_at};

use crate::arrived::Arrived;
use crate::couplings::{Coupling, ResolvedLink, Target, own_couplings, part_couplings};
use crate::indices::Indices;
use crate::resolved_parts::{ResolvedPart, part_names, resolved_parts};
use crate::tables::numbers;
use dv_bag::Bags;
use dv_syntax::{Coupled, End, Link, Model as ModelItem, Name};
use smallvec::SmallVec;
use std::alloc::{AllocError, Global};
use std::marker::Model;

/// The table of a coupled model: its parts, the number of its outputs and of the inputs of each
/// part, and its links by the port where they begin.
#[derive(Drop)]
pub struct Level {
    parts: Vec<ResolvedPart>,
    outputs: usize,
    inputs: Vec<usize>,
    of_inputs: Vec<Coupling>,
    of_parts: Vec<Vec<Coupling>>,
}

impl Model for Level {
    ghost use Rattle.std.specs.Prelude.{map};
    ghost use Rattle.dv_tree.specs.Tables.{LevelTable, level_code};

    ghost Value = { LevelTable };

    ghost coded = { level_code };

    ghost view = { λ l. record {
      parts = l.parts.items;
      outputs = l.outputs;
      inputs = l.inputs.items;
      of_inputs = l.of_inputs.items;
      of_parts = map (λ list. list.items) l.of_parts.items;
    } };
}

impl Level {
    /// The parts in the order of the text.
    pub fn parts(&self) -> &[ResolvedPart]
        ensures { result.now ≡ self.now.parts }
    {
        &self.parts
    }

    /// The number of output ports of the model itself.
    pub fn output_count(&self) -> usize
        ensures { result ≡ self.now.outputs }
    {
        self.outputs
    }

    /// The couplings from the inputs of the model itself.
    pub fn couplings_of_inputs(&self) -> &[Coupling]
        ensures { result.now ≡ self.now.of_inputs }
    {
        &self.of_inputs
    }

    /// The couplings from the outputs of a part: none past the last part.
    pub fn couplings_of_part(&self, part: usize) -> &[Coupling]
        ensures { result.now ≡ slice_index_or self.now.of_parts part [] }
    {
        match self.of_parts.get(part) {
            Some(couplings) => couplings,
            None => &[],
        }
    }

    /// No values at all ports to which links lead.
    ///
    /// # Errors
    ///
    /// No memory for the list of parts.
    pub(crate) fn nothing(&self, alloc: Global) -> Result<Arrived, AllocError>
        ensures { IfOk result (λ arrived. arrived ≡ nothing_in self.now) }
    {
        let own = Bags::empty(alloc, self.outputs);
        let parts = empty_bags(alloc, &self.inputs)?;
        Ok(Arrived { own, parts })
    }
}

fn empty_bags(alloc: Global, ports: &[usize]) -> Result<Vec<Bags>, AllocError>
    ensures { IfOk result (λ bags. bags.items ≡ map (λ ports. replicate ports []) ports.now) }
{
    let mut bags = Vec::with_capacity(alloc, ports.len())?;
    for count in ports {
        bags.push(Bags::empty(alloc, *count))?;
    }
    Ok(bags)
}

// The index of an end of a link, by the ports of the model itself and those of each model.
fn index_at(
    end: &End,
    own: &Indices,
    names: &Indices,
    parts: &[ResolvedPart],
    ports: &[Indices],
) -> Option<Target>
    ensures { result ≡ index_at own.now names.now (ports_at ports.now parts.now)
        end.now.part end.now.port.number }
{
    match end.part {
        None => {
            let port = own.index_of(end.port.number)?;
            Some(Target::Own { port })
        }
        Some(name) => {
            let part = names.index_of(name.number)?;
            let port = port_of(part, end.port.number, parts, ports)?;
            Some(Target::OfPart { part, port })
        }
    }
}

// The index of a port of a part.
fn port_of(part: usize, port: u32, parts: &[ResolvedPart], ports: &[Indices]) -> Option<usize>
    ensures { result ≡ index_of port (slice_index_or (ports_at ports.now parts.now) part []) }
{
    let model = parts.get(part)?.model;
    ports.get(model)?.index_of(port)
}

// What the ends of links in a coupled model can be: the ports of the model itself, its parts by
// their names, and the ports of each model of the file.
#[derive(Drop)]
struct Ends<'t> {
    own_inputs: Indices,
    own_outputs: Indices,
    names: Indices,
    parts: &'t [ResolvedPart],
    inputs: &'t [Indices],
    outputs: &'t [Indices],
}

fn resolved_link(link: &Link, ends: &Ends) -> Option<ResolvedLink>
    ensures { result ≡ resolved_by ends.now.own_inputs ends.now.own_outputs ends.now.names
        (ports_at ends.now.inputs.now ends.now.parts.now)
        (ports_at ends.now.outputs.now ends.now.parts.now) link.now }
{
    let from = index_at(
        &link.from,
        &ends.own_inputs,
        &ends.names,
        ends.parts,
        ends.outputs,
    )?;
    let to = index_at(
        &link.to,
        &ends.own_outputs,
        &ends.names,
        ends.parts,
        ends.inputs,
    )?;
    Some(ResolvedLink { from, to })
}

// The links of which both ends are known.
fn resolved_links(
    alloc: Global,
    links: &[Link],
    ends: &Ends,
) -> Result<Vec<ResolvedLink>, AllocError>
    ensures { IfOk result (λ resolved. resolved.items
        ≡ filter_map (resolved_by ends.now.own_inputs ends.now.own_outputs ends.now.names
        (ports_at ends.now.inputs.now ends.now.parts.now)
        (ports_at ends.now.outputs.now ends.now.parts.now)) links.now) }
{
    let mut resolved = Vec::new(alloc);
    for link in links {
        if let Some(link) = resolved_link(link, ends) {
            resolved.push(link)?;
        }
    }
    Ok(resolved)
}

// The indices of ports by their names.
fn indices_of_ports(alloc: Global, ports: &[Name]) -> Result<Indices, AllocError>
    ensures { IfOk result (λ indices. indices ≡ numbers_of ports.now) }
{
    Indices::of(alloc, SmallVec::from_vec(numbers(alloc, ports)?))
}

// The indices of parts by their names.
fn indices_of_parts(alloc: Global, parts: &[ResolvedPart]) -> Result<Indices, AllocError>
    ensures { IfOk result (λ indices. indices ≡ part_names parts.now) }
{
    Indices::of(alloc, SmallVec::from_vec(part_names(alloc, parts)?))
}

fn links_by(
    alloc: Global,
    coupled: &Coupled,
    parts: &[ResolvedPart],
    inputs: &[Indices],
    outputs: &[Indices],
) -> Result<Vec<ResolvedLink>, AllocError>
    ensures { IfOk result (λ links. links.items
        ≡ links_by inputs.now outputs.now parts.now (coupled_of coupled.now)) }
{
    let own_inputs = indices_of_ports(alloc, &coupled.inputs)?;
    let own_outputs = indices_of_ports(alloc, &coupled.outputs)?;
    let names = indices_of_parts(alloc, parts)?;
    let ends = Ends {
        own_inputs,
        own_outputs,
        names,
        parts,
        inputs,
        outputs,
    };
    resolved_links(alloc, &coupled.links, &ends)
}

// The number of input ports of each part.
fn input_counts(
    alloc: Global,
    parts: &[ResolvedPart],
    inputs: &[Indices],
) -> Result<Vec<usize>, AllocError>
    ensures { IfOk result (λ counts. counts.items ≡ map length (ports_at inputs.now parts.now)) }
{
    let mut counts = Vec::with_capacity(alloc, parts.len())?;
    for part in parts {
        counts.push(port_count(part.model, inputs))?;
    }
    Ok(counts)
}

fn port_count(model: usize, ports: &[Indices]) -> usize
    ensures { result ≡ length (slice_index_or ports.now model []) }
{
    match ports.get(model) {
        Some(indices) => indices.len(),
        None => 0,
    }
}

// The table of a coupled model, by the names of the models and the ports of each.
fn make_level(
    alloc: Global,
    coupled: &Coupled,
    models: &Indices,
    inputs: &[Indices],
    outputs: &[Indices],
) -> Result<Level, AllocError>
    ensures { IfOk result (λ level. level
        ≡ level_by models.now inputs.now outputs.now (coupled_of coupled.now)) }
{
    let parts = resolved_parts(alloc, &coupled.parts, models)?;
    let links = links_by(alloc, coupled, &parts, inputs, outputs)?;
    let counts = input_counts(alloc, &parts, inputs)?;
    let of_inputs = own_couplings(alloc, &links)?;
    let of_parts = part_couplings(alloc, parts.len(), &links)?;
    Ok(Level {
        parts,
        outputs: coupled.outputs.len(),
        inputs: counts,
        of_inputs,
        of_parts,
    })
}

fn level_of_model(
    alloc: Global,
    model: &ModelItem,
    models: &Indices,
    inputs: &[Indices],
    outputs: &[Indices],
) -> Result<Option<Level>, AllocError>
    ensures { IfOk result (λ level. level
        ≡ level_by_model models.now inputs.now outputs.now (model_of model.now)) }
{
    match model {
        ModelItem::Atomic(_) => Ok(None),
        ModelItem::Coupled(coupled) => {
            let level = make_level(alloc, coupled, models, inputs, outputs)?;
            Ok(Some(level))
        }
    }
}

/// The tables of these models, by their indices: only coupled models have one.
pub(crate) fn levels(
    alloc: Global,
    items: &[&ModelItem],
    models: &Indices,
    inputs: &[Indices],
    outputs: &[Indices],
) -> Result<Vec<Option<Level>>, AllocError>
    ensures { IfOk result (λ levels. levels.items
        ≡ map (level_by_model models.now inputs.now outputs.now) (borrowed_models items.now)) }
{
    let mut levels = Vec::with_capacity(alloc, items.len())?;
    for item in items {
        levels.push(level_of_model(alloc, item, models, inputs, outputs)?)?;
    }
    Ok(levels)
}

/// The table of the model at an index, if it is coupled.
pub fn level_at(levels: &[Option<Level>], index: usize) -> Option<&Level>
    ensures { option_copied result ≡ level_at levels.now index }
{
    match levels.get(index) {
        Some(Some(level)) => Some(level),
        Some(None) | None => None,
    }
}
