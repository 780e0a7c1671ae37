//! The number of links of a text, counted model by model: no instances are visited and no ways are
//! followed.

ghost use Rattle.std.specs.Prelude.{◌≡◌, ◌<◌, ◌≤◌, None, fold, map, option_copied, replicate, slice_index_or, sum, IfOk, IfErr, IsTrue, OnOk};
ghost use Rattle.std.specs.List.{sum_by};
ghost use Rattle.dv_bag.specs.Bag.{capped};
ghost use Rattle.dv_check.specs.Limits.{greatest_depth};
ghost use Rattle.dv_syntax.specs.Trees.{file_of, model_of};
ghost use Rattle.dv_flat.specs.Limit.{IsLinkAnswer, greatest_links, link_count, link_refusal};
ghost use Rattle.dv_flat.specs.Ways.{all_ways, at_port, component_ways, coupled_ways, inside_ways, input_ways, joined_ways};
ghost use Rattle.dv_flat.specs.Ways.{more_at, more_out, no_ways, output_ways, own_inputs, part_ways, ways_below, ways_by};
ghost use Rattle.dv_flat.specs.Ways.{ways_from, ways_over, with_output};

use crate::GREATEST_LINKS;
use dv_check::GREATEST_DEPTH;
use dv_eval::Scope;
use dv_lex::{LoadError, Refusal, RefusalNumber};
use dv_syntax::Model as ModelItem;
use dv_tree::{Coupling, Level, ResolvedPart, Target, Tree, level_at};
use std::alloc::{AllocError, Global};
use std::marker::Model;

/// The ways of a model: how many lead from each of its input ports to components inside, how many
/// lead to each of its output ports from components inside, and how many begin and end inside.
/// Counts saturate at the greatest `u64`.
#[derive(Drop)]
pub(crate) struct Ways {
    inputs: Vec<u64>,
    outputs: Vec<u64>,
    inside: u64,
}

impl Model for Ways {
    ghost use Rattle.dv_flat.specs.Ways.{WayCounts};

    ghost Value = { WayCounts };

    ghost view = { λ w. record
        { inputs = w.inputs.items; outputs = w.outputs.items; inside = w.inside } };
}

impl Ways {
    // The ways of an atomic model, by its scope.
    fn component(alloc: Global, scope: &Scope) -> Result<Self, AllocError>
        ensures { IfOk result (λ ways. ways ≡ component_ways scope.now) }
    {
        Ok(Ways {
            inputs: vec![in alloc; 1; scope.inputs().len()]?,
            outputs: vec![in alloc; 1; scope.outputs().len()]?,
            inside: 0,
        })
    }

    // The ways of a coupled model with `inputs` inputs, by its table and the ways of all models
    // with one level less.
    fn coupled(
        alloc: Global,
        inputs: usize,
        level: &Level,
        below: &[Ways],
    ) -> Result<Self, AllocError>
        ensures { IfOk result (λ ways. ways
            ≡ coupled_ways inputs level.now (part_ways below.now level.now.parts)) }
    {
        Ok(Ways {
            inputs: input_ways(alloc, inputs, level, below)?,
            outputs: output_ways(alloc, level, below)?,
            inside: inside_ways(level, below),
        })
    }

    // Whether these are the ways of another model too.
    fn is_same(&self, other: &Ways) -> bool
        ensures { IsTrue result → self.now ≡ other.now }
    {
        self.inputs == other.inputs && self.outputs == other.outputs && self.inside == other.inside
    }

    // The number of all ways.
    fn total(&self) -> u64
        ensures { result ≡ capped (all_ways self.now) }
    {
        sum_of(&self.inputs)
            .saturating_add(sum_of(&self.outputs))
            .saturating_add(self.inside)
    }
}

// The sum of the ways of all ports.
fn sum_of(ways: &[u64]) -> u64
    ensures { result ≡ capped (sum ways.now) }
{
    let mut sum: u64 = 0;
    for more in ways {
        sum = sum.saturating_add(*more);
    }
    sum
}

/// The ways of a port: none past the last port.
pub(crate) fn at_port(ways: &[u64], port: usize) -> u64
    ensures { result ≡ at_port ways.now port }
{
    match ways.get(port) {
        Some(ways) => *ways,
        None => 0,
    }
}

// Adds ways at a port. Past the last port they are not counted.
fn add_at(ways: &mut [u64], port: usize, more: u64)
    ensures { ways.new ≡ more_at port more ways.old }
{
    if port < ways.len() {
        ways[port] = ways[port].saturating_add(more);
    }
}

// The ways of the inputs of a part's model. A model that is not among these has no ports.
fn inputs_of<'w>(below: &'w [Ways], part: &ResolvedPart) -> &'w [u64]
    ensures { result.now ≡ (slice_index_or below.now part.now.model no_ways).inputs }
{
    match below.get(part.model) {
        Some(ways) => &ways.inputs,
        None => &[],
    }
}

/// The ways from the outputs of a part's model.
pub(crate) fn outputs_of<'w>(below: &'w [Ways], part: &ResolvedPart) -> &'w [u64]
    ensures { result.now ≡ (slice_index_or below.now part.now.model no_ways).outputs }
{
    match below.get(part.model) {
        Some(ways) => &ways.outputs,
        None => &[],
    }
}

fn inside_of(below: &[Ways], part: &ResolvedPart) -> u64
    ensures { result ≡ (slice_index_or below.now part.now.model no_ways).inside }
{
    match below.get(part.model) {
        Some(ways) => ways.inside,
        None => 0,
    }
}

/// The ways that lead on from the target of a coupling to the inside.
pub(crate) fn ways_from(target: Target, parts: &[ResolvedPart], below: &[Ways]) -> u64
    ensures { result ≡ ways_from (part_ways below.now parts.now) target }
{
    match target {
        Target::Own { .. } => 0,
        Target::OfPart { part, port } => match parts.get(part) {
            Some(part) => at_port(inputs_of(below, part), port),
            None => 0,
        },
    }
}

// The ways from each input of a coupled model, by its couplings.
fn input_ways(
    alloc: Global,
    inputs: usize,
    level: &Level,
    below: &[Ways],
) -> Result<Vec<u64>, AllocError>
    ensures { IfOk result (λ ways. ways.items
        ≡ input_ways inputs (part_ways below.now level.now.parts) level.now.of_inputs) }
{
    let mut ways = vec![in alloc; 0; inputs]?;
    for coupling in level.couplings_of_inputs() {
        let more = ways_from(coupling.target, level.parts(), below);
        add_at(&mut ways, coupling.port, more);
    }
    Ok(ways)
}

// The ways to each output of a coupled model, part by part.
fn output_ways(alloc: Global, level: &Level, below: &[Ways]) -> Result<Vec<u64>, AllocError>
    ensures { IfOk result (λ ways. ways.items ≡ output_ways level.now.of_parts
        (part_ways below.now level.now.parts) (replicate level.now.outputs 0)) }
{
    let mut ways = vec![in alloc; 0; level.output_count()]?;
    for (index, part) in level.parts().iter().enumerate() {
        add_outputs(
            &mut ways,
            level.couplings_of_part(index),
            outputs_of(below, part),
        );
    }
    Ok(ways)
}

// Adds the ways from the outputs of a part to outputs of the model itself.
fn add_outputs(ways: &mut [u64], couplings: &[Coupling], outputs: &[u64])
    ensures { ways.new ≡ fold (with_output outputs.now) ways.old couplings.now }
{
    for coupling in couplings {
        if let Target::Own { port } = coupling.target {
            add_at(ways, port, at_port(outputs, coupling.port));
        }
    }
}

// The ways that begin and end inside a coupled model.
fn inside_ways(level: &Level, below: &[Ways]) -> u64
    ensures { result ≡ capped (inside_ways level.now.of_parts
        (part_ways below.now level.now.parts)) }
{
    let mut ways: u64 = 0;
    for (index, part) in level.parts().iter().enumerate() {
        let couplings = level.couplings_of_part(index);
        let joined = joined_ways(couplings, outputs_of(below, part), level.parts(), below);
        ways = ways
            .saturating_add(inside_of(below, part))
            .saturating_add(joined);
    }
    ways
}

// The ways through the couplings of one part, from its outputs.
fn joined_ways(
    couplings: &[Coupling],
    outputs: &[u64],
    parts: &[ResolvedPart],
    below: &[Ways],
) -> u64
    ensures { result ≡ capped (sum_by (joined_ways (part_ways below.now parts.now) outputs.now)
        couplings.now) }
{
    let mut ways: u64 = 0;
    for coupling in couplings {
        let onward = ways_from(coupling.target, parts, below);
        let joined = at_port(outputs, coupling.port).saturating_mul(onward);
        ways = ways.saturating_add(joined);
    }
    ways
}

// The number of input ports that a coupled model declares.
fn own_inputs(model: &ModelItem) -> usize
    ensures { result ≡ own_inputs (model_of model.now) }
{
    match model {
        ModelItem::Atomic(_) => 0,
        ModelItem::Coupled(coupled) => coupled.inputs.len(),
    }
}

// The ways of a model: of a coupled one by its table, of an atomic one by its scope.
fn ways_by(
    alloc: Global,
    inputs: usize,
    scope: &Scope,
    level: Option<&Level>,
    below: &[Ways],
) -> Result<Ways, AllocError>
    ensures { IfOk result (λ ways. ways
        ≡ ways_by inputs scope.now (option_copied level.entry) below.now) }
{
    match level {
        None => Ways::component(alloc, scope),
        Some(level) => Ways::coupled(alloc, inputs, level, below),
    }
}

// The ways of the models that the root leads to, by those with one level less.
fn ways_over(alloc: Global, tree: &Tree, below: &[Ways]) -> Result<Vec<Ways>, AllocError>
    ensures { IfOk result (λ over. over.items
        ≡ ways_over below.now (map model_of tree.now.reached)) }
{
    let scopes = tree.scopes();
    let levels = tree.levels();
    let mut over = Vec::with_capacity(alloc, scopes.len())?;
    for (index, model) in tree.reached().iter().enumerate() {
        let inputs = own_inputs(model);
        let level = level_at(levels, index);
        over.push(ways_by(alloc, inputs, &scopes[index], level, below)?)?;
    }
    Ok(over)
}

// Whether two lists of ways are the same, model by model.
fn are_same(left: &[Ways], right: &[Ways]) -> bool
    ensures { IsTrue result → left.now ≡ right.now }
{
    if left.len() != right.len() {
        return false;
    }
    for (index, ways) in left.iter().enumerate() {
        if !ways.is_same(&right[index]) {
            return false;
        }
    }
    true
}

/// The ways of the models that the root leads to, down to fewer levels than this. The ways of one
/// level are counted from those of the level before: the time depends on the length of these
/// models, not on the number of ways. If two levels have the same ways, so has each deeper one, and
/// no more are counted.
///
/// # Errors
///
/// No memory for the numbers of ways.
pub(crate) fn ways_below(alloc: Global, levels: usize, tree: &Tree) -> Result<Vec<Ways>, AllocError>
    ensures { IfOk result (λ ways. ways.items
        ≡ ways_below levels (map model_of tree.now.reached)) }
{
    let mut ways = Vec::new(alloc);
    for _level in 0..levels {
        let over = ways_over(alloc, tree, &ways)?;
        if are_same(&over, &ways) {
            return Ok(over);
        }
        ways = over;
    }
    Ok(ways)
}

/// The number of links of a checked text, each counted as often as it has copies. No link is made.
///
/// # Errors
///
/// `Refused` is E17 at the root's name, if there are more than `GREATEST_LINKS`. `Memory`: no
/// memory for the count.
pub fn count_links(alloc: Global, tree: &Tree) -> Result<u64, LoadError>
    ensures count { IfOk result (λ count. count ≡ link_count (file_of tree.now.file)) }
    ensures few { OnOk result (link_refusal (file_of tree.now.file) ≡ None) }
    ensures refused { IfErr result (IsLinkAnswer (file_of tree.now.file)) }
{
    let below = ways_below(alloc, GREATEST_DEPTH, tree)?;
    let count = capped_count(alloc, tree, &below)?;
    test_links(count, tree.root_offset())?;
    Ok(count)
}

// Tests whether a text may have so many links. The offset is that of the root's name.
fn test_links(count: u64, offset: u32) -> Result<(), Refusal>
    ensures few { OnOk result (count ≤ greatest_links) }
    ensures many { IfErr result (λ r. (r ≡ record { number = RefusalNumber.E17; offset = offset })
        × (greatest_links < count)) }
{
    if count <= GREATEST_LINKS {
        Ok(())
    } else {
        Err(Refusal {
            number: RefusalNumber::E17,
            offset,
        })
    }
}

/// The number of links of a text, each counted as often as it has copies, by the ways of the models
/// one level below the root. It saturates at the greatest `u64`.
///
/// # Errors
///
/// No memory for the numbers of ways.
pub(crate) fn capped_count(alloc: Global, tree: &Tree, below: &[Ways]) -> Result<u64, AllocError>
    requires { below.now ≡ ways_below greatest_depth (map model_of tree.now.reached) }
    ensures { IfOk result (λ count. count ≡ capped (link_count (file_of tree.now.file))) }
{
    let Some(root) = tree.root_level() else {
        return Ok(0);
    };
    let ways = Ways::coupled(alloc, tree.input_count(), root, below)?;
    Ok(ways.total())
}
