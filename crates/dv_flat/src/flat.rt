//! The links of a checked text, without its tree.

ghost use Rattle.std.specs.Prelude.{◌≡◌, ◌+◌, None, IfOk};
ghost use Rattle.std.specs.List.{All, flat_map};
ghost use Rattle.dv_bag.specs.Bag.{capped};
ghost use Rattle.dv_syntax.specs.Trees.{file_of};
ghost use Rattle.dv_flat.specs.Limit.{link_count, link_refusal};
ghost use Rattle.dv_flat.specs.Links.{copies_of, direct_links, entry_links, exit_links};
ghost use Rattle.dv_flat.specs.Probes.{IsOutput, direct_from, exit_from};

use crate::arrivals::Reached;
use crate::limit::{Ways, capped_count, ways_below};
use crate::link::{ComponentPort, DirectLink, EntryLink, ExitLink};
use crate::links::{copies_of, links_of};
use crate::live::live_outputs;
use crate::ports::{chosen, output_ports, root_inputs};
use dv_check::GREATEST_DEPTH;
use dv_tree::Tree;
use std::alloc::{AllocError, Global};

/// Which output reaches which input, each pair of ends once, with the number of copies of each
/// value that arrive. Each list is sorted by the first end and then by the second.
#[derive(Drop)]
pub struct LinkLists {
    /// From component to component.
    pub direct: Vec<DirectLink>,
    /// From the root's inputs to components.
    pub entries: Vec<EntryLink>,
    /// From components to the root's outputs.
    pub exits: Vec<ExitLink>,
}

/// The links of a checked text that has no more than `GREATEST_LINKS` of them.
///
/// # Errors
///
/// No memory for the links.
pub fn flatten(alloc: Global, tree: &Tree) -> Result<LinkLists, AllocError>
    requires few { link_refusal (file_of tree.now.file) ≡ None }
    ensures direct { IfOk result (λ links.
        links.direct.items ≡ direct_links (file_of tree.now.file)) }
    ensures entries { IfOk result (λ links.
        links.entries.items ≡ entry_links (file_of tree.now.file)) }
    ensures exits { IfOk result (λ links. links.exits.items ≡ exit_links (file_of tree.now.file)) }
{
    let below = ways_below(alloc, GREATEST_DEPTH, tree)?;
    let count = capped_count(alloc, tree, &below)?;
    counted_links(alloc, tree, &below, count)
}

// All links. `count` is their number with copies. At first only the outputs that seem to lead on
// send probes: if they have that many links, no other output has one. Otherwise all outputs send.
fn counted_links(
    alloc: Global,
    tree: &Tree,
    below: &[Ways],
    count: u64,
) -> Result<LinkLists, AllocError>
    requires count { count ≡ link_count (file_of tree.now.file) }
    ensures direct { IfOk result (λ links.
        links.direct.items ≡ direct_links (file_of tree.now.file)) }
    ensures entries { IfOk result (λ links.
        links.entries.items ≡ entry_links (file_of tree.now.file)) }
    ensures exits { IfOk result (λ links. links.exits.items ≡ exit_links (file_of tree.now.file)) }
{
    let outputs = output_ports(alloc, tree)?;
    let live = live_outputs(alloc, tree, below)?;
    let sources = chosen(alloc, &outputs, &live)?;
    let found = links(alloc, tree, &sources)?;
    if found.copies() == count {
        return Ok(found);
    }
    links(alloc, tree, &outputs)
}

// The links of sources and of the root's inputs, from one routing with a probe for each. The probes
// of the inputs come after those of the sources.
fn links(alloc: Global, tree: &Tree, sources: &[ComponentPort]) -> Result<LinkLists, AllocError>
    requires outputs { All (IsOutput (file_of tree.now.file)) sources.now }
    ensures direct { IfOk result (λ links.
        links.direct.items ≡ flat_map (direct_from (file_of tree.now.file)) sources.now) }
    ensures entries { IfOk result (λ links.
        links.entries.items ≡ entry_links (file_of tree.now.file)) }
    ensures exits { IfOk result (λ links.
        links.exits.items ≡ flat_map (exit_from (file_of tree.now.file)) sources.now) }
{
    let inputs = root_inputs(alloc, tree)?;
    let reached = Reached::of(alloc, tree, sources)?;
    Ok(LinkLists {
        direct: links_of(alloc, sources, 0, &reached.inputs)?,
        entries: links_of(alloc, &inputs, sources.len(), &reached.inputs)?,
        exits: links_of(alloc, sources, 0, &reached.outputs)?,
    })
}

impl LinkLists {
    // The number of links, each counted as often as it has copies.
    fn copies(&self) -> u64
        ensures { result ≡ capped (copies_of self.now.direct.items
            + (copies_of self.now.entries.items + copies_of self.now.exits.items)) }
    {
        copies_of(&self.direct)
            .saturating_add(copies_of(&self.entries))
            .saturating_add(copies_of(&self.exits))
    }
}
