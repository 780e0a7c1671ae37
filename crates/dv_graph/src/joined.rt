//! The edges of an overview.

use crate::edges::is_crossing;
use crate::nodes::Nodes;
use crate::scene::Scene;
use std::alloc::AllocError;

/// All links from one node to another. Nodes are given by index.
#[derive(Clone, Copy)]
pub(crate) struct JoinedLinks {
    pub(crate) from: u32,
    pub(crate) to: u32,
    /// How many links they are, each counted once for each of its copies.
    pub(crate) count: u64,
    /// Whether one of them leads to another process.
    pub(crate) is_crossing: bool,
}

/// All links between different nodes, and from a component to itself, joined: first the links from
/// the root's inputs, then those between components, then those to the root's outputs. Each of
/// these lists ascends by the indices of the nodes.
///
/// # Errors
///
/// Memory is refused.
pub(crate) fn joined_links(
    scene: Scene<'_>,
    nodes: &Nodes,
) -> Result<Vec<JoinedLinks>, AllocError> {
    let mut joined = Vec::new(scene.alloc);
    join(entries_of(scene, nodes)?, &mut joined)?;
    join(direct_of(scene, nodes)?, &mut joined)?;
    join(exits_of(scene, nodes)?, &mut joined)?;
    Ok(joined)
}

fn entries_of(scene: Scene<'_>, nodes: &Nodes) -> Result<Vec<JoinedLinks>, AllocError> {
    let mut entries = Vec::new(scene.alloc);
    for link in &scene.links.entries {
        entries.push(JoinedLinks {
            from: nodes.input(link.from),
            to: nodes.index_of(link.to.component),
            count: link.copies,
            is_crossing: false,
        })?;
    }
    Ok(entries)
}

fn direct_of(scene: Scene<'_>, nodes: &Nodes) -> Result<Vec<JoinedLinks>, AllocError> {
    let mut direct = Vec::new(scene.alloc);
    for link in &scene.links.direct {
        let from = nodes.index_of(link.from.component);
        let to = nodes.index_of(link.to.component);
        if from != to || nodes.is_component(from) {
            direct.push(JoinedLinks {
                from,
                to,
                count: link.copies,
                is_crossing: is_crossing(scene.groups, link),
            })?;
        }
    }
    Ok(direct)
}

fn exits_of(scene: Scene<'_>, nodes: &Nodes) -> Result<Vec<JoinedLinks>, AllocError> {
    let mut exits = Vec::new(scene.alloc);
    for link in &scene.links.exits {
        exits.push(JoinedLinks {
            from: nodes.index_of(link.from.component),
            to: nodes.output(link.to),
            count: link.copies,
            is_crossing: false,
        })?;
    }
    Ok(exits)
}

// Adds links in ascending order, and joins links with the same ends.
fn join(mut links: Vec<JoinedLinks>, joined: &mut Vec<JoinedLinks>) -> Result<(), AllocError> {
    links.sort_unstable_by_key(|links| (links.from, links.to));
    for more in &links {
        match joined.last_mut() {
            Some(last) if (last.from, last.to) == (more.from, more.to) => {
                last.count = last.count.saturating_add(more.count);
                last.is_crossing = last.is_crossing || more.is_crossing;
            }
            _ => joined.push(*more)?,
        }
    }
    Ok(())
}
