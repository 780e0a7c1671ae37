//! The links of a coupled model as indices of ports.

ghost use Rattle.std.specs.Prelude.{◌≡◌, map, IfOk, OnOk};
ghost use Rattle.std.specs.List.{range_with_len};
ghost use Rattle.dv_tree.specs.Couplings.{coupling_from_own, own_couplings, part_couplings};
ghost use Rattle.dv_tree.specs.Tables.{with_link};

use crate::lists::empty_lists;
use std::alloc::{AllocError, Global};

/// A port by its index: a port of the coupled model itself, or of one of its parts.
#[derive(Clone, Copy, PartialEq, Eq)]
pub enum Target {
    /// A port of the coupled model itself, by its index.
    Own { port: usize },
    /// A port of a part, by the indices of the part and of the port.
    OfPart { part: usize, port: usize },
}

/// A port of some model, and one port to which it is linked.
#[derive(Clone, Copy, PartialEq, Eq)]
pub struct Coupling {
    /// The index of the port from which the coupling leads.
    pub port: usize,
    /// The port to which it leads.
    pub target: Target,
}

/// A link by the indices of its two ends.
#[derive(Clone, Copy, PartialEq, Eq)]
pub struct ResolvedLink {
    /// The port from which it leads.
    pub from: Target,
    /// The port to which it leads.
    pub to: Target,
}

// The coupling of a link from an input of the model itself.
fn coupling_from_own(from: Target, to: Target) -> Option<Coupling>
    ensures { result ≡ coupling_from_own from to }
{
    match from {
        Target::Own { port } => Some(Coupling { port, target: to }),
        Target::OfPart { .. } => None,
    }
}

/// The couplings from the inputs of the model itself, in the order of the links.
pub(crate) fn own_couplings(
    alloc: Global,
    links: &[ResolvedLink],
) -> Result<Vec<Coupling>, AllocError>
    ensures { IfOk result (λ couplings. couplings.items ≡ own_couplings links.now) }
{
    let mut couplings = Vec::new(alloc);
    for link in links {
        if let Some(coupling) = coupling_from_own(link.from, link.to) {
            couplings.push(coupling)?;
        }
    }
    Ok(couplings)
}

/// For each of `parts` parts the couplings from its outputs, in the order of the links.
pub(crate) fn part_couplings(
    alloc: Global,
    parts: usize,
    links: &[ResolvedLink],
) -> Result<Vec<Vec<Coupling>>, AllocError>
    ensures { IfOk result (λ lists. map (λ list. list.items) lists.items
        ≡ map (part_couplings links.now) (range_with_len 0 parts)) }
{
    let mut lists = empty_lists(alloc, parts)?;
    for link in links {
        add_link(&mut lists, link)?;
    }
    Ok(lists)
}

// Adds the coupling of a link to those of its part.
fn add_link(lists: &mut Vec<Vec<Coupling>>, link: &ResolvedLink) -> Result<(), AllocError>
    ensures { OnOk result (map (λ list. list.items) lists.new.items
        ≡ with_link (map (λ list. list.items) lists.old.items) link.now) }
{
    if let Target::OfPart { part, port } = link.from {
        if part < lists.len() {
            lists[part].push(Coupling {
                port,
                target: link.to,
            })?;
        }
    }
    Ok(())
}
