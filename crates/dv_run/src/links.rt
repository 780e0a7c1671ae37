//! The links of a text.

ghost use Rattle.std.specs.Prelude.{◌≡◌, map, IfOk};
ghost use Rattle.dv_share.specs.Links.{link_of};
ghost use Rattle.law_sound.specs.Members.{direct_of, entry_of, exit_of};

use dv_flat::{DirectLink, EntryLink, ExitLink, LinkLists};
use dv_plan::Links;
use dv_share::Link;
use std::alloc::{AllocError, Global};

/// The links of the flat model of a text, in their order, as a plan has them.
///
/// # Errors
///
/// No memory for the lists.
pub fn links_of(alloc: Global, lists: &LinkLists) -> Result<Links, AllocError>
    ensures direct { IfOk result (λ links.
        map link_of links.direct.items ≡ map direct_of lists.now.direct.items) }
    ensures entrances { IfOk result (λ links.
        map link_of links.entrances.items ≡ map entry_of lists.now.entries.items) }
    ensures exits { IfOk result (λ links.
        map link_of links.exits.items ≡ map exit_of lists.now.exits.items) }
{
    Ok(Links {
        direct: direct_links(alloc, &lists.direct)?,
        entrances: entrances(alloc, &lists.entries)?,
        exits: exits(alloc, &lists.exits)?,
    })
}

fn direct_links(alloc: Global, links: &[DirectLink]) -> Result<Vec<Link>, AllocError>
    ensures { IfOk result (λ found. map link_of found.items ≡ map direct_of links.now) }
{
    let mut found = Vec::with_capacity(alloc, links.len())?;
    for link in links {
        found.push(Link {
            from: link.from.component,
            from_port: link.from.port,
            to: link.to.component,
            to_port: link.to.port,
            copies: link.copies,
        })?;
    }
    Ok(found)
}

fn entrances(alloc: Global, links: &[EntryLink]) -> Result<Vec<Link>, AllocError>
    ensures { IfOk result (λ found. map link_of found.items ≡ map entry_of links.now) }
{
    let mut found = Vec::with_capacity(alloc, links.len())?;
    for link in links {
        found.push(Link {
            from: 0,
            from_port: link.from,
            to: link.to.component,
            to_port: link.to.port,
            copies: link.copies,
        })?;
    }
    Ok(found)
}

fn exits(alloc: Global, links: &[ExitLink]) -> Result<Vec<Link>, AllocError>
    ensures { IfOk result (λ found. map link_of found.items ≡ map exit_of links.now) }
{
    let mut found = Vec::with_capacity(alloc, links.len())?;
    for link in links {
        found.push(Link {
            from: link.from.component,
            from_port: link.from.port,
            to: 0,
            to_port: link.to,
            copies: link.copies,
        })?;
    }
    Ok(found)
}
