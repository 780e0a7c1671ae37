//! Lists of links.

ghost use Rattle.std.specs.Prelude.{◌≡◌, ◌≤◌, ◌+◌, ◌++◌, length, map, IfOk, OnOk};
ghost use Rattle.dv_bag.specs.Bag.{capped};
ghost use Rattle.dv_flat.specs.Links.{copies_of};
ghost use Rattle.dv_flat.specs.Probes.{links_of, links_to};

use crate::arrivals::Arrival;
use crate::link::Link;
use std::alloc::{AllocError, Global};

/// The number of copies of all links. It saturates at the greatest `u64`.
pub(crate) fn copies_of<From, To>(links: &[Link<From, To>]) -> u64
    ensures { result ≡ capped (copies_of links.now) }
{
    let mut copies: u64 = 0;
    for link in links {
        copies = copies.saturating_add(link.copies);
    }
    copies
}

/// The links of sources by the arrivals of each, whose lists begin at an index.
///
/// # Errors
///
/// No memory for the links.
pub(crate) fn links_of<From: Copy, To: Copy>(
    alloc: Global,
    sources: &[From],
    first: usize,
    arrivals: &[Vec<Arrival<To>>],
) -> Result<Vec<Link<From, To>>, AllocError>
    requires { first + length sources.now ≤ length arrivals.now }
    ensures { IfOk result (λ links. links.items
        ≡ links_of (map (λ list. list.items) arrivals.now) first sources.now) }
{
    let mut links = Vec::new(alloc);
    for (probe, from) in sources.iter().enumerate() {
        add_links(*from, &arrivals[first + probe], &mut links)?;
    }
    Ok(links)
}

fn add_links<From: Copy, To: Copy>(
    from: From,
    arrivals: &[Arrival<To>],
    links: &mut Vec<Link<From, To>>,
) -> Result<(), AllocError>
    ensures { OnOk result (links.new.items ≡ links.old.items ++ links_to from arrivals.now) }
{
    for arrival in arrivals {
        links.push(Link {
            from,
            to: arrival.to,
            copies: arrival.copies,
        })?;
    }
    Ok(())
}
