//! Links by the processes of their ends.

ghost use Rattle.std.specs.Prelude.{◌≡◌, ◌+◌, ◌*◌, map, IfOk};
ghost use Rattle.dv_partition.specs.Groups.{owner_of};
ghost use Rattle.dv_plan.specs.Keys.{lists_by, pair_key, receiver_key, sender_key};

use dv_partition::Groups;
use dv_partition::by_key::by_key;
use dv_share::Link;
use std::alloc::{AllocError, Global};

/// The links in one list for each pair of processes, by the processes of both their ends.
///
/// # Errors
///
/// No memory for the lists.
pub(crate) fn by_pair(
    alloc: Global,
    groups: &Groups,
    links: &[Link],
) -> Result<Vec<Vec<Link>>, AllocError>
    ensures { IfOk result (λ lists. map (λ list. list.items) lists.items
        ≡ lists_by (pair_key groups.now) (groups.now.processes * groups.now.processes) links.now) }
{
    let processes = groups.processes();
    let keys = pair_keys(alloc, groups, links)?;
    by_key(alloc, processes * processes, &keys, links.to_vec(alloc)?)
}

/// The links in one list for each process, by the process from which they lead.
///
/// # Errors
///
/// No memory for the lists.
pub(crate) fn by_sender(
    alloc: Global,
    groups: &Groups,
    links: &[Link],
) -> Result<Vec<Vec<Link>>, AllocError>
    ensures { IfOk result (λ lists. map (λ list. list.items) lists.items
        ≡ lists_by (sender_key groups.now) groups.now.processes links.now) }
{
    let keys = senders(alloc, groups, links)?;
    by_key(alloc, groups.processes(), &keys, links.to_vec(alloc)?)
}

/// The links in one list for each process, by the process to which they lead.
///
/// # Errors
///
/// No memory for the lists.
pub(crate) fn by_receiver(
    alloc: Global,
    groups: &Groups,
    links: &[Link],
) -> Result<Vec<Vec<Link>>, AllocError>
    ensures { IfOk result (λ lists. map (λ list. list.items) lists.items
        ≡ lists_by (receiver_key groups.now) groups.now.processes links.now) }
{
    let keys = receivers(alloc, groups, links)?;
    by_key(alloc, groups.processes(), &keys, links.to_vec(alloc)?)
}

// The two processes of each link as one number.
fn pair_keys(alloc: Global, groups: &Groups, links: &[Link]) -> Result<Vec<u32>, AllocError>
    ensures { IfOk result (λ keys. keys.items ≡ map (pair_key groups.now) links.now) }
{
    let mut keys = Vec::with_capacity(alloc, links.len())?;
    for link in links {
        keys.push(pair(groups, link.from, link.to))?;
    }
    Ok(keys)
}

// The processes of two components as one number.
fn pair(groups: &Groups, from: u32, to: u32) -> u32
    ensures { result ≡ owner_of groups.now from * groups.now.processes + owner_of groups.now to }
{
    let processes = groups.processes() as u32;
    groups.owner(from) * processes + groups.owner(to)
}

// The process from which each link leads.
fn senders(alloc: Global, groups: &Groups, links: &[Link]) -> Result<Vec<u32>, AllocError>
    ensures { IfOk result (λ keys. keys.items ≡ map (sender_key groups.now) links.now) }
{
    let mut keys = Vec::with_capacity(alloc, links.len())?;
    for link in links {
        keys.push(groups.owner(link.from))?;
    }
    Ok(keys)
}

// The process to which each link leads.
fn receivers(alloc: Global, groups: &Groups, links: &[Link]) -> Result<Vec<u32>, AllocError>
    ensures { IfOk result (λ keys. keys.items ≡ map (receiver_key groups.now) links.now) }
{
    let mut keys = Vec::with_capacity(alloc, links.len())?;
    for link in links {
        keys.push(groups.owner(link.to))?;
    }
    Ok(keys)
}
