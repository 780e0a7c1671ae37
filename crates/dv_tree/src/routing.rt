//! Routing along links: up to the root, and down to the components.

ghost use Rattle.std.specs.Prelude.{◌≡◌, ◌++◌, ◌∷◌, [], suc, drop, length, slice_get, option_copied, option_map};
ghost use Rattle.std.specs.Prelude.{OnOk, IfOk};
ghost use Rattle.std.specs.Vec.Iter.{into_iter_items};
ghost use Rattle.dv_tree.specs.Nodes.{arriving_nodes, atomic_count, coupled_count, from_level, kept_nodes, leaving_nodes};
ghost use Rattle.dv_tree.specs.Nodes.{nodes_to, part_count, part_coupled, part_kept, part_leaving, part_received};
ghost use Rattle.dv_tree.specs.Nodes.{through_level, to_level};
ghost use Rattle.dv_tree.specs.Routing.{along, along_all, first_bags};

use crate::arrived::Arrived;
use crate::couplings::Coupling;
use crate::levels::{Level, level_at};
use dv_bag::{Bags, Sent};
use std::alloc::{AllocError, Global};
use std::vec::IntoIter;

/// Goes up: adds what comes from the parts of a coupled model, and then the same for the coupled
/// models inside, from what the components send. Returns what the components behind these send.
///
/// # Errors
///
/// No memory for the values.
#[cycle(rise)]
pub(crate) fn rise<'s>(
    depth: usize,
    level: &Level,
    levels: &[Option<Level>],
    sent: &'s [Sent],
    kept: &mut Vec<Arrived>,
) -> Result<&'s [Sent], AllocError>
    ensures rest { IfOk result (λ rest. rest.now
        ≡ drop (atomic_count (nodes_to depth levels.now level.now)) sent.now) }
    ensures kept { OnOk result (kept.new.items ≡ kept.old.items
        ++ from_level level.now (leaving_nodes (nodes_to depth levels.now level.now) sent.now)
        ∷ kept_nodes (nodes_to depth levels.now level.now) sent.now) }
{
    let slot = keep_slot(kept)?;
    let mut arrived = level.nothing(*kept.allocator())?;
    let rest = rise_parts(depth, level, levels, sent, kept, &mut arrived)?;
    kept[slot] = arrived;
    Ok(rest)
}

// The same for the parts of a coupled model: what leaves each goes along its couplings.
#[cycle(rise)]
fn rise_parts<'s>(
    depth: usize,
    level: &Level,
    levels: &[Option<Level>],
    sent: &'s [Sent],
    kept: &mut Vec<Arrived>,
    arrived: &mut Arrived,
) -> Result<&'s [Sent], AllocError>
    ensures rest { IfOk result (λ rest. rest.now
        ≡ drop (atomic_count (nodes_to depth levels.now level.now)) sent.now) }
    ensures arrived { OnOk result (arrived.new ≡ along_all level.now.of_parts
        (leaving_nodes (nodes_to depth levels.now level.now) sent.now) arrived.old) }
    ensures kept { OnOk result (kept.new.items ≡ kept.old.items
        ++ kept_nodes (nodes_to depth levels.now level.now) sent.now) }
{
    if depth == 0 {
        return Ok(sent);
    }
    let mut rest = sent;
    for (part, resolved) in level.parts().iter().enumerate() {
        let inside = level_at(levels, resolved.model);
        let couplings = level.couplings_of_part(part);
        rest = rise_part(depth - 1, inside, levels, couplings, rest, kept, arrived)?;
    }
    Ok(rest)
}

// The same for one part, coupled or atomic: what leaves it goes along its couplings.
#[cycle(rise)]
fn rise_part<'s>(
    depth: usize,
    inside: Option<&Level>,
    levels: &[Option<Level>],
    couplings: &[Coupling],
    sent: &'s [Sent],
    kept: &mut Vec<Arrived>,
    arrived: &mut Arrived,
) -> Result<&'s [Sent], AllocError>
    ensures rest { IfOk result (λ rest. rest.now
        ≡ drop (part_count (nodes_to depth levels.now) (option_copied inside.entry)) sent.now) }
    ensures arrived { OnOk result (arrived.new ≡ along couplings.now
        (part_leaving (nodes_to depth levels.now) (option_copied inside.entry) sent.now)
        arrived.old) }
    ensures kept { OnOk result (kept.new.items ≡ kept.old.items
        ++ part_kept (nodes_to depth levels.now) (option_copied inside.entry) sent.now) }
{
    match inside {
        None => add_first(couplings, sent, arrived),
        Some(level) => {
            let index = kept.len();
            let rest = rise(depth, level, levels, sent, kept)?;
            arrived.add_bags(couplings, kept[index].own())?;
            Ok(rest)
        }
    }
}

// Adds an empty element to what is kept, and returns its index.
fn keep_slot(kept: &mut Vec<Arrived>) -> Result<usize, AllocError>
    ensures slot { IfOk result (λ slot. slot ≡ length kept.old.items) }
    ensures kept { OnOk result (kept.new.items ≡ kept.old.items
        ++ record { own = []; parts = [] } ∷ []) }
{
    let slot = kept.len();
    let empty = Arrived::empty(*kept.allocator());
    kept.push(empty)?;
    Ok(slot)
}

// Sends what the first component sends along its couplings. Returns what the others send.
fn add_first<'s>(
    couplings: &[Coupling],
    sent: &'s [Sent],
    arrived: &mut Arrived,
) -> Result<&'s [Sent], AllocError>
    ensures rest { IfOk result (λ rest. rest.now ≡ drop 1 sent.now) }
    ensures arrived { OnOk result
        (arrived.new ≡ along couplings.now (first_bags sent.now) arrived.old) }
{
    match sent {
        [first, rest @ ..] => {
            arrived.add_sent(couplings, first)?;
            Ok(rest)
        }
        [] => Ok(sent),
    }
}

/// Goes down: adds what the components of a coupled model receive, from what comes to its inputs
/// and from what came from the parts of the model and of those inside. The latter is taken out.
///
/// # Errors
///
/// No memory for the values.
#[cycle(sink)]
pub(crate) fn sink(
    alloc: Global,
    depth: usize,
    level: &Level,
    levels: &[Option<Level>],
    input: &Bags,
    kept: &mut IntoIter<Arrived>,
    received: &mut Vec<Bags>,
) -> Result<(), AllocError>
    ensures kept { OnOk result (into_iter_items kept.new
        ≡ drop (suc (coupled_count (nodes_to depth levels.now level.now)))
        (into_iter_items kept.old)) }
    ensures received { OnOk result (received.new.items ≡ received.old.items
        ++ through_level (arriving_nodes (nodes_to depth levels.now level.now)) level.now input.now
        (into_iter_items kept.old)) }
{
    match next_parts(level, input, kept)? {
        Some(mut parts) => sink_parts(alloc, depth, level, levels, &mut parts, kept, received),
        None => Ok(()),
    }
}

// The same for the parts of a coupled model, from what comes to each.
#[cycle(sink)]
fn sink_parts(
    alloc: Global,
    depth: usize,
    level: &Level,
    levels: &[Option<Level>],
    parts: &mut IntoIter<Bags>,
    kept: &mut IntoIter<Arrived>,
    received: &mut Vec<Bags>,
) -> Result<(), AllocError>
    ensures kept { OnOk result (into_iter_items kept.new
        ≡ drop (coupled_count (nodes_to depth levels.now level.now)) (into_iter_items kept.old)) }
    ensures received { OnOk result (received.new.items ≡ received.old.items
        ++ arriving_nodes (nodes_to depth levels.now level.now) (into_iter_items parts.old)
        (into_iter_items kept.old)) }
{
    if depth == 0 {
        return Ok(());
    }
    for part in level.parts() {
        let inside = level_at(levels, part.model);
        let comes = next_bags(alloc, parts);
        sink_part(alloc, depth - 1, inside, levels, comes, kept, received)?;
    }
    Ok(())
}

// The same for one part, coupled or atomic.
#[cycle(sink)]
fn sink_part(
    alloc: Global,
    depth: usize,
    inside: Option<&Level>,
    levels: &[Option<Level>],
    comes: Bags,
    kept: &mut IntoIter<Arrived>,
    received: &mut Vec<Bags>,
) -> Result<(), AllocError>
    ensures kept { OnOk result (into_iter_items kept.new ≡ drop
        (part_coupled (nodes_to depth levels.now) (option_copied inside.entry))
        (into_iter_items kept.old)) }
    ensures received { OnOk result (received.new.items ≡ received.old.items
        ++ part_received (nodes_to depth levels.now) (option_copied inside.entry) comes
        (into_iter_items kept.old)) }
{
    match inside {
        None => Ok(received.push(comes)?),
        Some(level) => sink(alloc, depth, level, levels, &comes, kept, received),
    }
}

// What comes to the parts of a coupled model, from what comes to its inputs and from what is kept
// of it, which is taken out.
fn next_parts(
    level: &Level,
    input: &Bags,
    kept: &mut IntoIter<Arrived>,
) -> Result<Option<IntoIter<Bags>>, AllocError>
    ensures parts { IfOk result (λ parts. option_map into_iter_items parts
        ≡ option_map (to_level level.now input.now) (slice_get (into_iter_items kept.old) 0)) }
    ensures rest { OnOk result (into_iter_items kept.new ≡ drop 1 (into_iter_items kept.old)) }
{
    let Some(mut arrived) = kept.next() else {
        return Ok(None);
    };
    arrived.add_bags(level.couplings_of_inputs(), input)?;
    Ok(Some(arrived.into_parts().into_iter()))
}

// What comes to the next part.
fn next_bags(alloc: Global, parts: &mut IntoIter<Bags>) -> Bags
    ensures value { result ≡ first_bags (into_iter_items parts.old) }
    ensures rest { into_iter_items parts.new ≡ drop 1 (into_iter_items parts.old) }
{
    match parts.next() {
        Some(bags) => bags,
        None => Bags::empty(alloc, 0),
    }
}
