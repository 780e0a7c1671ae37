//! Which outputs of components lead on, to a component or out of the root. No other output begins a
//! link. That is not proved here: `flat` counts the links that it finds, so only time and memory
//! depend on these flags.

use crate::limit::{Ways, outputs_of, ways_from};
use crate::ports::is_set;
use dv_check::GREATEST_DEPTH;
use dv_tree::{Coupling, Level, ResolvedPart, Target, Tree, level_at};
use std::alloc::{AllocError, Global};

/// A flag for each output port of each component, in the order of the components' numbers: whether
/// it leads on. The ways are those of the models one level below the root.
///
/// # Errors
///
/// No memory for the flags.
pub(crate) fn live_outputs(
    alloc: Global,
    tree: &Tree,
    below: &[Ways],
) -> Result<Vec<bool>, AllocError> {
    let mut live = Vec::new(alloc);
    if let Some(root) = tree.root_level() {
        let own = vec![in alloc; true; root.output_count()]?;
        add_live(
            alloc,
            GREATEST_DEPTH,
            root,
            tree.levels(),
            below,
            &own,
            &mut live,
        )?;
    }
    Ok(live)
}

// Adds the flags of the components below a coupled model, by those of its own outputs.
fn add_live(
    alloc: Global,
    depth: usize,
    level: &Level,
    levels: &[Option<Level>],
    below: &[Ways],
    own: &[bool],
    live: &mut Vec<bool>,
) -> Result<(), AllocError> {
    if depth == 0 {
        return Ok(());
    }
    for (index, part) in level.parts().iter().enumerate() {
        let couplings = level.couplings_of_part(index);
        let flags = live_of_part(alloc, part, couplings, level.parts(), below, own)?;
        match level_at(levels, part.model) {
            Some(inside) => add_live(alloc, depth - 1, inside, levels, below, &flags, live)?,
            None => live.extend_from_slice(&flags)?,
        }
    }
    Ok(())
}

// The flags of the outputs of a part: whether a coupling leads on from each.
fn live_of_part(
    alloc: Global,
    part: &ResolvedPart,
    couplings: &[Coupling],
    parts: &[ResolvedPart],
    below: &[Ways],
    own: &[bool],
) -> Result<Vec<bool>, AllocError> {
    let mut flags = vec![in alloc; false; outputs_of(below, part).len()]?;
    for coupling in couplings {
        if leads_on(coupling.target, parts, below, own) {
            set(&mut flags, coupling.port);
        }
    }
    Ok(flags)
}

// Whether a way leads on from the target of a coupling: inside the part, or from the model's own
// output.
fn leads_on(target: Target, parts: &[ResolvedPart], below: &[Ways], own: &[bool]) -> bool {
    match target {
        Target::Own { port } => is_set(own, port),
        Target::OfPart { .. } => ways_from(target, parts, below) > 0,
    }
}

fn set(flags: &mut [bool], index: usize) {
    if index < flags.len() {
        flags[index] = true;
    }
}
