//! What random steps in a random partition commit, compared with the plain run.

use crate::division::Division;
use crate::random::{Source, owners, steps};
use dv_check::Checked;
use dv_tree::Tree;
use std::alloc::{AllocError, Global};
use test_samples::checked;

/// Whether each process of a model has committed its part of the plain run, in a random partition
/// and after random steps.
pub fn agrees(alloc: Global, text: &str, source: &mut Source) -> Result<bool, AllocError> {
    match checked(alloc, text) {
        Ok(checked) => checked_agrees(alloc, text, &checked, source),
        Err(_) => Ok(false),
    }
}

fn checked_agrees(
    alloc: Global,
    text: &str,
    checked: &Checked,
    source: &mut Source,
) -> Result<bool, AllocError> {
    let tree = Tree::of(alloc, checked)?;
    let owners = owners(alloc, source, tree.component_count())?;
    let division = Division::new(alloc, text, &tree, owners)?;
    let steps = steps(alloc, source, division.processes())?;
    let capacity = source.below(3).saturating_add(1);
    match division.stepped(alloc, &steps, capacity) {
        Some(stepped) => Ok(division.agrees(&stepped)),
        None => Ok(false),
    }
}
