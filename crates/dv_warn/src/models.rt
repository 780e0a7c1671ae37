//! Warnings about models that the root does not lead to.

use crate::findings::Findings;
use crate::warning::Warning;
use dv_syntax::{Model, Name};
use dv_tree::Tree;
use std::alloc::{AllocError, Global};
use std::collections::HashSet;

/// Adds a warning for each model of the text that the root does not lead to.
///
/// # Errors
///
/// Memory is refused.
pub(crate) fn find_unreached_models<'t>(
    alloc: Global,
    tree: &'t Tree<'t>,
    findings: &mut Findings<'t>,
) -> Result<(), AllocError> {
    let reached = names_of(alloc, tree.reached())?;
    for model in &tree.file().models {
        let name = name_of(model);
        if !reached.contains(&name.number) {
            let model = findings.name(name);
            findings.note(name.offset, Warning::UnreachedModel { model })?;
        }
    }
    Ok(())
}

// The numbers of the names of models.
fn names_of(alloc: Global, models: &[&Model]) -> Result<HashSet<u32>, AllocError> {
    let mut names = HashSet::new(alloc);
    for model in models {
        names.insert(name_of(model).number)?;
    }
    Ok(names)
}

/// The name of a model.
pub(crate) fn name_of(model: &Model) -> Name {
    match model {
        Model::Atomic(atomic) => atomic.name,
        Model::Coupled(coupled) => coupled.name,
    }
}
