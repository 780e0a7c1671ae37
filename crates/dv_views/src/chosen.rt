//! What names stand for, and the errors of names that stand for nothing.

use crate::error::ViewError;
use dv_hints::unknown_name;
use dv_trace::Chosen;
use dv_tree::Tree;
use std::alloc::{AllocError, Global};

/// The components with the path `only`, or in the coupled model with this path; without `only` all
/// components and the root.
///
/// # Errors
///
/// `NoPath`: no component has such a path. `Job` with `Memory`: an allocation was refused.
pub(crate) fn chosen_of(
    alloc: Global,
    tree: &Tree<'_>,
    only: Option<&str>,
) -> Result<Chosen, ViewError> {
    match Chosen::of(alloc, tree, only)? {
        Some(chosen) => Ok(chosen),
        None => {
            let paths = all_paths(alloc, tree)?;
            let path = only.unwrap_or("");
            Err(no_name(alloc, "no component of this path", path, &paths)?)
        }
    }
}

/// The error for a name that nothing has, with similar ones of those that there are. `words` say
/// what there is not.
pub(crate) fn no_name(
    alloc: Global,
    words: &str,
    name: &str,
    all: &[String],
) -> Result<ViewError, AllocError> {
    let mut names = Vec::with_capacity(alloc, all.len())?;
    for name in all {
        names.push(name.as_str())?;
    }
    let unknown = unknown_name(alloc, name, &names)?;
    Ok(ViewError::NoPath(format!(in alloc; "{words}: {unknown}")?))
}

// The paths of all components and coupled models, each once. The components of a coupled model
// follow each other.
fn all_paths(alloc: Global, tree: &Tree<'_>) -> Result<Vec<String>, AllocError> {
    let mut paths = Vec::new(alloc);
    let mut before: &[u32] = &[];
    for component in 0..tree.component_count() {
        let path = tree.path(component);
        for length in shared(before, path)..path.len() {
            let mut text = String::new(alloc);
            tree.push_path(&mut text, path.get(..=length).unwrap_or(path))?;
            paths.push(text)?;
        }
        before = path;
    }
    Ok(paths)
}

// The number of names that both paths begin with.
fn shared(one: &[u32], other: &[u32]) -> usize {
    one.iter()
        .zip(other)
        .take_while(|(one, other)| one == other)
        .count()
}
