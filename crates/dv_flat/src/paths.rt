//! The paths of the components.

ghost use Rattle.std.specs.Prelude.{◌≡◌, map, string_bytes, IfOk};
ghost use Rattle.dv_syntax.specs.Trees.{file_of};
ghost use Rattle.dv_flat.specs.Links.{paths_of};

use dv_tree::Tree;
use std::alloc::{AllocError, Global};

/// The paths of the components as texts, in the order of their numbers. Together they may be much
/// longer than the text of the model.
///
/// # Errors
///
/// No memory for the paths.
pub fn paths_of(alloc: Global, tree: &Tree) -> Result<Vec<String>, AllocError>
    ensures { IfOk result (λ paths. map string_bytes paths.items
        ≡ paths_of tree.now.names (file_of tree.now.file)) }
{
    let mut paths = Vec::new(alloc);
    for component in 0..tree.component_count() {
        paths.push(tree.path_text(alloc, component)?)?;
    }
    Ok(paths)
}
