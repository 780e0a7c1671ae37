//! Makes the components of a text with a bench of their own.

ghost use Rattle.std.specs.Prelude.{IfOk};
ghost use Rattle.std.specs.List.{All};
ghost use Rattle.dv_gen.specs.ModelCode.{IsCompilableModel};
ghost use Rattle.dv_syntax.specs.Trees.{ModelTree, file_of};
ghost use Rattle.dv_run.specs.Texts.{AreComponentsOf};

use dv_coded::{Bench, Components, components_of};
use dv_tree::Tree;
use std::alloc::{AllocError, Global};

/// Makes the components of a text for a run under a microstep limit, with a bench that is then
/// freed.
///
/// # Errors
///
/// No memory for them.
pub(crate) fn lone_components(
    alloc: Global,
    tree: &Tree,
    limit: u32,
) -> Result<Components, AllocError>
    requires compilable { All (λ (m : ModelTree). IsCompilableModel m)
        (file_of tree.now.file).models }
    ensures { IfOk result (λ c. AreComponentsOf (file_of tree.now.file) limit
        c.models.items c.members.items c.responses.items) }
{
    let mut bench = Bench::new(alloc);
    Ok(components_of(&mut bench, tree, limit)?)
}
