//! The components by number.

ghost use Rattle.std.specs.Prelude.{◌≡◌, ◌++◌, ◌∷◌, [], IfOk, OnOk};
ghost use Rattle.dv_tree.specs.Nodes.{components_in, nodes_to};
ghost use Rattle.dv_tree.specs.Paths.{name_at};

use crate::levels::{Level, level_at};
use dv_lex::Names;
use smallvec::SmallVec;
use std::alloc::{AllocError, Global};
use std::marker::Model;

/// A component: the names of the parts that lead to it, as numbers, and the index of its model
/// among those with tables. So its memory does not depend on the length of the names. Most paths
/// are short, and no allocation is made for those.
#[derive(Drop)]
pub(crate) struct Component {
    pub(crate) path: SmallVec<u32, 4>,
    pub(crate) model: usize,
}

impl Model for Component {
    ghost use Rattle.std.specs.Prelude.{ℕ, List};

    ghost Value = { List ℕ × ℕ };

    ghost view = { λ c. (c.path.items, c.model) };
}

impl Component {
    /// The names of the parts that lead to it.
    pub(crate) fn path(&self) -> &[u32]
        ensures { result.now ≡ self.now.0 }
    {
        self.path.as_slice()
    }

    /// The index of its model.
    pub(crate) fn model(&self) -> usize
        ensures { result ≡ self.now.1 }
    {
        self.model
    }
}

/// The text of the name with a number: empty if there is none.
pub(crate) fn name_at(names: &Names, number: u32) -> &str
    ensures { result.now ≡ name_at names.now number }
{
    match names.text(number) {
        Some(text) => text,
        None => "",
    }
}

// The path of a part of a model with a path.
fn path_to(alloc: Global, before: &[u32], name: u32) -> Result<SmallVec<u32, 4>, AllocError>
    ensures { IfOk result (λ path. path.items ≡ before.now ++ name ∷ []) }
{
    let mut path = SmallVec::from_slice(alloc, before)?;
    path.push(name)?;
    Ok(path)
}

// Adds the component of an atomic part, with the index of its model.
fn add_component(
    alloc: Global,
    before: &[u32],
    name: u32,
    model: usize,
    components: &mut Vec<Component>,
) -> Result<(), AllocError>
    ensures { OnOk result (components.new.items ≡ components.old.items
        ++ (before.now ++ name ∷ [], model) ∷ []) }
{
    let path = path_to(alloc, before, name)?;
    Ok(components.push(Component { path, model })?)
}

/// Adds the components in the parts of a coupled model with a path, down to a number of levels.
///
/// # Errors
///
/// No memory for the components.
pub(crate) fn add_components(
    alloc: Global,
    depth: usize,
    level: &Level,
    levels: &[Option<Level>],
    before: &[u32],
    components: &mut Vec<Component>,
) -> Result<(), AllocError>
    ensures { OnOk result (components.new.items ≡ components.old.items
        ++ components_in before.now (nodes_to depth levels.now level.now)) }
{
    if depth == 0 {
        return Ok(());
    }
    for part in level.parts() {
        let name = part.name.number;
        match level_at(levels, part.model) {
            Some(inside) => {
                let path = path_to(alloc, before, name)?;
                add_components(
                    alloc,
                    depth - 1,
                    inside,
                    levels,
                    path.as_slice(),
                    components,
                )?;
            }
            None => add_component(alloc, before, name, part.model, components)?,
        }
    }
    Ok(())
}
