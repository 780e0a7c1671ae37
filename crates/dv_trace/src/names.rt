//! The names of a model, by their texts.

use dv_tree::Tree;
use indexmap::IndexMap;
use std::alloc::{AllocError, Global};

/// The components of a model by their paths, the numbers of its names by their texts, and the
/// output ports of the root by their names.
#[derive(Drop)]
pub(crate) struct Directory<'t> {
    components: IndexMap<String, u32>,
    names: IndexMap<&'t [u8], u32>,
    outputs: IndexMap<&'t [u8], usize>,
}

impl<'t> Directory<'t> {
    /// The names in a tree.
    pub(crate) fn of(alloc: Global, tree: &'t Tree<'t>) -> Result<Self, AllocError> {
        let mut directory = Directory {
            components: IndexMap::with_capacity(alloc, tree.component_count())?,
            names: IndexMap::new(alloc),
            outputs: IndexMap::new(alloc),
        };
        directory.add_all(alloc, tree)?;
        Ok(directory)
    }

    fn add_all(&mut self, alloc: Global, tree: &'t Tree<'t>) -> Result<(), AllocError> {
        for component in 0..tree.component_count() {
            let path = tree.path_text(alloc, component)?;
            self.components.insert(path, component as u32)?;
        }
        add_names_of_scopes(tree, &mut self.names)?;
        add_outputs(tree, &mut self.outputs)
    }

    /// The number of the component with a path.
    pub(crate) fn component(&self, path: &str) -> Option<u32> {
        self.components.get(path).copied()
    }

    /// The component with a number, and the rest of a text that begins with its path and a blank.
    /// `None` if it doesn't.
    pub(crate) fn split_path<'a>(&self, number: u32, text: &'a str) -> Option<(u32, &'a str)> {
        let (path, component) = self.components.get_index(number as usize)?;
        let rest = text.strip_prefix(path.as_str())?.strip_prefix(' ')?;
        Some((*component, rest))
    }

    /// The number of a name of a phase or an output port.
    pub(crate) fn name(&self, text: &str) -> Option<u32> {
        self.names.get(text.as_bytes()).copied()
    }

    /// The index of an output port of the root.
    pub(crate) fn output(&self, name: &str) -> Option<usize> {
        self.outputs.get(name.as_bytes()).copied()
    }
}

fn add_names_of_scopes<'t>(
    tree: &'t Tree<'t>,
    names: &mut IndexMap<&'t [u8], u32>,
) -> Result<(), AllocError> {
    for scope in tree.scopes() {
        add_names(tree, scope.phases(), names)?;
        add_names(tree, scope.outputs(), names)?;
    }
    Ok(())
}

fn add_names<'t>(
    tree: &'t Tree<'t>,
    numbers: &[u32],
    names: &mut IndexMap<&'t [u8], u32>,
) -> Result<(), AllocError> {
    for number in numbers {
        names.insert(tree.name(*number).as_bytes(), *number)?;
    }
    Ok(())
}

fn add_outputs<'t>(
    tree: &'t Tree<'t>,
    outputs: &mut IndexMap<&'t [u8], usize>,
) -> Result<(), AllocError> {
    for port in 0..tree.output_count() {
        outputs.insert(tree.output_name(port).as_bytes(), port)?;
    }
    Ok(())
}
