//! The names that a plan prints.

ghost use Rattle.std.specs.Prelude.{◌≡◌, IfOk};
ghost use Rattle.dv_tree.specs.Paths.{name_at, texts_of};

use dv_plan::Names;
use dv_tree::Tree;
use std::alloc::{AllocError, Global};
use std::marker::Model;

/// The names of the components and the ports of a tree.
#[derive(Drop)]
pub struct TreeNames<'t> {
    tree: &'t Tree<'t>,
    inputs: Vec<String>,
}

impl<'t> Model for TreeNames<'t> {
    ghost use Rattle.std.specs.Prelude.{◌≡◌, map, string_bytes};
    ghost use Rattle.dv_syntax.specs.Trees.{file_of};
    ghost use Rattle.dv_tree.specs.Instances.{root_inputs};
    ghost use Rattle.dv_tree.specs.Paths.{texts_of};
    ghost use Rattle.dv_tree.specs.Tables.{Source, source_code};

    ghost Value = { Source };

    ghost coded = { source_code };

    ghost view = { λ n. n.tree.now };

    ghost invariant = { λ n. map string_bytes n.inputs.items
        ≡ texts_of n.tree.now.names (root_inputs (file_of n.tree.now.file)) };
}

impl<'t> TreeNames<'t> {
    /// The names of a tree.
    ///
    /// # Errors
    ///
    /// No memory for the names of the root's input ports.
    pub fn of(alloc: Global, tree: &'t Tree<'t>) -> Result<Self, AllocError>
        ensures { IfOk result (λ names. names ≡ tree.now) }
    {
        Ok(TreeNames {
            tree,
            inputs: tree.input_names(alloc)?,
        })
    }
}

impl Names for TreeNames<'_> {
    ghost use Rattle.dv_syntax.specs.Trees.{file_of};
    ghost use Rattle.dv_job.specs.Names.{plan_names};

    ghost names = { λ s. plan_names s.names (file_of s.file) };

    fn components(&self) -> u32 {
        self.tree.component_count() as u32
    }

    fn path(&self, alloc: Global, component: u32) -> Result<String, AllocError> {
        let component = component as usize;
        if component < self.tree.component_count() {
            self.tree.path_text(alloc, component)
        } else {
            Ok(String::new(alloc))
        }
    }

    fn input(&self, component: u32, port: u32) -> &str {
        let component = component as usize;
        if component < self.tree.component_count() {
            name_at(self.tree, self.tree.scope(component).inputs(), port)
        } else {
            ""
        }
    }

    fn output(&self, component: u32, port: u32) -> &str {
        let component = component as usize;
        if component < self.tree.component_count() {
            name_at(self.tree, self.tree.scope(component).outputs(), port)
        } else {
            ""
        }
    }

    fn root_input(&self, port: u32) -> &str {
        match self.inputs.get(port as usize) {
            Some(name) => name.as_str(),
            None => "",
        }
    }

    fn root_output(&self, port: u32) -> &str {
        let port = port as usize;
        if port < self.tree.output_count() {
            self.tree.output_name(port)
        } else {
            ""
        }
    }
}

// The name of the port at an index.
fn name_at<'t>(tree: &'t Tree<'_>, ports: &[u32], port: u32) -> &'t str
    ensures { result.now ≡ name_at (texts_of tree.now.names ports.now) port }
{
    match ports.get(port as usize) {
        Some(number) => tree.name(*number),
        None => "",
    }
}
