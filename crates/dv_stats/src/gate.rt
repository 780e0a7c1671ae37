//! The ports by which values come in or go out.

use dv_trace::model::{component_in, index_of, output_named, push_names};
use dv_tree::Tree;
use std::alloc::{AllocError, Global};

/// A port by which values come in or go out.
#[derive(Clone, Copy)]
pub enum Gate {
    /// An input port of the root.
    Input(u32),
    /// An output port of a component.
    Component {
        /// The number of the component.
        component: u32,
        /// The index of the port.
        port: usize,
    },
    /// An output port of the root.
    Output(usize),
}

impl Gate {
    /// The port of this name. The name of a component's output port is the path of the component, a
    /// dot, and its own name; that of an output or an input of the root is its own name. `None` if
    /// no port has the name.
    ///
    /// # Errors
    ///
    /// An allocation was refused.
    pub fn named(alloc: Global, tree: &Tree<'_>, name: &str) -> Result<Option<Self>, AllocError> {
        if let Some((component, Some(member))) = component_in(alloc, tree, name)?
            && component < tree.component_count()
            && let Some(port) = index_of(tree, tree.scope(component).outputs(), member)
        {
            let component = component as u32;
            return Ok(Some(Gate::Component { component, port }));
        }
        match output_named(tree, name) {
            Some(port) => Ok(Some(Gate::Output(port))),
            None => input_named(alloc, tree, name),
        }
    }

    /// Whether what an entry of this component sends by the port at an index passes here. Without a
    /// component, it is what leaves the model by an output port of the root.
    pub(crate) fn is_at(self, component: Option<u32>, port: usize) -> bool {
        match (self, component) {
            (
                Gate::Component {
                    component: own,
                    port: own_port,
                },
                Some(component),
            ) => own == component && own_port == port,
            (Gate::Output(own_port), None) => own_port == port,
            (Gate::Input(_) | Gate::Component { .. } | Gate::Output(_), _) => false,
        }
    }
}

// The input port of the root that has this name.
fn input_named(alloc: Global, tree: &Tree<'_>, name: &str) -> Result<Option<Gate>, AllocError> {
    let inputs = tree.input_names(alloc)?;
    for (port, input) in inputs.iter().enumerate() {
        if input.as_str() == name {
            return Ok(Some(Gate::Input(port as u32)));
        }
    }
    Ok(None)
}

/// The names of all ports by which values may come in or go out.
///
/// # Errors
///
/// An allocation was refused.
pub fn gate_names(alloc: Global, tree: &Tree<'_>) -> Result<Vec<String>, AllocError> {
    let mut names = tree.input_names(alloc)?;
    push_names(alloc, tree, &mut names, false)?;
    Ok(names)
}
