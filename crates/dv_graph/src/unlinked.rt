//! Unlinked ports: no link leads from an output, or to an input.

use crate::number::number_of;
use crate::pieces::{Escaped, inputs_of, outputs_of};
use crate::scene::Scene;
use dv_flat::{ComponentPort, LinkLists};
use std::alloc::{AllocError, Global};
use std::fmt;

/// The greatest number of unlinked ports that the label of a node names.
const MOST_NAMED: usize = 3;

/// The ports from which and to which links between components lead, and links from inputs and to
/// outputs of the root. Each list is ascending. A port of a component is the component's number and
/// the port's index.
#[derive(Drop)]
pub(crate) struct LinkedPorts {
    inputs: Vec<(u32, u32)>,
    outputs: Vec<(u32, u32)>,
    root_inputs: Vec<u32>,
    root_outputs: Vec<u32>,
}

impl LinkedPorts {
    /// The ports of the given links.
    ///
    /// # Errors
    ///
    /// Memory is refused.
    pub(crate) fn of(alloc: Global, links: &LinkLists) -> Result<Self, AllocError> {
        let mut ports = LinkedPorts {
            inputs: Vec::new(alloc),
            outputs: Vec::new(alloc),
            root_inputs: Vec::new(alloc),
            root_outputs: Vec::new(alloc),
        };
        ports.add(links)?;
        Ok(ports)
    }

    fn add(&mut self, links: &LinkLists) -> Result<(), AllocError> {
        for link in &links.direct {
            self.outputs.push(pair(link.from))?;
            self.inputs.push(pair(link.to))?;
        }
        for link in &links.entries {
            self.root_inputs.push(link.from)?;
            self.inputs.push(pair(link.to))?;
        }
        for link in &links.exits {
            self.outputs.push(pair(link.from))?;
            self.root_outputs.push(link.to)?;
        }
        self.inputs.sort_unstable();
        self.outputs.sort_unstable();
        self.root_inputs.sort_unstable();
        self.root_outputs.sort_unstable();
        Ok(())
    }

    /// Whether a link leads from an input port of the root.
    pub(crate) fn has_root_input(&self, port: u32) -> bool {
        self.root_inputs.binary_search(&port).is_ok()
    }

    /// Whether a link leads to an output port of the root.
    pub(crate) fn has_root_output(&self, port: u32) -> bool {
        self.root_outputs.binary_search(&port).is_ok()
    }
}

// A component and a port of it.
fn pair(port: ComponentPort) -> (u32, u32) {
    (port.component, port.port)
}

/// An unlinked port of a component.
#[derive(Clone, Copy)]
pub(crate) struct UnlinkedPort<'t> {
    direction: &'static str,
    name: &'t str,
}

/// The unlinked ports of a component that its node names: first its inputs, then its outputs. There
/// are none if the scene names no unlinked ports.
///
/// # Errors
///
/// Memory is refused.
pub(crate) fn unlinked_of<'s>(
    scene: Scene<'s>,
    component: u32,
) -> Result<Vec<UnlinkedPort<'s>>, AllocError> {
    let mut unlinked = Vec::new(scene.alloc);
    if scene.names_unlinked {
        let inputs = Side {
            direction: "in",
            names: inputs_of(scene.tree, component),
            linked: &scene.linked.inputs,
        };
        let outputs = Side {
            direction: "out",
            names: outputs_of(scene.tree, component),
            linked: &scene.linked.outputs,
        };
        push_unlinked(&mut unlinked, scene, component, inputs)?;
        push_unlinked(&mut unlinked, scene, component, outputs)?;
    }
    Ok(unlinked)
}

// The inputs or the outputs of a component, and the linked inputs or outputs of all components.
#[derive(Clone, Copy)]
struct Side<'s> {
    direction: &'static str,
    names: &'s [u32],
    linked: &'s [(u32, u32)],
}

fn push_unlinked<'s>(
    unlinked: &mut Vec<UnlinkedPort<'s>>,
    scene: Scene<'s>,
    component: u32,
    side: Side<'_>,
) -> Result<(), AllocError> {
    for (port, name) in side.names.iter().enumerate() {
        let port = (component, number_of(port));
        if side.linked.binary_search(&port).is_err() {
            unlinked.push(UnlinkedPort {
                direction: side.direction,
                name: scene.tree.name(*name),
            })?;
        }
    }
    Ok(())
}

/// Unlinked ports as a grey line of a label: the first ones, and how many more there are.
#[derive(Clone, Copy)]
pub(crate) struct UnlinkedPorts<'p, 't>(pub(crate) &'p [UnlinkedPort<'t>]);

impl fmt::Display for UnlinkedPorts<'_, '_> {
    fn fmt<W: fmt::Write>(&self, f: &mut fmt::Formatter<W>) -> fmt::Result {
        f.write_str("<br/><font point-size=\"10\" color=\"gray40\">unlinked: ")?;
        for (index, port) in self.0.iter().take(MOST_NAMED).enumerate() {
            let separator = if index == 0 { "" } else { ", " };
            write!(f, "{separator}{} {}", port.direction, Escaped(port.name))?;
        }
        match self.0.len().saturating_sub(MOST_NAMED) {
            0 => f.write_str("</font>"),
            more => write!(f, " and {more} more</font>"),
        }
    }
}
