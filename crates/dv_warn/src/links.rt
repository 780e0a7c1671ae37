//! Which ports have links.

use crate::warning::Direction;
use dv_syntax::Model;
use dv_tree::{Coupling, Level, Target, Tree, level_at};
use std::alloc::{AllocError, Global};

/// Which ports of a model have links from outside, at any of the parts that are of this model.
#[derive(Drop)]
pub(crate) struct PortLinks {
    // Whether one of the parts has a link.
    is_linked: bool,
    inputs: Vec<bool>,
    outputs: Vec<bool>,
    // The indices of the input ports to which links lead, ascending.
    fed: Vec<usize>,
}

impl PortLinks {
    // Ports without links.
    fn new(alloc: Global, inputs: usize, outputs: usize) -> Result<Self, AllocError> {
        Ok(PortLinks {
            is_linked: false,
            inputs: vec![in alloc; false; inputs]?,
            outputs: vec![in alloc; false; outputs]?,
            fed: Vec::new(alloc),
        })
    }

    /// Whether the port at an index has a link. Also true if no part of the model has a link at
    /// all: then each part has a warning of its own.
    pub(crate) fn has_link(&self, direction: Direction, port: Option<usize>) -> bool {
        !self.is_linked || is_marked(self.ports(direction), port)
    }

    // For each port of a direction, whether it has a link.
    fn ports(&self, direction: Direction) -> &[bool] {
        match direction {
            Direction::Input => &self.inputs,
            Direction::Output => &self.outputs,
        }
    }

    /// The indices of the input ports to which links lead, ascending.
    pub(crate) fn fed_inputs(&self) -> &[usize] {
        &self.fed
    }

    /// Whether the model has ports.
    pub(crate) fn has_ports(&self) -> bool {
        !self.inputs.is_empty() || !self.outputs.is_empty()
    }

    // Adds the links of a part that is of this model.
    fn add(&mut self, part: &PartLinks) {
        if part.has_links() {
            self.is_linked = true;
        }
        mark_all(&mut self.inputs, &part.inputs);
        mark_all(&mut self.outputs, &part.outputs);
    }

    // Lists the input ports with links, when all parts are added.
    fn finish(&mut self) -> Result<(), AllocError> {
        for (port, is_fed) in self.inputs.iter().enumerate() {
            if *is_fed {
                self.fed.push(port)?;
            }
        }
        Ok(())
    }
}

fn is_marked(marks: &[bool], port: Option<usize>) -> bool {
    match port {
        Some(port) => marks.get(port).copied().unwrap_or(false),
        None => false,
    }
}

fn mark_all(marks: &mut [bool], ports: &[usize]) {
    for port in ports {
        if let Some(mark) = marks.get_mut(*port) {
            *mark = true;
        }
    }
}

/// The indices of the ports of a part that have links, ascending, each once.
#[derive(Drop)]
pub(crate) struct PartLinks {
    pub(crate) inputs: Vec<usize>,
    pub(crate) outputs: Vec<usize>,
}

impl PartLinks {
    /// Whether a link leads to or from the part.
    pub(crate) fn has_links(&self) -> bool {
        !self.inputs.is_empty() || !self.outputs.is_empty()
    }

    /// Whether the port at an index has a link.
    pub(crate) fn has_link(&self, direction: Direction, port: usize) -> bool {
        match direction {
            Direction::Input => self.inputs.binary_search(&port).is_ok(),
            Direction::Output => self.outputs.binary_search(&port).is_ok(),
        }
    }
}

/// The links inside of a coupled model.
#[derive(Drop)]
pub(crate) struct InsideLinks {
    /// The model's own ports: inputs from which links lead to parts, and outputs to which links
    /// lead.
    pub(crate) own: PartLinks,
    /// The ports of its parts, by the index of the part.
    pub(crate) parts: Vec<PartLinks>,
}

/// The links inside of each model, by its index in `Tree::reached`. An atomic model has none.
///
/// # Errors
///
/// Memory is refused.
pub(crate) fn links_inside(alloc: Global, tree: &Tree<'_>) -> Result<Vec<InsideLinks>, AllocError> {
    let mut inside = Vec::with_capacity(alloc, tree.reached().len())?;
    for offset in 0..tree.reached().len() {
        inside.push(links_at(alloc, tree, offset)?)?;
    }
    Ok(inside)
}

fn links_at(alloc: Global, tree: &Tree<'_>, offset: usize) -> Result<InsideLinks, AllocError> {
    match level_at(tree.levels(), offset) {
        Some(level) => links_in(alloc, level),
        None => no_links(alloc, 0),
    }
}

fn no_links(alloc: Global, parts: usize) -> Result<InsideLinks, AllocError> {
    let mut inside = InsideLinks {
        own: no_ports(alloc),
        parts: Vec::with_capacity(alloc, parts)?,
    };
    for _part in 0..parts {
        inside.parts.push(no_ports(alloc))?;
    }
    Ok(inside)
}

fn no_ports(alloc: Global) -> PartLinks {
    PartLinks {
        inputs: Vec::new(alloc),
        outputs: Vec::new(alloc),
    }
}

fn links_in(alloc: Global, level: &Level) -> Result<InsideLinks, AllocError> {
    let mut inside = no_links(alloc, level.parts().len())?;
    inside.add_all(level)?;
    Ok(inside)
}

impl InsideLinks {
    // Adds the links of a level.
    fn add_all(&mut self, level: &Level) -> Result<(), AllocError> {
        for coupling in level.couplings_of_inputs() {
            self.own.inputs.push(coupling.port)?;
            self.add_target(coupling.target)?;
        }
        for part in 0..level.parts().len() {
            self.add_couplings(part, level.couplings_of_part(part))?;
        }
        self.sort();
        Ok(())
    }

    // Adds the links that lead from a part.
    fn add_couplings(&mut self, part: usize, couplings: &[Coupling]) -> Result<(), AllocError> {
        for coupling in couplings {
            if let Some(part) = self.parts.get_mut(part) {
                part.outputs.push(coupling.port)?;
            }
            self.add_target(coupling.target)?;
        }
        Ok(())
    }

    // Adds the port to which a link leads.
    fn add_target(&mut self, target: Target) -> Result<(), AllocError> {
        match target {
            Target::Own { port } => self.own.outputs.push(port)?,
            Target::OfPart { part, port } => {
                if let Some(part) = self.parts.get_mut(part) {
                    part.inputs.push(port)?;
                }
            }
        }
        Ok(())
    }

    // Sorts the ports, and leaves each once.
    fn sort(&mut self) {
        sort_ports(&mut self.own);
        for part in &mut self.parts {
            sort_ports(part);
        }
    }
}

fn sort_ports(links: &mut PartLinks) {
    links.inputs.sort_unstable();
    links.inputs.dedup();
    links.outputs.sort_unstable();
    links.outputs.dedup();
}

/// Which ports of each model have links from outside, by the model's index in `Tree::reached`.
///
/// # Errors
///
/// Memory is refused.
pub(crate) fn port_links(
    alloc: Global,
    tree: &Tree<'_>,
    inside: &[InsideLinks],
) -> Result<Vec<PortLinks>, AllocError> {
    let mut links = unlinked(alloc, tree)?;
    for (offset, inside) in inside.iter().enumerate() {
        if let Some(level) = level_at(tree.levels(), offset) {
            add_parts(&mut links, level, inside);
        }
    }
    for links in &mut links {
        links.finish()?;
    }
    Ok(links)
}

fn unlinked(alloc: Global, tree: &Tree<'_>) -> Result<Vec<PortLinks>, AllocError> {
    let mut links = Vec::with_capacity(alloc, tree.reached().len())?;
    for (model, scope) in tree.reached().iter().zip(tree.scopes()) {
        let (inputs, outputs) = match model {
            Model::Atomic(_) => (scope.inputs().len(), scope.outputs().len()),
            Model::Coupled(coupled) => (coupled.inputs.len(), coupled.outputs.len()),
        };
        links.push(PortLinks::new(alloc, inputs, outputs)?)?;
    }
    Ok(links)
}

// Adds the links of the parts of a coupled model to the models of these parts.
fn add_parts(links: &mut [PortLinks], level: &Level, inside: &InsideLinks) {
    for (part, part_links) in level.parts().iter().zip(&inside.parts) {
        if let Some(links) = links.get_mut(part.model) {
            links.add(part_links);
        }
    }
}
