//! The nodes of components and of coupled models, inside of clusters.

use crate::graph_text::GraphText;
use crate::number::number_of;
use crate::pieces::{Escaped, PartLabel, tabs, tabs_at};
use crate::processes::{Colour, Place, PlaceLine};
use crate::scene::Scene;
use crate::unlinked::{UnlinkedPorts, unlinked_of};
use dv_check::GREATEST_DEPTH;
use dv_text::WriteError;
use dv_tree::{Level, ResolvedPart, level_at};
use std::alloc::{AllocError, Global};
use std::fmt;
use std::io::Write;

/// What a node shows. `Display` writes the name of the node.
#[derive(Clone, Copy)]
pub(crate) enum Node {
    /// A component, by its number.
    Component(u32),
    /// A coupled model that is drawn as one box, by its number among the boxes.
    Box(u32),
    /// An input port of the root, by its index.
    Input(u32),
    /// An output port of the root, by its index.
    Output(u32),
}

impl fmt::Display for Node {
    fn fmt<W: fmt::Write>(&self, f: &mut fmt::Formatter<W>) -> fmt::Result {
        match self {
            Node::Component(number) => write!(f, "c{number}"),
            Node::Box(number) => write!(f, "m{number}"),
            Node::Input(port) => write!(f, "i{port}"),
            Node::Output(port) => write!(f, "o{port}"),
        }
    }
}

/// The nodes that are written so far, and which of them has which component.
#[derive(Drop)]
pub(crate) struct Nodes {
    pub(crate) nodes: Vec<Node>,
    /// For each node, the number of the part of the root in which it is. A port of the root counts
    /// as a part.
    pub(crate) parts: Vec<u32>,
    // The number of the current part of the root.
    part: u32,
    // For each component, the index of its node.
    indices: Vec<u32>,
    boxes: u32,
    clusters: u32,
    first_input: u32,
    first_output: u32,
}

impl Nodes {
    /// No nodes yet.
    pub(crate) fn new(alloc: Global) -> Self {
        Nodes {
            nodes: Vec::new(alloc),
            parts: Vec::new(alloc),
            part: 0,
            indices: Vec::new(alloc),
            boxes: 0,
            clusters: 0,
            first_input: 0,
            first_output: 0,
        }
    }

    /// The index of the node that shows a component: its own node or a box.
    pub(crate) fn index_of(&self, component: u32) -> u32 {
        self.indices.get(component as usize).copied().unwrap_or(0)
    }

    /// Whether the node at an index is a component, not a box or a port.
    pub(crate) fn is_component(&self, index: u32) -> bool {
        matches!(self.nodes.get(index as usize), Some(Node::Component(_)))
    }

    // Begins the next part of the root.
    fn begin_part(&mut self) {
        self.part = self.part.saturating_add(1);
    }

    fn add(&mut self, node: Node) -> Result<(), AllocError> {
        self.nodes.push(node)?;
        self.parts.push(self.part)?;
        Ok(())
    }

    // Adds a node for the next component, and returns the component's number.
    fn add_component(&mut self) -> Result<u32, AllocError> {
        let component = number_of(self.indices.len());
        self.indices.push(number_of(self.nodes.len()))?;
        self.add(Node::Component(component))?;
        Ok(component)
    }

    // Adds a box for the next components, and returns it.
    fn add_box(&mut self, components: usize) -> Result<Node, AllocError> {
        let index = number_of(self.nodes.len());
        for _component in 0..components {
            self.indices.push(index)?;
        }
        let node = Node::Box(self.boxes);
        self.boxes = self.boxes.saturating_add(1);
        self.add(node)?;
        Ok(node)
    }

    // Returns the number of the next cluster, and counts it.
    fn add_cluster(&mut self) -> u32 {
        let number = self.clusters;
        self.clusters = number.saturating_add(1);
        number
    }

    /// Adds nodes for the ports of the root, inputs before outputs.
    ///
    /// # Errors
    ///
    /// Memory is refused.
    pub(crate) fn add_ports(&mut self, inputs: usize, outputs: usize) -> Result<(), AllocError> {
        self.first_input = number_of(self.nodes.len());
        for port in 0..inputs {
            self.begin_part();
            self.add(Node::Input(number_of(port)))?;
        }
        self.first_output = number_of(self.nodes.len());
        for port in 0..outputs {
            self.begin_part();
            self.add(Node::Output(number_of(port)))?;
        }
        Ok(())
    }

    /// The index of the node of an input of the root.
    pub(crate) fn input(&self, port: u32) -> u32 {
        self.first_input.saturating_add(port)
    }

    /// The index of the node of an output of the root.
    pub(crate) fn output(&self, port: u32) -> u32 {
        self.first_output.saturating_add(port)
    }
}

/// Writes the parts of a coupled model. A component is a node. A coupled model is a cluster with
/// its parts, or one box if `shown` is 1. `shown` is how many levels are shown, `depth` how many
/// there can be at most.
///
/// # Errors
///
/// As of `write_graph`.
pub(crate) fn write_nodes<W: Write>(
    scene: Scene<'_>,
    level: &Level,
    shown: u64,
    depth: usize,
    nodes: &mut Nodes,
    text: &mut GraphText<'_, W>,
) -> Result<(), WriteError> {
    if depth == 0 {
        return Ok(());
    }
    for part in level.parts() {
        if depth == GREATEST_DEPTH {
            nodes.begin_part();
        }
        match level_at(scene.tree.levels(), part.model) {
            Some(inside) if shown > 1 => {
                put_cluster_front(scene, part, nodes.add_cluster(), depth, text)?;
                write_nodes(scene, inside, shown - 1, depth - 1, nodes, text)?;
                text.put(format_args!("{}}}\n", tabs(tabs_at(depth))))?;
            }
            inside => put_part(scene, part, inside, depth, nodes, text)?,
        }
    }
    Ok(())
}

// Begins a cluster.
fn put_cluster_front<W: Write>(
    scene: Scene<'_>,
    part: &ResolvedPart,
    number: u32,
    depth: usize,
    text: &mut GraphText<'_, W>,
) -> Result<(), WriteError> {
    let count = tabs_at(depth);
    text.put(format_args!(
        "{}subgraph cluster_{number} {{\n{}label=\"{}\"\n",
        tabs(count),
        tabs(count.saturating_add(1)),
        PartLabel::of(scene.tree, part)
    ))
}

// Writes a part as one node: a component, or a coupled model as a box.
fn put_part<W: Write>(
    scene: Scene<'_>,
    part: &ResolvedPart,
    inside: Option<&Level>,
    depth: usize,
    nodes: &mut Nodes,
    text: &mut GraphText<'_, W>,
) -> Result<(), WriteError> {
    text.put(tabs(tabs_at(depth)))?;
    let label = PartLabel::of(scene.tree, part);
    match inside {
        Some(level) => {
            let count = components_in(scene.tree.levels(), level, GREATEST_DEPTH);
            put_box(scene, label, count, nodes, text)
        }
        None => put_component(scene, label, nodes.add_component()?, text),
    }
}

/// Writes the root as one box.
///
/// # Errors
///
/// As of `write_graph`.
pub(crate) fn put_root_box<W: Write>(
    scene: Scene<'_>,
    nodes: &mut Nodes,
    text: &mut GraphText<'_, W>,
) -> Result<(), WriteError> {
    text.put("\t")?;
    let label = Escaped(scene.tree.name(scene.tree.file().root.number));
    put_box(scene, label, scene.tree.component_count(), nodes, text)
}

// Writes a box for the next `count` components.
fn put_box<L: fmt::Display + Drop, W: Write>(
    scene: Scene<'_>,
    label: L,
    count: usize,
    nodes: &mut Nodes,
    text: &mut GraphText<'_, W>,
) -> Result<(), WriteError> {
    let place = Place::of(scene.groups, nodes.indices.len(), count);
    let node = nodes.add_box(count)?;
    let plural = if count == 1 { "" } else { "s" };
    let line = PlaceLine("\\n", place);
    let colour = Colour(place);
    text.put(format_args!(
        "{node} [label=\"{label}\\n{count} component{plural}{line}\"{colour}];\n"
    ))
}

// Writes the node of a component. Its unlinked ports are named in grey, if it has any.
fn put_component<W: Write>(
    scene: Scene<'_>,
    label: PartLabel<'_>,
    component: u32,
    text: &mut GraphText<'_, W>,
) -> Result<(), WriteError> {
    let place = Place::of(scene.groups, component as usize, 1);
    let unlinked = unlinked_of(scene, component)?;
    if unlinked.is_empty() {
        let line = PlaceLine("\\n", place);
        let colour = Colour(place);
        text.put(format_args!("c{component} [label=\"{label}{line}\"{colour}];\n"))
    } else {
        put_unlinked(component, label, place, UnlinkedPorts(&unlinked), text)
    }
}

// Writes the node of a component with unlinked ports. Its label is HTML; no name has a character
// that has a meaning in HTML.
fn put_unlinked<W: Write>(
    component: u32,
    label: PartLabel<'_>,
    place: Place,
    ports: UnlinkedPorts<'_, '_>,
    text: &mut GraphText<'_, W>,
) -> Result<(), WriteError> {
    let line = PlaceLine("<br/>", place);
    let colour = Colour(place);
    text.put(format_args!("c{component} [label=<{label}{line}{ports}>{colour}];\n"))
}

// How many components a coupled model has, at all levels below it.
fn components_in(levels: &[Option<Level>], level: &Level, depth: usize) -> usize {
    if depth == 0 {
        return 0;
    }
    let mut count: usize = 0;
    for part in level.parts() {
        count = count.saturating_add(match level_at(levels, part.model) {
            Some(inside) => components_in(levels, inside, depth - 1),
            None => 1,
        });
    }
    count
}
