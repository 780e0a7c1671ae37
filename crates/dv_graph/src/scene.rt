//! What is drawn of a model, and how its graph begins.

use crate::graph_text::GraphText;
use crate::number::number_of;
use crate::pieces::Escaped;
use crate::unlinked::LinkedPorts;
use dv_flat::LinkLists;
use dv_partition::Groups;
use dv_text::WriteError;
use dv_tree::Tree;
use std::alloc::Global;
use std::io::Write;

/// A model to be drawn, with its links and, if there is a partition, its processes.
#[derive(Clone, Copy)]
pub struct Drawing<'d> {
    pub(crate) tree: &'d Tree<'d>,
    pub(crate) links: &'d LinkLists,
    /// Which process has which components, if there is a partition.
    pub(crate) groups: Option<&'d Groups>,
}

impl<'d> Drawing<'d> {
    /// The model of a tree. `links` are those of the same tree, and `groups` is the partition, if
    /// processes are to be shown.
    pub fn of(tree: &'d Tree<'d>, links: &'d LinkLists, groups: Option<&'d Groups>) -> Self {
        Drawing {
            tree,
            links,
            groups,
        }
    }
}

/// A model, and what is drawn of it.
#[derive(Clone, Copy)]
pub(crate) struct Scene<'s> {
    pub(crate) alloc: Global,
    pub(crate) tree: &'s Tree<'s>,
    pub(crate) links: &'s LinkLists,
    /// Which process has which components, if there is a partition.
    pub(crate) groups: Option<&'s Groups>,
    pub(crate) linked: &'s LinkedPorts,
    /// Whether the node of a component names its unlinked ports.
    pub(crate) names_unlinked: bool,
}

impl<'s> Scene<'s> {
    /// All of a model, whose linked ports are given.
    pub(crate) fn of(alloc: Global, drawing: Drawing<'s>, linked: &'s LinkedPorts) -> Self {
        Scene {
            alloc,
            tree: drawing.tree,
            links: drawing.links,
            groups: drawing.groups,
            linked,
            names_unlinked: true,
        }
    }
}

/// Begins a graph: its name, the style of nodes, further settings, and the nodes of the root's
/// ports.
///
/// # Errors
///
/// As of `write_graph`.
pub(crate) fn put_front<W: Write>(
    scene: Scene<'_>,
    settings: &str,
    text: &mut GraphText<'_, W>,
) -> Result<(), WriteError> {
    let name = Escaped(scene.tree.name(scene.tree.file().root.number));
    text.put(format_args!("digraph \"{name}\" {{\n\trankdir=LR;\n"))?;
    text.put(format_args!("\tnode [shape=box, style=filled, fillcolor=white];\n{settings}"))?;
    put_inputs(scene, text)?;
    put_outputs(scene, text)
}

// Writes the nodes of the root's inputs. Unlinked ones are grey.
fn put_inputs<W: Write>(scene: Scene<'_>, text: &mut GraphText<'_, W>) -> Result<(), WriteError> {
    for (port, name) in scene.tree.input_names(scene.alloc)?.iter().enumerate() {
        let colour = port_colour(scene.linked.has_root_input(number_of(port)));
        text.put(format_args!(
            "\ti{port} [label=\"{}\", shape=invhouse, style=solid{colour}];\n",
            Escaped(name.as_str())
        ))?;
    }
    Ok(())
}

// Writes the nodes of the root's outputs. Unlinked ones are grey.
fn put_outputs<W: Write>(scene: Scene<'_>, text: &mut GraphText<'_, W>) -> Result<(), WriteError> {
    for port in 0..scene.tree.output_count() {
        let colour = port_colour(scene.linked.has_root_output(number_of(port)));
        text.put(format_args!(
            "\to{port} [label=\"{}\", shape=house, style=solid{colour}];\n",
            Escaped(scene.tree.output_name(port))
        ))?;
    }
    Ok(())
}

// The colour of the node of a port, as attributes. A linked port has none.
fn port_colour(is_linked: bool) -> &'static str {
    if is_linked {
        ""
    } else {
        ", color=gray40, fontcolor=gray40"
    }
}
