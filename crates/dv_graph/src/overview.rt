//! An overview of a model.

use crate::graph_text::GraphText;
use crate::joined::{JoinedLinks, joined_links};
use crate::nodes::{Node, Nodes, put_root_box, write_nodes};
use crate::rows::Rows;
use crate::scene::{Drawing, Scene, put_front};
use crate::unlinked::LinkedPorts;
use dv_check::GREATEST_DEPTH;
use dv_text::WriteError;
use std::alloc::Global;
use std::fmt;
use std::io::Write;

/// Writes an overview of a model as a graph in the DOT language.
///
/// The root is at depth 0, its parts are at depth 1. A coupled model at `depth` is one box,
/// labelled with the number of its components. What is above that depth is drawn as by
/// `write_graph`. All links from one node to another are one edge. If there are several, counted
/// with their copies, their number is its label. Links inside of a box are not drawn. A long line
/// of nodes is broken into rows. With a partition a box whose components are all in one process has
/// the colour of this process, and an edge is dashed if one of its links leads to another process.
///
/// # Errors
///
/// `WriteError::Write` if a write fails or takes nothing, `WriteError::Memory` if memory is
/// refused. Then only a part of the graph is written, from its beginning on.
pub fn write_overview<W: Write>(
    alloc: Global,
    drawing: Drawing<'_>,
    depth: u64,
    writer: &mut W,
) -> Result<(), WriteError> {
    let linked = LinkedPorts::of(alloc, drawing.links)?;
    let whole = Scene::of(alloc, drawing, &linked);
    let scene = Scene {
        names_unlinked: false,
        ..whole
    };
    let mut nodes = Nodes::new(alloc);
    write_scene(scene, depth, &mut nodes, &mut GraphText::new(alloc, writer))
}

fn write_scene<W: Write>(
    scene: Scene<'_>,
    depth: u64,
    nodes: &mut Nodes,
    text: &mut GraphText<'_, W>,
) -> Result<(), WriteError> {
    put_front(scene, "\tnewrank=true;\n", text)?;
    write_inside(scene, depth, nodes, text)?;
    nodes.add_ports(scene.tree.input_count(), scene.tree.output_count())?;
    write_joined(scene, nodes, text)?;
    text.end()
}

// Writes the root as one box, or the nodes of its parts.
fn write_inside<W: Write>(
    scene: Scene<'_>,
    depth: u64,
    nodes: &mut Nodes,
    text: &mut GraphText<'_, W>,
) -> Result<(), WriteError> {
    match scene.tree.root_level() {
        Some(level) if depth > 0 => write_nodes(scene, level, depth, GREATEST_DEPTH, nodes, text),
        Some(_) | None => put_root_box(scene, nodes, text),
    }
}

// Writes the edges.
fn write_joined<W: Write>(
    scene: Scene<'_>,
    nodes: &Nodes,
    text: &mut GraphText<'_, W>,
) -> Result<(), WriteError> {
    let joined = joined_links(scene, nodes)?;
    let rows = Rows::of(scene.alloc, &nodes.parts, &joined)?;
    write_edges(&nodes.nodes, &joined, &rows, text)
}

fn write_edges<W: Write>(
    nodes: &[Node],
    joined: &[JoinedLinks],
    rows: &Rows<'_>,
    text: &mut GraphText<'_, W>,
) -> Result<(), WriteError> {
    for links in joined {
        if let Some(from) = nodes.get(links.from as usize)
            && let Some(to) = nodes.get(links.to as usize)
        {
            let looks = Looks {
                count: links.count,
                style: style_of(links.is_crossing, rows.are_between(links)),
            };
            text.put(format_args!("\t{from} -> {to}{looks};\n"))?;
        }
    }
    Ok(())
}

// The label and the style of an edge, by how many links it is.
#[derive(Clone, Copy)]
struct Looks {
    count: u64,
    style: &'static str,
}

// An edge between rows must not move nodes, so it is no constraint for Graphviz.
fn style_of(is_crossing: bool, is_between_rows: bool) -> &'static str {
    match (is_crossing, is_between_rows) {
        (false, false) => "",
        (true, false) => "style=dashed",
        (false, true) => "constraint=false",
        (true, true) => "style=dashed, constraint=false",
    }
}

impl fmt::Display for Looks {
    fn fmt<W: fmt::Write>(&self, f: &mut fmt::Formatter<W>) -> fmt::Result {
        let Looks { count, style } = self;
        match (*count > 1, style.is_empty()) {
            (false, true) => Ok(()),
            (false, false) => write!(f, " [{style}]"),
            (true, true) => write!(f, " [label=\"{count} links\"]"),
            (true, false) => write!(f, " [label=\"{count} links\", {style}]"),
        }
    }
}
