//! The graph of a model.

use crate::edges::write_links;
use crate::graph_text::GraphText;
use crate::nodes::{Nodes, write_nodes};
use crate::scene::{Drawing, Scene, put_front};
use crate::unlinked::LinkedPorts;
use dv_check::GREATEST_DEPTH;
use dv_text::WriteError;
use std::alloc::Global;
use std::io::Write;

/// Writes a model as a graph in the DOT language.
///
/// A component is a node, labelled with the names of its part and its model, in the clusters of the
/// coupled models around it. The ports of the root are nodes too. An edge is a link between ports
/// of components, or from an input or to an output of the root, with no regard to the coupled
/// models through which it leads. Unlinked ports are shown in grey. With a partition all components
/// of a process have the same colour, and links to another process are dashed.
///
/// # Errors
///
/// `WriteError::Write` if a write fails or takes nothing, `WriteError::Memory` if memory is
/// refused. Then only a part of the graph is written, from its beginning on.
pub fn write_graph<W: Write>(
    alloc: Global,
    drawing: Drawing<'_>,
    writer: &mut W,
) -> Result<(), WriteError> {
    let linked = LinkedPorts::of(alloc, drawing.links)?;
    let scene = Scene::of(alloc, drawing, &linked);
    write_scene(scene, &mut GraphText::new(alloc, writer))
}

fn write_scene<W: Write>(scene: Scene<'_>, text: &mut GraphText<'_, W>) -> Result<(), WriteError> {
    put_front(scene, "", text)?;
    write_all_nodes(scene, text)?;
    write_links(scene, text)?;
    text.end()
}

// Writes the nodes of the components, at all depths.
fn write_all_nodes<W: Write>(
    scene: Scene<'_>,
    text: &mut GraphText<'_, W>,
) -> Result<(), WriteError> {
    match scene.tree.root_level() {
        Some(level) => {
            let mut nodes = Nodes::new(scene.alloc);
            write_nodes(scene, level, u64::MAX, GREATEST_DEPTH, &mut nodes, text)
        }
        None => Ok(()),
    }
}
