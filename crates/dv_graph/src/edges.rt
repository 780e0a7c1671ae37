//! The edges of `write_graph`.

use crate::graph_text::GraphText;
use crate::pieces::{Escaped, input_name, output_name};
use crate::scene::Scene;
use dv_flat::DirectLink;
use dv_partition::Groups;
use dv_text::WriteError;
use std::fmt;
use std::io::Write;

/// Writes all links as edges. With groups, links to another process are dashed.
///
/// # Errors
///
/// As of `write_graph`.
pub(crate) fn write_links<W: Write>(
    scene: Scene<'_>,
    text: &mut GraphText<'_, W>,
) -> Result<(), WriteError> {
    write_entries(scene, text)?;
    write_direct(scene, text)?;
    write_exits(scene, text)
}

// Writes the links from the root's inputs.
fn write_entries<W: Write>(
    scene: Scene<'_>,
    text: &mut GraphText<'_, W>,
) -> Result<(), WriteError> {
    for link in &scene.links.entries {
        let (from, to) = (link.from, link.to);
        text.put(format_args!(
            "\ti{from} -> c{} [label=\"{}{}\"];\n",
            to.component,
            Escaped(input_name(scene.tree, to)),
            Copies(link.copies)
        ))?;
    }
    Ok(())
}

// Writes the links between components.
fn write_direct<W: Write>(scene: Scene<'_>, text: &mut GraphText<'_, W>) -> Result<(), WriteError> {
    for link in &scene.links.direct {
        let (from, to) = (link.from, link.to);
        let style = if is_crossing(scene.groups, link) {
            ", style=dashed"
        } else {
            ""
        };
        text.put(format_args!(
            "\tc{} -> c{} [label=\"{} -> {}{}\"{style}];\n",
            from.component,
            to.component,
            Escaped(output_name(scene.tree, from)),
            Escaped(input_name(scene.tree, to)),
            Copies(link.copies)
        ))?;
    }
    Ok(())
}

// Writes the links to the root's outputs.
fn write_exits<W: Write>(scene: Scene<'_>, text: &mut GraphText<'_, W>) -> Result<(), WriteError> {
    for link in &scene.links.exits {
        let (from, to) = (link.from, link.to);
        text.put(format_args!(
            "\tc{} -> o{to} [label=\"{}{}\"];\n",
            from.component,
            Escaped(output_name(scene.tree, from)),
            Copies(link.copies)
        ))?;
    }
    Ok(())
}

/// Whether a link leads to another process.
pub(crate) fn is_crossing(groups: Option<&Groups>, link: &DirectLink) -> bool {
    match groups {
        Some(groups) => groups.owner(link.from.component) != groups.owner(link.to.component),
        None => false,
    }
}

// The number of copies of a link, displayed if there are several.
#[derive(Clone, Copy)]
struct Copies(u64);

impl fmt::Display for Copies {
    fn fmt<W: fmt::Write>(&self, f: &mut fmt::Formatter<W>) -> fmt::Result {
        match self.0 {
            0 | 1 => Ok(()),
            copies => write!(f, " x{copies}"),
        }
    }
}
