//! The graph of a model.

ghost use Rattle.std.specs.Prelude.{◌≡◌, None};
ghost use Rattle.dv_flat.specs.Limit.{link_refusal};
ghost use Rattle.dv_syntax.specs.Trees.{file_of};

use crate::error::ViewError;
use dv_flat::{flatten, paths_of};
use dv_graph::{Drawing, write_graph, write_overview, write_phases};
use dv_hints::unknown_name;
use dv_job::load::{accept, load};
use dv_partition::{Groups, Partition, partition};
use dv_syntax::{Atomic, Model};
use dv_tree::Tree;
use std::alloc::{AllocError, Global};
use std::io::Write;

/// Options of a graph.
#[derive(Clone, Copy)]
pub struct GraphOptions<'a> {
    /// The partition, if processes are to be shown.
    pub groups: Option<Partition<'a>>,
    /// What of the model is shown.
    pub shown: Shown<'a>,
}

/// What of a model a graph shows.
#[derive(Clone, Copy, PartialEq, Eq)]
pub enum Shown<'a> {
    /// All components.
    All,
    /// An overview, in which coupled models at this depth are boxes. The root is at depth 0, its
    /// parts are at depth 1.
    Depth(u64),
    /// The phases of the atomic model of this name. A partition is not read then.
    Phases(&'a str),
}

/// Writes a graph of a model in the DOT language: all its components, an overview, or the phases of
/// one atomic model. If there is a partition, the processes are shown.
///
/// # Errors
///
/// - `Job` with `Text`: the model is refused. `Job` with `Partition`: the model is accepted, and
///   the partition is refused. `NoPhases`: the model is accepted, and no atomic model has the name.
///   Nothing was written in these cases.
/// - `Job` with `Write`: a write failed. `Job` with `Memory`: an allocation was refused. The writer
///   holds a beginning of the graph, for `Memory` perhaps nothing.
pub fn graph_bytes<W: Write>(
    alloc: Global,
    model: &[u8],
    options: &GraphOptions<'_>,
    writer: &mut W,
) -> Result<(), ViewError> {
    let checked = load(alloc, model)?;
    let tree = accept(alloc, model, &checked)?;
    match options.shown {
        Shown::All => graph_tree(alloc, &tree, options.groups, None, writer),
        Shown::Depth(depth) => graph_tree(alloc, &tree, options.groups, Some(depth), writer),
        Shown::Phases(name) => {
            let atomic = atomic_named(alloc, &tree, name)?;
            Ok(write_phases(alloc, &tree, atomic, writer)?)
        }
    }
}

// Writes all components of a model, or an overview if a depth is given.
fn graph_tree<W: Write>(
    alloc: Global,
    tree: &Tree<'_>,
    groups: Option<Partition<'_>>,
    depth: Option<u64>,
    writer: &mut W,
) -> Result<(), ViewError>
    requires few { link_refusal (file_of tree.now.file) ≡ None }
{
    let links = flatten(alloc, tree)?;
    let groups = groups_of(alloc, tree, groups)?;
    let drawing = Drawing::of(tree, &links, groups.as_ref());
    match depth {
        Some(depth) => write_overview(alloc, drawing, depth, writer)?,
        None => write_graph(alloc, drawing, writer)?,
    }
    Ok(())
}

// The groups of the components, if there is a partition.
fn groups_of(
    alloc: Global,
    tree: &Tree<'_>,
    groups: Option<Partition<'_>>,
) -> Result<Option<Groups>, ViewError> {
    let Some(groups) = groups else {
        return Ok(None);
    };
    // For the prover alone: a checked text has few components.
    let _few = tree.component_count();
    let paths = paths_of(alloc, tree)?;
    Ok(Some(partition(alloc, &paths, groups)?))
}

// The atomic model with a name, among all models of the text.
fn atomic_named<'t>(
    alloc: Global,
    tree: &'t Tree<'_>,
    name: &str,
) -> Result<&'t Atomic, ViewError> {
    for model in &tree.file().models {
        match model {
            Model::Atomic(atomic) if tree.name(atomic.name.number) == name => return Ok(atomic),
            Model::Coupled(coupled) if tree.name(coupled.name.number) == name => {
                return Err(ViewError::NoPhases(format!(in alloc;
                    "`{name}` is a coupled model, which has no phases"
                )?));
            }
            Model::Atomic(_) | Model::Coupled(_) => {}
        }
    }
    let names = atomic_names(alloc, tree)?;
    Err(ViewError::NoPhases(unknown_name(alloc, name, &names)?))
}

fn atomic_names<'t>(alloc: Global, tree: &'t Tree<'_>) -> Result<Vec<&'t str>, AllocError> {
    let mut names = Vec::new(alloc);
    for model in &tree.file().models {
        if let Model::Atomic(atomic) = model {
            names.push(tree.name(atomic.name.number))?;
        }
    }
    Ok(names)
}
