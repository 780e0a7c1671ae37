//! Directed graphs.

ghost use Rattle.std.specs.Prelude.{◌≡◌, ◌↔◌, ◌+◌, ◌<◌, ◌≤◌, [], ◌∷◌, ◌++◌, length, slice_index_or, slice_range, IsTrue, OnErr, OnOk, All};
ghost use Rattle.dv_cycles.specs.Cuts.{IsCut};
ghost use Rattle.dv_cycles.specs.Ways.{IsGraph};

use std::alloc::{AllocError, Global};
use std::marker::Model;

/// A directed graph: the targets of the edges of each node.
#[derive(Drop)]
pub struct Graph {
    /// For each node the index at which its edges begin; they end where those of the next one
    /// begin.
    starts: Vec<usize>,
    /// The targets of the edges.
    targets: Vec<usize>,
}

impl Model for Graph {
    ghost use Rattle.std.specs.Prelude.{ℕ, List, length};
    ghost use Rattle.dv_cycles.specs.Cuts.{IsCut, cut};

    ghost Value = { List (List ℕ) };

    ghost view = { λ g. cut g.starts.items g.targets.items };

    ghost invariant = { λ g. IsCut g.starts.items (length g.targets.items) };
}

impl Graph {
    /// The graph without nodes. It takes no memory.
    pub fn new(alloc: Global) -> Self
        ensures { result ≡ [] }
    {
        Graph {
            starts: Vec::new(alloc),
            targets: Vec::new(alloc),
        }
    }

    /// The number of nodes.
    pub fn len(&self) -> usize
        ensures { result ≡ length self.now }
    {
        self.starts.len()
    }

    /// Adds a node with edges to these nodes, which may be added later.
    ///
    /// # Errors
    ///
    /// No memory for the node and its edges. The graph is as before.
    pub fn push_node(&mut self, targets: &[usize]) -> Result<(), AllocError>
        ensures ok { OnOk result (self.new ≡ self.old ++ targets.now ∷ []) }
        ensures err { OnErr result (self.new ≡ self.old) }
    {
        self.starts.push(self.targets.len())?;
        if let Err(error) = self.targets.extend_from_slice(targets) {
            self.starts.pop();
            return Err(error);
        }
        Ok(())
    }

    /// The targets of the edges of a node.
    pub fn targets(&self, node: usize) -> &[usize]
        requires { node < length self.now }
        ensures { result.now ≡ slice_index_or self.now node [] }
    {
        part(&self.starts, &self.targets, node)
    }

    /// Whether each edge leads to a node of the graph.
    pub fn is_closed(&self) -> bool
        ensures { IsTrue result ↔ IsGraph self.now }
    {
        for node in 0..self.len() {
            if !are_below(self.targets(node), self.len()) {
                return false;
            }
        }
        true
    }
}

/// The part of a list that begins at an index of `starts`.
fn part<'a>(starts: &[usize], targets: &'a [usize], index: usize) -> &'a [usize]
    requires index { index < length starts.now }
    requires cut { IsCut starts.now (length targets.now) }
    ensures { result.now ≡ slice_range targets.now (slice_index_or starts.now index 0)
        (slice_index_or starts.now (index + 1) (length targets.now)) }
{
    let start = starts[index];
    let end = end_of(starts, index, targets.len());
    &targets[start..end]
}

/// The end of the part that begins at an index of `starts`.
fn end_of(starts: &[usize], index: usize, total: usize) -> usize
    requires index { index < length starts.now }
    requires cut { IsCut starts.now total }
    ensures end { result ≡ slice_index_or starts.now (index + 1) total }
    ensures within { result ≤ total }
{
    if index + 1 < starts.len() {
        starts[index + 1]
    } else {
        total
    }
}

/// Whether each of these nodes is below a number of nodes.
fn are_below(targets: &[usize], nodes: usize) -> bool
    ensures { IsTrue result ↔ All (λ v. v < nodes) targets.now }
{
    targets.iter().all(|target| *target < nodes)
}
