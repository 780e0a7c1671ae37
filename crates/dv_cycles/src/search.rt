//! The depth-first search that finds strong components.
//!
//! The nodes that are begun and not yet done are a path, which is divided into segments. The nodes
//! of a segment lead to each other, and each segment leads to the next one. An edge from the last
//! segment back to a node of the path joins all segments from that node on. When no edge of the
//! last segment is left, it is a strong component.

ghost use Rattle.std.specs.Prelude.{◌≡◌, ◌≢◌, ℕ, ◌+◌, ◌-◌, ◌<◌, ◌≤◌, List, length, map, take, true, false, vec_len, IfOk, OnOk};
ghost use Rattle.dv_cycles.specs.Ways.{IsGraph};
ghost use Rattle.dv_cycles.specs.Search.{IsHeld, IsOpen, IsPath, IsSearch, LeadTo, NoneAnew, is_new, last_segment, last_target};
ghost use Rattle.dv_cycles.specs.Search.{mark_at, new_count, node_at, number_of, segment_at, settled, state_of};
ghost use Rattle.dv_cycles.specs.declared.search.Mark.TheVariants.{New, OnPath};

use crate::graph::Graph;
use std::alloc::{AllocError, Global};

/// The state of a node in the search.
#[derive(Clone, Copy)]
pub enum Mark {
    /// It has not been reached.
    New,
    /// It is at a position of the path.
    OnPath(usize),
    /// It is in the component with this number.
    Done(usize),
}

/// A part of the path whose nodes lead to each other.
#[derive(Clone, Copy)]
pub struct Segment {
    /// The position in the path at which it begins; it ends where the next one begins.
    pub first_node: usize,
    /// The index in the pending edges at which its own begin.
    pub first_edge: usize,
}

/// The state of a search.
#[derive(Drop)]
pub struct Search {
    /// The state of each node.
    pub marks: Vec<Mark>,
    /// The nodes that are begun and not yet done.
    pub path: Vec<usize>,
    /// The targets of the edges that have not been followed yet.
    pub pending: Vec<usize>,
    /// The segments of the path.
    pub segments: Vec<Segment>,
    /// The number of components that are done.
    pub components: usize,
}

impl Mark {
    fn is_new(self) -> bool
        ensures { result ≡ is_new self }
    {
        match self {
            Mark::New => true,
            Mark::OnPath(_) | Mark::Done(_) => false,
        }
    }

    /// The number of the node's component: 0 if it has none yet.
    fn number(self) -> usize
        ensures { result ≡ number_of self }
    {
        match self {
            Mark::New | Mark::OnPath(_) => 0,
            Mark::Done(component) => component,
        }
    }
}

impl Search {
    /// A search over `nodes` nodes that has not begun.
    pub fn new(alloc: Global, nodes: usize) -> Result<Search, AllocError>
        ensures search { (graph : List (List ℕ)) → IsGraph graph → length graph ≡ nodes
            → IfOk result (IsSearch graph) }
        ensures idle { IfOk result (λ s. vec_len s.segments ≡ 0) }
    {
        let marks = vec![in alloc; Mark::New; nodes]?;
        Ok(Search {
            marks,
            path: Vec::new(alloc),
            pending: Vec::new(alloc),
            segments: Vec::new(alloc),
            components: 0,
        })
    }

    /// Whether a node has not been reached yet.
    pub fn is_new(&self, node: usize) -> bool
        requires { node < vec_len self.now.marks }
        ensures { result ≡ is_new (mark_at self.now.marks.items node) }
    {
        self.marks[node].is_new()
    }

    /// Searches everything that a new node leads to.
    pub fn explore(&mut self, graph: &Graph, root: usize) -> Result<(), AllocError>
        requires graph { IsGraph graph.now }
        requires search { IsSearch graph.now self.old }
        requires idle { vec_len self.old.segments ≡ 0 }
        requires node { root < length graph.now }
        requires new { mark_at self.old.marks.items root ≡ New }
        ensures search { OnOk result (IsSearch graph.now self.new) }
        ensures idle { OnOk result (vec_len self.new.segments ≡ 0) }
        ensures reached { OnOk result (mark_at self.new.marks.items root ≢ New) }
        ensures none_anew { OnOk result (NoneAnew self.old.marks.items self.new.marks.items) }
    {
        self.visit(graph, root)?;
        while self.advance(graph)? {}
        Ok(())
    }

    /// Appends a new node to the path, as a segment of its own.
    fn visit(&mut self, graph: &Graph, node: usize) -> Result<(), AllocError>
        requires graph { IsGraph graph.now }
        requires search { IsSearch graph.now self.old }
        requires node { node < length graph.now }
        requires new { mark_at self.old.marks.items node ≡ New }
        requires led_to { LeadTo graph.now (state_of self.old) node }
        ensures search { OnOk result (IsSearch graph.now self.new) }
        ensures reached { OnOk result (mark_at self.new.marks.items node ≢ New) }
        ensures none_anew { OnOk result (NoneAnew self.old.marks.items self.new.marks.items) }
        ensures fewer { OnOk result (new_count self.new.marks.items
            < new_count self.old.marks.items) }
    {
        self.segments.push(Segment {
            first_node: self.path.len(),
            first_edge: self.pending.len(),
        })?;
        self.marks[node] = Mark::OnPath(self.path.len());
        self.path.push(node)?;
        self.pending.extend_from_slice(graph.targets(node))?;
        Ok(())
    }

    /// Follows edges until one leads to a new node, and visits that; `false` if the path is done.
    fn advance(&mut self, graph: &Graph) -> Result<bool, AllocError>
        requires graph { IsGraph graph.now }
        requires search { IsSearch graph.now self.old }
        ensures search { OnOk result (IsSearch graph.now self.new) }
        ensures none_anew { OnOk result (NoneAnew self.old.marks.items self.new.marks.items) }
        ensures fewer { IfOk result (λ more. more ≡ true
            → new_count self.new.marks.items < new_count self.old.marks.items) }
        ensures idle { IfOk result (λ more. more ≡ false → vec_len self.new.segments ≡ 0) }
    {
        while self.segments.len() > 0 {
            let segment = self.segments[self.segments.len() - 1];
            if self.pending.len() > segment.first_edge {
                let target = self.pending[self.pending.len() - 1];
                match self.marks[target] {
                    Mark::New => {
                        self.visit(graph, target)?;
                        return Ok(true);
                    }
                    Mark::OnPath(position) => self.close(position),
                    Mark::Done(_) => self.pass(),
                }
            } else {
                self.finish();
            }
        }
        Ok(false)
    }

    /// Removes the last pending edge, which leads to a node that is done.
    fn pass(&mut self)
        requires edge { IsOpen (state_of self.old) }
        requires held { IsHeld (last_segment (state_of self.old)).first_node
            (mark_at self.old.marks.items (last_target (state_of self.old))) }
        ensures search { (graph : List (List ℕ)) → IsSearch graph self.old
            → IsSearch graph self.new }
        ensures marks { self.new.marks.items ≡ self.old.marks.items }
        ensures nearer { vec_len self.new.pending + vec_len self.new.segments
            < vec_len self.old.pending + vec_len self.old.segments }
    {
        self.pending.pop();
    }

    /// Joins the segments that are on a cycle with the last pending edge, and removes that edge.
    fn close(&mut self, position: usize)
        requires edge { IsOpen (state_of self.old) }
        requires on_path { mark_at self.old.marks.items (last_target (state_of self.old))
            ≡ OnPath position }
        ensures search { (graph : List (List ℕ)) → IsSearch graph self.old
            → IsSearch graph self.new }
        ensures marks { self.new.marks.items ≡ self.old.marks.items }
        ensures nearer { vec_len self.new.pending + vec_len self.new.segments
            < vec_len self.old.pending + vec_len self.old.segments }
    {
        join(&mut self.segments, position);
        self.pending.pop();
    }

    /// Makes a component of the last segment, of which all edges have been followed.
    fn finish(&mut self)
        requires begun { 0 < vec_len self.old.segments }
        requires followed { vec_len self.old.pending
            ≤ (last_segment (state_of self.old)).first_edge }
        requires path { IsPath (mark_at self.old.marks.items) (vec_len self.old.path)
            (node_at self.old.path.items) }
        requires begins { (last_segment (state_of self.old)).first_node ≤ vec_len self.old.path }
        requires room { self.old.components < vec_len self.old.marks }
        ensures search { (graph : List (List ℕ)) → IsSearch graph self.old
            → IsSearch graph self.new }
        ensures none_anew { NoneAnew self.old.marks.items self.new.marks.items }
        ensures new_count { new_count self.new.marks.items ≡ new_count self.old.marks.items }
        ensures nearer { vec_len self.new.pending + vec_len self.new.segments
            < vec_len self.old.pending + vec_len self.old.segments }
    {
        let last = self.segments.len() - 1;
        let first = self.segments[last].first_node;
        self.segments.truncate(last);
        settle(&mut self.marks, &mut self.path, first, self.components);
        self.components += 1;
    }

    /// For each node the number of its component.
    pub fn numbers(&self, alloc: Global) -> Result<Vec<usize>, AllocError>
        ensures { IfOk result (λ numbers. numbers.items ≡ map number_of self.now.marks.items) }
    {
        self.marks.iter().map(|mark| mark.number()).collect(alloc)
    }
}

/// Joins the segments from the one that contains a position of the path.
fn join(segments: &mut Vec<Segment>, position: usize)
    ensures kept { segments.new.items ≡ take (vec_len segments.new) segments.old.items }
    ensures joined { (i : ℕ) → vec_len segments.new ≤ i → i < vec_len segments.old
        → position < (segment_at segments.old.items i).first_node }
    ensures last { 0 < vec_len segments.new
        → (segment_at segments.new.items (vec_len segments.new - 1)).first_node ≤ position }
    ensures fewer { vec_len segments.new ≤ vec_len segments.old }
{
    while segments.len() > 0 && segments[segments.len() - 1].first_node > position {
        segments.pop();
    }
}

/// Removes the nodes from a position on from the path, and marks them as done.
fn settle(marks: &mut Vec<Mark>, path: &mut Vec<usize>, first: usize, component: usize)
    requires path { IsPath (mark_at marks.old.items) (vec_len path.old) (node_at path.old.items) }
    requires first { first ≤ vec_len path.old }
    ensures path { path.new.items ≡ take first path.old.items }
    ensures marks { (node : ℕ) → mark_at marks.new.items node
        ≡ settled component first (mark_at marks.old.items node) }
    ensures nodes { vec_len marks.new ≡ vec_len marks.old }
    ensures new_count { new_count marks.new.items ≡ new_count marks.old.items }
{
    while path.len() > first {
        let last = path.len() - 1;
        let node = path[last];
        path.truncate(last);
        marks[node] = Mark::Done(component);
    }
}
