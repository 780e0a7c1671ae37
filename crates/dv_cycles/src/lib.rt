//! Which nodes of a directed graph are on a common cycle.
//!
//! A `Graph` has the targets of the edges of each node. `strong_components` gives each node a
//! number, in a time linear in the nodes and edges: two nodes have one number if and only if each
//! leads to the other. A law says that one node leads to another if there is a row of edges between
//! them.
//!
//! `dv_check` uses this to find models that contain themselves (E15). Edges have no weights, and
//! the cycles themselves are not returned.
#![tactic(auto)]

/// The strong components of a graph.
pub mod components;
/// Directed graphs.
pub mod graph;
/// A law of ways.
pub mod laws;
/// The depth-first search that finds strong components.
mod search;

pub use components::strong_components;
pub use graph::Graph;
