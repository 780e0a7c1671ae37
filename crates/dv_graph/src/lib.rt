//! A model as a graph in the DOT language of Graphviz.
//!
//! `write_graph` draws each component as a node, inside of the clusters of its coupled models, and
//! each link as an edge. `write_overview` draws a model down to a depth, with one edge for all
//! links between two boxes. `write_phases` draws the phases of one atomic model, and the rules that
//! lead from one to another. The processes of a partition are shown as colours.
//!
//! `dv_views` calls these for `pdevs graph`. It is proved that they are safe and return, and
//! nothing about the graphs themselves. This crate computes no positions: Graphviz does.
#![tactic(auto)]

/// The edges of `write_graph`.
mod edges;
/// Expressions as text.
mod expressions;
/// The graph of a model, with all components.
pub mod graph;
/// The text of a graph, and the writer to which it goes.
mod graph_text;
/// The edges of an overview.
mod joined;
/// The nodes, in clusters.
mod nodes;
/// The numbers of nodes, ports and components.
mod number;
/// An overview of a model.
pub mod overview;
/// The phases of an atomic model.
pub mod phases;
/// Names, labels and indentation.
mod pieces;
/// The processes of nodes.
mod processes;
/// The rows into which a long line of nodes is broken.
mod rows;
/// What the rules of an atomic model do.
mod rules;
/// What is drawn of a model.
pub mod scene;
/// Unlinked ports.
mod unlinked;

pub use graph::write_graph;
pub use overview::write_overview;
pub use phases::write_phases;
pub use scene::Drawing;
