//! The strong components of a graph.

ghost use Rattle.std.specs.Prelude.{◌≡◌, ◌↔◌, ℕ, ◌<◌, length, slice_index_or, IfOk, true};
ghost use Rattle.dv_cycles.specs.Ways.{IsGraph, has_way};

use crate::graph::Graph;
use crate::search::Search;
use std::alloc::{AllocError, Global};

/// For each node the number of its strong component: two nodes have the same number if and only if
/// each leads to the other. (Tarjan 1972; Cheriyan and Mehlhorn 1996; Gabow 2000.)
///
/// Time and memory are linear in the nodes and edges, and there is no recursion.
///
/// # Errors
///
/// No memory for the search or for the numbers.
pub fn strong_components(alloc: Global, graph: &Graph) -> Result<Vec<usize>, AllocError>
    requires graph { IsGraph graph.now }
    ensures one_each { IfOk result (λ numbers. length numbers.items ≡ length graph.now) }
    ensures together { IfOk result (λ numbers. (u v : ℕ)
        → u < length graph.now → v < length graph.now
        → (slice_index_or numbers.items u 0 ≡ slice_index_or numbers.items v 0)
        ↔ ((has_way graph.now u v ≡ true) × (has_way graph.now v u ≡ true))) }
{
    let mut search = Search::new(alloc, graph.len())?;
    for root in 0..graph.len() {
        if search.is_new(root) {
            search.explore(graph, root)?;
        }
    }
    search.numbers(alloc)
}
