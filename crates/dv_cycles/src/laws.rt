//! A law of ways. The function states the law in its contract; its body does nothing.

ghost use Rattle.std.specs.Prelude.{◌≡◌, ◌↔◌, ℕ, List, true};
ghost use Rattle.dv_cycles.specs.Ways.{IsGraph, Way, has_way};

/// There is a way if one edge after another leads from one node to the other.
pub fn ways_are_edges_in_a_row()
    ensures { (graph : List (List ℕ)) (u v : ℕ) → IsGraph graph
        → (has_way graph u v ≡ true) ↔ Way graph u v }
{}
