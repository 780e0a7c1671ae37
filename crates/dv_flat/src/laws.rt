//! Laws of links. Each function states a law in its contract.

ghost use Rattle.std.specs.Prelude.{◌≡◌, ◌≢◌, ℕ, List, [], ◌∷◌, None, slice_index_or};
ghost use Rattle.std.specs.List.{All};
ghost use Rattle.dv_bag.specs.Bag.{Counts, bag_at};
ghost use Rattle.dv_bag.specs.BagLists.{AllAreBags, AreBags};
ghost use Rattle.dv_check.specs.Refusals.{refusal_of};
ghost use Rattle.dv_syntax.specs.Trees.{FileTree};
ghost use Rattle.dv_tree.specs.Routing.{arrives, leaves};
ghost use Rattle.dv_flat.specs.Carried.{arrives_by_links, carried_out, carried_to, leaves_by_links};
ghost use Rattle.dv_flat.specs.Ends.{port_at};
ghost use Rattle.dv_flat.specs.Links.{direct_links, entry_links, exit_links};
ghost use Rattle.dv_flat.specs.Rows.{two_ways};
ghost use Rattle.dv_flat.specs.declared.link.ComponentPort.{ComponentPort};
ghost use Rattle.dv_flat.specs.declared.link.Link.{Link};

use dv_check::laws::checked_files;

/// Links carry what routing by the tree gives, for all that is sent and all that comes from
/// outside: at each port, and so in all that the components receive and all that leaves.
pub fn links_route_as_the_tree()
    ensures arrives { (f : FileTree) (sent : List (List Counts)) (input : List Counts)
        → AllAreBags sent → AreBags input → (component port : ℕ)
        → carried_to f sent input (port_at component port)
        ≡ bag_at (slice_index_or (arrives f sent input) component []) port }
    ensures leaves { (f : FileTree) (sent : List (List Counts)) → AllAreBags sent → (port : ℕ)
        → carried_out f sent port ≡ bag_at (leaves f sent) port }
    ensures all_arrive { (f : FileTree) (sent : List (List Counts)) (input : List Counts)
        → AllAreBags sent → AreBags input → arrives_by_links f sent input ≡ arrives f sent input }
    ensures all_leave { (f : FileTree) (sent : List (List Counts)) → AllAreBags sent
        → leaves_by_links f sent ≡ leaves f sent }
{}

/// No component of an accepted text is linked to itself.
pub fn no_component_is_linked_to_itself()
    ensures { (f : FileTree) → refusal_of f ≡ None
        → All (λ (l : Link ComponentPort ComponentPort). l.from.component ≢ l.to.component)
        (direct_links f) }
{
    checked_files();
}

/// A value that arrives by two ways is carried by one link with two copies.
pub fn ways_are_copies()
    ensures direct { direct_links two_ways
        ≡ record { from = port_at 0 0; to = port_at 1 0; copies = 2 } ∷ [] }
    ensures entries { entry_links two_ways
        ≡ record { from = 0; to = port_at 1 0; copies = 1 } ∷ [] }
    ensures exits { exit_links two_ways
        ≡ record { from = port_at 1 0; to = 0; copies = 1 } ∷ [] }
{}
