//! Laws of routing. Each function states a law in its contract; its body only calls laws of bags.

ghost use Rattle.std.specs.Prelude.{◌≡◌, ℕ, List, [], ◌∷◌, length, map, replicate};
ghost use Rattle.std.specs.List.{All};
ghost use Rattle.dv_bag.specs.Bag.{Counts};
ghost use Rattle.dv_syntax.specs.Trees.{FileTree};
ghost use Rattle.dv_tree.specs.Instances.{instances};
ghost use Rattle.dv_tree.specs.Routing.{arrives, leaves};
ghost use Rattle.dv_tree.specs.Rows.{beside, sevens, two_levels, two_parts, two_paths};
ghost use Rattle.dv_tree.specs.Unions.{AllUnite, Unite};

use dv_bag::laws::bags::bags_are_a_commutative_monoid;

/// Each component receives a list of bags.
pub fn each_component_receives()
    ensures { (f : FileTree) (sent : List (List Counts)) (input : List Counts) →
        length (arrives f sent input) ≡ length (instances f) }
{}

/// If nothing is sent and nothing comes from outside, nothing arrives and nothing leaves.
pub fn nothing_comes_of_nothing()
    ensures arrives { (f : FileTree) (ports : ℕ) → All (All (λ b. b ≡ []))
        (arrives f (map (λ i. []) (instances f)) (replicate ports [])) }
    ensures leaves { (f : FileTree) → All (λ b. b ≡ [])
        (leaves f (map (λ i. []) (instances f))) }
{}

/// A component's path has the names of all parts that lead to it.
pub fn paths_lead_through_parts()
    ensures { map (λ i. i.path) (instances two_levels) ≡ (2 ∷ []) ∷ (3 ∷ 5 ∷ 7 ∷ []) ∷ [] }
{}

/// A value arrives once for each way.
pub fn copies_arrive_by_every_path()
    ensures { leaves two_paths ((sevens 1 ∷ []) ∷ []) ≡ sevens 2 ∷ [] ∷ [] }
{}

/// What leaves a part goes into a coupled one, down to the component inside.
pub fn values_go_through_levels()
    ensures { arrives two_levels ((sevens 1 ∷ []) ∷ ([] ∷ []) ∷ []) ([] ∷ [] ∷ [])
        ≡ ([] ∷ []) ∷ (sevens 1 ∷ []) ∷ [] }
{}

/// What comes to an input of the root goes to each part that a link leads to.
pub fn inputs_go_to_every_part()
    ensures { arrives two_parts (([] ∷ []) ∷ ([] ∷ []) ∷ []) (sevens 1 ∷ [] ∷ [])
        ≡ (sevens 1 ∷ []) ∷ (sevens 1 ∷ []) ∷ [] }
{}

/// Links out of a model and links to other parts do not affect each other.
pub fn exits_stand_beside_inner_links()
    ensures leaves { leaves beside ((sevens 1 ∷ []) ∷ ([] ∷ []) ∷ []) ≡ sevens 1 ∷ [] ∷ [] }
    ensures arrives { arrives beside ((sevens 1 ∷ []) ∷ ([] ∷ []) ∷ []) ([] ∷ [] ∷ [])
        ≡ ([] ∷ []) ∷ (sevens 1 ∷ []) ∷ [] }
{}

/// Routing is linear: if two lists are united, of what is sent port by port and of what comes to
/// the inputs, what leaves and what arrives is the union of what leaves and arrives for each of
/// them. If bags are sent, bags leave and arrive.
pub fn routing_is_linear()
    ensures leaves { (f : FileTree) (a b both : List (List Counts)) → AllUnite a b both →
        Unite (leaves f a) (leaves f b) (leaves f both) }
    ensures arrives { (f : FileTree) (x y input : List Counts) (a b both : List (List Counts)) →
        Unite x y input → AllUnite a b both →
        AllUnite (arrives f a x) (arrives f b y) (arrives f both input) }
{
    bags_are_a_commutative_monoid();
}
