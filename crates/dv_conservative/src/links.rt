//! What links carry, and the bags that it makes.

ghost use Rattle.std.specs.Prelude.{◌≡◌, ℕ, Bool, ◌+◌, IsFalse, IsTrue, List, [], ◌∷◌, ◌++◌, ℤ};
ghost use Rattle.dv_bag.specs.Bag.{Counts, capped, union};
ghost use Rattle.dv_devs.specs.Behaviour.{all_empty};
ghost use Rattle.dv_devs.specs.Idle.{BringsNothing, LeavesOnlyWhatIsSent};
ghost use Rattle.dv_conservative.specs.Flat.{Flat, network};
ghost use Rattle.dv_conservative.specs.Links.{Delivery, Link, SameFor, carried_by, delivered, leads_to, times};

/// A link adds the bag that is sent, with each count times its copies, at its port and nowhere
/// else.
pub fn a_link_adds_its_copies()
    ensures here { (l : Link) (sent bag : Counts)
        → delivered l.to l.to_port (carried_by l sent) bag ≡ union bag (times l.copies sent) }
    ensures elsewhere { (k port : ℕ) (l : Link) (sent bag : Counts) → IsFalse (leads_to k port l)
        → delivered k port (carried_by l sent) bag ≡ bag }
{}

/// The order of deliveries does not matter, nor whether copies of a value come in one or in two.
pub fn deliveries_are_bags()
    ensures order { (who : ℕ → Bool) (ds es : List Delivery) → SameFor who (ds ++ es) (es ++ ds) }
    ensures joined { (who : ℕ → Bool) (k port : ℕ) (v : ℤ) (n m : ℕ) (ds : List Delivery)
        → SameFor who
        (record { component = k; port = port; value = v; copies = n }
        ∷ record { component = k; port = port; value = v; copies = m } ∷ ds)
        (record { component = k; port = port; value = v; copies = capped (n + m) } ∷ ds) }
{}

/// If nothing is sent and nothing comes, nothing arrives and nothing leaves.
pub fn nothing_comes_of_nothing()
    ensures arrives { (f : Flat) (outside : List Counts) → IsTrue (all_empty outside)
        → BringsNothing (network f) (outside, []) }
    ensures leaves { (f : Flat) → LeavesOnlyWhatIsSent (network f) }
{}
