//! The run of a share and the whole run.

ghost use Rattle.std.specs.Prelude.{◌≡◌, ℕ, Bool, ◌<◌, List};
ghost use Rattle.dv_bag.specs.Bag.{Counts};
ghost use Rattle.dv_devs.specs.Network.{components_at, emissions_at, trace_before};
ghost use Rattle.dv_devs.specs.Parts.{part_before};
ghost use Rattle.dv_conservative.specs.Flat.{Flat, crossings, fed, kept, network, numbers, others, sends_by, share, whole};
ghost use Rattle.dv_conservative.specs.Links.{Delivery, SameFor, links_between};

/// Locality: a set of components needs from the rest of the model what truly crosses to it and
/// nothing else. If it receives that, and the same bags from outside, before a rank, it runs by
/// itself as it runs in the whole: at the rank its components are in the same states and send the
/// same, and it has committed exactly its part of the trace.
pub fn a_share_runs_as_its_part()
    ensures components { (limit : ℕ) (f : Flat) (outside : ℕ → List Counts) (who : ℕ → Bool)
        (deliveries : ℕ → List Delivery) (n : ℕ)
        → ((j : ℕ) → j < n → SameFor who (deliveries j)
        (crossings limit f outside (others who) who j))
        → components_at limit (network (share who f)) (fed outside deliveries) n
        ≡ kept who (numbers f.members) (components_at limit (whole f) outside n) }
    ensures emissions { (limit : ℕ) (f : Flat) (outside : ℕ → List Counts) (who : ℕ → Bool)
        (deliveries : ℕ → List Delivery) (n : ℕ)
        → ((j : ℕ) → j < n → SameFor who (deliveries j)
        (crossings limit f outside (others who) who j))
        → emissions_at limit (network (share who f)) (fed outside deliveries) n
        ≡ kept who (numbers f.members) (emissions_at limit (whole f) outside n) }
    ensures sends { (limit : ℕ) (f : Flat) (outside : ℕ → List Counts) (who to : ℕ → Bool)
        (deliveries : ℕ → List Delivery) (n : ℕ)
        → ((j : ℕ) → j < n → SameFor who (deliveries j)
        (crossings limit f outside (others who) who j))
        → sends_by limit (share who f) (links_between who to f.links) (fed outside deliveries) n
        ≡ crossings limit f outside who to n }
    ensures part { (limit : ℕ) (f : Flat) (outside : ℕ → List Counts) (who : ℕ → Bool)
        (deliveries : ℕ → List Delivery) (n : ℕ)
        → ((j : ℕ) → j < n → SameFor who (deliveries j)
        (crossings limit f outside (others who) who j))
        → trace_before limit (network (share who f)) (fed outside deliveries) n
        ≡ part_before who limit (whole f) outside n }
{}
