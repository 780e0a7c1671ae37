//! Laws of states that fit: how they are kept, and behaviours that agree in them.

ghost use Rattle.std.specs.Prelude.{◌≡◌, ℕ, ◌<◌, Bool, List};
ghost use Rattle.dv_bag.specs.Bag.{Counts};
ghost use Rattle.dv_bag.specs.declared.state.State.{State};
ghost use Rattle.dv_devs.specs.Fits.{AllFit, AllKeep, AreAlike, LeavesAlikeOf, OnlyArrives};
ghost use Rattle.dv_devs.specs.Network.{Network, components_at, emissions_at, trace_before};
ghost use Rattle.dv_devs.specs.Parts.{part_before};

/// If behaviours lead from states that fit to states that fit, and only what is allowed arrives,
/// the states of a run fit.
pub fn states_stay_fit<I>()
    ensures { (fits : ℕ → State → Bool) (comes : List Counts → Bool) (limit : ℕ)
        (net : Network I) (inputs : ℕ → I) (n : ℕ)
        → AllKeep fits comes 0 net.behaviours → AllFit fits 0 net.start
        → OnlyArrives comes limit net inputs n
        → AllFit fits 0 (components_at limit net inputs n) }
{}

/// Networks whose behaviours agree in the states that fit, and whose routing is the same, have the
/// same runs. So a text's network, with its rules and its coupling tree, and one with compiled
/// rules and direct links have the same runs.
pub fn alike_networks_run_alike<I>()
    ensures components { (fits : ℕ → State → Bool) (comes : List Counts → Bool) (limit : ℕ)
        (net also : Network I) (inputs : ℕ → I) (n : ℕ)
        → AreAlike fits comes limit net also inputs → OnlyArrives comes limit net inputs n
        → components_at limit net inputs n ≡ components_at limit also inputs n }
    ensures emissions { (fits : ℕ → State → Bool) (comes : List Counts → Bool) (limit : ℕ)
        (net also : Network I) (inputs : ℕ → I) (n : ℕ)
        → AreAlike fits comes limit net also inputs → OnlyArrives comes limit net inputs n
        → emissions_at limit net inputs n ≡ emissions_at limit also inputs n }
    ensures trace { (fits : ℕ → State → Bool) (comes : List Counts → Bool) (limit : ℕ)
        (net also : Network I) (inputs : ℕ → I) (n : ℕ)
        → AreAlike fits comes limit net also inputs → OnlyArrives comes limit net inputs n
        → trace_before limit net inputs n ≡ trace_before limit also inputs n }
    ensures part { (fits : ℕ → State → Bool) (comes : List Counts → Bool) (limit : ℕ)
        (net also : Network I) (inputs : ℕ → I) (who : ℕ → Bool) (n : ℕ)
        → AreAlike fits comes limit net also inputs → OnlyArrives comes limit net inputs n
        → ((k : ℕ) → k < n → LeavesAlikeOf who net also (emissions_at limit net inputs k))
        → part_before who limit net inputs n ≡ part_before who limit also inputs n }
{}
