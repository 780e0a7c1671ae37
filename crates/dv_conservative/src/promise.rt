//! How long it is known what a run sends.

ghost use Rattle.std.specs.Prelude.{◌≡◌, ℕ, suc, Bool, ◌<◌, ◌≤◌, List, Option};
ghost use Rattle.dv_bag.specs.Bag.{Counts};
ghost use Rattle.dv_bag.specs.declared.state.State.{State};
ghost use Rattle.dv_devs.specs.Idle.{nothing_sent};
ghost use Rattle.dv_devs.specs.Network.{Network, components_at, emissions_at};
ghost use Rattle.dv_devs.specs.NextTimes.{IsFrom, IsReady, least_next};
ghost use Rattle.dv_time.specs.Time.{earlier};
ghost use Rattle.dv_conservative.specs.Promise.{IsDecided, IsWaiting, foreseen, reach};

/// Before its next time, and before it can answer its first input, a waiting run sends nothing; and
/// what it sends before the rank that is foreseen is the same for all that comes from the first
/// input on. The rank that is foreseen is always later than that of the run.
pub fn what_is_foreseen_is_decided<I>()
    ensures silent { (fits : ℕ → State → Bool) (comes : List Counts → Bool) (r : Option ℕ)
        (limit : ℕ)
        (net : Network I) (inputs : ℕ → I) (k c upto : ℕ)
        → IsWaiting fits comes r limit net inputs k c
        → IsFrom upto (earlier (least_next (components_at limit net inputs k)) (reach limit c r))
        → (j : ℕ) → k ≤ j → j < upto → emissions_at limit net inputs j ≡ nothing_sent net }
    ensures decided { (fits : ℕ → State → Bool) (comes : List Counts → Bool) (r : Option ℕ)
        (limit : ℕ)
        (net : Network I) (inputs : ℕ → I) (k c upto : ℕ)
        → IsWaiting fits comes r limit net inputs k c
        → IsFrom upto (foreseen limit k (components_at limit net inputs k) c r)
        → IsDecided comes limit net inputs c upto }
    ensures later { (limit : ℕ) (net : Network I) (inputs : ℕ → I) (r : Option ℕ) (k c : ℕ)
        → IsReady net → k ≤ c
        → IsFrom (suc k) (foreseen limit k (components_at limit net inputs k) c r) }
{}
