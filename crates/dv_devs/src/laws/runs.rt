//! Laws of runs.

ghost use Rattle.std.specs.Prelude.{◌≡◌, ℕ, suc, ◌<◌, ◌≤◌, IfOk, IsFalse, IsTrue, List, [], length, slice_get, Option, Some};
ghost use Rattle.dv_devs.specs.Behaviour.{Component, end_of_hold, is_imminent};
ghost use Rattle.dv_devs.specs.Idle.{AllBringNothing, AllIdle, IsIdle, LeavesOnlyWhatIsSent, none_imminent, nothing_sent};
ghost use Rattle.dv_devs.specs.Inputs.{ArriveAlikeBefore};
ghost use Rattle.dv_devs.specs.Network.{Network, components_after, components_at, emissions, emissions_at, part_of_instant};
ghost use Rattle.dv_devs.specs.Network.{trace_at, trace_before};
ghost use Rattle.dv_devs.specs.NextTimes.{AllFrom, AllQuietForGood, HasEntry, IsFrom, IsReady, least_next};

/// What is before a rank depends on what arrives before it, and what is sent at a rank depends on
/// what arrives strictly before it. Conservative execution rests on this law.
pub fn inputs_come_before<I>()
    ensures components { (limit : ℕ) (net : Network I) (i j : ℕ → I) (n : ℕ)
        → ArriveAlikeBefore net i j n
        → components_at limit net i n ≡ components_at limit net j n }
    ensures emissions { (limit : ℕ) (net : Network I) (i j : ℕ → I) (n : ℕ)
        → ArriveAlikeBefore net i j n
        → emissions_at limit net i n ≡ emissions_at limit net j n }
    ensures trace { (limit : ℕ) (net : Network I) (i j : ℕ → I) (n : ℕ)
        → ArriveAlikeBefore net i j n
        → trace_before limit net i n ≡ trace_before limit net j n }
{}

/// If no component is imminent, none sends. An instant at which none is imminent and no values come
/// changes nothing.
pub fn idle_instants_change_nothing<I>()
    ensures emissions { (net : Network I) (now : ℕ) (cs : List Component)
        → IsTrue (none_imminent now cs) → length net.behaviours ≡ length cs
        → emissions net.behaviours now cs ≡ nothing_sent net }
    ensures components { (limit : ℕ) (net : Network I) (now : ℕ) (input : I) (cs : List Component)
        → IsIdle net now input cs → length net.behaviours ≡ length cs
        → components_after limit net now input cs ≡ cs }
    ensures entries { (limit : ℕ) (net : Network I) (now : ℕ) (input : I) (cs : List Component)
        → IsIdle net now input cs → length net.behaviours ≡ length cs
        → (part_of_instant limit net now input cs).entries ≡ [] }
    ensures outside { (limit : ℕ) (net : Network I) (now : ℕ) (input : I) (cs : List Component)
        → IsIdle net now input cs → length net.behaviours ≡ length cs → LeavesOnlyWhatIsSent net
        → (part_of_instant limit net now input cs).outer ≡ [] }
{}

/// A hold that begins now ends later.
pub fn holds_end_later()
    ensures { (limit now : ℕ) (ticks : Option ℕ)
        → IfOk (end_of_hold limit now ticks) (IsFrom (suc now)) }
{}

/// No next time is before the least one, and before that no component is imminent.
pub fn no_next_time_is_before_the_least()
    ensures all { (n : ℕ) (cs : List Component) → IsFrom n (least_next cs) → AllFrom n cs }
    ensures least { (n : ℕ) (cs : List Component) → AllFrom n cs → IsFrom n (least_next cs) }
    ensures none { (n m : ℕ) (cs : List Component)
        → n < m → IsFrom m (least_next cs) → IsTrue (none_imminent n cs) }
{}

/// No next time is missed: before the instant at a rank every next time is at that rank or later. A
/// quiet component has none, and each behaviour keeps its component.
pub fn next_times_rise<I>()
    ensures after_an_instant { (limit : ℕ) (net : Network I) (n : ℕ) (input : I)
        (cs : List Component)
        → AllFrom n cs → AllQuietForGood cs
        → AllFrom (suc n) (components_after limit net n input cs) }
    ensures in_a_run { (limit : ℕ) (net : Network I) (inputs : ℕ → I) → IsReady net → (n : ℕ)
        → AllFrom n (components_at limit net inputs n) }
    ensures least { (limit : ℕ) (net : Network I) (inputs : ℕ → I) → IsReady net → (n : ℕ)
        → IsFrom n (least_next (components_at limit net inputs n)) }
    ensures quiet { (limit : ℕ) (net : Network I) (inputs : ℕ → I) → IsReady net → (n : ℕ)
        → AllQuietForGood (components_at limit net inputs n) }
    ensures matched { (limit : ℕ) (net : Network I) (inputs : ℕ → I) → IsReady net → (n : ℕ)
        → length net.behaviours ≡ length (components_at limit net inputs n) }
{}

/// Between one instant at which something happens and the next, the components and the trace stay
/// the same.
pub fn runs_rest_between_instants<I>()
    ensures components { (limit : ℕ) (net : Network I) (inputs : ℕ → I)
        → IsReady net → (n m : ℕ) → n ≤ m
        → AllIdle limit net inputs n m
        → components_at limit net inputs m ≡ components_at limit net inputs n }
    ensures trace { (limit : ℕ) (net : Network I) (inputs : ℕ → I)
        → IsReady net → LeavesOnlyWhatIsSent net → (n m : ℕ) → n ≤ m
        → AllIdle limit net inputs n m
        → trace_before limit net inputs m ≡ trace_before limit net inputs n }
{}

/// The next instant at which anything happens is that of the least of the components' next times,
/// or of the next outside input. Nothing happens before it, and at the least next time a component
/// that is imminent has an entry.
pub fn next_instant_is_the_least_next_time<I>()
    ensures components { (limit : ℕ) (net : Network I) (inputs : ℕ → I)
        → IsReady net → (n m : ℕ) → n ≤ m
        → IsFrom m (least_next (components_at limit net inputs n))
        → AllBringNothing net inputs n m
        → components_at limit net inputs m ≡ components_at limit net inputs n }
    ensures trace { (limit : ℕ) (net : Network I) (inputs : ℕ → I)
        → IsReady net → LeavesOnlyWhatIsSent net → (n m : ℕ) → n ≤ m
        → IsFrom m (least_next (components_at limit net inputs n))
        → AllBringNothing net inputs n m
        → trace_before limit net inputs m ≡ trace_before limit net inputs n }
    ensures entry { (limit : ℕ) (net : Network I) (inputs : ℕ → I) → IsReady net → (m : ℕ)
        → least_next (components_at limit net inputs m) ≡ Some m
        → (k : ℕ) × HasEntry (trace_at limit net inputs m).entries limit m k }
{}

/// A component that is imminent and not quiet has an entry at that instant, under its number.
pub fn imminent_components_have_entries<I>()
    ensures { (limit : ℕ) (net : Network I) (now : ℕ) (input : I) (cs : List Component)
        (index k : ℕ) (c : Component) → index < length net.behaviours
        → slice_get net.numbers index ≡ Some k → slice_get cs index ≡ Some c
        → IsFalse c.quiet → IsTrue (is_imminent now c)
        → HasEntry (part_of_instant limit net now input cs).entries limit now k }
{}
