//! Laws of traces and their parts.

ghost use Rattle.std.specs.List.{filter, range_with_len};
ghost use Rattle.std.specs.Prelude.{◌≡◌, ℕ, ◌≤◌, Bool, not, ◌||◌, IsFalse, IsTrue, List, true, length, map};
ghost use Rattle.dv_bag.specs.Part.{IsByTime, before, joined, since};
ghost use Rattle.dv_bag.specs.declared.entry.Entry.{Entry};
ghost use Rattle.dv_bag.specs.declared.entry.Outer.{Outer};
ghost use Rattle.dv_time.specs.Time.{time_of};
ghost use Rattle.dv_devs.specs.Behaviour.{Component};
ghost use Rattle.dv_devs.specs.Cuts.{IsAllAt, IsAllBefore, RiseFrom, part_between, trace_between};
ghost use Rattle.dv_devs.specs.Network.{Network, part_of_instant, trace_before};
ghost use Rattle.dv_devs.specs.Outside.{LeavesLinearly, SendsBags, union_of_lines};
ghost use Rattle.dv_devs.specs.Parts.{part_before};

use dv_bag::laws::bags;

/// All that an instant adds is at its time: entries by the numbers of their components, and what
/// leaves by port. All that was added before a rank is before its time. So a trace is its instants,
/// one after the other.
pub fn instants_are_at_their_time<I>()
    ensures at { (limit : ℕ) (net : Network I) (now : ℕ) (input : I) (cs : List Component)
        → IsAllAt (time_of limit now) (part_of_instant limit net now input cs) }
    ensures components { (limit : ℕ) (net : Network I) (now : ℕ) (input : I) (cs : List Component)
        → let entries = (part_of_instant limit net now input cs).entries in
        RiseFrom 0 net.numbers → RiseFrom 0 (map (λ (e : Entry). e.component) entries) }
    ensures ports { (limit : ℕ) (net : Network I) (now : ℕ) (input : I) (cs : List Component)
        → let outer = (part_of_instant limit net now input cs).outer in
        RiseFrom 0 (map (λ (o : Outer). o.port) outer) }
    ensures trace { (limit : ℕ) (net : Network I) (inputs : ℕ → I) (n : ℕ)
        → IsAllBefore (time_of limit n) (trace_before limit net inputs n) }
    ensures part { (limit : ℕ) (net : Network I) (inputs : ℕ → I) (who : ℕ → Bool) (n : ℕ)
        → IsAllBefore (time_of limit n) (part_before who limit net inputs n) }
{}

/// A trace, and each part of it, is in the order of time.
pub fn parts_are_by_time<I>()
    ensures trace { (limit : ℕ) (net : Network I) (inputs : ℕ → I) (n : ℕ)
        → IsByTime (trace_before limit net inputs n) }
    ensures part { (limit : ℕ) (net : Network I) (inputs : ℕ → I) (who : ℕ → Bool) (n : ℕ)
        → IsByTime (part_before who limit net inputs n) }
{}

/// The numbers of a whole model, counted from 0 on, are ascending.
pub fn counted_numbers_rise()
    ensures { (count : ℕ) → RiseFrom 0 (range_with_len 0 count) }
{}

/// A part holds the trace's entries of its components, and the part of all components is the trace.
pub fn parts_are_of_the_trace<I>()
    ensures all { (limit : ℕ) (net : Network I) (inputs : ℕ → I) (n : ℕ)
        → length net.numbers ≡ length net.behaviours
        → part_before (λ k. true) limit net inputs n ≡ trace_before limit net inputs n }
    ensures entries { (limit : ℕ) (net : Network I) (inputs : ℕ → I) (who : ℕ → Bool) (n : ℕ)
        → (part_before who limit net inputs n).entries
        ≡ filter (λ (e : Entry). who e.component) (trace_before limit net inputs n).entries }
{}

/// What is before a time does not change: a part, or the trace, of a later rank, cut there, is that
/// of the time.
pub fn cuts_are_earlier_parts<I>()
    ensures part { (limit : ℕ) (net : Network I) (inputs : ℕ → I) (who : ℕ → Bool) (n m : ℕ) → n ≤ m
        → before (time_of limit n) (part_before who limit net inputs m)
        ≡ part_before who limit net inputs n }
    ensures trace { (limit : ℕ) (net : Network I) (inputs : ℕ → I) (n m : ℕ) → n ≤ m
        → before (time_of limit n) (trace_before limit net inputs m)
        ≡ trace_before limit net inputs n }
{}

/// What is at a time or later in a part, or in the trace, of a later rank is what the instants
/// between add.
pub fn the_rest_is_between<I>()
    ensures part { (limit : ℕ) (net : Network I) (inputs : ℕ → I) (who : ℕ → Bool) (n m : ℕ) → n ≤ m
        → since (time_of limit n) (part_before who limit net inputs m)
        ≡ part_between who limit net inputs n m }
    ensures trace { (limit : ℕ) (net : Network I) (inputs : ℕ → I) (n m : ℕ) → n ≤ m
        → since (time_of limit n) (trace_before limit net inputs m)
        ≡ trace_between limit net inputs n m }
{}

/// A part, or the trace, of a rank and what the instants between add make that of a later rank.
pub fn parts_are_continued<I>()
    ensures part { (limit : ℕ) (net : Network I) (inputs : ℕ → I) (who : ℕ → Bool) (n m : ℕ) → n ≤ m
        → joined (part_before who limit net inputs n) (part_between who limit net inputs n m)
        ≡ part_before who limit net inputs m }
    ensures trace { (limit : ℕ) (net : Network I) (inputs : ℕ → I) (n m : ℕ) → n ≤ m
        → joined (trace_before limit net inputs n) (trace_between limit net inputs n m)
        ≡ trace_before limit net inputs m }
{}

/// What leaves disjoint sets of components, united by time and port, is what leaves them together;
/// for a set and all other components it is what leaves the model.
pub fn what_leaves_is_united<I>()
    ensures part { (limit : ℕ) (net : Network I) (inputs : ℕ → I) (who also : ℕ → Bool) (n : ℕ)
        → LeavesLinearly net → SendsBags limit net inputs n
        → ((k : ℕ) → IsTrue (who k) → IsFalse (also k))
        → union_of_lines
        (part_before who limit net inputs n).outer
        (part_before also limit net inputs n).outer
        ≡ (part_before (λ k. who k || also k) limit net inputs n).outer }
    ensures trace { (limit : ℕ) (net : Network I) (inputs : ℕ → I) (who : ℕ → Bool) (n : ℕ)
        → LeavesLinearly net → SendsBags limit net inputs n
        → length net.numbers ≡ length net.behaviours
        → union_of_lines
        (part_before who limit net inputs n).outer
        (part_before (λ k. not (who k)) limit net inputs n).outer
        ≡ (trace_before limit net inputs n).outer }
{
    bags::bags_are_a_commutative_monoid();
    bags::sizes_add();
}
