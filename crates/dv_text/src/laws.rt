//! Laws of the text of a trace, and worked texts. The contract of each function is a law; its body
//! calls the laws that it rests on.

ghost use Rattle.std.specs.Prelude.{◌≡◌, ◌≤◌, ℕ, [], ◌∷◌, ◌++◌, List, codes, pos};
ghost use Rattle.dv_bag.specs.Collections.{empty_of};
ghost use Rattle.dv_bag.specs.Part.{IsByTime};
ghost use Rattle.dv_bag.specs.declared.collection.Collection.TheVariants as collection;
ghost use Rattle.dv_bag.specs.declared.discipline.Discipline.{Discipline};
ghost use Rattle.dv_bag.specs.declared.state.Datum.TheVariants as datum;
ghost use Rattle.dv_devs.specs.Cuts.{trace_between};
ghost use Rattle.dv_devs.specs.Network.{Network, trace_before};
ghost use Rattle.dv_devs.specs.Models.{clock};
ghost use Rattle.dv_devs.specs.Rows.{no_input};
ghost use Rattle.dv_time.specs.Time.{end_of};
ghost use Rattle.dv_text.specs.Clock.{clock_names, clock_outputs};
ghost use Rattle.dv_text.specs.declared.writing.Ending.TheVariants.{Whole};
ghost use Rattle.dv_text.specs.Texts.{ComponentNames, datum_text, ending_text, instants_text, part_text, whole_text};

use dv_devs::laws::parts::{
    cuts_are_earlier_parts, instants_are_at_their_time, parts_are_by_time, the_rest_is_between,
};

/// The lines of a network's trace that is cut before a rank are the lines of its instants, one
/// after the other. The same holds for a whole text.
pub fn a_trace_is_its_instants<I>()
    ensures lines { (all : List ComponentNames) (outputs : List (List ℕ))
        → (limit : ℕ) (net : Network I) (inputs : ℕ → I) (n : ℕ)
        → part_text all outputs (trace_before limit net inputs n)
        ≡ instants_text all outputs limit net inputs n }
    ensures whole { (all : List ComponentNames) (outputs : List (List ℕ))
        → (limit : ℕ) (net : Network I) (inputs : ℕ → I) (horizon : ℕ)
        → part_text all outputs (trace_before limit net inputs (end_of limit horizon))
        ++ ending_text (Whole horizon)
        ≡ whole_text all outputs limit net inputs horizon }
{
    // For the prover alone.
    instants_are_at_their_time::<I>();
    parts_are_by_time::<I>();
}

/// The part of a trace from one rank to another is sorted by time, and its lines continue those of
/// the instants before it. So a text that is written piece by piece is that of the instants.
pub fn a_trace_is_its_pieces<I>()
    ensures by_time { (limit : ℕ) (net : Network I) (inputs : ℕ → I) (n m : ℕ) → n ≤ m
        → IsByTime (trace_between limit net inputs n m) }
    ensures lines { (all : List ComponentNames) (outputs : List (List ℕ))
        → (limit : ℕ) (net : Network I) (inputs : ℕ → I) (n m : ℕ) → n ≤ m
        → instants_text all outputs limit net inputs n
        ++ part_text all outputs (trace_between limit net inputs n m)
        ≡ instants_text all outputs limit net inputs m }
{
    // For the prover alone.
    a_trace_is_its_instants::<I>();
    parts_are_by_time::<I>();
    cuts_are_earlier_parts::<I>();
    the_rest_is_between::<I>();
}

/// The text of a clock to a horizon of 12: its transitions, and what left the model, at 5.0 and at
/// 10.0.
pub fn a_clock_ticks()
    ensures { whole_text clock_names clock_outputs 1 clock no_input 12 ≡
        codes "5.0 t i run n=1 > beat:0" ++ (10 ∷ (codes "5.0 out o:0" ++ (10 ∷
        (codes "10.0 t i run n=2 > beat:1" ++ (10 ∷ (codes "10.0 out o:1" ++ (10 ∷
        (codes "whole 12" ++ (10 ∷ []))))))))) }
{}

/// A queue is printed from its first value to its last, and a bag in ascending order, with copies
/// repeated.
pub fn collections_are_printed()
    ensures queue { datum_text (datum.Held (collection.Queue (pos 7 ∷ pos 5 ∷ [])))
        ≡ codes "[7,5]" }
    ensures bag { datum_text (datum.Held (collection.Bag ((pos 5, 1) ∷ (pos 7, 2) ∷ [])))
        ≡ codes "[5,7,7]" }
    ensures empty { (d : Discipline) → datum_text (datum.Held (empty_of d)) ≡ codes "[]" }
{}
