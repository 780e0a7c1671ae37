//! The lines of entries, by the words of a tree.

ghost use Rattle.std.specs.Prelude.{◌≡◌, ◌++◌, List, map, OnOk, OnErr};
ghost use Rattle.dv_bag.specs.declared.entry.What.TheVariants as what;
ghost use Rattle.dv_record.specs.Told.{entry};
ghost use Rattle.dv_text.specs.Texts.{ComponentNames, entry_text, names_at};
ghost use Rattle.dv_lines.specs.Tables.{decorated, rows_found};

use crate::laws::words_say_the_names;
use crate::line::ComponentWords;
use crate::lines::Lines;
use crate::words::Words;
use dv_bag::{Fault, Kind, Sent, State};
use dv_time::Time;
use std::alloc::AllocError;

/// Appends the line of a transition of a component, with the state after it and what it sent.
///
/// # Errors
///
/// No memory for it. The lines are as before.
#[inline(always)]
pub fn transition(
    lines: &mut Lines,
    words: &Words,
    now: Time,
    component: u32,
    kind: Kind,
    state: &State,
    sent: &Sent,
) -> Result<(), AllocError>
    ensures ok { (all : List ComponentNames) → rows_found words.now ≡ map decorated all
        → OnOk result (lines.new ≡ lines.old ++ entry_text (names_at all component)
        (entry now component (what.Transition kind state.now) sent.now)) }
    ensures err { OnErr result (lines.new ≡ lines.old) }
{
    // For the prover alone.
    words_say_the_names();
    lines.transition(
        &ComponentWords::of(words, component),
        now,
        kind,
        state,
        sent,
    )
}

/// Appends the line of a fault of a component, with what it sent.
///
/// # Errors
///
/// No memory for it. The lines are as before.
pub fn faulted(
    lines: &mut Lines,
    words: &Words,
    now: Time,
    component: u32,
    fault: Fault,
    sent: &Sent,
) -> Result<(), AllocError>
    ensures ok { (all : List ComponentNames) → rows_found words.now ≡ map decorated all
        → OnOk result (lines.new ≡ lines.old ++ entry_text (names_at all component)
        (entry now component (what.Fault fault) sent.now)) }
    ensures err { OnErr result (lines.new ≡ lines.old) }
{
    // For the prover alone.
    words_say_the_names();
    lines.faulted(&ComponentWords::of(words, component), now, fault, sent)
}
