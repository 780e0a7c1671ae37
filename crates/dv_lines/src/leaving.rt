//! Output lines, by the words of a tree.

ghost use Rattle.std.specs.Prelude.{◌≡◌, ◌++◌, ◌∷◌, [], ℕ, List, map, OnOk, OnErr};
ghost use Rattle.std.specs.List.{flat_map};
ghost use Rattle.dv_record.specs.Told.{lines_from};
ghost use Rattle.dv_text.specs.Texts.{outers_text};
ghost use Rattle.dv_lines.specs.Tables.{Extends, ports_found, with_ends};
ghost use Rattle.dv_lines.specs.Words.{held_words, leaving_words};

use crate::lines::Lines;
use crate::words::Words;
use dv_bag::{Bags, PortBag};
use dv_time::Time;
use std::alloc::AllocError;

/// Appends the output line of a time, with all ports at which values left. If nothing left, there
/// is no line.
///
/// # Errors
///
/// No memory for it. The lines are as before.
pub fn all_left(
    lines: &mut Lines,
    words: &Words,
    now: Time,
    values: &Bags,
) -> Result<(), AllocError>
    ensures ok { (outputs : List (List ℕ))
        → ports_found words.now ≡ map (with_ends (58 ∷ [])) outputs
        → OnOk result (lines.new ≡ lines.old
        ++ outers_text outputs now (lines_from now 0 values.now)) }
    ensures err { OnErr result (lines.new ≡ lines.old) }
{
    let held = values.held();
    if held.is_empty() {
        return Ok(());
    }
    let mark = lines.len();
    match line_left(lines, words, now, held) {
        Ok(()) => Ok(()),
        Err(error) => {
            lines.cut(mark);
            Err(error)
        }
    }
}

// Appends the output line of the bags with values.
fn line_left(
    lines: &mut Lines,
    words: &Words,
    now: Time,
    bags: &[PortBag],
) -> Result<(), AllocError>
    ensures more { Extends lines.old lines.new }
    ensures ok { OnOk result (lines.new ≡ lines.old
        ++ leaving_words (ports_found words.now) now bags.now) }
{
    lines.begin_left(now)?;
    ports_left(lines, words, bags)?;
    lines.end_left()
}

// Appends each port with its values.
fn ports_left(lines: &mut Lines, words: &Words, bags: &[PortBag]) -> Result<(), AllocError>
    ensures more { Extends lines.old lines.new }
    ensures ok { OnOk result (lines.new ≡ lines.old
        ++ flat_map (held_words (ports_found words.now)) bags.now) }
{
    for held in bags {
        port_left(lines, words, held)?;
    }
    Ok(())
}

// Appends a port with its values.
fn port_left(lines: &mut Lines, words: &Words, held: &PortBag) -> Result<(), AllocError>
    ensures ok { OnOk result (lines.new ≡ lines.old
        ++ held_words (ports_found words.now) held.now) }
    ensures err { OnErr result (lines.new ≡ lines.old) }
{
    let (bytes, word) = words.port(held.port);
    lines.left(bytes, word, &held.bag)
}
