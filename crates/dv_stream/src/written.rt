//! What was written of a trace, and how the next piece is written.

ghost use Rattle.std.specs.Prelude.{◌≡◌, ◌||◌, IfOk, OnErr, OnOk};
ghost use Rattle.std.specs.Io.KnownBytes.{Appends};
ghost use Rattle.dv_bag.specs.Part.{IsByTime};
ghost use Rattle.dv_text.specs.Names.{tree_names, tree_ports};
ghost use Rattle.dv_text.specs.Texts.{part_text};
ghost use Rattle.dv_text.specs.Writing.{AppendsBeginning};
ghost use Rattle.dv_written.specs.Faults.{has_fault};

use crate::faults::has_fault;
use dv_lines::TraceWriter;
use dv_merge::PartRefs;
use dv_text::WriteError;
use dv_time::Time;
use dv_written::OfJob;
use std::io::Write;

/// How far a trace was written: all before the mark, and nothing from it on.
#[derive(Clone, Copy, PartialEq, Eq)]
pub struct Written {
    /// The time before which all was written.
    pub mark: Time,
    /// Whether a fault is among the entries that were written.
    pub faulted: bool,
}

impl Written {
    /// Nothing was written.
    pub const NOTHING: Written = Written {
        mark: Time::ZERO,
        faulted: false,
    };
}

/// Writes the lines of the next piece of a trace, which ends at `mark`.
///
/// # Errors
///
/// A write failed, or there is no memory for a line. The writer holds a beginning of the lines.
pub fn write_piece<N: OfJob, W: Write>(
    before: Written,
    piece: &PartRefs<'_, N>,
    mark: Time,
    lines: &mut TraceWriter<'_, N>,
    writer: &mut W,
) -> Result<Written, WriteError>
    requires by_time { IsByTime piece.now }
    ensures tree { lines.new ≡ lines.old }
    ensures text { OnOk result (Appends (W.contents writer.old) (W.contents writer.new)
        (part_text (tree_names lines.old) (tree_ports lines.old) piece.now)) }
    ensures mark { IfOk result (λ after. after.mark ≡ mark) }
    ensures faults { IfOk result (λ after.
        after.faulted ≡ (before.faulted || has_fault piece.now)) }
    ensures err { OnErr result (AppendsBeginning (W.contents writer.old) (W.contents writer.new)
        (part_text (tree_names lines.old) (tree_ports lines.old) piece.now)) }
{
    lines.part(piece, writer)?;
    let faulted = before.faulted || has_fault(piece);
    Ok(Written { mark, faulted })
}
