//! Merges the pieces of all processes, and writes them.

ghost use Rattle.std.specs.Prelude.{◌≡◌, ◌<◌, ◌≤◌, IfOk, OnErr, replicate};
ghost use Rattle.dv_bag.specs.declared.entry.Entry.{Entry as MeantEntry};
ghost use Rattle.dv_board.specs.Clocks.{IsNoLater};
ghost use Rattle.dv_board.specs.Jobs.{IsMergeable, trace};
ghost use Rattle.dv_conservative.specs.Process.{first_time};
ghost use Rattle.dv_lines.specs.Entries.{line_of};
ghost use Rattle.dv_merge.specs.Whole.{ArePartsOf};
ghost use Rattle.dv_text.specs.Names.{tree_names};
ghost use Rattle.dv_time.specs.Time.{IsOfRun, end_of, rank};
ghost use Rattle.dv_stream.specs.Written.{Falters, GoesOn};

use crate::written::{Written, write_piece};
use dv_bag::Bags;
use dv_board::Backlog;
use dv_core::PlannedJob;
use dv_lines::{TraceWriter, TreeWords};
use dv_merge::{PartRefs, merge};
use dv_text::WriteError;
use dv_text::laws::a_trace_is_its_pieces;
use dv_time::Time;
use dv_written::OfJob;
use std::alloc::{AllocError, Global};
use std::io::Write;

/// Merges the pieces of all processes and writes them.
#[derive(Drop)]
pub struct Merger<'t, N: OfJob> {
    /// Gives memory to pieces that are joined.
    pub alloc: Global,
    /// The pieces that are joined and not written yet.
    pub backlog: Backlog<N>,
    /// Makes the lines.
    pub lines: TraceWriter<'t, N>,
}

impl<'t, N: OfJob> Merger<'t, N> {
    /// A merger of so many processes, with nothing joined and nothing written. Its lines have the
    /// names of the tree of `words`.
    ///
    /// # Errors
    ///
    /// No memory for the list of the processes, or for the words.
    pub fn new(alloc: Global, processes: u32, words: &TreeWords<'t>) -> Result<Self, AllocError>
        requires lines { (e : MeantEntry) → line_of (tree_names words.now) e ≡ N.line e }
        requires processes { processes ≡ N.job.processes }
        requires some { 0 < processes }
        requires merges { IsMergeable N.job }
        ensures tree { IfOk result (λ merger. merger.lines ≡ words.now) }
        ensures mark { IfOk result (λ merger. merger.backlog.mark ≡ first_time) }
        ensures clocks { IfOk result (λ merger.
            merger.backlog.clocks ≡ replicate processes first_time) }
    {
        Ok(Merger {
            alloc,
            backlog: Backlog::new(alloc, processes)?,
            lines: TraceWriter::new(alloc, words)?,
        })
    }
}

/// Writes what the trace of a job has from the mark of `before` up to `mark`. The pieces are what
/// each process committed in between.
///
/// # Errors
///
/// A write failed, or there is no memory to merge the pieces. The writer holds a beginning of the
/// lines.
pub fn write_merged<N: OfJob, J: PlannedJob, W: Write>(
    alloc: Global,
    job: &J,
    pieces: Vec<PartRefs<'_, N>>,
    before: Written,
    mark: Time,
    lines: &mut TraceWriter<'_, N>,
    writer: &mut W,
) -> Result<Written, WriteError>
    requires pieces { ArePartsOf (J.means job.now).owner
        (trace (J.means job.now) before.mark mark) pieces.items }
    requires of_run { IsOfRun (J.means job.now).limit mark }
    requires order { IsNoLater (J.means job.now) before.mark mark }
    requires within { rank (J.means job.now).limit mark
        ≤ end_of (J.means job.now).limit (J.means job.now).horizon }
    ensures tree { lines.new ≡ lines.old }
    ensures ok { IfOk result (GoesOn (J.means job.now) lines.old
        (W.contents writer.old) (W.contents writer.new) before) }
    ensures mark { IfOk result (λ after. after.mark ≡ mark) }
    ensures err { OnErr result (Falters (J.means job.now) lines.old
        (W.contents writer.old) (W.contents writer.new) before) }
{
    let _ = job;
    // For the prover alone: a piece of the trace is sorted by time.
    a_trace_is_its_pieces::<Bags>();
    let piece = merge(alloc, pieces)?;
    write_piece(before, &piece, mark, lines, writer)
}
