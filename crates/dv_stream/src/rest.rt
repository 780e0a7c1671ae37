//! Writes what workers did not post, once they have ended.

ghost use Rattle.std.specs.Prelude.{◌≡◌, ◌↔◌, ◌<◌, ◌≤◌, ℕ, IsTrue, Some, if◌then◌else◌, length};
ghost use Rattle.std.specs.Prelude.{slice_get, IfOk, OnErr};
ghost use Rattle.std.specs.List.{All};
ghost use Rattle.dv_board.specs.Posts.{IsPiece};
ghost use Rattle.dv_time.specs.Time.{IsOfRun};
ghost use Rattle.dv_time.specs.declared.time.Time.{Time as MeantTime};
ghost use Rattle.dv_stream.specs.Clocks.{IsUpToEnd, shown_clocks};
ghost use Rattle.dv_stream.specs.Endings.{why_for};
ghost use Rattle.dv_stream.specs.Written.{Falters, GoesOn};
ghost use Rattle.dv_stream.specs.declared.ran.RunEnded.TheVariants.{Cut, Whole};

use crate::merged::Merger;
use crate::news::write_joined;
use crate::ran::{RunEnded, Why};
use crate::written::Written;
use dv_bag::Bags;
use dv_board::{Board, Piece};
use dv_plan::least::least_clock;
use dv_proc::window::is_same;
use dv_text::WriteError;
use dv_text::laws::a_trace_is_its_pieces;
use dv_time::Time;
use dv_work::{Halt, lacked_memory, was_stopped};
use dv_written::OfJob;
use std::io::Write;
use std::sync::Wait;

/// What workers left when they ended.
#[derive(Drop)]
pub struct Left<N: OfJob, C> {
    /// What each process committed and did not post, by its number.
    pub rest: Vec<Piece<N>>,
    /// Why each worker ended before its processes were done, or `None` if they are done.
    pub halts: Vec<Option<Halt<C>>>,
}

/// Joins what is left on a board and what was not posted, and writes what is then known of the
/// trace.
///
/// # Errors
///
/// A write failed, or there is no memory for a line. The writer holds a beginning of the lines.
pub fn write_rest<N: OfJob, R: Wait, W: Write>(
    rt: &R,
    board: &Board<N>,
    merger: &mut Merger<'_, N>,
    rest: Vec<Piece<N>>,
    before: Written,
    writer: &mut W,
) -> Result<Written, WriteError>
    requires rest { All (IsPiece N.job) rest.items }
    requires of_run { IsOfRun N.job.limit before.mark }
    requires within { IsUpToEnd N.job before.mark }
    ensures tree { merger.new.lines ≡ merger.old.lines }
    ensures ok { IfOk result (GoesOn N.job merger.old.lines
        (W.contents writer.old) (W.contents writer.new) before) }
    ensures within { IfOk result (λ after. IsUpToEnd N.job after.mark) }
    ensures err { OnErr result (Falters N.job merger.old.lines
        (W.contents writer.old) (W.contents writer.new) before) }
{
    // If a piece is lost, the clocks of the backlog show it.
    let _ = merger.backlog.extend_all(board.take(rt, merger.alloc));
    let _ = merger.backlog.extend_all(rest);
    // For the prover alone: no lines were added.
    a_trace_is_its_pieces::<Bags>();
    match write_joined(merger, before, writer)? {
        Some(written) => Ok(written),
        None => Ok(before),
    }
}

/// The clocks of processes whose trace was written up to a mark: their clocks in the backlog, if
/// the mark is the least of them. Otherwise more is known than could be written, and each clock is
/// the mark.
pub fn clocks_at(clocks: Vec<Time>, mark: Time) -> Vec<Time>
    requires { 0 < length clocks.items }
    ensures { result.items ≡ shown_clocks clocks.items mark }
{
    let mut clocks = clocks;
    if !is_same(least_clock(&clocks), mark) {
        clocks.fill(mark);
    }
    clocks
}

/// Whether all clocks are at `end`.
pub fn all_are(clocks: &[Time], end: Time) -> bool
    ensures { IsTrue result ↔ ((p : ℕ) (t : MeantTime) → slice_get clocks.now p ≡ Some t
        → t ≡ end) }
{
    clocks.iter().all(|clock| *clock == end)
}

/// Why a run by workers was cut: out of memory if a worker was, else stopped if the watch stopped a
/// worker. Otherwise memory was refused to a piece: unless a write failed, the loop that writes
/// stops the workers for this reason alone.
fn why_cut<C>(halts: &[Option<Halt<C>>]) -> Why
    ensures { result ≡ why_for halts.now }
{
    if lacked_memory(halts) {
        return Why::Memory;
    }
    if was_stopped(halts) {
        return Why::Stopped;
    }
    Why::Memory
}

/// How a run by workers ended; `is_whole` says whether its whole trace was written.
pub fn ended_as<C>(halts: &[Option<Halt<C>>], is_whole: bool) -> RunEnded
    ensures { result ≡ (if is_whole then Whole else Cut (why_for halts.now)) }
{
    if is_whole {
        return RunEnded::Whole;
    }
    RunEnded::Cut(why_cut(halts))
}
