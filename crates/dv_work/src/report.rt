//! How a run ended, and what was not posted.

ghost use Rattle.std.specs.Prelude.{◌≡◌, ◌↔◌, ◌+◌, ◌<◌, ◌^◌, ℕ, IsTrue, map};
ghost use Rattle.std.specs.Prelude.{IfOk, IfSome, is_some, slice_get, Some};
ghost use Rattle.std.specs.List.{All, list_any};
ghost use Rattle.dv_board.specs.declared.posts.Piece.{Piece as MeantPiece};
ghost use Rattle.dv_core.specs.Worlds.{end_time};
ghost use Rattle.dv_work.specs.declared.report.Ended.TheVariants.{Whole};
ghost use Rattle.dv_work.specs.Workers.{Reported};
ghost use Rattle.dv_work.specs.Endings.{EndsFor, cause_of, ended_by, first_cause, is_caused, lacks_memory};
ghost use Rattle.dv_work.specs.Flags.{IsOfFlag};
ghost use Rattle.dv_work.specs.Reached.{AreReached};
ghost use Rattle.dv_work.specs.Seats.{Reports};

use crate::bell::{FlagView, Raised};
use crate::seat::Seat;
use crate::worker::{Halt, Worked};
use dv_board::{Board, Piece, Rest};
use dv_core::{LogicalProcess, PlannedJob, ProcessHandsOver};
use dv_time::Time;
use dv_written::{OfJob, WrittenPart};
use std::alloc::{AllocError, Global};
use std::sync::Wait;

/// How a run ended.
#[derive(Clone, Copy, PartialEq, Eq)]
pub enum Ended {
    /// Every clock is at the end.
    Whole,
    /// The watch stopped it, for the cause of a worker's halt.
    Stopped,
    /// The caller raised the flag that stops it.
    Cancelled,
    /// No memory, or no thread for a worker.
    Memory,
}

/// The report of a run by workers, after all workers have ended.
#[derive(Drop)]
pub struct Report<'a, N: OfJob, C> {
    /// What each process committed and did not post, up to its clock, by its number. Only the board
    /// of the run makes it: what a process posted and this are, joined, its part before its clock.
    /// If a piece of it was lost, its clock is the end of what it posted.
    pub rest: Rest<'a, N>,
    /// Why each worker ended before its processes were done, or `None` if they are done: first the
    /// workers that got no thread, then the others, by their numbers.
    pub halts: Vec<Option<Halt<C>>>,
    /// How the run ended.
    pub ended: Ended,
    /// The token that the caller raised the flag that stops the run, if it did.
    pub stopped: Option<Raised<'a>>,
}

// An empty piece for each process.
fn nothing<N: OfJob>(alloc: Global, processes: usize) -> Result<Vec<Piece<N>>, AllocError>
    requires count { processes ≡ N.job.processes }
    requires few { processes < 2 ^ 32 }
    ensures { IfOk result (λ rest. AreReached N.job rest.items) }
{
    let mut rest = Vec::with_capacity(alloc, processes)?;
    for process in 0..processes {
        rest.push(Piece {
            process: process as u32,
            from: Time::ZERO,
            clock: Time::ZERO,
            part: WrittenPart::new(alloc),
        })?;
    }
    Ok(rest)
}

// Moves what a process committed and did not post to its place in the list.
fn enter<N: OfJob, P: ProcessHandsOver<N>>(rest: &mut Vec<Piece<N>>, seat: Seat<P>)
    requires seat { Reports N.job P.state P.handed P.valid seat }
    requires rest { AreReached N.job rest.old.items }
    ensures { AreReached N.job rest.new.items }
{
    let mut seat = seat;
    let piece = seat.piece::<N>();
    let index = piece.process as usize;
    rest[index] = piece;
}

// Moves what the processes of a worker committed and did not post to their places in the list.
fn enter_all<N: OfJob, P: ProcessHandsOver<N>>(rest: &mut Vec<Piece<N>>, seats: Vec<Seat<P>>)
    requires seats { All (Reports N.job P.state P.handed P.valid) seats.items }
    requires rest { AreReached N.job rest.old.items }
    ensures { AreReached N.job rest.new.items }
{
    for seat in seats {
        enter::<N, P>(rest, seat);
    }
}

/// Whether a worker ended out of memory.
pub fn lacked_memory<C>(halts: &[Option<Halt<C>>]) -> bool
    ensures { result ≡ list_any lacks_memory halts.now }
{
    halts.iter().any(|halt| matches!(halt, Some(Halt::Memory)))
}

/// Whether the watch stopped a worker.
pub fn was_stopped<C>(halts: &[Option<Halt<C>>]) -> bool
    ensures { result ≡ list_any is_caused halts.now }
{
    halts
        .iter()
        .any(|halt| matches!(halt, Some(Halt::Cause(_))))
}

// The cause for which the watch stopped a worker, if it did.
fn cause_of<C: Drop>(halt: Option<Halt<C>>) -> Option<C>
    ensures { result ≡ cause_of halt }
{
    match halt {
        Some(Halt::Cause(cause)) => Some(cause),
        Some(Halt::Flag | Halt::Stop | Halt::Memory) | None => None,
    }
}

/// The cause for which the watch stopped the first worker that it stopped, if it stopped one.
pub fn first_cause<C: Drop>(halts: Vec<Option<Halt<C>>>) -> Option<C>
    ensures { result ≡ first_cause halts.items }
{
    for halt in halts {
        if let Some(cause) = cause_of(halt) {
            return Some(cause);
        }
    }
    None
}

// Whether all pieces end at a time.
fn all_reach<N: OfJob>(rest: &[Piece<N>], end: Time) -> bool
    ensures { IsTrue result ↔ ((p : ℕ) (x : MeantPiece N) → slice_get rest.now p ≡ Some x
        → x.clock ≡ end) }
{
    rest.iter().all(|piece| piece.clock == end)
}

// How a run ended: whole, or out of memory if a worker was, or stopped if the watch stopped one, or
// cancelled if the caller raised its flag. Nothing else ends a run; if it did, it would count as
// out of memory, which claims least.
fn how_ended(is_whole: bool, memory: bool, is_caused: bool, is_stopped: bool) -> Ended
    ensures whole { (result ≡ Whole) ↔ IsTrue is_whole }
    ensures ended { result ≡ ended_by is_whole memory is_caused is_stopped }
{
    if is_whole {
        return Ended::Whole;
    }
    if memory {
        return Ended::Memory;
    }
    if is_caused {
        return Ended::Stopped;
    }
    if is_stopped {
        return Ended::Cancelled;
    }
    Ended::Memory
}

/// Makes the report of all workers of a job. If the run is not whole, it ended out of memory if a
/// worker was, else stopped if the watch stopped a worker, else because `stop` was raised.
///
/// # Errors
///
/// No memory for the lists of pieces and halts.
pub fn report_of<'a, N: OfJob, J: PlannedJob, P: ProcessHandsOver<N>, C: Drop, R: Wait>(
    rt: &R,
    alloc: Global,
    job: &J,
    processes: usize,
    all: Vec<Worked<P, C>>,
    board: &'a Board<N>,
    stop: FlagView<'a>,
) -> Result<Report<'a, N, C>, AllocError>
    requires job { N.job ≡ J.means job.now }
    requires count { processes ≡ N.job.processes }
    requires few { processes < 2 ^ 32 }
    requires reported { All (Reported N.job P.state P.handed P.valid) all.items }
    ensures reached { IfOk result (λ r. AreReached N.job r.rest.pieces) }
    ensures whole { IfOk result (λ r. (r.ended ≡ Whole)
        ↔ ((p : ℕ) (x : MeantPiece N) → slice_get r.rest.pieces p ≡ Some x
        → x.clock ≡ end_time N.job)) }
    ensures halts { IfOk result (λ r. r.halts.items ≡ map (λ worked. worked.halt) all.items) }
    ensures ended { IfOk result (λ r. EndsFor N.job r.halts.items
        (is_some r.stopped) r.rest.pieces r.ended) }
    ensures stopped { IfOk result (λ r. IfSome r.stopped (IsOfFlag stop.entry.flag.now)) }
{
    let mut rest = nothing::<N>(alloc, processes)?;
    let mut halts = Vec::with_capacity(alloc, all.len())?;
    for worked in all {
        let Worked { seats, halt } = worked;
        enter_all::<N, P>(&mut rest, seats);
        halts.push(halt)?;
    }
    let end = Time {
        tick: job.horizon() + 1,
        micro: 0,
    };
    let rest = board.rest(rt, rest);
    let is_whole = all_reach(rest.pieces(), end);
    let stopped = stop.raised();
    let memory = lacked_memory(&halts);
    let is_caused = was_stopped(&halts);
    let ended = how_ended(is_whole, memory, is_caused, stopped.is_some());
    Ok(Report {
        rest,
        halts,
        ended,
        stopped,
    })
}
