//! Writes what workers post, while they run.

ghost use Rattle.std.specs.Prelude.{◌≡◌, ◌≤◌, IfNone, IfOk, IfSome, OnErr, length};
ghost use Rattle.dv_board.specs.Clocks.{IsLeast};
ghost use Rattle.dv_time.specs.Time.{IsOfRun};
ghost use Rattle.dv_stream.specs.Clocks.{IsUpToEnd};
ghost use Rattle.dv_stream.specs.Written.{Falters, GoesOn, IsBegun, IsWrittenTo};

use crate::merged::Merger;
use crate::written::{Written, write_piece};
use dv_bag::Bags;
use dv_board::{Backlog, Board, Piece};
use dv_lines::TraceWriter;
use dv_merge::merge;
use dv_text::WriteError;
use dv_text::laws::a_trace_is_its_pieces;
use dv_work::{Bell, Flag, Leads, Stream, bells_of};
use dv_written::OfJob;
use std::alloc::{AllocError, Global};
use std::io::Write;
use std::sync::Wait;
use std::thread::yield_now;

// How often the loop looks at most whether the run has begun. It yields the processor after each
// look. A new thread starts within a thousandth of this time.
const LOOKS_FOR_A_BEGINNING: u32 = 1_000_000;

/// What the workers share with the loop that writes: the board, bells, flags and leads.
#[derive(Drop)]
pub struct Signals<N: OfJob> {
    /// Where the workers post.
    pub board: Board<N>,
    /// Is raised once the run has begun.
    pub begun: Flag,
    /// Is raised once the loop takes what is posted. Only then processes are held back.
    pub paced: Flag,
    /// Rings after a post, and after the run has ended.
    pub news: Bell,
    /// Is raised once the run has ended.
    pub ended: Flag,
    /// Is raised if nothing more can be written. Then the workers end.
    pub stop: Flag,
    /// The bells at which the workers wait, by their numbers.
    pub bells: Vec<Bell>,
    /// How many bytes of lines of each process were posted and are not written yet.
    pub leads: Leads,
}

// Rings the bells of all workers.
fn ring_all(bells: &[Bell]) {
    for bell in bells {
        bell.ring();
    }
}

impl<N: OfJob> Signals<N> {
    /// The signals of a run that has not begun.
    ///
    /// # Errors
    ///
    /// No memory for the board, the bells and the leads.
    pub fn new(
        alloc: Global,
        processes: u32,
        workers: usize,
        components: usize,
    ) -> Result<Self, AllocError>
        requires { processes ≡ N.job.processes }
        ensures { IfOk result (λ signals. length signals.bells.items ≡ workers) }
    {
        Ok(Signals {
            board: Board::new(alloc, processes)?,
            begun: Flag::new(),
            paced: Flag::new(),
            news: Bell::new(),
            ended: Flag::new(),
            stop: Flag::new(),
            bells: bells_of(alloc, workers)?,
            leads: Leads::new(alloc, processes, components)?,
        })
    }

    /// The signals as workers see them.
    pub fn stream(&self) -> Stream<'_, N>
        ensures { result.bells.now ≡ self.now.bells.items }
    {
        Stream {
            board: &self.board,
            news: &self.news,
            stop: self.stop.view(),
            paced: &self.paced,
            leads: &self.leads,
            bells: &self.bells,
        }
    }

    /// Tells the loop that the run has begun.
    pub fn begin<R: Wait>(&self, rt: &R) {
        self.begun.raise(rt, &[]);
    }

    /// Waits a while for the run to begin, and returns whether it has. It does not if no thread can
    /// be made for it.
    pub fn has_begun(&self) -> bool {
        for _ in 0..LOOKS_FOR_A_BEGINNING {
            if self.begun.is_raised() {
                return true;
            }
            yield_now();
        }
        false
    }

    /// Tells the workers to end, since nothing more can be written.
    pub fn stop<R: Wait>(&self, rt: &R) {
        self.stop.raise(rt, &self.bells);
    }

    /// Counts in the leads what was taken off the board.
    pub fn note_taken(&self, pieces: &[Piece<N>]) {
        for piece in pieces {
            self.leads.take(piece.process, piece.part.byte_count());
        }
    }

    /// Takes off the leads what the backlog does not keep any more. Rings all bells if a process
    /// that was held back may go on.
    pub fn note_kept(&self, backlog: &Backlog<N>) {
        let mut may_go_on = false;
        for process in 0..self.leads.processes() {
            if self.leads.keep(process, backlog.byte_count(process)) {
                may_go_on = true;
            }
        }
        if may_go_on {
            ring_all(&self.bells);
        }
    }

    /// Tells the loop that the run has ended.
    pub fn end<R: Wait>(&self, rt: &R) {
        self.ended.raise(rt, &[]);
        self.news.ring();
    }
}

// Writes what a backlog has of the trace from the mark of `before` up to the least clock. Writes
// nothing and returns `None` if there is no memory to merge it.
fn write_known<N: OfJob, W: Write>(
    alloc: Global,
    backlog: &Backlog<N>,
    before: Written,
    lines: &mut TraceWriter<'_, N>,
    writer: &mut W,
) -> Result<Option<Written>, WriteError>
    ensures tree { lines.new ≡ lines.old }
    ensures some { IfOk result (λ written. IfSome written (GoesOn N.job lines.old
        (W.contents writer.old) (W.contents writer.new) before)) }
    ensures none { IfOk result (λ written. IfNone written
        (W.contents writer.new ≡ W.contents writer.old)) }
    ensures least { IfOk result (λ written. IfSome written (λ w.
        IsLeast w.mark backlog.now.clocks)) }
    ensures within { IfOk result (λ written. IfSome written (λ w. IsUpToEnd N.job w.mark)) }
    ensures err { OnErr result (Falters N.job lines.old
        (W.contents writer.old) (W.contents writer.new) before) }
{
    // For the prover alone: a piece of the trace is sorted by time.
    a_trace_is_its_pieces::<Bags>();
    let Ok(Some((pieces, mark))) = backlog.known(alloc, before.mark) else {
        return Ok(None);
    };
    let Ok(piece) = merge(alloc, pieces) else {
        return Ok(None);
    };
    let written = write_piece(before, &piece, mark, lines, writer)?;
    Ok(Some(written))
}

/// Writes what the backlog of a merger has of the trace from the mark of `before` up to the least
/// clock, and frees it. Writes nothing and returns `None` if there is no memory to merge it.
///
/// # Errors
///
/// A write failed, or there is no memory for a line. The writer holds a beginning of the lines.
pub(crate) fn write_joined<N: OfJob, W: Write>(
    merger: &mut Merger<'_, N>,
    before: Written,
    writer: &mut W,
) -> Result<Option<Written>, WriteError>
    requires of_run { IsOfRun N.job.limit before.mark }
    requires within { IsUpToEnd N.job before.mark }
    ensures tree { merger.new.lines ≡ merger.old.lines }
    ensures some { IfOk result (λ written. IfSome written (GoesOn N.job merger.old.lines
        (W.contents writer.old) (W.contents writer.new) before)) }
    ensures none { IfOk result (λ written. IfNone written
        (W.contents writer.new ≡ W.contents writer.old)) }
    ensures within { IfOk result (λ written. IfSome written (λ after. IsUpToEnd N.job after.mark)) }
    ensures err { OnErr result (Falters N.job merger.old.lines
        (W.contents writer.old) (W.contents writer.new) before) }
{
    let alloc = merger.alloc;
    let known = write_known(alloc, &merger.backlog, before, &mut merger.lines, writer)?;
    if let Some(written) = known {
        merger.backlog.let_go(written.mark);
    }
    Ok(known)
}

// Takes all pieces off the board, writes and frees what is then known of the trace, and updates the
// leads. If a piece is lost, the run is to end, since the trace has a gap there. It is also to end
// if nothing can be merged, since processes that are held back wait for what is written.
fn write_posted<N: OfJob, R: Wait, W: Write>(
    rt: &R,
    signals: &Signals<N>,
    merger: &mut Merger<'_, N>,
    before: Written,
    writer: &mut W,
) -> Result<Written, WriteError>
    requires of_run { IsOfRun N.job.limit before.mark }
    requires within { IsUpToEnd N.job before.mark }
    ensures tree { merger.new.lines ≡ merger.old.lines }
    ensures ok { IfOk result (GoesOn N.job merger.old.lines
        (W.contents writer.old) (W.contents writer.new) before) }
    ensures within { IfOk result (λ after. IsUpToEnd N.job after.mark) }
    ensures err { OnErr result (Falters N.job merger.old.lines
        (W.contents writer.old) (W.contents writer.new) before) }
{
    // For the prover alone: no lines were added.
    a_trace_is_its_pieces::<Bags>();
    let pieces = signals.board.take(rt, merger.alloc);
    signals.note_taken(&pieces);
    if merger.backlog.extend_all(pieces).is_err() {
        signals.stop(rt);
    }
    let Some(written) = write_joined(merger, before, writer)? else {
        signals.stop(rt);
        return Ok(before);
    };
    signals.note_kept(&merger.backlog);
    Ok(written)
}

/// Writes the trace of a job as its workers post it, until their run has ended: after each ring for
/// news all that is known before the least clock. The rest waits in the backlog. If the run does
/// not begin, nothing is written.
///
/// # Errors
///
/// A write failed, or there is no memory for a line. The writer holds a beginning of the lines.
pub fn write_news<N: OfJob, R: Wait, W: Write>(
    rt: &R,
    signals: &Signals<N>,
    merger: &mut Merger<'_, N>,
    writer: &mut W,
) -> Result<Written, WriteError>
    ensures tree { merger.new.lines ≡ merger.old.lines }
    ensures written { IfOk result (IsWrittenTo N.job merger.old.lines
        (W.contents writer.old) (W.contents writer.new)) }
    ensures within { IfOk result (λ w. IsUpToEnd N.job w.mark) }
    ensures err { OnErr result (IsBegun N.job merger.old.lines
        (W.contents writer.old) (W.contents writer.new)) }
{
    // For the prover alone: the lines of two adjacent pieces are those of both together.
    a_trace_is_its_pieces::<Bags>();
    let mut written = Written::NOTHING;
    if !signals.has_begun() {
        return Ok(written);
    }
    signals.paced.raise(rt, &[]);
    for _ in rt.forever() {
        let seen = signals.news.rings();
        let is_last = signals.ended.is_raised();
        written = write_posted(rt, signals, merger, written, writer)?;
        if is_last {
            return Ok(written);
        }
        signals.news.wait_past(rt, seen);
    }
    unreachable!()
}
