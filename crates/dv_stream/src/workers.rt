//! Runs workers, and writes the trace while they run.

ghost use Rattle.std.specs.Prelude.{◌≡◌, ◌<◌, ◌≤◌, length, IfOk, IfSome, OnErr};
ghost use Rattle.dv_bag.specs.declared.entry.Entry.{Entry as MeantEntry};
ghost use Rattle.dv_board.specs.Jobs.{IsMergeable};
ghost use Rattle.dv_lines.specs.Entries.{line_of};
ghost use Rattle.dv_text.specs.Names.{tree_names};
ghost use Rattle.dv_time.specs.Limits.{greatest_tick};
ghost use Rattle.dv_time.specs.Time.{IsOfRun};
ghost use Rattle.dv_tree.specs.Tables.{Source};
ghost use Rattle.dv_work.specs.Crews.{IsCrewFor};
ghost use Rattle.dv_work.specs.Reached.{AreReached};
ghost use Rattle.dv_stream.specs.Clocks.{IsUpToEnd, shown_clocks};
ghost use Rattle.dv_stream.specs.Endings.{HasRunByWorkers};
ghost use Rattle.dv_stream.specs.Written.{IsBegun, IsWrittenTo};

use crate::merged::Merger;
use crate::news::{Signals, write_news};
use crate::ran::{Ran, RanByWorkers};
use crate::rest::{Left, all_are, clocks_at, ended_as, write_rest};
use crate::written::Written;
use dv_bag::Bags;
use dv_core::{PlannedJob, ProcessHandsOver};
use dv_lines::TreeWords;
use dv_text::WriteError;
use dv_text::laws::a_trace_is_its_pieces;
use dv_time::Time;
use dv_work::{Crew, Halt, Report, Watch, run_streamed};
use dv_written::OfJob;
use std::alloc::{AllocError, Global};
use std::io::Write;
use std::marker::PhantomData;
use std::sync::Wait;
use std::thread::{Threads, join_mut};

/// The job `N`, with its last tick. Workers ask no more of a job, and this may be sent to another
/// thread, unlike a job with the text of a model.
#[derive(Drop)]
struct Until<N: OfJob> {
    tick: u64,
    of: PhantomData<N>,
    ghost is: { tick ≡ N.job.horizon },
    ghost few: { tick ≤ greatest_tick },
}

impl<N: OfJob> PlannedJob for Until<N> {
    ghost means = { λ _. N.job };

    fn horizon(&self) -> u64 {
        self.tick
    }
}

// A job with its crew.
#[derive(Drop)]
struct CrewedJob<N: OfJob, P, K> {
    job: Until<N>,
    crew: Crew<P, K>,
}

// Runs a job by its crew, if it has not run yet. Signals when it begins, and when it has ended.
fn run_posting<N: OfJob + Send + Sync, P: ProcessHandsOver<N> + Send, G: Watch>(
    rt: &(impl Threads + Wait + Sync),
    alloc: Global,
    crewed: &mut Option<CrewedJob<N, P, P::Work>>,
    watch: &G,
    signals: &Signals<N>,
) -> Result<Left<N, G::Cause>, AllocError>
where
    P::Work: Send + Drop,
    P::Record: Send,
    requires crew { IfSome crewed.old (λ c. IsCrewFor N.job P.state P.handed P.valid c.crew) }
    requires bells { IfSome crewed.old (λ c.
        length c.crew.works.items ≤ length signals.now.bells.items) }
    ensures { IfOk result (λ r. AreReached N.job r.rest.items) }
{
    signals.begin(rt);
    let Some(CrewedJob { job, crew }) = crewed.take() else {
        signals.end(rt);
        return Err(AllocError);
    };
    let report = run_streamed(rt, alloc, &job, crew, watch, signals.stream());
    signals.end(rt);
    match report {
        Ok(Report { rest, halts, .. }) => Ok(Left {
            rest: rest.into_pieces(),
            halts,
        }),
        Err(error) => Err(error),
    }
}

// Writes what workers post. A closure that uses a merger by this trait has no lifetime of words in
// its type.
trait WritesPosts<N: OfJob> {
    // The tree whose names are written.
    ghost tree: { Self → Source };

    // Writes what is posted until the run has ended. A failed write ends the run.
    fn write_posts<R: Wait, W: Write>(
        &mut self,
        rt: &R,
        signals: &Signals<N>,
        writer: &mut W,
    ) -> Result<Written, WriteError>
        ensures tree { tree self.new ≡ tree self.old }
        ensures written { IfOk result (IsWrittenTo N.job (tree self.old)
            (W.contents writer.old) (W.contents writer.new)) }
        ensures within { IfOk result (λ w. IsUpToEnd N.job w.mark) }
        ensures err { OnErr result (IsBegun N.job (tree self.old)
            (W.contents writer.old) (W.contents writer.new)) };
}

impl<'t, N: OfJob> WritesPosts<N> for Merger<'t, N> {
    ghost tree = { λ m. m.lines };

    fn write_posts<R: Wait, W: Write>(
        &mut self,
        rt: &R,
        signals: &Signals<N>,
        writer: &mut W,
    ) -> Result<Written, WriteError> {
        let written = write_news(rt, signals, self, writer);
        if written.is_err() {
            signals.stop(rt);
        }
        written
    }
}

// Runs a job by its crew in another thread, and writes in this one what it posts. If no thread can
// be made, `join_mut` runs the crew after the loop that writes; this loop then writes nothing,
// since no run begins.
fn run_and_write<
    N: OfJob + Send + Sync,
    P: ProcessHandsOver<N> + Send,
    G: Watch,
    R: Threads + Wait + Sync,
    M: WritesPosts<N>,
    W: Write,
>(
    rt: &R,
    alloc: Global,
    crewed: CrewedJob<N, P, P::Work>,
    watch: &G,
    signals: &Signals<N>,
    merger: &mut M,
    writer: &mut W,
) -> (
    Result<Written, WriteError>,
    Result<Left<N, G::Cause>, AllocError>,
)
where
    P::Work: Send + Drop,
    P::Record: Send,
    requires crew { IsCrewFor N.job P.state P.handed P.valid crewed.crew }
    requires bells { length crewed.crew.works.items ≤ length signals.now.bells.items }
    ensures tree { M.tree merger.new ≡ M.tree merger.old }
    ensures written { IfOk result.0 (IsWrittenTo N.job (M.tree merger.old)
        (W.contents writer.old) (W.contents writer.new)) }
    ensures within { IfOk result.0 (λ w. IsUpToEnd N.job w.mark) }
    ensures err { OnErr result.0 (IsBegun N.job (M.tree merger.old)
        (W.contents writer.old) (W.contents writer.new)) }
    ensures report { IfOk result.1 (λ r. AreReached N.job r.rest.items) }
{
    let mut crewed = Some(crewed);
    let mut run = move || -> Result<Left<N, G::Cause>, AllocError>
        requires crew { IfSome crewed (λ c. IsCrewFor N.job P.state P.handed P.valid c.crew) }
        requires bells { IfSome crewed (λ c.
            length c.crew.works.items ≤ length signals.now.bells.items) }
        ensures { IfOk result (λ r. AreReached N.job r.rest.items) }
    { run_posting(rt, alloc, &mut crewed, watch, signals) };
    let mut write = || -> Result<Written, WriteError>
        ensures tree { M.tree merger.exit.now ≡ M.tree merger.entry.now }
        ensures written { IfOk result (IsWrittenTo N.job (M.tree merger.entry.now)
            (W.contents writer.entry.now) (W.contents writer.exit.now)) }
        ensures within { IfOk result (λ w. IsUpToEnd N.job w.mark) }
        ensures err { OnErr result (IsBegun N.job (M.tree merger.entry.now)
            (W.contents writer.entry.now) (W.contents writer.exit.now)) }
    { merger.write_posts(rt, signals, writer) };
    let (report, written) = join_mut(rt, &mut run, &mut write);
    (written, report)
}

/// Runs a crew of new processes of a job by workers, and writes the trace, with the words of a
/// tree, while they run. What was written is the trace before the least of the clocks, none of
/// which is past the end, and a run is reported whole exactly if every clock is at the end.
///
/// # Errors
///
/// A write failed, or there is no memory for the links and the threads, or for a piece of the
/// trace. All threads have ended, and the writer holds a beginning of the lines.
pub(crate) fn stream_crew<
    N: OfJob + Send + Sync,
    J: PlannedJob,
    P: ProcessHandsOver<N> + Send,
    G: Watch,
    R: Threads + Wait + Sync,
    W: Write,
>(
    rt: &R,
    alloc: Global,
    job: &J,
    crew: Crew<P, P::Work>,
    watch: &G,
    words: &TreeWords,
    writer: &mut W,
) -> Result<RanByWorkers<G::Cause>, WriteError>
where
    P::Work: Send + Drop,
    P::Record: Send,
    requires job { N.job ≡ J.means job.now }
    requires lines { (e : MeantEntry) → line_of (tree_names words.now) e ≡ N.line e }
    requires crew { IsCrewFor (J.means job.now) P.state P.handed P.valid crew }
    requires merges { IsMergeable (J.means job.now) }
    requires some { 0 < (J.means job.now).processes }
    ensures run { IfOk result (HasRunByWorkers (J.means job.now)) }
    ensures written { IfOk result (λ w. IsWrittenTo (J.means job.now) words.now
        (W.contents writer.old) (W.contents writer.new) w.ran.written) }
    ensures err { OnErr result (IsBegun (J.means job.now) words.now
        (W.contents writer.old) (W.contents writer.new)) }
{
    let processes = crew.processes.len() as u32;
    let mut merger: Merger<'_, N> = Merger::new(alloc, processes, words)?;
    let signals: Signals<N> = Signals::new(
        alloc,
        processes,
        crew.works.len(),
        words.tree().component_count(),
    )?;
    run_and_write_rest(rt, job, crew, watch, &signals, &mut merger, writer)
}

// Runs a crew and writes its trace, with given signals and a given merger.
fn run_and_write_rest<
    N: OfJob + Send + Sync,
    J: PlannedJob,
    P: ProcessHandsOver<N> + Send,
    G: Watch,
    W: Write,
>(
    rt: &(impl Threads + Wait + Sync),
    job: &J,
    crew: Crew<P, P::Work>,
    watch: &G,
    signals: &Signals<N>,
    merger: &mut Merger<'_, N>,
    writer: &mut W,
) -> Result<RanByWorkers<G::Cause>, WriteError>
where
    P::Work: Send + Drop,
    P::Record: Send,
    requires crew { IsCrewFor N.job P.state P.handed P.valid crew }
    requires bells { length crew.works.items ≤ length signals.now.bells.items }
    requires job { N.job ≡ J.means job.now }
    requires some { 0 < N.job.processes }
    ensures run { IfOk result (HasRunByWorkers N.job) }
    ensures written { IfOk result (λ w. IsWrittenTo N.job merger.old.lines
        (W.contents writer.old) (W.contents writer.new) w.ran.written) }
    ensures err { OnErr result (IsBegun N.job merger.old.lines
        (W.contents writer.old) (W.contents writer.new)) }
{
    // For the prover alone: the lines of two adjacent pieces are those of both together.
    a_trace_is_its_pieces::<Bags>();
    let until: Until<N> = Until {
        tick: job.horizon(),
        of: PhantomData,
    };
    let crewed = CrewedJob { job: until, crew };
    let (written, report) = run_and_write(rt, merger.alloc, crewed, watch, signals, merger, writer);
    let written = written?;
    let Left { rest, halts } = report?;
    let written = write_rest(rt, &signals.board, merger, rest, written, writer)?;
    let ran = ran_by_workers(job, merger, halts, written)?;
    Ok(ran)
}

// The answer of a run by workers, from how they ended, what is joined and what was written of it.
fn ran_by_workers<N: OfJob, J: PlannedJob, C: Drop>(
    job: &J,
    merger: &Merger<'_, N>,
    halts: Vec<Option<Halt<C>>>,
    written: Written,
) -> Result<RanByWorkers<C>, AllocError>
    requires job { N.job ≡ J.means job.now }
    requires some { 0 < N.job.processes }
    requires of_run { IsOfRun N.job.limit written.mark }
    requires within { IsUpToEnd N.job written.mark }
    ensures run { IfOk result (HasRunByWorkers N.job) }
    ensures clocks { IfOk result (λ r. r.ran.clocks.items
        ≡ shown_clocks merger.now.backlog.clocks written.mark) }
    ensures written { IfOk result (λ r. r.ran.written ≡ written) }
{
    let kept = merger.backlog.clocks(merger.alloc)?;
    let clocks = clocks_at(kept, written.mark);
    let end = Time {
        tick: job.horizon() + 1,
        micro: 0,
    };
    let is_whole = all_are(&clocks, end);
    let ended = ended_as(&halts, is_whole);
    let ran = Ran {
        clocks,
        ended,
        written,
    };
    Ok(RanByWorkers { ran, halts })
}
