//! Runs the processes of a plan by workers.

ghost use Rattle.std.specs.Prelude.{◌≡◌, ◌<◌, List, length, IfOk, OnErr};
ghost use Rattle.dv_bag.specs.Bag.{Counts};
ghost use Rattle.dv_bag.specs.declared.entry.Entry.{Entry as MeantEntry};
ghost use Rattle.dv_board.specs.Jobs.{IsMergeable};
ghost use Rattle.dv_core.specs.Conservative.{IsConservative, state_by};
ghost use Rattle.dv_lines.specs.Entries.{line_of};
ghost use Rattle.dv_local.specs.States.{settled_by, view_by};
ghost use Rattle.dv_plan.specs.Beginning.{CanRun};
ghost use Rattle.dv_text.specs.Names.{tree_names};
ghost use Rattle.dv_work.specs.Crews.{IsCrewFor};
ghost use Rattle.dv_stream.specs.Endings.{HasRunByWorkers};
ghost use Rattle.dv_stream.specs.Written.{IsBegun, IsWrittenTo};

use crate::ran::RanByWorkers;
use crate::workers::stream_crew;
use dv_core::PlannedJob;
use dv_lines::{TreeWords, WrittenRecord, WrittenRecords};
use dv_local::LocalRun;
use dv_plan::Plan;
use dv_plan::processes::begin_each;
use dv_proc::Process;
use dv_react::Atomic;
use dv_text::WriteError;
use dv_tree::Tree;
use dv_work::{Crew, Watch};
use dv_written::{HandsOver, MakesRecord, OfJob};
use std::alloc::{AllocError, Global};
use std::io::Write;
use std::marker::Brand;
use std::sync::Wait;
use std::thread::Threads;

/// The workers of a run.
#[derive(Drop)]
pub struct Workers<'w, K, G> {
    /// What the turns of each worker work with, by its number. There are as many workers as items.
    pub works: Vec<K>,
    /// How many packets each link has room for. One more may be held at the end of its sender.
    pub capacity: usize,
    /// Is called before and after each turn, and may stop the run.
    pub watch: &'w G,
}

/// Runs the processes of a plan from their start by workers, and writes the trace, with the names
/// of a tree, while they run. Process p belongs to worker p mod the number of workers.
///
/// The `watch` of the workers may stop the run for a cause. Why each worker ended, with its cause if
/// it has one, is among the halts, in the order of the workers' numbers. For any watch and any
/// timing of the threads, what was written is the trace before the least of the clocks, none of
/// which is past the end, and a run is reported whole exactly if every clock is at the end.
///
/// # Errors
///
/// A write failed, or there is no memory for the processes, the links and the threads, or for a
/// piece of the trace. All threads have ended, and the writer holds a beginning of the lines.
pub fn stream_plan_by_workers<
    J: PlannedJob,
    A: Atomic + Drop + Send,
    G: Watch,
    R: Threads + Wait + Sync,
    W: Write,
>(
    rt: &R,
    alloc: Global,
    job: &J,
    plan: Plan<A>,
    workers: Workers<'_, A::Work, G>,
    tree: &Tree,
    writer: &mut W,
) -> Result<RanByWorkers<G::Cause>, WriteError>
where
    A::Work: Send + Drop,
    requires comes { (a : A) (bags : List Counts) → A.comes a bags }
    requires run { CanRun J.means A.behaviour A.fits job.now plan }
    requires merges { IsMergeable (J.means job.now) }
    requires some { 0 < (J.means job.now).processes }
    requires workers { 0 < length workers.works.items }
    requires capacity { 0 < workers.capacity }
    ensures run { IfOk result (HasRunByWorkers (J.means job.now)) }
    ensures written { IfOk result (λ w. IsWrittenTo (J.means job.now) tree.now
        (W.contents writer.old) (W.contents writer.new) w.ran.written) }
    ensures err { OnErr result (IsBegun (J.means job.now) tree.now
        (W.contents writer.old) (W.contents writer.new)) }
{
    let words = TreeWords::of(alloc, tree)?;
    stream_with_words::<Brand, J, A, G, R, W>(rt, alloc, job, plan, workers, &words, writer)
}

// Makes the records by the words, and runs the processes of a plan with them. No argument has the
// job in its type, so the caller chooses the job.
fn stream_with_words<
    'w,
    N: OfJob + Send + Sync,
    J: PlannedJob,
    A: Atomic + Drop + Send,
    G: Watch,
    R: Threads + Wait + Sync,
    W: Write,
>(
    rt: &R,
    alloc: Global,
    job: &J,
    plan: Plan<A>,
    workers: Workers<'_, A::Work, G>,
    words: &'w TreeWords<'w>,
    writer: &mut W,
) -> Result<RanByWorkers<G::Cause>, WriteError>
where
    A::Work: Send + Drop,
    requires job { N.job ≡ J.means job.now }
    requires lines { (e : MeantEntry) → line_of (tree_names words.now) e ≡ N.line e }
    requires comes { (a : A) (bags : List Counts) → A.comes a bags }
    requires run { CanRun J.means A.behaviour A.fits job.now plan }
    requires merges { IsMergeable (J.means job.now) }
    requires some { 0 < (J.means job.now).processes }
    requires workers { 0 < length workers.works.items }
    requires capacity { 0 < workers.capacity }
    ensures run { IfOk result (HasRunByWorkers (J.means job.now)) }
    ensures written { IfOk result (λ w. IsWrittenTo (J.means job.now) words.now
        (W.contents writer.old) (W.contents writer.new) w.ran.written) }
    ensures err { OnErr result (IsBegun (J.means job.now) words.now
        (W.contents writer.old) (W.contents writer.new)) }
{
    let records: WrittenRecords<'w, N> = words.records();
    stream_with_records::<N, J, A, WrittenRecord<'w, N>, WrittenRecords<'w, N>, G, R, W>(
        rt, alloc, job, plan, workers, &records, words, writer,
    )
}

// Runs the processes of a plan, each with a record that is made for it.
fn stream_with_records<
    N: OfJob + Send + Sync,
    J: PlannedJob,
    A: Atomic + Drop + Send,
    K: HandsOver<N> + Send,
    M: MakesRecord<K>,
    G: Watch,
    R: Threads + Wait + Sync,
    W: Write,
>(
    rt: &R,
    alloc: Global,
    job: &J,
    plan: Plan<A>,
    workers: Workers<'_, A::Work, G>,
    records: &M,
    words: &TreeWords,
    writer: &mut W,
) -> Result<RanByWorkers<G::Cause>, WriteError>
where
    A::Work: Send + Drop,
    requires job { N.job ≡ J.means job.now }
    requires lines { (e : MeantEntry) → line_of (tree_names words.now) e ≡ N.line e }
    requires comes { (a : A) (bags : List Counts) → A.comes a bags }
    requires run { CanRun J.means A.behaviour A.fits job.now plan }
    requires merges { IsMergeable (J.means job.now) }
    requires some { 0 < (J.means job.now).processes }
    requires workers { 0 < length workers.works.items }
    requires capacity { 0 < workers.capacity }
    ensures run { IfOk result (HasRunByWorkers (J.means job.now)) }
    ensures written { IfOk result (λ w. IsWrittenTo (J.means job.now) words.now
        (W.contents writer.old) (W.contents writer.new) w.ran.written) }
    ensures err { OnErr result (IsBegun (J.means job.now) words.now
        (W.contents writer.old) (W.contents writer.new)) }
{
    let Workers {
        works,
        capacity,
        watch,
    } = workers;
    let crew = begin_crew::<N, J, A, K, M>(alloc, job, plan, works, capacity, records)?;
    stream_crew::<N, J, Process<LocalRun<A, K>>, G, R, W>(
        rt, alloc, job, crew, watch, words, writer,
    )
}

// Makes a crew of the processes of a plan, each with a record of its own.
fn begin_crew<N: OfJob, J: PlannedJob, A: Atomic + Drop, K: HandsOver<N>, M: MakesRecord<K>>(
    alloc: Global,
    job: &J,
    plan: Plan<A>,
    works: Vec<A::Work>,
    capacity: usize,
    records: &M,
) -> Result<Crew<Process<LocalRun<A, K>>, A::Work>, AllocError>
where
    A::Work: Drop,
    requires comes { (a : A) (bags : List Counts) → A.comes a bags }
    requires run { CanRun J.means A.behaviour A.fits job.now plan }
    requires workers { 0 < length works.items }
    requires capacity { 0 < capacity }
    ensures { IfOk result (IsCrewFor (J.means job.now) (state_by (view_by A.behaviour K.told))
        (λ p. K.handed p.local.record)
        (IsConservative (view_by A.behaviour K.told) (settled_by A.behaviour K.settled))) }
{
    let _ = job;
    let Plan { links, shares } = plan;
    let processes = begin_each::<A, K, M>(alloc, shares, records)?;
    Ok(Crew {
        channels: links,
        processes,
        works,
        capacity,
    })
}
