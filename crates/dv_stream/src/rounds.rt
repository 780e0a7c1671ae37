//! Runs the processes of a plan in rounds on one thread, and writes between them.

ghost use Rattle.std.specs.Prelude.{◌≡◌, ◌↔◌, ◌<◌, ◌≤◌, ℕ, List, IfOk, IsTrue, OnErr, OnOk, map, replicate, set, slice_get, Some};
ghost use Rattle.std.specs.List.{All};
ghost use Rattle.dv_bag.specs.Bag.{Counts};
ghost use Rattle.dv_bag.specs.Part.{nothing};
ghost use Rattle.dv_bag.specs.declared.entry.Entry.{Entry as MeantEntry};
ghost use Rattle.dv_board.specs.Clocks.{IsLeast};
ghost use Rattle.dv_board.specs.Jobs.{IsMergeable};
ghost use Rattle.dv_conservative.specs.Process.{first_time};
ghost use Rattle.dv_conservative.specs.World.{new_world};
ghost use Rattle.dv_core.specs.declared.step.Ended.TheVariants.{Stalled};
ghost use Rattle.dv_core.specs.Worlds.{EndsAs, IsTrueToModel, kept_by, shown};
ghost use Rattle.dv_lines.specs.Entries.{line_of};
ghost use Rattle.dv_plan.specs.Beginning.{CanRun};
ghost use Rattle.dv_plan.specs.Clocks.{least_time};
ghost use Rattle.dv_text.specs.Names.{tree_names};
ghost use Rattle.dv_stream.specs.Clocks.{IsUpToEnd};
ghost use Rattle.dv_stream.specs.Endings.{HasRunInRounds};
ghost use Rattle.dv_stream.specs.Rounds.{IsJoinedTo};
ghost use Rattle.dv_stream.specs.Written.{Falters, GoesOn, IsBegun, IsWrittenTo};

use crate::alone::stream_alone;
use crate::merged::{Merger, write_merged};
use crate::ran::{Ran, ran_in_world};
use crate::written::Written;
use dv_bag::Bags;
use dv_board::{Backlog, Piece};
use dv_core::{Ended, LogicalProcess, PlannedJob, ProcessHandsOver, World};
use dv_lines::{TextRecord, TreeWords, WrittenRecord, WrittenRecords};
use dv_local::LocalRun;
use dv_plan::Plan;
use dv_plan::worlds::world_of;
use dv_proc::Process;
use dv_react::Atomic;
use dv_text::WriteError;
use dv_text::laws::a_trace_is_its_pieces;
use dv_tree::Tree;
use dv_written::{HandsOver, MakesRecord, OfJob};
use std::alloc::{AllocError, Global};
use std::io::Write;
use std::marker::Brand;

// The trace is written after each batch of this many rounds. A piece costs an access to each
// process and a write, which is little compared with the rounds, and a reader waits no longer than
// the rounds take.
const ROUNDS_BETWEEN: u64 = 64;

/// The bounds of a run in rounds.
#[derive(Clone, Copy, PartialEq, Eq)]
pub struct Bounds {
    /// How many rounds there are at most.
    pub rounds: u64,
    /// How many packets are on their way on each link at most.
    pub capacity: usize,
}

// Joins to a backlog what a process of a world committed since it was joined last.
fn join_one<N: OfJob, J: PlannedJob, P: ProcessHandsOver<N>>(
    world: &mut World<J, P>,
    backlog: &mut Backlog<N>,
    process: u32,
) -> Result<(), AllocError>
    requires job { N.job ≡ J.means world.old.job }
    requires process { process < N.job.processes }
    requires true_to_model { IsTrueToModel N.job (kept_by P.state world.old) }
    requires joined { IsJoinedTo N.job P.state P.handed world.old
        backlog.old.clocks }
    ensures job { world.new.job ≡ world.old.job }
    ensures kept { kept_by P.state world.new ≡ kept_by P.state world.old }
    ensures mark { backlog.new.mark ≡ backlog.old.mark }
    ensures joined { OnOk result (IsJoinedTo N.job P.state P.handed world.new
        backlog.new.clocks) }
    ensures clock { OnOk result ((x : P)
        → slice_get world.old.processes.items process ≡ Some x
        → backlog.new.clocks ≡ set backlog.old.clocks process (P.state x).position.clock) }
{
    let from = backlog.clock(process);
    let clock = world.process(process).clock();
    let part = world.hand_over(process);
    let piece = Piece {
        process,
        from,
        clock,
        part,
    };
    let Ok(()) = backlog.extend(piece) else {
        return Err(AllocError);
    };
    Ok(())
}

// Joins to a backlog what each process of a world committed since it was joined last.
fn join_each<N: OfJob, J: PlannedJob, P: ProcessHandsOver<N>>(
    world: &mut World<J, P>,
    backlog: &mut Backlog<N>,
    processes: u32,
) -> Result<(), AllocError>
    requires job { N.job ≡ J.means world.old.job }
    requires processes { processes ≡ N.job.processes }
    requires true_to_model { IsTrueToModel N.job (kept_by P.state world.old) }
    requires joined { IsJoinedTo N.job P.state P.handed world.old
        backlog.old.clocks }
    ensures job { world.new.job ≡ world.old.job }
    ensures kept { kept_by P.state world.new ≡ kept_by P.state world.old }
    ensures mark { backlog.new.mark ≡ backlog.old.mark }
    ensures joined { OnOk result (IsJoinedTo N.job P.state P.handed world.new
        backlog.new.clocks) }
    ensures clocks { OnOk result (backlog.new.clocks
        ≡ map (λ x. (P.state x).position.clock) world.new.processes.items) }
{
    for process in 0..processes {
        join_one(world, backlog, process)?;
    }
    Ok(())
}

// Writes what the backlog of a merger has of the trace from the mark of `before` up to the least
// clock, and frees it.
fn write_all<N: OfJob, J: PlannedJob, W: Write>(
    job: &J,
    merger: &mut Merger<'_, N>,
    before: Written,
    writer: &mut W,
) -> Result<Written, WriteError>
    requires job { N.job ≡ J.means job.now }
    requires mark { merger.old.backlog.mark ≡ before.mark }
    requires within { IsUpToEnd N.job before.mark }
    ensures tree { merger.new.lines ≡ merger.old.lines }
    ensures clocks { merger.new.backlog.clocks ≡ merger.old.backlog.clocks }
    ensures ok { IfOk result (GoesOn N.job merger.old.lines
        (W.contents writer.old) (W.contents writer.new) before) }
    ensures mark { IfOk result (λ after. merger.new.backlog.mark ≡ after.mark) }
    ensures least { IfOk result (λ after. IsLeast after.mark merger.new.backlog.clocks) }
    ensures within { IfOk result (λ after. IsUpToEnd N.job after.mark) }
    ensures err { OnErr result (Falters N.job merger.old.lines
        (W.contents writer.old) (W.contents writer.new) before) }
{
    let alloc = merger.alloc;
    let Some((pieces, mark)) = merger.backlog.known(alloc, before.mark)? else {
        unreachable!()
    };
    let written = write_merged(alloc, job, pieces, before, mark, &mut merger.lines, writer)?;
    merger.backlog.let_go(mark);
    Ok(written)
}

// Runs `rounds` rounds, and then writes what is new of the trace.
fn advance<N: OfJob, J: PlannedJob, P: ProcessHandsOver<N>, W: Write>(
    world: &mut World<J, P>,
    work: &mut P::Work,
    merger: &mut Merger<'_, N>,
    processes: u32,
    rounds: u64,
    before: Written,
    writer: &mut W,
) -> Result<(Ended, Written), WriteError>
    requires job { N.job ≡ J.means world.old.job }
    requires processes { processes ≡ N.job.processes }
    requires joined { IsJoinedTo N.job P.state P.handed world.old
        merger.old.backlog.clocks }
    requires mark { merger.old.backlog.mark ≡ before.mark }
    requires within { IsUpToEnd N.job before.mark }
    ensures job { world.new.job ≡ world.old.job }
    ensures tree { merger.new.lines ≡ merger.old.lines }
    ensures rounds { IfOk result (λ r. EndsAs N.job rounds r.0
        (shown J.means P.state world.old) (shown J.means P.state world.new)) }
    ensures true_to_model { IsTrueToModel N.job (kept_by P.state world.new) }
    ensures joined { IfOk result (λ _. IsJoinedTo N.job P.state P.handed world.new
        merger.new.backlog.clocks) }
    ensures mark { IfOk result (λ r. merger.new.backlog.mark ≡ r.1.mark) }
    ensures within { IfOk result (λ r. IsUpToEnd N.job r.1.mark) }
    ensures written { IfOk result (λ r. GoesOn N.job merger.old.lines
        (W.contents writer.old) (W.contents writer.new) before r.1) }
    ensures least { IfOk result (λ r. r.1.mark
        ≡ least_time (map (λ x. (P.state x).position.clock) world.new.processes.items)) }
    ensures err { OnErr result (Falters N.job merger.old.lines
        (W.contents writer.old) (W.contents writer.new) before) }
{
    let ended = world.serial(work, rounds);
    join_each(world, &mut merger.backlog, processes)?;
    let written = write_all(world.job(), merger, before, writer)?;
    Ok((ended, written))
}

// Whether the rounds were used up.
pub(crate) fn is_stalled(ended: Ended) -> bool
    ensures { IsTrue result ↔ (ended ≡ Stalled) }
{
    match ended {
        Ended::Stalled => true,
        Ended::Whole | Ended::Memory => false,
    }
}

// Runs the processes of a world in at most `rounds` rounds, and writes the trace meanwhile.
fn stream_rounds<N: OfJob, J: PlannedJob, P: ProcessHandsOver<N>, W: Write>(
    world: &mut World<J, P>,
    work: &mut P::Work,
    merger: &mut Merger<'_, N>,
    processes: u32,
    rounds: u64,
    writer: &mut W,
) -> Result<(Ended, Written), WriteError>
    requires job { N.job ≡ J.means world.old.job }
    requires processes { processes ≡ N.job.processes }
    requires mark { merger.old.backlog.mark ≡ first_time }
    requires clocks { merger.old.backlog.clocks ≡ replicate processes first_time }
    requires kept { All (λ x. (P.handed x).past ≡ nothing) world.old.processes.items }
    ensures job { world.new.job ≡ world.old.job }
    ensures rounds { IfOk result (λ r. EndsAs (J.means world.old.job) rounds r.0
        (shown J.means P.state world.old) (shown J.means P.state world.new)) }
    ensures true_to_model { IfOk result (λ _.
        IsTrueToModel (J.means world.new.job) (kept_by P.state world.new)) }
    ensures written { IfOk result (λ r. IsWrittenTo (J.means world.old.job) merger.old.lines
        (W.contents writer.old) (W.contents writer.new) r.1) }
    ensures least { IfOk result (λ r. r.1.mark
        ≡ least_time (map (λ x. (P.state x).position.clock) world.new.processes.items)) }
    ensures err { OnErr result (IsBegun (J.means world.old.job) merger.old.lines
        (W.contents writer.old) (W.contents writer.new)) }
{
    // For the prover alone: the lines of two adjacent pieces are those of both together.
    a_trace_is_its_pieces::<Bags>();
    let mut left = rounds;
    let nothing = Written::NOTHING;
    let (mut ended, mut written) = advance(world, work, merger, processes, 0, nothing, writer)?;
    while left > 0 && is_stalled(ended) {
        let batch = left.min(ROUNDS_BETWEEN);
        (ended, written) = advance(world, work, merger, processes, batch, written, writer)?;
        left -= batch;
    }
    Ok((ended, written))
}

// Runs the processes of a new world in at most `rounds` rounds, and writes the trace meanwhile.
fn run_processes<N: OfJob, J: PlannedJob, P: ProcessHandsOver<N>, W: Write>(
    alloc: Global,
    world: &mut World<J, P>,
    work: &mut P::Work,
    processes: u32,
    rounds: u64,
    words: &TreeWords<'_>,
    writer: &mut W,
) -> Result<Ran, WriteError>
    requires job { N.job ≡ J.means world.old.job }
    requires lines { (e : MeantEntry) → line_of (tree_names words.now) e ≡ N.line e }
    requires processes { processes ≡ N.job.processes }
    requires some { 0 < processes }
    requires merges { IsMergeable N.job }
    requires kept { All (λ x. (P.handed x).past ≡ nothing) world.old.processes.items }
    ensures run { (capacity : ℕ) → shown J.means P.state world.old ≡ new_world capacity
        → IfOk result (HasRunInRounds (J.means world.old.job) capacity rounds) }
    ensures written { IfOk result (λ r. IsWrittenTo (J.means world.old.job) words.now
        (W.contents writer.old) (W.contents writer.new) r.written) }
    ensures least { IfOk result (λ r. r.written.mark ≡ least_time r.clocks.items) }
    ensures err { OnErr result (IsBegun (J.means world.old.job) words.now
        (W.contents writer.old) (W.contents writer.new)) }
{
    let mut merger = Merger::new(alloc, processes, words)?;
    let (ended, written) = stream_rounds(world, work, &mut merger, processes, rounds, writer)?;
    let ran = ran_in_world(alloc, world, ended, written)?;
    Ok(ran)
}

/// Runs the processes of a plan from their start, in rounds within these bounds, and writes the
/// lines of the trace before the least clock while they run. If memory is refused to a turn or a
/// packet, the last round is cut; what was committed before is what ran, and is written.
///
/// # Errors
///
/// A write failed, or there is no memory for the processes or for a piece of the trace. The writer
/// holds a beginning of the lines.
pub fn stream_plan<J: PlannedJob, A: Atomic + Drop, W: Write>(
    alloc: Global,
    job: J,
    plan: Plan<A>,
    work: &mut A::Work,
    bounds: Bounds,
    tree: &Tree<'_>,
    writer: &mut W,
) -> Result<Ran, WriteError>
    requires comes { (a : A) (bags : List Counts) → A.comes a bags }
    requires run { CanRun J.means A.behaviour A.fits job plan }
    requires merges { IsMergeable (J.means job) }
    requires some { 0 < (J.means job).processes }
    ensures run { IfOk result (HasRunInRounds (J.means job) bounds.capacity bounds.rounds) }
    ensures written { IfOk result (λ r. IsWrittenTo (J.means job) tree.now
        (W.contents writer.old) (W.contents writer.new) r.written) }
    ensures least { IfOk result (λ r. r.written.mark ≡ least_time r.clocks.items) }
    ensures err { OnErr result (IsBegun (J.means job) tree.now
        (W.contents writer.old) (W.contents writer.new)) }
{
    if plan.shares.len() == 1 {
        let to = TextRecord::new(alloc, tree)?;
        return stream_alone(job, plan, work, bounds, to, tree, writer);
    }
    let words = TreeWords::of(alloc, tree)?;
    stream_with_words::<Brand, J, A, W>(job, plan, work, bounds, &words, writer)
}

// Makes a record by the words for each process of a plan, and runs them. No argument has the job in
// its type, so the caller chooses the job.
fn stream_with_words<'w, N: OfJob, J: PlannedJob, A: Atomic + Drop, W: Write>(
    job: J,
    plan: Plan<A>,
    work: &mut A::Work,
    bounds: Bounds,
    words: &'w TreeWords<'w>,
    writer: &mut W,
) -> Result<Ran, WriteError>
    requires job { N.job ≡ J.means job }
    requires lines { (e : MeantEntry) → line_of (tree_names words.now) e ≡ N.line e }
    requires comes { (a : A) (bags : List Counts) → A.comes a bags }
    requires run { CanRun J.means A.behaviour A.fits job plan }
    requires merges { IsMergeable (J.means job) }
    requires some { 0 < (J.means job).processes }
    ensures run { IfOk result (HasRunInRounds (J.means job) bounds.capacity bounds.rounds) }
    ensures written { IfOk result (λ r. IsWrittenTo (J.means job) words.now
        (W.contents writer.old) (W.contents writer.new) r.written) }
    ensures least { IfOk result (λ r. r.written.mark ≡ least_time r.clocks.items) }
    ensures err { OnErr result (IsBegun (J.means job) words.now
        (W.contents writer.old) (W.contents writer.new)) }
{
    let records: WrittenRecords<'w, N> = words.records();
    stream_several::<N, J, A, WrittenRecord<'w, N>, WrittenRecords<'w, N>, W>(
        job, plan, work, bounds, &records, words, writer,
    )
}

// Runs the processes of a plan, each with a record that is made for it.
fn stream_several<
    N: OfJob,
    J: PlannedJob,
    A: Atomic + Drop,
    K: HandsOver<N>,
    M: MakesRecord<K>,
    W: Write,
>(
    job: J,
    plan: Plan<A>,
    work: &mut A::Work,
    bounds: Bounds,
    records: &M,
    words: &TreeWords<'_>,
    writer: &mut W,
) -> Result<Ran, WriteError>
    requires job { N.job ≡ J.means job }
    requires lines { (e : MeantEntry) → line_of (tree_names words.now) e ≡ N.line e }
    requires comes { (a : A) (bags : List Counts) → A.comes a bags }
    requires run { CanRun J.means A.behaviour A.fits job plan }
    requires merges { IsMergeable (J.means job) }
    requires some { 0 < (J.means job).processes }
    ensures run { IfOk result (HasRunInRounds (J.means job) bounds.capacity bounds.rounds) }
    ensures written { IfOk result (λ r. IsWrittenTo (J.means job) words.now
        (W.contents writer.old) (W.contents writer.new) r.written) }
    ensures least { IfOk result (λ r. r.written.mark ≡ least_time r.clocks.items) }
    ensures err { OnErr result (IsBegun (J.means job) words.now
        (W.contents writer.old) (W.contents writer.new)) }
{
    let alloc = *plan.shares.allocator();
    let processes = plan.shares.len() as u32;
    let mut world = world_of::<J, A, K, M>(alloc, job, plan, records, bounds.capacity)?;
    run_processes::<N, J, Process<LocalRun<A, K>>, W>(
        alloc,
        &mut world,
        work,
        processes,
        bounds.rounds,
        words,
        writer,
    )
}
