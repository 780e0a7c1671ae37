//! Runs one process, whose record is its text. The text is written and freed between rounds.

ghost use Rattle.std.specs.Prelude.{◌≡◌, ◌↔◌, ◌<◌, ◌∷◌, ℕ, [], List, IfOk, IsTrue, OnErr, length, map};
ghost use Rattle.dv_bag.specs.Bag.{Counts};
ghost use Rattle.dv_bag.specs.Part.{nothing};
ghost use Rattle.dv_board.specs.Jobs.{IsMergeable};
ghost use Rattle.dv_conservative.specs.World.{new_world};
ghost use Rattle.dv_core.specs.declared.step.Ended.TheVariants.{Stalled};
ghost use Rattle.dv_core.specs.Worlds.{EndsAs, IsTrueToModel, kept_by, shown};
ghost use Rattle.dv_plan.specs.Beginning.{CanRun};
ghost use Rattle.dv_plan.specs.Clocks.{least_time};
ghost use Rattle.dv_stream.specs.Alone.{Breaks, Continues, HasHandedTo, by_tree};
ghost use Rattle.dv_stream.specs.Endings.{HasRunInRounds};
ghost use Rattle.dv_stream.specs.Written.{IsBegun, IsWrittenTo};

use crate::ran::{Ran, ran_in_world};
use crate::rounds::{Bounds, is_stalled};
use crate::written::Written;
use dv_bag::Bags;
use dv_core::{Ended, LogicalProcess, PlannedJob, World};
use dv_lines::KnowsFaults;
use dv_plan::Plan;
use dv_plan::alone::world_alone;
use dv_react::Atomic;
use dv_record::Record;
use dv_text::laws::a_trace_is_its_instants;
use dv_text::{WriteError, hand_over};
use dv_tree::Tree;
use std::alloc::Global;
use std::io::Write;

// The text is written after each batch of at most this many rounds, so that a reader waits no
// longer than the rounds take.
const ROUNDS_BETWEEN: u64 = 64;

// If a batch put more bytes than this, the next one has half as many rounds, and else twice as
// many.
const MANY_BYTES: usize = 65_536;

// Writes and frees the text of the one process of a job.
fn write_told<J: PlannedJob, R: KnowsFaults, P: LogicalProcess<Record = R>, W: Write>(
    world: &mut World<J, P>,
    tree: &Tree<'_>,
    before: Written,
    writer: &mut W,
) -> Result<Written, WriteError>
    requires merges { IsMergeable (J.means world.old.job) }
    requires alone { (J.means world.old.job).processes ≡ 1 }
    requires true_to_model { IsTrueToModel (J.means world.old.job) (kept_by P.state world.old) }
    requires handed { HasHandedTo (J.means world.old.job) tree.now before
        (map P.handed world.old.processes.items) }
    ensures job { world.new.job ≡ world.old.job }
    ensures shown { shown J.means P.state world.new ≡ shown J.means P.state world.old }
    ensures true_to_model { IsTrueToModel (J.means world.new.job) (kept_by P.state world.new) }
    ensures ok { IfOk result (Continues (J.means world.old.job) tree.now
        (W.contents writer.old) (W.contents writer.new) before) }
    ensures handed { IfOk result (λ after. HasHandedTo (J.means world.old.job) tree.now after
        (map P.handed world.new.processes.items)) }
    ensures least { IfOk result (λ after. after.mark
        ≡ least_time (map (λ x. (P.state x).position.clock) world.new.processes.items)) }
    ensures err { OnErr result (Breaks (J.means world.old.job) tree.now
        (W.contents writer.old) (W.contents writer.new) before) }
{
    let _ = tree;
    let _ = before;
    // For the prover alone: a trace is the lines of its instants.
    a_trace_is_its_instants::<Bags>();
    let process = world.process(0);
    let mark = process.clock();
    let told = process.record();
    let faulted = told.has_fault();
    hand_over(writer, told.bytes())?;
    world.let_go(0);
    Ok(Written { mark, faulted })
}

// How many rounds the next batch has, after one of `rounds`, by how much waits to be written.
fn rounds_at_once<J: PlannedJob, P: LogicalProcess>(world: &World<J, P>, rounds: u64) -> u64
    requires { (J.means world.now.job).processes ≡ 1 }
    ensures { 0 < result }
{
    let waiting = world.process(0).record().bytes().len();
    let next = if waiting > MANY_BYTES {
        rounds / 2
    } else {
        rounds.min(ROUNDS_BETWEEN / 2) * 2
    };
    next.max(1)
}

// Runs `rounds` rounds, and then writes the new text. Returns also how many rounds the next batch
// has.
fn advance_alone<J: PlannedJob, R: KnowsFaults, P: LogicalProcess<Record = R>, W: Write>(
    world: &mut World<J, P>,
    work: &mut P::Work,
    rounds: u64,
    tree: &Tree<'_>,
    before: Written,
    writer: &mut W,
) -> Result<(Ended, Written, u64), WriteError>
    requires merges { IsMergeable (J.means world.old.job) }
    requires alone { (J.means world.old.job).processes ≡ 1 }
    requires handed { HasHandedTo (J.means world.old.job) tree.now before
        (map P.handed world.old.processes.items) }
    ensures job { world.new.job ≡ world.old.job }
    ensures rounds { IfOk result (λ r. EndsAs (J.means world.old.job) rounds r.0
        (shown J.means P.state world.old) (shown J.means P.state world.new)) }
    ensures some { IfOk result (λ r. 0 < r.2) }
    ensures true_to_model { IsTrueToModel (J.means world.new.job) (kept_by P.state world.new) }
    ensures ok { IfOk result (λ r. Continues (J.means world.old.job) tree.now
        (W.contents writer.old) (W.contents writer.new) before r.1) }
    ensures handed { IfOk result (λ r. HasHandedTo (J.means world.old.job) tree.now r.1
        (map P.handed world.new.processes.items)) }
    ensures least { IfOk result (λ r. r.1.mark
        ≡ least_time (map (λ x. (P.state x).position.clock) world.new.processes.items)) }
    ensures err { OnErr result (Breaks (J.means world.old.job) tree.now
        (W.contents writer.old) (W.contents writer.new) before) }
{
    let ended = world.serial(work, rounds);
    let at_once = rounds_at_once(world, rounds);
    let written = write_told(world, tree, before, writer)?;
    Ok((ended, written, at_once))
}

// Runs the one process of a world in at most `rounds` rounds, and writes its text meanwhile.
fn stream_process<J: PlannedJob, R: KnowsFaults, P: LogicalProcess<Record = R>, W: Write>(
    world: &mut World<J, P>,
    work: &mut P::Work,
    rounds: u64,
    tree: &Tree<'_>,
    writer: &mut W,
) -> Result<(Ended, Written), WriteError>
    requires merges { IsMergeable (J.means world.old.job) }
    requires alone { (J.means world.old.job).processes ≡ 1 }
    requires handed { map P.handed world.old.processes.items ≡ by_tree tree.now [] ∷ [] }
    ensures job { world.new.job ≡ world.old.job }
    ensures rounds { IfOk result (λ r. EndsAs (J.means world.old.job) rounds r.0
        (shown J.means P.state world.old) (shown J.means P.state world.new)) }
    ensures true_to_model { IsTrueToModel (J.means world.new.job) (kept_by P.state world.new) }
    ensures written { IfOk result (λ r. IsWrittenTo (J.means world.old.job) tree.now
        (W.contents writer.old) (W.contents writer.new) r.1) }
    ensures least { IfOk result (λ r. r.1.mark
        ≡ least_time (map (λ x. (P.state x).position.clock) world.new.processes.items)) }
    ensures err { OnErr result (IsBegun (J.means world.old.job) tree.now
        (W.contents writer.old) (W.contents writer.new)) }
{
    let mut left = rounds;
    let (mut ended, mut written, mut at_once) = advance_alone(
        world,
        work,
        0,
        tree,
        Written::NOTHING,
        writer,
    )?;
    while left > 0 && is_stalled(ended) {
        let batch = left.min(at_once);
        (ended, written, at_once) = advance_alone(world, work, batch, tree, written, writer)?;
        left -= batch;
    }
    Ok((ended, written))
}

// Runs the one process of a new world in at most `rounds` rounds, and writes its text meanwhile.
fn run_process<J: PlannedJob, R: KnowsFaults, P: LogicalProcess<Record = R>, W: Write>(
    alloc: Global,
    world: &mut World<J, P>,
    work: &mut P::Work,
    rounds: u64,
    tree: &Tree<'_>,
    writer: &mut W,
) -> Result<Ran, WriteError>
    requires merges { IsMergeable (J.means world.old.job) }
    requires alone { (J.means world.old.job).processes ≡ 1 }
    requires handed { map P.handed world.old.processes.items ≡ by_tree tree.now [] ∷ [] }
    ensures run { (capacity : ℕ) → shown J.means P.state world.old ≡ new_world capacity
        → IfOk result (HasRunInRounds (J.means world.old.job) capacity rounds) }
    ensures written { IfOk result (λ r. IsWrittenTo (J.means world.old.job) tree.now
        (W.contents writer.old) (W.contents writer.new) r.written) }
    ensures least { IfOk result (λ r. r.written.mark ≡ least_time r.clocks.items) }
    ensures err { OnErr result (IsBegun (J.means world.old.job) tree.now
        (W.contents writer.old) (W.contents writer.new)) }
{
    let (ended, written) = stream_process(world, work, rounds, tree, writer)?;
    let ran = ran_in_world(alloc, world, ended, written)?;
    Ok(ran)
}

/// Runs the one process of a plan from its start, in rounds within these bounds, and writes the
/// lines of the trace before its clock while it runs. Its record `to` is empty and has the names of
/// the tree. If memory is refused to a turn, the last round is cut; what was committed before is
/// what ran, and is written.
///
/// # Errors
///
/// A write failed, or there is no memory for the process. The writer holds a beginning of the
/// lines.
pub fn stream_alone<J: PlannedJob, A: Atomic + Drop, R: KnowsFaults, W: Write>(
    job: J,
    plan: Plan<A>,
    work: &mut A::Work,
    bounds: Bounds,
    to: R,
    tree: &Tree<'_>,
    writer: &mut W,
) -> Result<Ran, WriteError>
    requires comes { (a : A) (bags : List Counts) → A.comes a bags }
    requires run { CanRun J.means A.behaviour A.fits job plan }
    requires merges { IsMergeable (J.means job) }
    requires alone { length plan.shares.items ≡ 1 }
    requires told { R.told to ≡ nothing }
    requires at_rest { R.settled to ≡ R.told to }
    requires handed { R.handed to ≡ by_tree tree.now [] }
    ensures run { IfOk result (HasRunInRounds (J.means job) bounds.capacity bounds.rounds) }
    ensures written { IfOk result (λ r. IsWrittenTo (J.means job) tree.now
        (W.contents writer.old) (W.contents writer.new) r.written) }
    ensures least { IfOk result (λ r. r.written.mark ≡ least_time r.clocks.items) }
    ensures err { OnErr result (IsBegun (J.means job) tree.now
        (W.contents writer.old) (W.contents writer.new)) }
{
    let alloc = *plan.shares.allocator();
    let mut world = world_alone(alloc, job, plan, to, bounds.capacity)?;
    run_process(alloc, &mut world, work, bounds.rounds, tree, writer)
}
