//! Runs processes by workers.

ghost use Rattle.std.specs.Prelude.{◌≡◌, ◌<◌, ◌≤◌, ◌↔◌, ◌+◌, ℕ, length, slice_get, IfErr, IfOk, IfSome, IsSome, Some, is_some};
ghost use Rattle.std.specs.List.{All};
ghost use Rattle.dv_board.specs.declared.posts.Piece.{Piece as MeantPiece};
ghost use Rattle.dv_core.specs.Worlds.{end_time};
ghost use Rattle.dv_work.specs.declared.report.Ended.TheVariants.{Cancelled, Whole};
ghost use Rattle.dv_work.specs.Crews.{IsCrewFor};
ghost use Rattle.dv_work.specs.Endings.{EndsFor};
ghost use Rattle.dv_work.specs.Workers.{Reported, Seated};
ghost use Rattle.dv_work.specs.Flags.{IsOfFlag};
ghost use Rattle.dv_work.specs.Reached.{AreReached};

use crate::bell::Flag;
use crate::crew::Crew;
use crate::post::Stream;
use crate::report::{Report, report_of};
use crate::room::rooms_of;
use crate::seat::{Floor, Seat};
use crate::setup::{connect, seats_by_worker, seats_of};
use crate::watch::Watch;
use crate::worker::{Halt, Worked, work_at};
use dv_core::{LogicalProcess, PlannedJob, ProcessHandsOver};
use dv_link::Link;
use dv_written::OfJob;
use std::alloc::{AllocError, Global};
use std::marker::PhantomData;
use std::sync::Wait;
use std::thread;
use std::thread::{Promise, PromisedHandle, Scope, Threads};

/// The promise of a worker's thread: what it leaves belongs to the run of the job `N`.
#[derive(Drop)]
pub struct Kept<N, P> {
    of: PhantomData<(N, P)>,
}

impl<N: OfJob, P: LogicalProcess, C> Promise<Worked<P, C>> for Kept<N, P> {
    ghost use Rattle.dv_work.specs.Workers.{Reported};

    ghost kept_by = { λ p r. Reported N.job P.state P.handed P.valid r };
}

type Handle<N, P, C> = PromisedHandle<Worked<P, C>, Kept<N, P>>;

// Starts a thread for a worker. If no thread can be made, it raises the flag, at which all workers
// end, and counts this as out of memory.
fn start<'s, E, N: OfJob + Send + Sync + 's, P: ProcessHandsOver<N> + Send + 's, G: Watch>(
    scope: &'s Scope<'s, E>,
    rt: &'s (impl Threads + Wait + Sync),
    floor: &'s Floor<'s, N>,
    watch: &'s G,
    number: usize,
    seats: Vec<Seat<P>>,
    work: P::Work,
) -> Result<Handle<N, P, G::Cause>, Worked<P, G::Cause>>
where
    P::Work: Send + Drop + 's,
    P::Record: Send,
    requires seated { Seated N.job P.state P.handed P.valid floor.now.links.now seats }
    requires bells { number < length floor.now.stream.bells.now }
    ensures { IfErr result (Reported N.job P.state P.handed P.valid) }
{
    let started = scope.spawn_with(
        Kept { of: PhantomData },
        move || -> Worked<P, G::Cause>
            requires { Seated N.job P.state P.handed P.valid floor.now.links.now seats
                × (number < length floor.now.stream.bells.now) }
            ensures { Reported N.job P.state P.handed P.valid result }
        { work_at(rt, floor, watch, number, seats, work) },
    );
    match started {
        Ok(handle) => Ok(handle),
        Err(refused) => {
            floor.flag.raise(rt, floor.stream.bells);
            let mut worked = (refused.value)();
            worked.halt = Some(Halt::Memory);
            Err(worked)
        }
    }
}

// Adds what a worker left to a list.
fn add_worked<N: OfJob, P: LogicalProcess, C: Drop>(
    all: &mut Vec<Worked<P, C>>,
    worked: Worked<P, C>,
) -> Result<(), AllocError>
    requires worked { Reported N.job P.state P.handed P.valid worked }
    requires all { All (Reported N.job P.state P.handed P.valid) all.old.items }
    ensures { All (Reported N.job P.state P.handed P.valid) all.new.items }
{
    Ok(all.push(worked)?)
}

// Takes the processes of the last worker off a list, with what it works with.
fn last_seats<N: OfJob, P: LogicalProcess>(
    links: &[Link<N>],
    by_worker: &mut Vec<Vec<Seat<P>>>,
    works: &mut Vec<P::Work>,
) -> Option<(Vec<Seat<P>>, P::Work)>
where
    P::Work: Drop,
    requires { All (Seated N.job P.state P.handed P.valid links.now) by_worker.old.items }
    ensures one { IfSome result (λ r. Seated N.job P.state P.handed P.valid links.now r.0) }
    ensures rest { All (Seated N.job P.state P.handed P.valid links.now) by_worker.new.items }
    ensures count { IfSome result (λ _. length by_worker.new.items + 1 ≡ length by_worker.old.items) }
{
    let _ = links.len();
    let work = works.pop()?;
    let seats = by_worker.pop()?;
    Some((seats, work))
}

// Joins the last thread.
fn join_last<N: OfJob, P: LogicalProcess, C: Drop, R: Threads>(
    rt: &R,
    handles: &mut Vec<Handle<N, P, C>>,
) -> Option<Worked<P, C>>
    ensures one { IfSome result (Reported N.job P.state P.handed P.valid) }
    ensures count { IfSome result (λ _. length handles.new.items + 1 ≡ length handles.old.items) }
{
    let handle = handles.pop()?;
    Some(handle.join(rt))
}

// Starts a thread for each worker, and joins them all.
fn start_and_join<'s, E, N: OfJob + Send + Sync + 's, P: ProcessHandsOver<N> + Send + 's, G: Watch>(
    scope: &'s Scope<'s, E>,
    rt: &'s (impl Threads + Wait + Sync),
    alloc: Global,
    floor: &'s Floor<'s, N>,
    watch: &'s G,
    mut by_worker: Vec<Vec<Seat<P>>>,
    mut works: Vec<P::Work>,
) -> Result<Vec<Worked<P, G::Cause>>, AllocError>
where
    P::Work: Send + Drop + 's,
    P::Record: Send,
    requires seated { All (Seated N.job P.state P.handed P.valid floor.now.links.now) by_worker.items }
    requires bells { length by_worker.items ≤ length floor.now.stream.bells.now }
    ensures { IfOk result (λ all. All (Reported N.job P.state P.handed P.valid) all.items) }
{
    let mut handles: Vec<Handle<N, P, G::Cause>> = Vec::with_capacity(alloc, by_worker.len())?;
    let mut all = Vec::with_capacity(alloc, by_worker.len())?;
    while let Some((seats, work)) = last_seats(floor.links, &mut by_worker, &mut works) {
        let number = by_worker.len();
        match start(scope, rt, floor, watch, number, seats, work) {
            Ok(handle) => handles.push(handle)?,
            Err(worked) => add_worked::<N, P, G::Cause>(&mut all, worked)?,
        }
    }
    while let Some(worked) = join_last(rt, &mut handles) {
        add_worked::<N, P, G::Cause>(&mut all, worked)?;
    }
    Ok(all)
}

// Runs the processes of each worker on a thread of its own.
fn run_all<N: OfJob + Send + Sync, P: ProcessHandsOver<N> + Send, G: Watch>(
    rt: &(impl Threads + Wait + Sync),
    alloc: Global,
    floor: &Floor<'_, N>,
    watch: &G,
    by_worker: Vec<Vec<Seat<P>>>,
    works: Vec<P::Work>,
) -> Result<Vec<Worked<P, G::Cause>>, AllocError>
where
    P::Work: Send + Drop,
    P::Record: Send,
    requires seated { All (Seated N.job P.state P.handed P.valid floor.now.links.now) by_worker.items }
    requires bells { length by_worker.items ≤ length floor.now.stream.bells.now }
    ensures { IfOk result (λ all. All (Reported N.job P.state P.handed P.valid) all.items) }
{
    thread::scope(
        thread::scope_env(),
        rt,
        |scope| -> Result<Vec<Worked<P, G::Cause>>, AllocError>
            requires { All (Seated N.job P.state P.handed P.valid floor.now.links.now) by_worker.items
                × (length by_worker.items ≤ length floor.now.stream.bells.now) }
            ensures { IfOk result (λ all. All (Reported N.job P.state P.handed P.valid) all.items) }
        { start_and_join(scope, rt, alloc, floor, watch, by_worker, works) },
    )
}

// Makes a link for each channel of a crew, and runs its processes.
fn run_job<
    N: OfJob + Send + Sync,
    P: ProcessHandsOver<N> + Send,
    G: Watch,
    R: Threads + Wait + Sync,
>(
    rt: &R,
    alloc: Global,
    crew: Crew<P, P::Work>,
    watch: &G,
    stream: Stream<'_, N>,
) -> Result<Vec<Worked<P, G::Cause>>, AllocError>
where
    P::Work: Send + Drop,
    P::Record: Send,
    requires crew { IsCrewFor N.job P.state P.handed P.valid crew }
    requires bells { length crew.works.items ≤ length stream.bells.now }
    ensures { IfOk result (λ all. All (Reported N.job P.state P.handed P.valid) all.items) }
{
    let Crew {
        channels,
        processes,
        works,
        capacity,
    } = crew;
    let workers = works.len();
    let mut seats = seats_of::<N, P>(alloc, processes)?;
    let links = connect::<N, P>(alloc, &channels, capacity, workers, &mut seats)?;
    let by_worker = seats_by_worker(alloc, &links, workers, seats)?;
    let rooms = rooms_of(alloc, links.len())?;
    let flag = Flag::new();
    let floor = Floor {
        links: &links,
        rooms: &rooms,
        flag: &flag,
        stream,
    };
    run_all(rt, alloc, &floor, watch, by_worker, works)
}

/// Runs a crew of new processes of a job, one thread for each worker, and posts what they commit.
///
/// Process p belongs to worker p mod the number of workers, which waits at the bell of its number.
/// Each worker posts a piece of each of its processes now and then, before it sleeps, and when they
/// are done. A piece begins where the last one of its process ended. The worker adds its bytes to
/// the lead of the process before it posts it, and rings `news` after all of its posts. What was
/// posted is kept nowhere else; the rest is in the report. If the board has no memory for a piece,
/// the piece is lost, and the run ends out of memory.
///
/// Once `paced` is raised, a process whose lead is too long is held back until it has fallen to
/// half: it makes one turn at most, and `watch` is not called for others. From then on, after each
/// ring of `news`, the caller has to take all pieces, write and free all that is before the least
/// of the clocks that it has, and count both by `take` and `keep` of the leads. It has to ring the
/// bells if `keep` returns `true`. Otherwise the run may never return.
///
/// Once the caller has raised `stop` and rung the bells, each worker ends before its next turn. The
/// run is then reported cancelled, unless it is whole, out of memory or stopped by `watch`.
///
/// For any `watch`, any leads and any timing of the threads, each piece is what its process
/// committed in that time. The run is reported whole exactly if every clock is at the end; else its
/// ending follows from the halts of its workers. It is cancelled only with a token that `stop` was
/// raised, which no worker can do.
///
/// # Errors
///
/// No memory for the links and the threads, or for the report.
pub fn run_streamed<
    'a,
    N: OfJob + Send + Sync,
    J: PlannedJob,
    P: ProcessHandsOver<N> + Send,
    G: Watch,
    R: Threads + Wait + Sync,
>(
    rt: &R,
    alloc: Global,
    job: &J,
    crew: Crew<P, P::Work>,
    watch: &G,
    stream: Stream<'a, N>,
) -> Result<Report<'a, N, G::Cause>, AllocError>
where
    P::Work: Send + Drop,
    P::Record: Send,
    requires job { N.job ≡ J.means job.now }
    requires crew { IsCrewFor (J.means job.now) P.state P.handed P.valid crew }
    requires bells { length crew.works.items ≤ length stream.bells.now }
    ensures reached { IfOk result (λ r. AreReached (J.means job.now) r.rest.pieces) }
    ensures whole { IfOk result (λ r. (r.ended ≡ Whole)
        ↔ ((p : ℕ) (x : MeantPiece N) → slice_get r.rest.pieces p ≡ Some x
        → x.clock ≡ end_time (J.means job.now))) }
    ensures ended { IfOk result (λ r. EndsFor (J.means job.now) r.halts.items
        (is_some r.stopped) r.rest.pieces r.ended) }
    ensures cancelled { IfOk result (λ r. r.ended ≡ Cancelled → IsSome r.stopped) }
    ensures stopped { IfOk result (λ r. IfSome r.stopped (IsOfFlag stream.entry.stop.flag.now)) }
{
    let count = crew.processes.len();
    let board = stream.board;
    let stop = stream.stop;
    let all = run_job::<N, P, G, R>(rt, alloc, crew, watch, stream)?;
    report_of::<N, J, P, G::Cause, R>(rt, alloc, job, count, all, board, stop)
}
