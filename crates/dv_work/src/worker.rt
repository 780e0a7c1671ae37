//! A worker: it visits its processes until they are done, and waits at its bell if nothing moved.

ghost use Rattle.std.specs.Prelude.{◌≡◌, ◌≢◌, ◌<◌, ◌+◌, ◌↔◌, ◌⊎◌, false, true, length, None, IfOk, OnOk};
ghost use Rattle.std.specs.List.{All};
ghost use Rattle.dv_proc.specs.declared.process.Turned.TheVariants.{Done, Moved};
ghost use Rattle.dv_work.specs.Workers.{Reported, Seated};
ghost use Rattle.dv_work.specs.Seats.{HasEvents, HasToldAll, HasToldAtFirst, HoldsNone, IsNull, Reports, Sits};
ghost use Rattle.dv_work.specs.Seats.{EachKeepsNoneBack, KeepsNoneBack, KeepsNoneBackAt, NoneIsNew, OthersStay};
ghost use Rattle.dv_work.specs.Seats.{SitsIfOk, StaySeated};

use crate::bell::Bell;
use crate::post::{Pace, is_any_long, post_all};
use crate::seat::{Floor, Seat};
use crate::watch::Watch;
use dv_core::{LogicalProcess, ProcessHandsOver};
use dv_proc::Turned;
use dv_written::OfJob;
use std::alloc::AllocError;
use std::sync::Wait;

/// Why a worker ended before its processes were done.
#[derive(Drop)]
pub enum Halt<C> {
    /// The flag was raised.
    Flag,
    /// The caller stopped the run.
    Stop,
    /// No memory.
    Memory,
    /// The watch stopped it, for this cause.
    Cause(C),
}

/// What a worker leaves when it ends.
#[derive(Drop)]
pub struct Worked<P, C> {
    /// Its processes, with the ends of their links.
    pub seats: Vec<Seat<P>>,
    /// Why it ended before its processes were done, or `None` if they are done.
    pub halt: Option<Halt<C>>,
}

// Takes a packet from each link that leads to a process. Returns whether there was one.
fn take_all<N: OfJob, P: LogicalProcess, R: Wait>(
    rt: &R,
    floor: &Floor<'_, N>,
    seat: &mut Seat<P>,
) -> Result<bool, AllocError>
    requires { Sits N.job P.state P.handed P.valid floor.now.links.now seat.old }
    ensures sits { SitsIfOk N.job P.state P.handed P.valid floor.now.links.now seat.new result }
    ensures outs { seat.new.outs ≡ seat.old.outs }
{
    let mut moved = false;
    for index in 0..seat.ins.len() {
        if seat.take(rt, floor, index)? {
            moved = true;
        }
    }
    Ok(moved)
}

// Puts the next packet for the link at an index, but no null message if none is due. Returns
// whether it was put.
fn put_next<N: OfJob, P: LogicalProcess, R: Wait>(
    rt: &R,
    floor: &Floor<'_, N>,
    seat: &mut Seat<P>,
    index: usize,
    are_nulls_due: bool,
) -> bool
    requires sits { Sits N.job P.state P.handed P.valid floor.now.links.now seat.old }
    requires index { index < length seat.old.outs.items }
    ensures sits { Sits N.job P.state P.handed P.valid floor.now.links.now seat.new }
    ensures ends { length seat.new.outs.items ≡ length seat.old.outs.items }
    ensures told { are_nulls_due ≡ true → result ≡ false → HasToldAtFirst P.state index seat.old
        → HasToldAtFirst P.state (index + 1) seat.new }
    ensures others { OthersStay index seat.old seat.new }
    ensures standing { NoneIsNew (P.state seat.old.process) (P.state seat.new.process) }
    ensures nulls { are_nulls_due ≡ true → KeepsNoneBackAt IsNull P.state index seat.old seat.new }
    ensures events { KeepsNoneBackAt HasEvents P.state index seat.old seat.new }
{
    if !are_nulls_due && seat.has_null(index) {
        return false;
    }
    seat.put(rt, floor, index)
}

// Puts the next packet for each link that leads away; null messages only if they are due. Returns
// whether one was put.
fn put_all<N: OfJob, P: LogicalProcess, R: Wait>(
    rt: &R,
    floor: &Floor<'_, N>,
    seat: &mut Seat<P>,
    are_nulls_due: bool,
) -> bool
    requires { Sits N.job P.state P.handed P.valid floor.now.links.now seat.old }
    ensures sits { Sits N.job P.state P.handed P.valid floor.now.links.now seat.new }
    ensures told { are_nulls_due ≡ true → result ≡ false → HasToldAll P.state seat.new }
    ensures nulls { are_nulls_due ≡ true → KeepsNoneBack IsNull P.state seat.old seat.new }
    ensures events { KeepsNoneBack HasEvents P.state seat.old seat.new }
{
    let mut moved = false;
    for index in 0..seat.outs.len() {
        if put_next(rt, floor, seat, index, are_nulls_due) {
            moved = true;
        }
    }
    moved
}

// The result of a visit: it also counts as moved if packets moved, and a process that holds a
// packet is not done.
fn progress(turned: Turned, moved: bool, holds: bool) -> Turned
    ensures still { result ≢ Moved → (moved ≡ false) × (turned ≢ Moved) }
    ensures moved { result ≡ Moved → (moved ≡ true) ⊎ (turned ≡ Moved) }
    ensures done { (result ≡ Done) ↔ (moved ≡ false) × (holds ≡ false) × (turned ≡ Done) }
{
    match turned {
        _ if moved => Turned::Moved,
        Turned::Done if holds => Turned::Waiting,
        _ => turned,
    }
}

// Makes one turn of a process, unless it is held back or the watch stops the run.
fn turn_if_near<N: OfJob, P: LogicalProcess, G: Watch>(
    floor: &Floor<'_, N>,
    watch: &G,
    worker: usize,
    seat: &mut Seat<P>,
    work: &mut P::Work,
) -> Result<Turned, Halt<G::Cause>>
    requires { Sits N.job P.state P.handed P.valid floor.now.links.now seat.old }
    ensures sits { SitsIfOk N.job P.state P.handed P.valid floor.now.links.now seat.new result }
    ensures outs { seat.new.outs ≡ seat.old.outs }
{
    if !seat.may_turn(floor) {
        return Ok(Turned::Waiting);
    }
    seat.account(floor);
    if let Some(cause) = watch.before_turn(worker, seat.number, seat.process.clock()) {
        return Err(Halt::Cause(cause));
    }
    let Ok(turned) = seat.turn(floor, work) else {
        seat.account(floor);
        return Err(Halt::Memory);
    };
    watch.after_turn(worker, seat.number, seat.process.clock());
    Ok(turned)
}

// Null messages are due in the rounds of the worker's pace, and where the process does not run
// ahead.
fn nulls_are_due(tells: bool, runs_ahead: bool) -> bool
    ensures tells { tells ≡ true → result ≡ true }
    ensures near { runs_ahead ≡ false → result ≡ true }
{
    tells || !runs_ahead
}

// Visits a process: it takes packets, makes one turn, and puts packets. Null messages are due in a
// round that `tells`, if a packet came, since its sender may wait for an answer, and if the process
// did not move.
fn visit<N: OfJob, P: LogicalProcess, G: Watch, R: Wait>(
    rt: &R,
    floor: &Floor<'_, N>,
    watch: &G,
    worker: usize,
    tells: bool,
    seat: &mut Seat<P>,
    work: &mut P::Work,
) -> Result<Turned, Halt<G::Cause>>
    requires { Sits N.job P.state P.handed P.valid floor.now.links.now seat.old }
    ensures sits { SitsIfOk N.job P.state P.handed P.valid floor.now.links.now seat.new result }
    ensures told { IfOk result (λ t. t ≢ Moved → HasToldAll P.state seat.new) }
    ensures done { IfOk result (λ t. t ≡ Done → HoldsNone seat.new) }
    ensures nulls { tells ≡ true
        → IfOk result (λ _. KeepsNoneBack IsNull P.state seat.old seat.new) }
    ensures events { IfOk result (λ _. KeepsNoneBack HasEvents P.state seat.old seat.new) }
{
    let Ok(took) = take_all(rt, floor, seat) else {
        return Err(Halt::Memory);
    };
    seat.account(floor);
    if floor.flag.is_raised() {
        return Err(Halt::Flag);
    }
    if floor.stream.stop.is_raised() {
        return Err(Halt::Stop);
    }
    let turned = turn_if_near(floor, watch, worker, seat, work)?;
    let runs_ahead = turned == Turned::Moved && !took;
    let put = put_all(rt, floor, seat, nulls_are_due(tells, runs_ahead));
    Ok(progress(turned, took || put, seat.holds_packets()))
}

// Visits each process once. In a round that `tells`, all null messages are due.
fn round<N: OfJob, P: LogicalProcess, G: Watch, R: Wait>(
    rt: &R,
    floor: &Floor<'_, N>,
    watch: &G,
    worker: usize,
    tells: bool,
    seats: &mut [Seat<P>],
    work: &mut P::Work,
) -> Result<Turned, Halt<G::Cause>>
    requires { All (Sits N.job P.state P.handed P.valid floor.now.links.now) seats.old }
    ensures ok { OnOk result (All (Sits N.job P.state P.handed P.valid floor.now.links.now) seats.new) }
    ensures all { All (Reports N.job P.state P.handed P.valid) seats.new }
    ensures told { IfOk result (λ t. t ≢ Moved → All (HasToldAll P.state) seats.new) }
    ensures done { IfOk result (λ t. t ≡ Done → All HoldsNone seats.new) }
    ensures nulls { tells ≡ true
        → IfOk result (λ _. EachKeepsNoneBack IsNull P.state seats.old seats.new) }
    ensures events { IfOk result (λ _. EachKeepsNoneBack HasEvents P.state seats.old seats.new) }
{
    let mut all = Turned::Done;
    for i in 0..seats.len() {
        let seat = &mut seats[i];
        match visit(rt, floor, watch, worker, tells, seat, work) {
            Ok(turned) => all = of_both(all, turned),
            Err(halt) => return Err(halt),
        }
    }
    Ok(all)
}

// Moved if either moved, and done if both are.
fn of_both(one: Turned, other: Turned) -> Turned
    ensures still { result ≢ Moved → (one ≢ Moved) × (other ≢ Moved) }
    ensures moved { result ≡ Moved → (one ≡ Moved) ⊎ (other ≡ Moved) }
    ensures done { (result ≡ Done) ↔ (one ≡ Done) × (other ≡ Done) }
{
    match (one, other) {
        (Turned::Done, _) => other,
        (_, Turned::Done) => one,
        (Turned::Waiting, _) => other,
        _ => one,
    }
}

// Whether a worker posts after a round: if the round `tells`, if a piece is long, and always if the
// worker is done.
fn posts_after(tells: bool, is_long: bool, turned: Turned) -> bool {
    match turned {
        Turned::Moved | Turned::Waiting => tells || is_long,
        Turned::Done => true,
    }
}

// Waits until the count of the worker's bell differs from `seen`. If no ring comes soon, the worker
// posts before it sleeps.
fn wait_for_work<N: OfJob, P: ProcessHandsOver<N>, R: Wait>(
    rt: &R,
    floor: &Floor<'_, N>,
    bell: &Bell,
    seen: u64,
    seats: &mut [Seat<P>],
) -> Result<(), AllocError>
    requires sits { All (Sits N.job P.state P.handed P.valid floor.now.links.now) seats.old }
    requires told { All (HasToldAll P.state) seats.old }
    ensures { All (Sits N.job P.state P.handed P.valid floor.now.links.now) seats.new }
{
    if bell.rings_soon(seen) {
        return Ok(());
    }
    post_all(rt, floor, seats)?;
    bell.wait_past(rt, seen);
    Ok(())
}

// Posts after a round if that is due, and adapts the pace.
fn post_after<N: OfJob, P: ProcessHandsOver<N>, R: Wait>(
    rt: &R,
    floor: &Floor<'_, N>,
    tells: bool,
    turned: Turned,
    pace: &mut Pace,
    seats: &mut [Seat<P>],
) -> Result<(), AllocError>
    requires { All (Sits N.job P.state P.handed P.valid floor.now.links.now) seats.old }
    ensures { StaySeated N.job P.state P.handed P.valid floor.now.links.now seats.old seats.new }
{
    let is_long = is_any_long::<N, P>(seats);
    pace.adapt(is_long);
    if !posts_after(tells, is_long, turned) {
        return Ok(());
    }
    post_all(rt, floor, seats)
}

// Waits after a round, if nothing moved in it.
fn wait_after<N: OfJob, P: ProcessHandsOver<N>, R: Wait>(
    rt: &R,
    floor: &Floor<'_, N>,
    bell: &Bell,
    seen: u64,
    turned: Turned,
    seats: &mut [Seat<P>],
) -> Result<(), AllocError>
    requires sits { All (Sits N.job P.state P.handed P.valid floor.now.links.now) seats.old }
    requires told { turned ≢ Moved → All (HasToldAll P.state) seats.old }
    ensures { All (Sits N.job P.state P.handed P.valid floor.now.links.now) seats.new }
{
    match turned {
        Turned::Moved => Ok(()),
        Turned::Waiting | Turned::Done => wait_for_work(rt, floor, bell, seen, seats),
    }
}

// Makes rounds until all are done, or the worker has to end.
fn rounds<N: OfJob, P: ProcessHandsOver<N>, G: Watch, R: Wait>(
    rt: &R,
    floor: &Floor<'_, N>,
    watch: &G,
    worker: usize,
    bell: &Bell,
    seats: &mut [Seat<P>],
    work: &mut P::Work,
) -> Option<Halt<G::Cause>>
    requires { All (Sits N.job P.state P.handed P.valid floor.now.links.now) seats.old }
    ensures reports { All (Reports N.job P.state P.handed P.valid) seats.new }
    ensures told { result ≡ None → All (HasToldAll P.state) seats.new }
    ensures put { result ≡ None → All HoldsNone seats.new }
{
    let mut pace = Pace::new();
    for _ in rt.forever() {
        let tells = pace.tells_in_next();
        let seen = bell.rings();
        let turned = match round(rt, floor, watch, worker, tells, seats, work) {
            Ok(turned) => turned,
            Err(halt) => return Some(halt),
        };
        if post_after(rt, floor, tells, turned, &mut pace, seats).is_err() {
            return Some(Halt::Memory);
        }
        if let Turned::Done = turned {
            return None;
        }
        if wait_after(rt, floor, bell, seen, turned, seats).is_err() {
            return Some(Halt::Memory);
        }
    }
    unreachable!()
}

/// Runs a worker until all its processes are done, or it has to end early. If it ends early, it
/// raises the flag of the workers, unless this flag was the reason. It posts before it sleeps and
/// when its processes are done. Then all packets that they prepared were put.
pub fn work_at<N: OfJob, P: ProcessHandsOver<N>, G: Watch, R: Wait>(
    rt: &R,
    floor: &Floor<'_, N>,
    watch: &G,
    worker: usize,
    mut seats: Vec<Seat<P>>,
    mut work: P::Work,
) -> Worked<P, G::Cause>
where
    P::Work: Drop,
    requires seats { Seated N.job P.state P.handed P.valid floor.now.links.now seats }
    requires bell { worker < length floor.now.stream.bells.now }
    ensures reported { Reported N.job P.state P.handed P.valid result }
    ensures told { result.halt ≡ None → All (HasToldAll P.state) result.seats.items }
    ensures put { result.halt ≡ None → All HoldsNone result.seats.items }
{
    let bell = &floor.stream.bells[worker];
    let halt = rounds(
        rt,
        floor,
        watch,
        worker,
        bell,
        seats.as_mut_slice(),
        &mut work,
    );
    match &halt {
        None | Some(Halt::Flag) => {}
        Some(_) => floor.flag.raise(rt, floor.stream.bells),
    }
    Worked { seats, halt }
}
