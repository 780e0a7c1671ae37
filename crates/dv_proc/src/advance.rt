//! How the clock of a process moves: the instant at the clock is committed, and the clock goes on
//! to the next time at which something is due.

ghost use Rattle.std.specs.Prelude.{◌≡◌, ◌≤◌, ◌<◌, ℕ, IfOk, length, nat_lt, slice_index_or, true};
ghost use Rattle.dv_conservative.specs.Process.{at_most};
ghost use Rattle.dv_conservative.specs.Promise.{foreseen};
ghost use Rattle.dv_devs.specs.Cuts.{IsAllBefore};
ghost use Rattle.dv_time.specs.Time.{IsOfRun, end_of, rank};
ghost use Rattle.dv_proc.specs.Accesses.{CountsInstant, CountsStep};
ghost use Rattle.dv_proc.specs.Advancing.{AreBeside, IsAdvance, IsFresh, IsKnown, IsSameLink};
ghost use Rattle.dv_proc.specs.declared.outgoing.Outgoing.{Outgoing};
ghost use Rattle.dv_proc.specs.Local.{sent_at};
ghost use Rattle.dv_proc.specs.Foreseeing.{IsOfRunIf, rank_if};

use crate::local::Local;
use crate::outgoing::{Outgoing, fill_all};
use crate::promise::promise;
use crate::window::Frame;
use dv_time::Time;
use std::alloc::AllocError;

/// The sooner of a time and another one, if there is another one.
pub fn sooner(limit: u32, one: Time, other: Option<Time>) -> Time
    requires one { IsOfRun limit one }
    requires other { IsOfRunIf limit other }
    ensures rank { rank limit result ≡ at_most (rank limit one) (rank_if limit other) }
    ensures of_run { IsOfRun limit result }
{
    match other {
        None => one,
        Some(other) => { if other.is_before(one) { other } else { one } }
    }
}

/// Until when it is known what arrives: the least channel clock, or the first input, if that is
/// sooner.
pub fn known_until<L: Local>(local: &L, frame: &Frame, least: Time, now: Time) -> Time
    requires limit { frame.now.limit ≡ (L.view local.now).share.limit }
    requires now { IsOfRun frame.now.limit now }
    requires least { IsOfRun frame.now.limit least }
    requires heard { rank frame.now.limit now ≤ rank frame.now.limit least }
    ensures known { IsKnown (L.view local.now)
        (rank frame.now.limit now) (rank frame.now.limit least) (rank frame.now.limit result) }
    ensures of_run { IsOfRun frame.now.limit result }
{
    sooner(frame.limit, least, local.first_input(now))
}

/// The promise of a process whose clock is at a time.
pub fn promise_at<L: Local>(local: &L, frame: &Frame, least: Time, now: Time) -> Time
    requires limit { frame.now.limit ≡ (L.view local.now).share.limit }
    requires now { IsOfRun frame.now.limit now }
    requires least { IsOfRun frame.now.limit least }
    requires heard { rank frame.now.limit now ≤ rank frame.now.limit least }
    requires within { rank frame.now.limit least
        ≤ end_of frame.now.limit frame.now.horizon }
    ensures promise { (n : ℕ) × (IsKnown (L.view local.now)
        (rank frame.now.limit now) (rank frame.now.limit least) n
        × (rank frame.now.limit result ≡ at_most (end_of frame.now.limit frame.now.horizon)
        (foreseen frame.now.limit (rank frame.now.limit now) (L.view local.now).components n
        (L.view local.now).share.response))) }
    ensures of_run { IsOfRun frame.now.limit result }
{
    let known = known_until(local, frame, least, now);
    promise(frame, now, local.next(), known, local.response())
}

/// Commits the instant at the clock, and returns the next clock: the next time at which something
/// is due, but at most the least channel clock.
///
/// # Errors
///
/// No memory. The components are to be rolled back.
pub fn advance<L: Local>(
    local: &mut L,
    work: &mut L::Work,
    frame: &Frame,
    least: Time,
    clock: Time,
) -> Result<Time, AllocError>
    requires limit { frame.now.limit ≡ (L.view local.old).share.limit }
    requires horizon { frame.now.horizon ≡ (L.view local.old).share.horizon }
    requires settled { L.settled local.old ≡ L.view local.old }
    requires clock { IsOfRun frame.now.limit clock }
    requires least { IsOfRun frame.now.limit least }
    requires before { rank frame.now.limit clock < rank frame.now.limit least }
    requires later { IsAllBefore clock (L.view local.old).committed }
    requires within { rank frame.now.limit least
        ≤ end_of frame.now.limit frame.now.horizon }
    ensures advance { IfOk result (λ now. IsAdvance (rank frame.now.limit clock)
        (rank frame.now.limit least) (L.view local.old) (L.view local.new)
        (rank frame.now.limit now)) }
    ensures visits { IfOk result (λ _. CountsInstant (rank frame.now.limit clock)
        (L.view local.old) (L.visits local.old) (L.visits local.new)) }
    ensures never_fall { L.visits local.old ≤ L.visits local.new }
    ensures of_run { IfOk result (λ now. IsOfRun frame.now.limit now) }
    ensures settled { L.settled local.new ≡ L.settled local.old }
    ensures handed { L.handed local.new ≡ L.handed local.old }
{
    local.react(work, clock)?;
    let next = sooner(frame.limit, least, local.next());
    let input = local.first_input(clock.succ(frame.limit));
    Ok(sooner(frame.limit, next, input))
}

/// Does what `advance` does, and computes what is sent at the next clock, unless that is the end.
///
/// # Errors
///
/// No memory. The components are to be rolled back.
pub fn step<L: Local>(
    local: &mut L,
    work: &mut L::Work,
    frame: &Frame,
    least: Time,
    clock: Time,
    outgoing: &mut [Outgoing],
) -> Result<Time, AllocError>
    requires limit { frame.now.limit ≡ (L.view local.old).share.limit }
    requires horizon { frame.now.horizon ≡ (L.view local.old).share.horizon }
    requires settled { L.settled local.old ≡ L.view local.old }
    requires clock { IsOfRun frame.now.limit clock }
    requires least { IsOfRun frame.now.limit least }
    requires before { rank frame.now.limit clock < rank frame.now.limit least }
    requires later { IsAllBefore clock (L.view local.old).committed }
    requires within { rank frame.now.limit least
        ≤ end_of frame.now.limit frame.now.horizon }
    ensures advance { IfOk result (λ now. IsAdvance (rank frame.now.limit clock)
        (rank frame.now.limit least) (L.view local.old) (L.view local.new)
        (rank frame.now.limit now)) }
    ensures visits { IfOk result (λ now. CountsStep (rank frame.now.limit clock)
        (rank frame.now.limit now) (L.view local.old) (L.view local.new)
        (L.visits local.old) (L.visits local.new)) }
    ensures never_fall { L.visits local.old ≤ L.visits local.new }
    ensures of_run { IfOk result (λ now. IsOfRun frame.now.limit now) }
    ensures fresh { IfOk result (λ now.
        nat_lt (rank frame.now.limit now) (end_of frame.now.limit frame.now.horizon) ≡ true
        → (j : ℕ) (d : Outgoing) → j < length outgoing.new
        → IsFresh (L.view local.new) (sent_at (L.view local.new) (rank frame.now.limit now))
        now j (slice_index_or outgoing.new j d)) }
    ensures same { AreBeside (λ j. IsSameLink) outgoing.old outgoing.new }
    ensures settled { L.settled local.new ≡ L.settled local.old }
    ensures handed { L.handed local.new ≡ L.handed local.old }
{
    let now = advance(local, work, frame, least, clock)?;
    if !now.is_before(frame.end()) {
        return Ok(now);
    }
    local.emit(work, now)?;
    fill_all(local, outgoing, now)?;
    Ok(now)
}
