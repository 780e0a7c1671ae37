//! Until when it is known what a process sends, whatever still arrives.

ghost use Rattle.std.specs.Prelude.{◌≡◌, ◌≤◌, ◌+◌, ℕ, List};
ghost use Rattle.dv_bag.specs.Responses.{ticks_of};
ghost use Rattle.dv_conservative.specs.Process.{at_most};
ghost use Rattle.dv_conservative.specs.Promise.{foreseen, reach};
ghost use Rattle.dv_devs.specs.Behaviour.{Component, is_at};
ghost use Rattle.dv_devs.specs.NextTimes.{least_next};
ghost use Rattle.dv_time.specs.Time.{IsOfRun, end_of, rank};
ghost use Rattle.dv_time.specs.Limits.{greatest_tick};
ghost use Rattle.dv_proc.specs.Foreseeing.{IsOfHold, IsOfRunIf, rank_if};

use crate::window::Frame;
use dv_bag::Response;
use dv_time::{Time, earliest};

/// The first time at which a hold can end that begins at `from` or later and lasts at least the
/// response.
pub fn reach(limit: u32, from: Time, response: Response) -> Option<Time>
    requires of_run { IsOfRun limit from }
    requires near { from.tick ≤ greatest_tick + 1 }
    requires hold { IsOfHold response }
    ensures reach { rank_if limit result ≡ reach limit (rank limit from) (ticks_of response) }
    ensures of_run { IsOfRunIf limit result }
{
    match response {
        Response::Never => None,
        Response::Ticks(0) => Some(from.succ(limit)),
        Response::Ticks(ticks) => Some(Time {
            tick: from.tick + ticks,
            micro: 0,
        }),
    }
}

// Whether the next time is `now`.
fn is_now(limit: u32, now: Time, next: Option<Time>) -> bool
    requires now { IsOfRun limit now }
    requires next { IsOfRunIf limit next }
    ensures { result ≡ is_at (rank limit now) (rank_if limit next) }
{
    match next {
        None => false,
        Some(time) => !time.is_before(now) && !now.is_before(time),
    }
}

/// Until when it is known what a process sends whose clock is at `now`. If its next time is `now`,
/// that is the time after `now`. Otherwise it is its next time, or the end of the first hold that
/// can begin at `known` or later, whichever is sooner; before `known` it is known what arrives.
pub fn foreseen(
    limit: u32,
    now: Time,
    next: Option<Time>,
    known: Time,
    response: Response,
) -> Option<Time>
    requires now { IsOfRun limit now }
    requires now_near { now.tick ≤ greatest_tick + 1 }
    requires next { IsOfRunIf limit next }
    requires known { IsOfRun limit known }
    requires known_near { known.tick ≤ greatest_tick + 1 }
    requires hold { IsOfHold response }
    ensures foreseen { (cs : List Component) → least_next cs ≡ rank_if limit next
        → rank_if limit result
        ≡ foreseen limit (rank limit now) cs (rank limit known) (ticks_of response) }
    ensures of_run { IsOfRunIf limit result }
{
    if is_now(limit, now, next) {
        return Some(now.succ(limit));
    }
    earliest(next, reach(limit, known, response))
}

/// A time, but at most the end of the run; `None` is never.
pub fn capped(frame: &Frame, time: Option<Time>) -> Time
    requires { IsOfRunIf frame.now.limit time }
    ensures rank { rank frame.now.limit result
        ≡ at_most (end_of frame.now.limit frame.now.horizon) (rank_if frame.now.limit time) }
    ensures of_run { IsOfRun frame.now.limit result }
{
    let end = frame.end();
    match time {
        None => end,
        Some(time) => { if time.is_before(end) { time } else { end } }
    }
}

/// The promise of a process whose clock is at `now`: `foreseen`, but at most the end of the run.
pub fn promise(
    frame: &Frame,
    now: Time,
    next: Option<Time>,
    known: Time,
    response: Response,
) -> Time
    requires now { IsOfRun frame.now.limit now }
    requires now_near { now.tick ≤ greatest_tick + 1 }
    requires next { IsOfRunIf frame.now.limit next }
    requires known { IsOfRun frame.now.limit known }
    requires known_near { known.tick ≤ greatest_tick + 1 }
    requires hold { IsOfHold response }
    ensures promise { (cs : List Component) → least_next cs ≡ rank_if frame.now.limit next
        → rank frame.now.limit result
        ≡ at_most (end_of frame.now.limit frame.now.horizon)
        (foreseen frame.now.limit (rank frame.now.limit now) cs
        (rank frame.now.limit known) (ticks_of response)) }
    ensures of_run { IsOfRun frame.now.limit result }
{
    capped(frame, foreseen(frame.limit, now, next, known, response))
}
