//! A process as its run begins.

ghost use Rattle.std.specs.Prelude.{◌≡◌, ◌<◌, ◌^◌, ℕ, Bool, List, [], IfOk, length, None};
ghost use Rattle.dv_bag.specs.Bag.{Counts};
ghost use Rattle.dv_bag.specs.Part.{nothing};
ghost use Rattle.dv_bag.specs.declared.state.State.{State};
ghost use Rattle.dv_conservative.specs.Process.{first_time};
ghost use Rattle.dv_conservative.specs.Sound.{IsSoundShare};
ghost use Rattle.dv_devs.specs.NextTimes.{IsFrom, least_next};
ghost use Rattle.dv_proc.specs.Arriving.{AreApart, received_by};
ghost use Rattle.dv_proc.specs.Leaving.{promised_by, standing_by};
ghost use Rattle.dv_proc.specs.Standing.{IsProcess};
ghost use Rattle.dv_react.specs.Components.{components_of};
ghost use Rattle.dv_share.specs.Share.{starts_of};
ghost use Rattle.dv_local.specs.Shares.{IsShare, numbers_of_ways, share_by};
ghost use Rattle.dv_local.specs.States.{settled_by, view_by};

use crate::local_run::LocalRun;
use crate::share::{Share, Way};
use crate::state::LocalState;
use dv_proc::Process;
use dv_react::{Atomic, Running};
use dv_record::Record;
use dv_share::Member;
use std::alloc::{AllocError, Global};

/// A process at 0.0, with the components of a share as they start: nothing arrived, was committed
/// or was sent. No component may be imminent at 0.0. `to` is the record, which was told nothing
/// yet.
///
/// # Errors
///
/// No memory for the process.
pub fn begin<A: Atomic + Drop, R: Record>(
    alloc: Global,
    share: Share<A>,
    to: R,
) -> Result<Process<LocalRun<A, R>>, AllocError>
    requires few { length share.tables.members.items < 2 ^ 32 }
    requires comes { (a : A) (bags : List Counts) → A.comes a bags }
    requires share { IsShare A.fits share }
    requires later { IsFrom 1 (least_next
        (components_of share.tables.limit (starts_of share.tables.members.items))) }
    requires sound { (fits : ℕ → State → Bool) × IsSoundShare fits (share_by A.behaviour share) }
    requires apart_in { AreApart share.sources.items }
    requires apart_out { AreApart (numbers_of_ways share.ways.items) }
    requires told { R.told to ≡ nothing }
    requires at_rest { R.settled to ≡ R.told to }
    ensures process { IfOk result (λ p. IsProcess (view_by A.behaviour R.told p.local)
        p.incoming.items p.outgoing.items p.clock) }
    ensures settled { IfOk result (λ p. settled_by A.behaviour R.settled p.local
        ≡ view_by A.behaviour R.told p.local) }
    ensures share { IfOk result (λ p. (view_by A.behaviour R.told p.local).share
        ≡ share_by A.behaviour share) }
    ensures received { IfOk result (λ p. (l : ℕ) → received_by p.incoming.items l ≡ []) }
    ensures standing { IfOk result (λ p. (l : ℕ) → standing_by p.outgoing.items l ≡ None) }
    ensures promised { IfOk result (λ p. (l : ℕ) → promised_by p.outgoing.items l ≡ first_time) }
    ensures clock { IfOk result (λ p. p.clock ≡ first_time) }
    ensures visits { IfOk result (λ p. p.local.components.visits ≡ 0) }
    ensures handed { IfOk result (λ p. R.handed p.local.record ≡ R.handed to) }
{
    let sources = Vec::from_slice(alloc, share.sources.as_slice())?;
    let ways = numbers_of(alloc, share.ways.as_slice())?;
    let running = starts_of(alloc, share.tables.members.as_slice())?;
    let state = LocalState::new(alloc, share, running, to)?;
    Ok(Process::new(alloc, LocalRun::new(state), &sources, &ways)?)
}

// The numbers of the links to other processes.
fn numbers_of(alloc: Global, ways: &[Way]) -> Result<Vec<u32>, AllocError>
    ensures { IfOk result (λ xs. xs.items ≡ numbers_of_ways ways.now) }
{
    ways.iter().map(|way| way.number).collect(alloc)
}

// The components as they start.
fn starts_of(alloc: Global, members: &[Member]) -> Result<Vec<Running>, AllocError>
    ensures { IfOk result (λ xs. xs.items ≡ starts_of members.now) }
{
    let mut running = Vec::with_capacity(alloc, members.len())?;
    for member in members {
        running.push(start_of(member)?)?;
    }
    Ok(running)
}

// A component as it starts.
fn start_of(member: &Member) -> Result<Running, AllocError>
    ensures { IfOk result (λ r. r ≡ member.now.start) }
{
    let start = member.start.as_running();
    Ok(Running {
        state: start.state.clone()?,
        last: start.last,
        wait: start.wait,
    })
}
