//! Begins the processes of a plan.

ghost use Rattle.std.specs.Prelude.{◌≡◌, IfOk, List, map};
ghost use Rattle.std.specs.List.{All, AllByRecursion};
ghost use Rattle.dv_bag.specs.Bag.{Counts};
ghost use Rattle.dv_local.specs.Shares.{share_by};
ghost use Rattle.dv_local.specs.States.{settled_by, view_by};
ghost use Rattle.dv_record.specs.Told.{no_text};
ghost use Rattle.dv_plan.specs.Beginning.{AllBegun, CanBegin, HasBegun};

use dv_local::{LocalRun, Share, begin};
use dv_proc::Process;
use dv_react::Atomic;
use dv_record::Record;
use dv_written::MakesRecord;
use std::alloc::{AllocError, Global};

/// Begins a process for each share, in their order, each with a record of its own. No process has
/// received, committed, sent or handed over anything.
///
/// # Errors
///
/// No memory for the components, the tables and the records of the processes.
pub fn begin_each<A: Atomic + Drop, R: Record, M: MakesRecord<R>>(
    alloc: Global,
    shares: Vec<Share<A>>,
    maker: &M,
) -> Result<Vec<Process<LocalRun<A, R>>>, AllocError>
    requires comes { (a : A) (bags : List Counts) → A.comes a bags }
    requires begin { AllByRecursion (CanBegin A.behaviour A.fits) shares.items }
    ensures begun { IfOk result (λ processes. AllBegun (view_by A.behaviour R.told)
        (settled_by A.behaviour R.settled)
        (map (share_by A.behaviour) shares.items) processes.items) }
    ensures handed { IfOk result (λ processes.
        All (λ p. R.handed p.local.record ≡ no_text) processes.items) }
{
    let mut processes = Vec::with_capacity(alloc, shares.len())?;
    for share in shares {
        processes.push(begin_one(alloc, share, maker)?)?;
    }
    Ok(processes)
}

// Begins the process of a share.
fn begin_one<A: Atomic + Drop, R: Record, M: MakesRecord<R>>(
    alloc: Global,
    share: Share<A>,
    maker: &M,
) -> Result<Process<LocalRun<A, R>>, AllocError>
    requires comes { (a : A) (bags : List Counts) → A.comes a bags }
    requires begin { CanBegin A.behaviour A.fits share }
    ensures begun { IfOk result (HasBegun (view_by A.behaviour R.told)
        (settled_by A.behaviour R.settled) (share_by A.behaviour share)) }
    ensures handed { IfOk result (λ p. R.handed p.local.record ≡ no_text) }
{
    let record = maker.make(alloc)?;
    let process = begin(alloc, share, record)?;
    Ok(process)
}
