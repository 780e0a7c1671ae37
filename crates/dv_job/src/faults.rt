//! Whether a trace holds a fault.

ghost use Rattle.std.specs.Prelude.{◌≡◌, if◌then◌else◌};
ghost use Rattle.dv_written.specs.Faults.{has_fault, is_fault};
ghost use Rattle.dv_job.specs.Ending.{ending_of};
ghost use Rattle.dv_job.specs.declared.ended.JobEnded.TheVariants.{Faulted, Whole};

use crate::ended::JobEnded;
use dv_bag::{Trace, What};

/// How the plain run with this trace ended.
pub fn ending_of(trace: &Trace) -> JobEnded
    ensures { result ≡ ending_of trace.now }
{
    whole_ending(has_fault(trace))
}

// Whether a component had a fault.
fn has_fault(trace: &Trace) -> bool
    ensures { result ≡ has_fault trace.now }
{
    trace.entries().any(|entry| is_fault(&entry.what))
}

fn is_fault(what: &What) -> bool
    ensures { result ≡ is_fault what.now }
{
    match what {
        What::Fault(_) => true,
        What::Transition { .. } => false,
    }
}

/// How a whole run ended, by whether a component had a fault.
pub fn whole_ending(faulted: bool) -> JobEnded
    ensures { result ≡ (if faulted then Faulted else Whole) }
{
    if faulted {
        JobEnded::Faulted
    } else {
        JobEnded::Whole
    }
}
