//! Tells what a run does not show by itself.

use crate::FAULTED;
use crate::faulted::tell_faults;
use crate::runs::Job;
use crate::told::tell_line;
use dv_notice::{FaultCount, notice_inputs};
use dv_views::warnings_bytes;
use std::io::sink;

/// Prints that components had faults, or explains the faults of a whole run if that is asked for;
/// which inputs may not be meant; and how many warnings the model has, if errors are explained.
/// `status` is that of the run.
pub fn tell_notices<R: AllocGlobal + Eprint>(
    rt: &R,
    job: &Job<'_>,
    status: u8,
    faults: FaultCount,
) {
    if job.is_explained && status == FAULTED {
        tell_faults(rt, job);
    } else if status == FAULTED {
        tell_line(rt, format_args!("{faults}; --explain says where"));
    } else if faults.count > 0 {
        tell_line(rt, faults);
    }
    let inputs = notice_inputs(job.texts.inputs.bytes, job.options.horizon);
    if let Some(late) = inputs.late {
        tell_line(rt, late);
    }
    if let Some(early) = inputs.early {
        tell_line(rt, early);
    }
    if job.is_explained {
        tell_warnings(rt, job);
    }
}

// Prints how many warnings the model has. Nothing is printed if it has none, or if memory does not
// suffice for them.
fn tell_warnings<R: AllocGlobal + Eprint>(rt: &R, job: &Job<'_>) {
    let model = job.texts.model;
    match warnings_bytes(rt.alloc(), model.name, model.bytes, &mut sink()) {
        Ok(0) | Err(_) => {}
        Ok(1) => tell_line(rt, "1 warning; check --warn shows it"),
        Ok(count) => tell_line(
            rt,
            format_args!("{count} warnings; check --warn shows them"),
        ),
    }
}
