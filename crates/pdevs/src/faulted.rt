//! Explains the faults of a run.

use crate::runs::Job;
use crate::told::tell_text;
use dv_job::Options;
use dv_views::{FileText, faults_text};

/// Prints an explanation of the faults of a run. The model is run again in one process, since
/// neither processes nor workers change its trace. If memory does not suffice for that, nothing is
/// printed.
pub fn tell_faults<R: AllocGlobal + Eprint>(rt: &R, job: &Job<'_>) {
    let given = job.options;
    let Some(alone) = Options::new(given.horizon, given.limit, None, None, given.capacity) else {
        return;
    };
    let model = FileText {
        name: job.texts.model.name,
        bytes: job.texts.model.bytes,
    };
    if let Ok(text) = faults_text(rt.alloc(), model, job.texts.inputs.bytes, &alone) {
        tell_text(rt, text.as_str());
    }
}
