//! How endings are reported: the exit statuses of the program, and the lines of errors.

use crate::tell;
use dv_job::{JobEnded, JobError, Options, run_plain, status};
use dv_partition::PartitionRefusal;
use std::alloc::{AllocError, Global};
use std::io;

/// A text whose second line has no token.
const NO_TOKEN: &[u8] = b"root Top;\n?";

/// Whether endings have their statuses and their lines. Prints each fact.
pub fn are_told<R: AllocGlobal + Print>(rt: &R) -> io::Result<bool> {
    let have_statuses = have_statuses();
    tell(
        rt,
        have_statuses,
        "a whole run has the status 0, a faulted one 3, and a failed write 1",
    )?;
    let have_lines = have_lines(rt.alloc())?;
    tell(
        rt,
        have_lines,
        "a failed write is told as write, no memory as E18, and a refused partition by its number",
    )?;
    let is_refused = is_refused(rt.alloc())?;
    tell(
        rt,
        is_refused,
        "of a refused text nothing is printed, and its line is told with the status 1",
    )?;
    Ok(have_statuses && have_lines && is_refused)
}

fn have_statuses() -> bool {
    status(&Ok(JobEnded::Whole)) == 0
        && status(&Ok(JobEnded::Faulted)) == 3
        && status(&Err(JobError::Write)) == 1
}

fn have_lines(alloc: Global) -> Result<bool, AllocError> {
    let write = is_line(alloc, &JobError::Write, "write")?;
    let memory = is_line(alloc, &JobError::Memory, "E18")?;
    let partition = is_line(alloc, &JobError::Partition(PartitionRefusal::Q3), "Q3")?;
    Ok(write && memory && partition)
}

/// Whether an error prints as this line, after the name of the program.
fn is_line(alloc: Global, error: &JobError, line: &str) -> Result<bool, AllocError> {
    let told = error.to_string(alloc)?;
    Ok(told.as_str() == line)
}

/// Whether a plain run of a refused text writes nothing, and its refusal has its line and its
/// status.
fn is_refused(alloc: Global) -> Result<bool, AllocError> {
    let Some(options) = Options::new(5, 20, None, None, 16) else {
        return Ok(false);
    };
    let mut written = Vec::new(alloc);
    let ended = run_plain(alloc, NO_TOKEN, b"", &options, &mut written);
    let has_status = status(&ended) == 1;
    let has_line = match &ended {
        Err(error) => is_line(alloc, error, "E2 line 2")?,
        Ok(_) => false,
    };
    Ok(written.is_empty() && has_status && has_line)
}
