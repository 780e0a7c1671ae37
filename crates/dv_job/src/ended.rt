//! How a run ends.

ghost use Rattle.std.specs.Prelude.{◌≡◌};
ghost use Rattle.dv_job.specs.Status.{status_of};

use dv_inputs::{InputRefusal, InputsError};
use dv_lex::TextError;
use dv_partition::{PartitionError, PartitionRefusal};
use dv_stream::{Halt, Why, first_cause};
use dv_text::WriteError;
use std::alloc::AllocError;
use std::fmt;
use thiserror::Error;

/// How a run ended that printed a trace.
#[derive(Clone, Copy, PartialEq, Eq)]
pub enum JobEnded {
    /// The trace is whole, up to the horizon, and no component had a fault.
    Whole,
    /// The trace is whole. A component had a fault, and the others went on.
    Faulted,
    /// The trace is cut, for this reason: it has what is before the clocks, which its last lines
    /// give.
    Partial(Why),
}

/// How a run by workers ended, and why its workers did.
#[derive(Drop)]
pub struct EndedByWorkers<C> {
    /// How the run ended.
    pub ended: JobEnded,
    /// Why each worker ended before its processes were done, or `None` if they are done: first the
    /// workers that got no thread, then the others, by their numbers.
    pub halts: Vec<Option<Halt<C>>>,
}

impl<C: Drop> EndedByWorkers<C> {
    ghost use Rattle.dv_job.specs.Halts.{cause_of};

    /// The cause for which the watch stopped the run, if it did. Of several causes it is that of
    /// the worker with the least number.
    pub fn into_cause(self) -> Option<C>
        ensures { result ≡ cause_of self }
    {
        match self.ended {
            JobEnded::Partial(Why::Stopped) => first_cause(self.halts),
            JobEnded::Partial(Why::Rounds | Why::Memory) => None,
            JobEnded::Whole | JobEnded::Faulted => None,
        }
    }
}

/// Why there is no whole trace, or no whole listing.
#[derive(Debug, Drop, Error)]
pub enum JobError {
    /// The text of the model is refused, with this number on this line. Nothing was written.
    Text(TextError),
    /// The partition is refused, with this number. Nothing was written.
    Partition(PartitionRefusal),
    /// The text of the inputs is refused, with this number on this line. Nothing was written.
    Inputs(InputRefusal),
    /// A write failed. The writer holds a beginning of the text that is not all of it.
    Write,
    /// An allocation was refused. The writer holds nothing, or a beginning of the text that is not
    /// all of it.
    Memory,
}

/// The exit status of the program: 0 for a whole trace, 3 if a component had a fault, 4 for a
/// partial trace, and 1 for an error.
pub fn status(outcome: &Result<JobEnded, JobError>) -> u8
    ensures { result ≡ status_of outcome.now }
{
    match outcome {
        Ok(JobEnded::Whole) => 0,
        Ok(JobEnded::Faulted) => 3,
        Ok(JobEnded::Partial(_)) => 4,
        Err(_) => 1,
    }
}

impl fmt::Display for JobError {
    ghost use Rattle.std.specs.Prelude.{Some};
    ghost use Rattle.dv_job.specs.Errors.{job_error_words};

    ghost output = { λ e. Some (job_error_words e) };

    fn fmt<W: fmt::Write>(&self, f: &mut fmt::Formatter<W>) -> fmt::Result {
        match self {
            JobError::Text(error) => write!(f, "{error}"),
            JobError::Partition(refusal) => write!(f, "{refusal}"),
            JobError::Inputs(refusal) => write!(f, "{refusal}"),
            JobError::Write => f.write_str("write"),
            JobError::Memory => f.write_str("E18"),
        }
    }
}

impl From<WriteError> for JobError {
    ghost use Rattle.dv_job.specs.Errors.{IsOfWrite};

    ghost from_gives = { IsOfWrite };

    fn from(error: WriteError) -> Self {
        match error {
            WriteError::Write => JobError::Write,
            WriteError::Memory => JobError::Memory,
        }
    }
}

impl From<InputsError> for JobError {
    ghost use Rattle.dv_job.specs.Errors.{IsOfInputs};

    ghost from_gives = { IsOfInputs };

    fn from(error: InputsError) -> Self {
        match error {
            InputsError::Refused(refusal) => JobError::Inputs(refusal),
            InputsError::Memory => JobError::Memory,
        }
    }
}

impl From<PartitionError> for JobError {
    ghost use Rattle.dv_job.specs.Errors.{IsOfPartition};

    ghost from_gives = { IsOfPartition };

    fn from(error: PartitionError) -> Self {
        match error {
            PartitionError::Refused(refusal) => JobError::Partition(refusal),
            PartitionError::Memory => JobError::Memory,
        }
    }
}

impl From<AllocError> for JobError {
    ghost use Rattle.dv_job.specs.declared.ended.JobError.TheVariants.{Memory};

    ghost from_gives = { λ _ e. e ≡ Memory };

    fn from(_error: AllocError) -> Self {
        JobError::Memory
    }
}
