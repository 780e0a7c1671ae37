//! A job as a type, for contracts.

use std::marker::Brand;

/// A job as a type, with the line that each entry of its trace prints. Links, workers and parts of
/// the same type are of the same job. There are no values of it.
pub trait OfJob {
    ghost use Rattle.std.specs.Prelude.{ℕ, List};
    ghost use Rattle.dv_bag.specs.declared.entry.Entry.{Entry};
    ghost use Rattle.dv_conservative.specs.World.{Job};

    ghost job: { Job };

    ghost line: { Entry → List ℕ };
}

/// The type with which a call chooses its job.
impl OfJob for Brand {
    ghost use Rattle.dv_written.specs.Jobs.{no_job, no_line};

    ghost job = { no_job };

    ghost line = { no_line };
}
