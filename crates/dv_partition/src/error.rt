//! Why a partition is refused.

ghost use Rattle.std.specs.Prelude.{◌≡◌};

use std::alloc::{AllocError, AllocFailed};
use std::fmt;

/// The number of a refusal.
#[derive(Clone, Copy, Debug, PartialEq, Eq)]
pub enum PartitionRefusal {
    /// The text is not JSON, or not an object with the one key `processes`, a list of lists of
    /// strings.
    Q1,
    /// A path that no component has.
    Q2,
    /// A component that is listed twice, or not at all.
    Q3,
    /// No process, too many of them, or one without a component.
    Q4,
}

/// Why there are no groups.
#[derive(Clone, Copy, PartialEq, Eq, Drop)]
pub enum PartitionError {
    /// The partition is refused.
    Refused(PartitionRefusal),
    /// An allocation was refused.
    Memory,
}

impl fmt::Display for PartitionRefusal {
    ghost use Rattle.std.specs.Prelude.{Some};
    ghost use Rattle.dv_partition.specs.Words.{refusal_words};

    ghost output = { λ r. Some (refusal_words r) };

    fn fmt<W: fmt::Write>(&self, f: &mut fmt::Formatter<W>) -> fmt::Result {
        f.write_str(match self {
            PartitionRefusal::Q1 => "Q1",
            PartitionRefusal::Q2 => "Q2",
            PartitionRefusal::Q3 => "Q3",
            PartitionRefusal::Q4 => "Q4",
        })
    }
}

impl From<PartitionRefusal> for PartitionError {
    ghost use Rattle.dv_partition.specs.declared.error.PartitionError.TheVariants.{Refused};

    ghost from_gives = { λ refusal e. e ≡ Refused refusal };

    fn from(refusal: PartitionRefusal) -> Self {
        PartitionError::Refused(refusal)
    }
}

impl From<AllocError> for PartitionError {
    ghost use Rattle.dv_partition.specs.declared.error.PartitionError.TheVariants.{Memory};

    ghost from_gives = { λ _ e. e ≡ Memory };

    fn from(_error: AllocError) -> Self {
        PartitionError::Memory
    }
}

impl<T: Drop> From<AllocFailed<T>> for PartitionError {
    ghost use Rattle.dv_partition.specs.declared.error.PartitionError.TheVariants.{Memory};

    ghost from_gives = { λ _ e. e ≡ Memory };

    fn from(_error: AllocFailed<T>) -> Self {
        PartitionError::Memory
    }
}
