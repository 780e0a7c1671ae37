//! Faults. A fault belongs to one component, which is quiet from that instant on.

ghost use Rattle.std.specs.Prelude.{◌≡◌};
ghost use Rattle.dv_bag.specs.Words.{fault_word};

use std::alloc::{AllocError, AllocFailed};
use std::fmt;
use std::str::FromStr;

/// Why a component is quiet.
#[derive(Clone, Copy, Debug, PartialEq, Eq)]
pub enum Fault {
    /// A result outside -2^63..2^63-1.
    Overflow,
    /// A division by 0.
    Divide,
    /// A value outside the range of its variable.
    Range,
    /// The least or greatest value of an empty bag, or the first value of an empty queue.
    Empty,
    /// One more value than the capacity of a bag or a queue.
    Full,
    /// A hold below 0.
    Negative,
    /// A hold of 0 at the last microstep of a tick.
    Microsteps,
    /// More than 4,096 values sent in one output, or at one port at one instant.
    Flood,
}

/// All faults.
const FAULTS: [Fault; 8] = [
    Fault::Overflow,
    Fault::Divide,
    Fault::Range,
    Fault::Empty,
    Fault::Full,
    Fault::Negative,
    Fault::Microsteps,
    Fault::Flood,
];

impl Fault {
    /// The word for it in a trace.
    pub fn word(self) -> &'static str
        ensures { result.now ≡ fault_word self }
    {
        match self {
            Fault::Overflow => "overflow",
            Fault::Divide => "divide",
            Fault::Range => "range",
            Fault::Empty => "empty",
            Fault::Full => "full",
            Fault::Negative => "negative",
            Fault::Microsteps => "microsteps",
            Fault::Flood => "flood",
        }
    }
}

impl fmt::Display for Fault {
    ghost use Rattle.std.specs.Prelude.{Some};

    ghost output = { λ f. Some (fault_word f) };

    fn fmt<W: fmt::Write>(&self, f: &mut fmt::Formatter<W>) -> fmt::Result {
        f.write_str(self.word())
    }
}

/// A word that is no fault.
#[derive(Clone, Copy, PartialEq, Eq)]
pub struct NoFault;

impl FromStr for Fault {
    type Err = NoFault;

    ghost use Rattle.dv_bag.specs.Words.{ReadsFault};

    ghost from_str_gives = { ReadsFault };

    fn from_str(word: &str) -> Result<Fault, NoFault> {
        for fault in FAULTS {
            if fault.word() == word {
                return Ok(fault);
            }
        }
        Err(NoFault)
    }
}

/// Why a rule has no effect.
#[derive(Clone, Copy, Debug, PartialEq, Eq)]
pub enum RuleError {
    /// A fault of the model.
    Fault(Fault),
    /// Memory was refused.
    Memory,
}

impl From<Fault> for RuleError {
    ghost use Rattle.dv_bag.specs.declared.fault.RuleError.TheVariants as error;

    ghost from_gives = { λ f e. e ≡ error.Fault f };

    fn from(fault: Fault) -> Self {
        RuleError::Fault(fault)
    }
}

impl From<AllocError> for RuleError {
    ghost use Rattle.dv_bag.specs.declared.fault.RuleError.TheVariants.{Memory};

    ghost from_gives = { λ _ e. e ≡ Memory };

    fn from(_error: AllocError) -> Self {
        RuleError::Memory
    }
}

impl<T: Drop> From<AllocFailed<T>> for RuleError {
    ghost use Rattle.dv_bag.specs.declared.fault.RuleError.TheVariants.{Memory};

    ghost from_gives = { λ _ e. e ≡ Memory };

    fn from(_error: AllocFailed<T>) -> Self {
        RuleError::Memory
    }
}
