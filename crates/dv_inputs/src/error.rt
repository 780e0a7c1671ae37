//! Why the text of inputs is refused.

ghost use Rattle.std.specs.Prelude.{◌≡◌};

use std::alloc::AllocError;
use std::fmt;

/// The number of a refusal. Of several for one line, the least is the answer.
#[derive(Clone, Copy, Debug, PartialEq, Eq)]
pub enum InputRefusalNumber {
    /// The line is not UTF-8, does not have three fields, or its time is not a tick up to the
    /// greatest in decimal digits, with or without a dot and a microstep up to the greatest limit.
    I1,
    /// The root has no input port of this name.
    I2,
    /// The time is before that of the previous input.
    I3,
    /// The value is not a number from -2^63 to 2^63 - 1 in decimal digits, with or without `-`.
    I4,
    /// The microstep is above the limit of the run.
    I5,
}

impl fmt::Display for InputRefusalNumber {
    ghost use Rattle.std.specs.Prelude.{Some};
    ghost use Rattle.dv_inputs.specs.Words.{number_word};

    ghost output = { λ number. Some (number_word number) };

    fn fmt<W: fmt::Write>(&self, f: &mut fmt::Formatter<W>) -> fmt::Result {
        f.write_str(match self {
            InputRefusalNumber::I1 => "I1",
            InputRefusalNumber::I2 => "I2",
            InputRefusalNumber::I3 => "I3",
            InputRefusalNumber::I4 => "I4",
            InputRefusalNumber::I5 => "I5",
        })
    }
}

/// The answer for a refused text: which refusal, and its line, counted from 1.
#[derive(Clone, Copy, Debug, PartialEq, Eq)]
pub struct InputRefusal {
    /// The number of the refusal.
    pub number: InputRefusalNumber,
    /// The number of the line, counted from 1.
    pub line: u64,
}

impl fmt::Display for InputRefusal {
    ghost use Rattle.std.specs.Prelude.{Some};
    ghost use Rattle.dv_inputs.specs.Words.{refusal_words};

    ghost output = { λ r. Some (refusal_words r) };

    fn fmt<W: fmt::Write>(&self, f: &mut fmt::Formatter<W>) -> fmt::Result {
        write!(f, "{} line {}", self.number, self.line)
    }
}

/// Why there are no inputs.
#[derive(Clone, Copy, PartialEq, Eq)]
pub enum InputsError {
    /// The text is refused.
    Refused(InputRefusal),
    /// An allocation was refused.
    Memory,
}

impl From<AllocError> for InputsError {
    ghost use Rattle.dv_inputs.specs.declared.error.InputsError.TheVariants.{Memory};

    ghost from_gives = { λ _ e. e ≡ Memory };

    fn from(_error: AllocError) -> Self {
        InputsError::Memory
    }
}
