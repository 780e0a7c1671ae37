//! Bits, numbers and strings.

use dv_eval::Domain;

/// The form of a variable of the dump.
#[derive(Clone, Copy)]
pub(crate) enum Form {
    /// A bit: 0, 1, or `x` if it is not known.
    Wire,
    /// A number of 64 bits in two's complement, which viewers show with its sign.
    Integer,
    /// A string.
    Text,
}

impl Form {
    /// The form of a state variable with this domain.
    pub(crate) fn of(domain: Domain) -> Form {
        match domain {
            Domain::Number(range) if range.low == 0 && range.high == 1 => Form::Wire,
            Domain::Number(_) => Form::Integer,
            Domain::Flag { .. } => Form::Wire,
            Domain::Held { .. } => Form::Text,
        }
    }

    /// The type and the size in a declaration.
    pub(crate) fn words(self) -> &'static str {
        match self {
            Form::Wire => "wire 1",
            Form::Integer => "integer 64",
            Form::Text => "string 1",
        }
    }
}
