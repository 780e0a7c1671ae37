//! Why the tokens could not be read.

use std::alloc::{AllocError, AllocFailed};

/// What stops the parser, with the offset of a token, in bytes of the text.
#[derive(Clone, Copy)]
pub enum Obstacle {
    /// The token is not allowed there.
    Unexpected(u32),
    /// What begins with the token, or what it joins, is nested too deeply.
    TooDeep(u32),
    /// The tokens end too early.
    TooShort,
}

/// Why the tokens could not be read.
#[derive(Clone, Copy)]
pub enum ParseError {
    /// An allocation was refused.
    Memory,
    /// The tokens are not what was to be read.
    Stopped(Obstacle),
}

impl From<Obstacle> for ParseError {
    ghost use Rattle.std.specs.Prelude.{◌≡◌};
    ghost use Rattle.dv_parser.specs.declared.parse_error.ParseError.TheVariants.{Stopped};

    ghost from_gives = { λ o e. e ≡ Stopped o };

    fn from(obstacle: Obstacle) -> Self {
        ParseError::Stopped(obstacle)
    }
}

impl From<AllocError> for ParseError {
    ghost use Rattle.std.specs.Prelude.{◌≡◌};
    ghost use Rattle.dv_parser.specs.declared.parse_error.ParseError.TheVariants.{Memory};

    ghost from_gives = { λ _ e. e ≡ Memory };

    fn from(_error: AllocError) -> Self {
        ParseError::Memory
    }
}

impl<T: Drop> From<AllocFailed<T>> for ParseError {
    ghost use Rattle.std.specs.Prelude.{◌≡◌};
    ghost use Rattle.dv_parser.specs.declared.parse_error.ParseError.TheVariants.{Memory};

    ghost from_gives = { λ _ e. e ≡ Memory };

    fn from(_error: AllocFailed<T>) -> Self {
        ParseError::Memory
    }
}
