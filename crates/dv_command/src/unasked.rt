//! Why words ask for nothing.

ghost use Rattle.std.specs.Prelude.{◌≡◌};
ghost use Rattle.dv_command.specs.declared.unasked.Unasked.TheVariants.{Memory};

use std::alloc::AllocError;

/// Why there is no request.
#[derive(Clone, Copy)]
pub(crate) enum Unasked {
    /// The words ask for nothing.
    Nothing,
    /// An allocation was refused.
    Memory,
}

impl From<AllocError> for Unasked {
    ghost from_gives = { λ _ e. e ≡ Memory };

    fn from(_error: AllocError) -> Self {
        Unasked::Memory
    }
}
