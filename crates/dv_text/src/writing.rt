//! How the text of a trace ends, and why a text is not complete.

ghost use Rattle.std.specs.Prelude.{◌≡◌, OnErr, OnOk};
ghost use Rattle.std.specs.Io.KnownBytes.{Appends};
ghost use Rattle.dv_text.specs.Texts.{ending_text};
ghost use Rattle.dv_text.specs.Writing.{StopsShort};

use crate::ending::push_end;
use crate::handing::hand_over;
use dv_time::Time;
use std::alloc::{AllocError, Global};
use std::io::Write;

/// How the text of a trace ends.
#[derive(Drop)]
pub enum Ending {
    /// The trace has all that happens up to this horizon, a tick.
    Whole(u64),
    /// The clocks of the processes, in the order of the processes. The trace has all that happens
    /// before the least clock.
    Partial(Vec<Time>),
}

/// Why a text is not complete.
#[derive(Clone, Copy, PartialEq, Eq)]
pub enum WriteError {
    /// The writer returned an error, or took no byte.
    Write,
    /// An allocation was refused.
    Memory,
}

impl From<AllocError> for WriteError {
    ghost use Rattle.dv_text.specs.declared.writing.WriteError.TheVariants.{Memory};

    ghost from_gives = { λ _ e. e ≡ Memory };

    fn from(_error: AllocError) -> Self {
        WriteError::Memory
    }
}

/// Writes the lines of an ending. A failed write is not tried again.
///
/// # Errors
///
/// `WriteError::Write`: a write failed or took nothing. `WriteError::Memory`: an allocation was
/// refused. The writer has a beginning of these lines, perhaps nothing, and not all of them.
pub fn write_ending<W: Write>(
    alloc: Global,
    ending: &Ending,
    writer: &mut W,
) -> Result<(), WriteError>
    ensures ok { OnOk result (Appends (W.contents writer.old) (W.contents writer.new)
        (ending_text ending.now)) }
    ensures err { OnErr result (StopsShort (W.contents writer.old) (W.contents writer.new)
        (ending_text ending.now)) }
{
    let mut text = String::new(alloc);
    push_end(&mut text, ending)?;
    hand_over(writer, text.as_bytes())
}
