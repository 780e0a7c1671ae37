//! Reads the lines of a trace.

use crate::error::VcdError;
use dv_trace::{End, LineCutter, PieceReader, TakeLine};
use std::alloc::Global;
use std::io::Read;

/// Gives all lines of a trace to `taker`, from the current piece on.
pub(crate) fn read_lines<T: Read, L: TakeLine<Error = VcdError> + Drop>(
    alloc: Global,
    pieces: &mut PieceReader<'_, T>,
    end: End,
    taker: L,
) -> Result<(), VcdError> {
    let mut lines = LineCutter::new(alloc, taker);
    pieces.give_all(&mut lines)?;
    let _taker = lines.finish(end)?;
    Ok(())
}
