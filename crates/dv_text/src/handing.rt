//! Writes bytes.

ghost use Rattle.std.specs.Prelude.{◌<◌, length, IsOk, OnErr, OnOk, string_bytes};
ghost use Rattle.std.specs.Io.KnownBytes.{Appends};
ghost use Rattle.dv_text.specs.Writing.{StopsShort, TakesFront};

use crate::writing::WriteError;
use std::io::Write;

// The number of bytes that are collected before they are written.
const PIECE_LENGTH: usize = 65_536;

/// Writes all bytes of a piece, in as many writes as the writer needs. A failed write is not tried
/// again.
///
/// # Errors
///
/// `WriteError::Write`: a write failed or took nothing. The writer has a beginning of the piece
/// that is not all of it.
pub fn hand_over<W: Write>(writer: &mut W, piece: &[u8]) -> Result<(), WriteError>
    ensures ok { OnOk result (Appends (W.contents writer.old) (W.contents writer.new) piece.now) }
    ensures err { OnErr result (StopsShort (W.contents writer.old) (W.contents writer.new)
        piece.now) }
{
    let mut rest = piece;
    while !rest.is_empty() {
        match writer.write(rest) {
            Ok(0) | Err(_) => return Err(WriteError::Write),
            Ok(count) => rest = rest.split_at(count).1,
        }
    }
    Ok(())
}

/// Writes the text and empties it if it has 64 KiB or more. Otherwise nothing happens.
///
/// # Errors
///
/// `WriteError::Write`: a write failed or took nothing. The writer has a beginning of the text that
/// is not all of it.
pub fn hand_over_if_long<W: Write>(line: &mut String, writer: &mut W) -> Result<(), WriteError>
    ensures ok { OnOk result (TakesFront (W.contents writer.old) (W.contents writer.new)
        (string_bytes line.old) (string_bytes line.new)) }
    ensures short { OnOk result (length (string_bytes line.new) < PIECE_LENGTH) }
    ensures waits { length (string_bytes line.old) < PIECE_LENGTH → IsOk result }
    ensures err { OnErr result (StopsShort (W.contents writer.old) (W.contents writer.new)
        (string_bytes line.old)) }
{
    if line.len() >= PIECE_LENGTH {
        hand_over(writer, line.as_bytes())?;
        line.clear();
    }
    Ok(())
}
