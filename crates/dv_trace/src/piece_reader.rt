//! Reads a trace piece by piece.

use std::alloc::Global;
use std::io;
use std::io::{ErrorKind, Read, Seek, Write};

/// The number of bytes that are read at a time.
const PIECE_LENGTH: usize = 65_536;

/// Reads a trace piece by piece, and keeps the current piece.
#[derive(Drop)]
pub struct PieceReader<'r, T> {
    trace: &'r mut T,
    // The memory of the piece.
    piece: Vec<u8>,
    // The length of the current piece; 0 at the end of the trace.
    length: usize,
    // The number of bytes that were read so far.
    count: u64,
    // The most bytes that are still to be read.
    left: u64,
}

impl<'r, T: Read> PieceReader<'r, T> {
    /// Reads the first piece of a trace, from its current position.
    ///
    /// # Errors
    ///
    /// The trace can't be read, or an allocation was refused (`ErrorKind::OutOfMemory`).
    pub fn begin(alloc: Global, trace: &'r mut T) -> io::Result<Self> {
        let mut reader = PieceReader {
            trace,
            piece: vec![in alloc; 0; PIECE_LENGTH]?,
            length: 0,
            count: 0,
            left: u64::MAX,
        };
        reader.read_next()?;
        Ok(reader)
    }

    /// Writes the current piece and all that follow to a writer. If a write fails, this call ends
    /// without an error; the writer has to keep the cause.
    ///
    /// # Errors
    ///
    /// The trace can't be read to its end; the writer has what was read before.
    pub fn give_all<W: Write>(&mut self, writer: &mut W) -> io::Result<()> {
        for _ in 0..u64::MAX {
            let bytes = self.piece.get(..self.length).unwrap_or(&[]);
            if bytes.is_empty() || writer.write_all(bytes).is_err() {
                break;
            }
            self.read_next()?;
        }
        Ok(())
    }

    // Reads the next piece, which is empty at the end of the trace.
    fn read_next(&mut self) -> io::Result<()> {
        self.length = 0;
        if self.left == 0 {
            return Ok(());
        }
        let most = self.left.min(self.piece.len() as u64) as usize;
        self.length = read_piece(self.trace, &mut self.piece[..most])?;
        let length = self.length as u64;
        self.count = self.count.saturating_add(length);
        self.left = self.left.saturating_sub(length);
        Ok(())
    }
}

impl<T: Read + Seek> PieceReader<'_, T> {
    /// Goes back to the beginning of the trace and reads its first piece. Even if the trace has
    /// grown, no more bytes are read from now on than were read before.
    ///
    /// # Errors
    ///
    /// The trace can't be read again.
    pub fn restart(&mut self) -> io::Result<()> {
        self.trace.rewind()?;
        self.left = self.count;
        self.count = 0;
        self.read_next()
    }
}

// Reads the next bytes, and returns how many: 0 at the end of the trace.
fn read_piece<T: Read>(trace: &mut T, piece: &mut [u8]) -> io::Result<usize> {
    for _ in 0..u64::MAX {
        match trace.read(piece) {
            Err(error) if matches!(error.kind(), ErrorKind::Interrupted) => {}
            answer => return answer,
        }
    }
    Ok(0)
}
