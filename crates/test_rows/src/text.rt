//! Lines of a file of rows, as the text that they encode.

use std::alloc::Global;
use std::io;
use std::io::Write;

/// A text that grows line by line.
#[derive(Drop)]
pub struct Text {
    /// The bytes of the text so far.
    pub bytes: Vec<u8>,
    alloc: Global,
    // Whether a line end stands between what is there and the next line.
    is_ended: bool,
}

impl Text {
    /// An empty text.
    pub fn new(alloc: Global) -> Self {
        Text {
            bytes: Vec::new(alloc),
            alloc,
            is_ended: false,
        }
    }

    /// Adds a line. `\repeat N TEXT` is TEXT, N times. A line that ends with `\` has no line end.
    pub fn push_line(&mut self, line: &str) -> io::Result<()> {
        if self.is_ended {
            self.bytes.push(b'\n')?;
        }
        self.is_ended = !line.ends_with('\\');
        match repeated(line) {
            Some((times, text)) if text.contains("\\i") => {
                push_numbered(&mut self.bytes, times, text)
            }
            Some((times, text)) => push_times(self.alloc, &mut self.bytes, times, text),
            None => push_pieces(&mut self.bytes, line, 0),
        }
    }
}

/// How often a line says that a text stands there, and which.
fn repeated(line: &str) -> Option<(u32, &str)> {
    let (times, text) = line.strip_prefix("\\repeat ")?.split_once(' ')?;
    Some((times.parse::<u32>().ok()?, text))
}

fn push_numbered(bytes: &mut Vec<u8>, times: u32, text: &str) -> io::Result<()> {
    for number in 0..times {
        push_pieces(bytes, text, number)?;
    }
    Ok(())
}

fn push_times(alloc: Global, bytes: &mut Vec<u8>, times: u32, text: &str) -> io::Result<()> {
    let mut once = Vec::new(alloc);
    push_pieces(&mut once, text, 0)?;
    for _ in 0..times {
        bytes.extend_from_slice(&once)?;
    }
    Ok(())
}

/// Adds a line, in which a letter behind `\` stands for what cannot be written there.
fn push_pieces(bytes: &mut Vec<u8>, line: &str, number: u32) -> io::Result<()> {
    let mut pieces = line.split('\\');
    if let Some(first) = pieces.next() {
        bytes.extend_from_slice(first.as_bytes())?;
    }
    for piece in pieces {
        push_letter(bytes, piece, number)?;
    }
    Ok(())
}

/// Adds what a letter stands for, and what is behind the letter: `n`, `r` and `t` are the blanks of
/// that name, `i` is the number of the repetition, `x` is the byte 255, and `c` the first byte of a
/// character of two.
fn push_letter(bytes: &mut Vec<u8>, piece: &str, number: u32) -> io::Result<()> {
    let mut letters = piece.chars();
    match letters.next() {
        Some('n') => bytes.push(b'\n')?,
        Some('r') => bytes.push(b'\r')?,
        Some('t') => bytes.push(b'\t')?,
        Some('i') => write!(bytes, "{number}")?,
        Some('x') => bytes.push(0xff)?,
        Some('c') => bytes.push(0xc3)?,
        Some(_) | None => {}
    }
    bytes.extend_from_slice(letters.as_str().as_bytes())?;
    Ok(())
}
