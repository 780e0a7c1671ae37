//! The progress of a run.

use crate::told::tell_line;
use std::fmt;
use std::time::{Clock, Duration, Instant};

/// Prints once a second, on standard error, how many lines of a trace are written, and the tick of
/// the last one. Lines are counted, and the clock is read, when they are written. Many are written
/// at once, so this takes hardly any time.
#[derive(Drop)]
pub struct Progress<'a, R> {
    rt: &'a R,
    began: Instant,
    /// When the next message is due, as time since the begin.
    due: Duration,
    /// The number of lines that have ended.
    lines: u64,
    /// Whether the next byte begins a line.
    begins_line: bool,
}

impl<'a, R: Clock + Eprint> Progress<'a, R> {
    /// Begins now. `None` if the clock can't be read.
    pub fn begin(rt: &'a R) -> Option<Self> {
        Some(Progress {
            rt,
            began: Instant::now(rt).ok()?,
            due: Duration::from_secs(1),
            lines: 0,
            begins_line: true,
        })
    }

    /// Counts the lines that end in bytes that were written, and prints a message if it is due.
    pub fn add(&mut self, bytes: &[u8]) {
        self.lines = self.lines.saturating_add(line_ends(bytes));
        if let Some(elapsed) = self.elapsed_if_due()
            && let Some(tick) = last_tick(bytes, self.begins_line)
        {
            self.tell(elapsed, tick);
        }
        if let Some(last) = bytes.last() {
            self.begins_line = *last == b'\n';
        }
    }

    /// The time since the begin, if a message is due.
    fn elapsed_if_due(&self) -> Option<Duration> {
        let elapsed = self.began.elapsed(self.rt).ok()?;
        if elapsed >= self.due {
            Some(elapsed)
        } else {
            None
        }
    }

    /// Prints a message. The next one is due a second later.
    fn tell(&mut self, elapsed: Duration, tick: u64) {
        let seconds = elapsed.as_secs();
        let tenths = elapsed.subsec_millis() / 100;
        let lines = Grouped(self.lines);
        tell_line(
            self.rt,
            format_args!("{seconds}.{tenths} s: tick {tick}, {lines} lines"),
        );
        self.due = Duration::from_secs(seconds.saturating_add(1));
    }
}

/// The number of bytes in which line feeds are counted at once. They are no more than a byte can
/// count, so that the sum fits a byte and the processor adds many bytes at once.
const PIECE_LENGTH: usize = 240;

/// The number of lines that end in some bytes.
fn line_ends(bytes: &[u8]) -> u64 {
    let mut ended: u64 = 0;
    for piece in bytes.chunks(PIECE_LENGTH) {
        let mut in_piece: u8 = 0;
        for byte in piece {
            in_piece = in_piece.wrapping_add(u8::from(*byte == b'\n'));
        }
        ended = ended.saturating_add(u64::from(in_piece));
    }
    ended
}

/// The tick of the last line that ends in some bytes. `None` if the beginning of the line is not
/// among them, or is no time.
fn last_tick(bytes: &[u8], begins_line: bool) -> Option<u64> {
    let mut pieces = bytes.rsplit(|byte| *byte == b'\n');
    // The first piece is the text after the last line feed.
    pieces.next()?;
    let line = pieces.next()?;
    if pieces.next().is_none() && !begins_line {
        return None;
    }
    let (tick, _) = str::from_utf8(line).ok()?.split_once('.')?;
    tick.parse().ok()
}

/// A number, displayed with a comma after each group of three digits.
#[derive(Clone, Copy)]
struct Grouped(u64);

/// The units of the groups of three digits, from the greatest one on.
const UNITS: [u64; 7] = [
    1_000_000_000_000_000_000,
    1_000_000_000_000_000,
    1_000_000_000_000,
    1_000_000_000,
    1_000_000,
    1_000,
    1,
];

impl fmt::Display for Grouped {
    fn fmt<W: fmt::Write>(&self, f: &mut fmt::Formatter<W>) -> fmt::Result {
        let Grouped(number) = *self;
        let mut is_begun = false;
        for unit in UNITS {
            let group = number.checked_div(unit).unwrap_or(0) % 1_000;
            if is_begun {
                write!(f, ",{group:03}")?;
            } else if group > 0 || unit == 1 {
                write!(f, "{group}")?;
                is_begun = true;
            }
        }
        Ok(())
    }
}
