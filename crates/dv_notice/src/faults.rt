//! Counts the faults of a trace.

use crate::times::time_in;
use dv_time::Time;
use memchr::memmem::find_iter;
use memchr::memrchr;
use std::fmt;

/// The third word of the line of a fault, with the blank behind it.
const WORD: &[u8] = b"fault ";

/// How many components of a run had a fault, counted while the lines of its trace are written.
///
/// Only lines that have the word `fault` are looked at, and a search finds them, so this takes
/// hardly any time.
#[derive(Clone, Copy)]
pub struct FaultCount {
    /// The number of faults. A component has at most one.
    pub count: u64,
    /// The time of the first one.
    pub first: Time,
}

impl FaultCount {
    /// No fault.
    pub fn new() -> Self {
        FaultCount {
            count: 0,
            first: Time::ZERO,
        }
    }

    /// Counts the faults of further lines. These are whole lines.
    pub fn add(&mut self, lines: &[u8]) {
        for at in find_iter(lines, WORD) {
            let before = lines.get(..at).unwrap_or(lines);
            if let Some(time) = time_before(last_line(before)) {
                self.add_fault(time);
            }
        }
    }

    // Counts a fault at a time.
    fn add_fault(&mut self, time: Time) {
        if self.count == 0 {
            self.first = time;
        }
        self.count = self.count.saturating_add(1);
    }
}

impl fmt::Display for FaultCount {
    fn fmt<W: fmt::Write>(&self, f: &mut fmt::Formatter<W>) -> fmt::Result {
        let first = self.first;
        match self.count {
            1 => write!(f, "1 component had a fault, at {first}"),
            count => write!(f, "{count} components had faults, the first at {first}"),
        }
    }
}

// What stands behind the last line feed.
fn last_line(bytes: &[u8]) -> &[u8] {
    match memrchr(b'\n', bytes) {
        Some(end) => bytes.get(end.saturating_add(1)..).unwrap_or(&[]),
        None => bytes,
    }
}

// The time at the front of a line, if what follows the front is its third word. A component or a
// phase may be called `fault` as well, but its name is another word of its line.
fn time_before(front: &[u8]) -> Option<Time> {
    let mut words = str::from_utf8(front).ok()?.split(' ');
    let time = time_in(words.next()?)?;
    words.next()?;
    match (words.next(), words.next()) {
        (Some(""), None) => Some(time),
        _ => None,
    }
}
