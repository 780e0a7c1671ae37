//! The lines of a trace, one after the other.

ghost use Rattle.std.specs.Prelude.{◌≡◌, ◌++◌, ◌∷◌, [], codes, length, take, OnOk, OnErr};
ghost use Rattle.dv_bag.specs.declared.entry.What.TheVariants as what;
ghost use Rattle.dv_time.specs.Time.{time_text};
ghost use Rattle.dv_lines.specs.Components.{words_found};
ghost use Rattle.dv_lines.specs.Words.{line_words, port_words, word_text};

use crate::line::{ComponentWords, FaultLine, OutFront, OutPort, TransitionLine};
use crate::pieces::Word;
use crate::stamp::Stamp;
use dv_bag::{Bag, Fault, Kind, Sent, State};
use dv_time::Time;
use dv_written::{Ready, Room};
use std::alloc::{AllocError, Global};
use std::marker::Model;

/// Lines, one after the other, as bytes. The text of a time is made once for all lines in a row
/// that have this time.
#[derive(Drop)]
pub struct Lines {
    room: Room,
    stamp: Stamp,
}

impl Model for Lines {
    ghost use Rattle.std.specs.Prelude.{ℕ, List};

    ghost Value = { List ℕ };

    ghost view = { λ l. l.room };
}

impl Lines {
    /// No lines. It takes no memory.
    pub fn new(alloc: Global) -> Self
        ensures { result ≡ [] }
    {
        Lines {
            room: Room::new(alloc),
            stamp: Stamp::of(Time::ZERO),
        }
    }

    /// The number of bytes.
    pub fn len(&self) -> usize
        ensures { result ≡ length self.now }
    {
        self.room.len()
    }

    /// The bytes.
    pub fn as_bytes(&self) -> &[u8]
        ensures { result.now ≡ self.now }
    {
        self.room.as_bytes()
    }

    /// Removes all bytes. The memory is kept.
    pub fn clear(&mut self)
        ensures { self.new ≡ [] }
    {
        self.room.clear();
    }

    /// Keeps the first `mark` bytes, or all if there are fewer.
    pub fn cut(&mut self, mark: usize)
        ensures { self.new ≡ take mark self.old }
    {
        self.room.cut(mark);
    }

    /// Appends the line of a transition, with the state after it and what the component sent.
    ///
    /// # Errors
    ///
    /// No memory for it. The lines are as before.
    #[inline(always)]
    pub fn transition(
        &mut self,
        words: &ComponentWords,
        now: Time,
        kind: Kind,
        state: &State,
        sent: &Sent,
    ) -> Result<(), AllocError>
        ensures ok { OnOk result (self.new ≡ self.old
            ++ line_words (words_found words.now) now (what.Transition kind state.now) sent.now) }
        ensures err { OnErr result (self.new ≡ self.old) }
    {
        let line = TransitionLine {
            words: *words,
            stamp: self.stamp.at(now),
            kind,
            state,
            sent,
        };
        self.room.append(&line)
    }

    /// Appends the line of a fault, with what the component sent.
    ///
    /// # Errors
    ///
    /// No memory for it. The lines are as before.
    pub fn faulted(
        &mut self,
        words: &ComponentWords,
        now: Time,
        fault: Fault,
        sent: &Sent,
    ) -> Result<(), AllocError>
        ensures ok { OnOk result (self.new ≡ self.old
            ++ line_words (words_found words.now) now (what.Fault fault) sent.now) }
        ensures err { OnErr result (self.new ≡ self.old) }
    {
        let line = FaultLine {
            words: *words,
            stamp: self.stamp.at(now),
            fault,
            sent,
        };
        self.room.append(&line)
    }

    /// Appends the front of an output line. Each port follows by `left`, and then the end by
    /// `end_left`.
    ///
    /// # Errors
    ///
    /// No memory for it. The lines are as before.
    pub fn begin_left(&mut self, now: Time) -> Result<(), AllocError>
        ensures ok { OnOk result (self.new ≡ self.old ++ (time_text now ++ codes " out")) }
        ensures err { OnErr result (self.new ≡ self.old) }
    {
        let front = OutFront {
            stamp: self.stamp.at(now),
        };
        self.room.append(&front)
    }

    /// Appends what left at a port, if there are values.
    ///
    /// # Errors
    ///
    /// No memory for it. The lines are as before.
    pub fn left(&mut self, bytes: &[u8], word: &Word, values: &Bag) -> Result<(), AllocError>
        ensures ok { OnOk result (self.new ≡ self.old
            ++ port_words (word_text bytes.now word.now) values.now) }
        ensures err { OnErr result (self.new ≡ self.old) }
    {
        let port = OutPort {
            bytes,
            word,
            values,
        };
        self.room.append(&port)
    }

    /// Appends a line that was made before, with its end.
    ///
    /// # Errors
    ///
    /// No memory for it. The lines are as before.
    #[inline]
    pub fn put(&mut self, line: &[u8]) -> Result<(), AllocError>
        ensures ok { OnOk result (self.new ≡ self.old ++ line.now) }
        ensures err { OnErr result (self.new ≡ self.old) }
    {
        self.room.append(&Ready { text: line })
    }

    /// Appends the end of an output line.
    ///
    /// # Errors
    ///
    /// No memory for it. The lines are as before.
    pub fn end_left(&mut self) -> Result<(), AllocError>
        ensures ok { OnOk result (self.new ≡ self.old ++ 10 ∷ []) }
        ensures err { OnErr result (self.new ≡ self.old) }
    {
        self.room.append(&Ready { text: b"\n" })
    }
}
