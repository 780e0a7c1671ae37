//! The lines of a trace, made as bytes.
//!
//! The process that commits an entry makes its line at once, on its own thread. `TextRecord` is the
//! record of a process that is alone: it keeps the text of the trace, and nothing else.
//! `WrittenRecord`, one for each of several processes, keeps each entry as its line. `TraceWriter`
//! writes merged parts, for which it only copies lines. Each line is the one that `dv_text`
//! defines. `dv_stream` decides when something is written.
//!
//! A line is made of words. `Words` has the path, phases, state variables and outputs of each
//! component as bytes, each with the signs around it, as ` PATH ` and ` NAME=`. They are laid out
//! once, in one vector that all records share; components of one model share its words. A phase and
//! the name of the first variable, which mostly stand side by side, are one word. A word of at most
//! 16 bytes holds them itself too, as its head, and is put in one step. A text asks for some room
//! behind it, so that one test serves several words. A `Stamp` keeps the text of a time for all
//! lines of that time; the next time mostly renews its last digits alone.
//!
//! Lines are put into a `Room` of `dv_written`, one after the other: that of the text of a process
//! that is alone, or that of a part of the trace. A line is made where it stays.
#![tactic(auto)]

/// Bytes and words.
mod pieces;

/// Numbers.
mod numbers;

/// Values, state variables, and what was sent.
mod values;

/// Records that know of faults.
mod faults;

/// Output lines.
mod leaving;

/// The texts of lines.
mod line;

/// Lines, one after the other.
mod lines;

/// Laws of the text of a part that grows.
pub mod laws;

/// A time with its text.
mod stamp;

/// A record that keeps the text of a trace.
mod text_record;

/// The lines of entries, by the words of a tree.
mod told;

/// Writes a trace, part by part.
mod trace_writer;

/// The words of a tree, and the lines of entries by them.
mod tree_words;

/// The words of all components of a tree.
mod words;

/// A part of a trace as written entries.
mod written_part;

/// A record that keeps entries as lines.
mod written_record;

pub use faults::KnowsFaults;
pub use leaving::all_left;
pub use line::ComponentWords;
pub use lines::Lines;
pub use numbers::{put_digits, put_number};
pub use pieces::{Word, put_byte, put_word};
pub use text_record::TextRecord;
pub use told::{faulted, transition};
pub use trace_writer::{TraceWriter, write_trace};
pub use tree_words::TreeWords;
pub use words::Words;
pub use written_record::{WrittenRecord, WrittenRecords};
