//! Entries of a trace that are kept as the lines that they print.
//!
//! The process that commits an entry makes its line, so the writer of the trace only copies bytes.
//! A `WrittenEntry` has the time and the component of an entry, whether it is a fault, and how many
//! bytes its line has. Contracts read it as the entry. A `WrittenPart` has entries with their lines
//! in one text, and the output lines as data; it is joined and cut like any part of a trace.
//! `HandsOver` is a record out of which such parts are moved while the run goes on. `OfJob` is a job
//! as a type: parts, links and workers of the same type are of the same job.
//!
//! The text of a part is a `Room`, into which each line is put where it stays. A line is a `Text`,
//! which puts itself into the free part of the room if it fits there. If it does not, the room is
//! doubled, and the text is put again. So no line is measured before, and most lines ask for no
//! memory.
//!
//! Processes, boards and merges pass these parts on to the writer. The lines are made in
//! `dv_lines`.
#![tactic(auto)]

/// An entry with the length of its line.
pub mod entry;
/// Records out of which parts are moved.
pub mod hands_over;
/// A job as a type, for contracts.
pub mod job;
/// How records are made.
pub mod makes;
/// Parts of written entries.
pub mod part;
/// A room that grows.
pub mod room;
/// An entry as ghost data, for contracts.
mod told;

pub use entry::WrittenEntry;
pub use hands_over::HandsOver;
pub use job::OfJob;
pub use makes::{Blanks, MakesRecord};
pub use part::WrittenPart;
pub use room::{Ready, Room, Text, put_bytes, put_few_bytes};
