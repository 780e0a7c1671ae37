//! Records of what happens in a run: the trait `Record`, and a record that keeps a part of a trace.
//!
//! A process tells its record, at each instant, what each component did and then what left the
//! model. `roll_back` takes back all that was told since the last `settle`. Neither of these two
//! can fail, so a process that is refused memory in the middle of an instant can undo it.
//! `PartRecord` keeps the entries and output lines that it was told, in that order, as a part of a
//! trace. The records of `dv_lines` keep them as lines of text.
//!
//! Processes (`dv_share`, `dv_local`, `dv_proc`, `dv_core`) commit into a record of any type. A
//! record sorts nothing and writes to no file.
#![tactic(auto)]

/// What was told, as ghost data for contracts.
pub mod history;
/// A record that keeps a part of a trace.
pub mod parts;
/// The trait of a record.
pub mod records;

pub use history::History;
pub use parts::{PartRecord, parts_of, push_lines};
pub use records::{BlankRecord, Record};
