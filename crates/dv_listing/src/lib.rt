//! The listing of a text: the programs of its atomic models, for people who want to see what rules
//! are compiled to.
//!
//! `write_listing` prints one model after the other: what it declares, each name with its number,
//! and then the program of each rule and hold, instruction by instruction. The bytes are the
//! listing that `specs/` defines, with the programs of `dv_gen`. After a failed write the writer
//! has received a beginning of it, but not all.
//!
//! `dv_job` calls it for `pdevs code`. A listing is for people: nothing reads it back, and no run
//! depends on it.
#![tactic(auto)]

/// The lines of a listing.
mod lines;
/// The listing of a text, written to a writer.
pub mod listing;

pub use listing::write_listing;
