//! Explains where the faults of a run came from.
//!
//! A `FaultWriter` takes the bytes of a trace while the run prints them. For a fault it repeats the
//! transition of the component by the rules of the source, from the state before it, up to the
//! statement that has the fault. It reports the line of this statement, the values there and what
//! the fault means. The states of components are read from their lines; what arrived follows from
//! the links. The first faults are explained and the others counted, and the memory does not grow
//! with the trace.
//!
//! `dv_views` calls it for `run --explain`. Nothing is proved about the explanations except that
//! making them never panics; the trace itself does not change.
#![tactic(auto)]

/// A component with its atomic model.
mod atom;
/// Sentences on the faults of statements and holds.
mod case;
/// Components between two instants.
mod component;
/// Follows a run by the lines of its trace.
mod follower;
/// Sentences on the operation that has a fault.
mod operation;
/// The reaction of one component at one instant.
mod reaction;
/// What expressions read.
mod reads;
/// The search for the statement that has a fault.
mod search;
/// Why a reaction ends early.
mod stop;
/// The paragraphs on faults.
pub mod paragraphs;
/// Values as text.
mod values;
/// The interface: a writer that takes the trace of a run.
pub mod writer;

pub use paragraphs::FileText;
pub use writer::FaultWriter;
