//! The components of one process, behind the trait `Local` of `dv_proc`.
//!
//! A `LocalRun` has the share of a process, its components, the agenda (when their holds end), the
//! inbox (events from other processes, by time) and the record. To commit an instant, it visits
//! each component that emitted something or receives a value, in the order of their indices. The
//! component reacts in place, and the record is told at once what happened. So no list of entries
//! or of next components is made, and if there are several processes, each line is made by the
//! process that commits it, on its own thread. Visits are counted, and `Components` lets nobody
//! look at a component but the one visited last, so the count bounds how many components are looked
//! at. No call lowers it.
//!
//! A turn that runs out of memory is taken back whole, but for the count of visits. Before a
//! component reacts it is copied to the undo log (`Former`). `roll_back` puts the copies back, the
//! last one first, and lets the record take back what it was told, without memory. What was
//! committed is settled after each successful turn. Then the copies are discarded, and the arrivals
//! of the committed time are removed from the inbox; before that they are only left out.
//!
//! Lists that are filled at each instant keep their memory: the indices of imminent components,
//! what they emitted, deliveries, and the bags by index. The lists of what was emitted and of the
//! log have room for all components from the start, or for 1,024 if there are more. The log keeps
//! the copies of each model apart (`Copies`), so that the memory of a copy, with its bags and
//! queues, is used again for a component of the same model. So after a while an instant takes
//! memory for its entries alone.
//!
//! `dv_plan` begins such runs for the processes of a plan, and `dv_stream` runs them. `dv_proc`
//! decides when an instant may be committed.
#![tactic(auto)]

mod arriving;

/// A process as its run begins.
pub mod beginning;
mod by_time;
mod commit;

/// The components, with a count of visits.
pub mod components;
mod copies;
mod emission;

/// What components emitted.
pub mod emitted;
mod events;

/// The undo log of components.
pub mod former;

/// Events from other processes, by time.
pub mod inbox;

/// The implementation of `Local`.
pub mod local_run;
mod moment;

/// The lists of an instant.
pub mod scratch;

/// The share of a process.
pub mod share;

/// The components of a process with all that changes in a run.
pub mod state;

/// How changes are taken back.
pub mod undo;
mod waiting;

pub use beginning::begin;
pub use components::Components;
pub use emitted::Emitted;
pub use former::Former;
pub use inbox::Inbox;
pub use local_run::LocalRun;
pub use scratch::Scratch;
pub use share::{Share, Way};
pub use state::LocalState;
pub use undo::Undo;
