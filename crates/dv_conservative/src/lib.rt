//! The theory of conservative execution: a flat model that is run by logical processes that
//! exchange packets.
//!
//! The definitions in `specs/` say what a flat model and the share of a process are, what a packet
//! and a promise mean, what a turn may do, and what may happen in a world of processes. Two laws
//! carry the rest. Locality: a set of components that receives what truly crosses to it runs by
//! itself as it runs in the whole, and commits its part of the trace. Promise: what a process
//! promises is settled, for everything that it may still receive. A third law bounds the rounds
//! that bring all clocks to the end.
//!
//! Nothing here runs: each function states a law of the definitions. They hold for behaviours that
//! are any functions, so texts and rules do not occur. `dv_share`, `dv_proc` and `dv_core` have the
//! code, and `dv_link`, `dv_board` and `dv_work` that on threads; `law_sound` says that every
//! accepted text is such a job.
#![tactic(auto)]

/// What links carry, and the bags that it makes.
pub mod links;

/// Events in the order in which packets carry them.
pub mod events;

/// The run of a share and the whole run.
pub mod locality;

/// How long it is known what a process sends.
pub mod promise;

/// What a process knows of what it sends.
pub mod process;

/// The start of the process of a share.
pub mod shares;

/// All runs of processes that exchange packets.
pub mod world;

/// Shares that run alike.
pub mod alike;

/// How many rounds are enough.
pub mod rounds;

/// What a turn may do and must do.
pub mod turn;

/// The links between processes.
pub mod channels;

/// The definitions, computed for small models.
pub mod rows;
