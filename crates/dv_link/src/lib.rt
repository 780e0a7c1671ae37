//! A link between two logical processes that may run on different threads: a bounded queue of
//! packets.
//!
//! Threads share a `Link` by reference. Only the owner of the `SendPass` can put packets on it, and
//! only the owner of the `TakePass` can take them. What was taken and what is queued is what was
//! put, in that order. The contract of `take` says of all packets that were taken: they are true on
//! the channel of this link, and each window begins where the one before it ends.
//!
//! No call waits: a full link returns the packet (`Full`), an empty one returns `None`, and neither
//! wakes a thread. Workers wait at the bells of `dv_work`, which has a link for each channel of its
//! job. In a world on one thread (`dv_core`) links are lists, and this crate is not used.
#![tactic(auto)]

/// A link and its two passes.
pub mod link;
/// The rule of a link's queue.
mod rule;

pub use link::{Full, Link, SendPass, TakePass};
pub use rule::EndView;
