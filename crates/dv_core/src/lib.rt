//! The world of logical processes, and the driver that runs them in rounds on one thread.
//!
//! A `World` has the processes of a job and the links between them, with the packets on their way.
//! A `Step` is a turn of a process, a packet put on a link or taken from it, or a process stopped.
//! Steps may come in any order. After each of them every packet is true, each process has committed
//! its part of the trace before its clock, and no packet on its way will be refused. A round is a
//! turn of each process, then a put and a take on each link. If links have room for a packet, one
//! round more than there are times before the end brings every clock to the end, unless memory runs
//! out.
//!
//! `LogicalProcess` and `PlannedJob` are the traits of processes and jobs. `dv_plan` makes a world
//! of a plan, `dv_stream` runs its rounds, and `dv_work` runs the same processes on threads.
//! Nothing in this crate starts a thread or writes a trace.
#![tactic(auto)]

/// The traits of a world's processes and of their job.
pub mod process;

/// `Process` of `dv_proc` as a process of a world.
pub mod conservative;

/// The steps of a world, and their replies.
pub mod step;

/// The state of a world, and what steps do to it.
pub mod state;

/// Logical processes, the links between them, and their steps.
pub mod world;

/// Runs whose turns make progress.
pub mod runs;

/// Processes whose records keep what they committed as parts of a trace.
pub mod parts;

pub use parts::{committed, into_part, into_parts};
pub use process::{LogicalProcess, PlannedJob, ProcessHandsOver};
pub use state::WorldState;
pub use step::{Ended, Reply, Step};
pub use world::World;
