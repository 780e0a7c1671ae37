//! One logical process of a conservative parallel simulation.
//!
//! A `Process` has its components, its incoming and outgoing links, and a clock: all instants
//! before it are committed. A turn commits the instant at the clock, moves the clock as far as the
//! received packets allow, lets the components emit there, and prepares for each free link a packet
//! or a null message up to the promise. Whatever packets a process accepted, what it committed is
//! its local run before its clock, and each turn makes progress. A packet is refused exactly if its
//! link is unknown, its window is not the next one, an event does not belong there, or memory runs
//! out. A refused packet changes nothing.
//!
//! The components are behind the trait `Local`, which `dv_local` implements. `dv_core` makes a
//! world of processes, and `dv_work` runs them on threads. In this crate there are neither threads
//! nor queues: the caller puts packets in and takes them out.
#![tactic(auto)]

/// How the clock of a process moves.
pub mod advance;

/// Links between processes.
pub mod channel;

/// The links that lead here.
pub mod incoming;

/// What a process asks of its components.
pub mod local;

/// The links that lead away.
pub mod outgoing;

/// Events, and the packets that carry them.
pub mod packet;

/// What was received on a link, kept for contracts alone.
pub mod packet_history;

/// One logical process.
pub mod process;

/// Until when it is known what a process sends.
pub mod promise;

/// The frame of a run, and the tests of a packet that arrives.
pub mod window;

pub use channel::Channel;
pub use incoming::{Incoming, Refused};
pub use local::{Local, LocalHandsOver};
pub use outgoing::Outgoing;
pub use packet::{Event, Packet};
pub use packet_history::PacketHistory;
pub use process::{Process, Turned};
pub use window::Frame;
