//! The values of a run: what models hold, send and receive, and what a trace says of them.
//!
//! A `Bag` is a multiset of numbers: a list of different values in ascending order, each with its
//! number of copies, so that two bags are equal if and only if their lists are. A `Queue` is a
//! list. A `State` has a phase and the variables of a component, an `Effect` is the result of a
//! rule, `Sent` is what an output function sends, `Arrivals` is what arrived, and a `Part` has
//! entries of a trace. Laws say that bags under union are a commutative monoid, and that a time
//! cuts a part into two that join to it.
//!
//! The formalism (`dv_devs`), the trees (`dv_syntax`), the programs (`dv_code`) and all crates
//! above them use these types. Ports, variables and phases are numbers here; their names, the rules
//! and the ranges of variables are not known.
#![tactic(auto)]

/// Arithmetic of the language.
pub mod arithmetic;
/// What an instant brings to an atomic model.
pub mod arrivals;
/// Bags of values.
pub mod bag;
/// Bags by port.
pub mod bags;
/// Bags and queues that states hold.
pub mod collection;
/// How collections keep their values, and what changes them.
pub mod discipline;
/// The entries of a trace.
pub mod entry;
/// Faults.
pub mod fault;
/// Inputs from outside.
pub mod inputs;
/// What the variables of states were.
pub mod kept;
/// Laws of bags and of parts of a trace.
pub mod laws;
/// Tests of limits.
pub mod limits;
/// Two bags merged.
mod merge;
/// Parts of a trace.
pub mod part;
/// An insertion into a list.
mod put;
/// Queues of values.
pub mod queue;
/// The lookahead of an atomic model.
pub mod response;
/// What a component sends.
pub mod sent;
/// States, and what a rule does to them.
pub mod state;
/// What an expression gives.
pub mod value;

pub use arrivals::Arrivals;
pub use bag::Bag;
pub use bags::{Bags, PortBag};
pub use collection::{Collection, Held};
pub use discipline::{Change, Discipline};
pub use entry::{Entry, Kind, NoKind, Outer, What};
pub use fault::{Fault, NoFault, RuleError};
pub use inputs::{Input, Inputs};
pub use kept::KeptVariables;
pub use part::{Part, Trace};
pub use queue::Queue;
pub use response::Response;
pub use sent::Sent;
pub use state::{Datum, DatumView, Effect, State, Variables};
pub use value::{Value, ValueType};

/// The most values that are sent in one output, arrive at one port at one instant, or are in a
/// collection of a state.
pub const GREATEST_COUNT: u64 = 4096;

/// The number of values for which a bag or a queue of a state takes memory at once, if its capacity
/// is as large: 1,024 bytes for a bag, 512 for a queue. Beyond that it grows by doubling.
pub const ROOM_AT_ONCE: u64 = 64;
