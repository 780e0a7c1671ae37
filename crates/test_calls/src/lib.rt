//! Only tests: calls of the lower crates with ample memory, one module a crate, for what no row of
//! a text can show.
//!
//! They show that the calls succeed if there is memory, that they refuse what they should, and that
//! the definitions say what is meant: times, bags and queues, inputs by time, tokens, graphs, links
//! between processes, agendas and responses. The expected values are constants in the tests. No
//! contract says that a call does not answer `Memory` without reason, so that is tested here.
//!
//! The tests are not in the crates themselves, since a crate with tests is proved a second time
//! with them.
#![tactic(auto)]

/// What a process waits for, and what came.
#[cfg(test)]
mod agendas;
/// Bags, what is sent, states and parts of a trace.
#[cfg(test)]
mod bags;
/// Compares what calls give with what is wanted.
#[cfg(test)]
mod compare;
/// Links between processes.
#[cfg(test)]
mod cuts;
/// Graphs and their components.
#[cfg(test)]
mod graphs;
/// Inputs by time.
#[cfg(test)]
mod inputs;
/// Queues, and those that states hold.
#[cfg(test)]
mod queues;
/// Models and their responses, and holds.
#[cfg(test)]
mod responses;
/// Times and their order.
#[cfg(test)]
mod times;
/// Tokens, names and lines.
#[cfg(test)]
mod tokens;
