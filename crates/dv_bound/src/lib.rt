//! The lookahead of an atomic model: a lower bound on the holds that an external rule begins.
//!
//! `response` reads the rules and holds of a model once and gives a `Response`: a number of ticks,
//! or never. It is proved that when an external rule goes to a phase, from any state that fits and
//! with any arrivals, the hold that begins there does not end sooner. Holds are estimated from
//! below, and an unknown value counts as the least number.
//!
//! `dv_coded` takes the response of each model from here, and `dv_run` the least one of each
//! process. A process uses it for the promise of what it will not send yet. A response that is too
//! small costs null messages, but the trace stays right.
#![tactic(auto)]

/// Laws of responses.
pub mod laws;
/// The response of a model.
pub mod lookahead;
/// A lower bound of an expression.
mod low;
/// Responses by the names of phases.
mod phase_responses;
/// Worked rows.
pub mod rows;

pub use lookahead::response;
