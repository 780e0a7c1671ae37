//! Only tests: two processes without components in a ring, which exchange null messages in a world
//! of `dv_core`.
//!
//! Nothing is sent, so only promises move the clocks. The tests show how many rounds such a ring
//! takes, that a larger response saves rounds, that packets go from process to process step by
//! step, and which answer a step has if several apply. The expected rounds, clocks and answers are
//! constants in the tests: the first test has one more round than there are times.
//!
//! The two processes and their job implement the traits of `dv_proc` and `dv_core` by code of their
//! own, so that these traits have an implementation that is not a model of a text.
#![tactic(auto)]

/// No components.
pub mod silent;

/// The job that the two processes run.
pub mod job;

/// The world of them.
pub mod ring;

/// Null messages between the two.
#[cfg(test)]
mod tests;
