//! Only tests: the components of a text by their programs (`dv_coded`).
//!
//! In a text of two clocks with a lamp between them, components of one model share its programs,
//! each starts as the text says, and a clock sends, counts and holds as its rules say. The expected
//! numbers and holds are constants in the tests.
//!
//! The tests are in a crate of their own, since a crate with tests is proved a second time with
//! them.
#![tactic(auto)]

/// A text of clocks.
#[cfg(test)]
mod clocks;
