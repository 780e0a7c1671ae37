//! Only tests: lists of instructions for the validator (`dv_valid`).
//!
//! It accepts each list that is a program, and no other. The expected answers come from a slow
//! decision in `decision`, which is written from the definition: for the programs of models, for
//! those with another instruction at an address, for all lists of up to three of sixteen
//! instructions, and for random lists. For a few lists the answer was worked out by hand. Random
//! lists that are programs are run, and end well or with a fault.
//!
//! The tests are in a crate of their own, since a crate with tests is proved a second time with
//! them.
#![tactic(auto)]

/// The slow decision whether instructions are a program.
#[cfg(test)]
mod decision;
/// Lists whose answers are known.
#[cfg(test)]
mod known_lists;
/// The programs of the texts, and such with another instruction at an address.
#[cfg(test)]
mod programs;
/// Random lists, and runs of those that are programs.
#[cfg(test)]
mod random_lists;
/// Each short list over a small set.
#[cfg(test)]
mod short_lists;
/// What the validator takes, beside the slow decision.
#[cfg(test)]
mod taken;
