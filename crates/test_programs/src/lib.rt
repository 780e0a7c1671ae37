//! Only tests: what programs do on the machine of `dv_code`.
//!
//! A few runs end as was worked out by hand. The programs of models, and of thousands of random
//! rules and holds, are compared with the trees that they were made from, run by `eval` and
//! `run_rule` of `dv_eval`, from some states and with some arrivals: both have the same effect, the
//! same number or the same fault.
//!
//! The tests are in a crate of their own, since a crate with tests is proved a second time with
//! them.
#![tactic(auto)]

/// A program beside the tree that it was made from.
#[cfg(test)]
mod beside;
/// Runs that were worked out by hand.
#[cfg(test)]
mod machine;
/// The texts of random rules and holds.
#[cfg(test)]
mod rule_texts;
/// Rules and holds beside their programs.
#[cfg(test)]
mod rules;
