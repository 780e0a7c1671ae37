//! Warnings: probable mistakes in a model that is accepted.
//!
//! `find_warnings` looks for names that nothing uses, phases that nothing reaches or that time does
//! not leave, rules that never run, values that are lost, statements behind a `goto`, numbers
//! outside of their ranges, and divisors that may be 0. Each `Warning` comes with the offset of the
//! token to which it belongs; of those that say the same of several models or parts the first one is
//! told, with how many more there are. `write_warnings` prints them in the order of the text, one a line.
//!
//! `dv_views` calls it for `check --warn`. It is proved that these calls are safe and return, and
//! nothing about the warnings themselves: a model without warnings may have mistakes, and a model
//! with some may be right.
#![tactic(auto)]

/// Warnings that say the same of several copies of a model or of a part.
pub mod alike;
/// An atomic model, with what is known of it.
mod atomic;
/// The values of expressions without names.
mod constants;
/// Warnings about divisors that may be 0.
mod divisors;
/// Finds the warnings of a model.
pub mod find;
/// The list of the warnings found so far.
mod findings;
/// Warnings about statements behind a `goto`.
mod gotos;
/// Which ports have links.
mod links;
/// What rules and holds do with names.
mod mentions;
/// Warnings about models that the root does not lead to.
mod models;
/// Warnings about unused names of an atomic model.
mod names;
/// Warnings about parts and about ports of coupled models.
mod parts;
/// The phases of an atomic model, with their holds and rules.
mod phases;
/// Warnings about numbers outside of the range of a variable.
mod ranges;
/// Which phases can be reached.
mod reach;
/// Warnings about phases of hold 0 that lead to one another and to no others.
mod rounds;
/// Warnings about phases and rules.
mod rules;
/// The statements of a rule as a list.
mod statements;
/// Writes warnings as lines.
pub mod text;
/// The warnings and their sentences.
pub mod warning;

pub use alike::Told;
pub use find::find_warnings;
pub use text::write_warnings;
pub use warning::{Direction, Found, NeverRuns, StateSort, Warning};
