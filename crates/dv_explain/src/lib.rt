//! The words that explain refusals and faults, and the line of a text with a mark below it.
//!
//! An `Explanation` says what a code (such as E7, I2, Q1 or `overflow`) means, how to avoid it, and
//! has a small model as an example. `explanation_of` finds one by its code; it is proved that every
//! code has one. `pointed` prints the line of a text with a mark and a `Cause`. For E4,
//! `unexpected_at` says which token was met and what may be there instead, by a grammar of its own
//! that keeps what is still expected.
//!
//! `dv_command` and the program print explanations for `pdevs explain`; `dv_hints`, `dv_cause` and
//! `dv_fault` use them for `--explain`. Causes that need more than the tokens of a text are found
//! in `dv_hints`.
#![tactic(auto)]

/// The cause of one refusal, in words.
pub mod cause;
/// What a text may go on with at an offset.
pub mod expectations;
/// Explanations, found by their codes.
pub mod explanation;
/// Words of other languages.
mod foreign;
/// The grammar, as the parts that are still expected at an offset.
pub mod grammar;
/// The token at an offset, in words.
pub mod met;
/// Which limit on nesting is exceeded.
pub mod nesting;
/// The line of a text with a mark under an offset, and the cause.
pub mod pointing;
/// Lines and columns.
pub mod position;
/// Names as they are displayed.
pub mod quoted;
/// Signs and habits of other languages.
pub mod slips;
/// Characters with which no token begins.
pub mod stray;
/// The text of an explanation.
pub mod text;
/// Tokens that the grammar does not allow where they are.
pub mod unexpected;
/// Invisible characters and their names.
pub mod unseen;
/// The words of the explanations.
pub mod words;

pub use cause::Cause;
pub use explanation::{Example, Explanation, explanation_in_any_case, explanation_of};
pub use nesting::nesting_at;
pub use pointing::{Spot, pointed};
pub use position::Position;
pub use quoted::Quoted;
pub use stray::stray_at;
pub use text::explanation_text;
pub use unexpected::unexpected_at;
pub use words::{faults, input_refusals, partition_refusals, refusals};
