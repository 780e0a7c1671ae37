//! Hints on a refused model: why exactly it is refused, and what to write instead.
//!
//! A refusal is a number and an offset in the text. `hint_on` looks at that offset again, in the
//! tokens or the syntax tree and with the names that are declared there, and returns a `Cause` of
//! `dv_explain`: a summary in one line, and sentences that help. `unknown_name` finds the names
//! that are similar to an unknown one.
//!
//! `dv_cause` prints these causes for `--explain`, and `dv_views` uses `unknown_name`. Whether a
//! text is refused, and with which number, is decided in `dv_check` and the crates below it.
//! Nothing is proved about hints except that making them never panics.
#![tactic(auto)]

/// From a refusal to its cause: the main function of the crate.
pub mod hint;

/// The rule or hold, and the loops, that enclose a statement or an expression.
mod around;

/// Causes from what can be displayed.
mod causes;

/// Causes at the ends of links.
mod ends;

/// The search in the expressions of rules and holds.
mod expressions;

/// The names that an atomic model declares.
mod known;

/// Lists of names, in words.
mod lists;

/// Items that are missing or written twice.
mod missing;

/// The models of a text.
mod models;

/// Names that are similar to an unknown one.
pub mod near;

/// What is wrong at an offset of an atomic model.
mod reason;

/// Texts with their syntax trees.
mod reading;

/// Names and links that are written twice.
mod repeats;

/// The root, and limits on size.
mod roots;

/// How large the tree of the root is.
mod sizes;

/// The kinds of names and rules, in words.
mod sorts;

/// Ranges and start values, and the hold of the start phase.
mod starts;

/// The search in the statements of rules.
mod statements;

/// What uses the value of an expression.
mod taker;

/// The kinds of names that a place takes.
mod wanted;

/// The causes at an offset of an atomic model, in words.
mod words;

pub use hint::hint_on;
pub use lists::WantedSentence;
pub use near::unknown_name;
