//! The parser: from tokens to sources.
//!
//! `parse` gives the `SourceFile` that the tokens spell, or their refusal: E4 if the tokens so far
//! begin no file, E5 if they begin one that is nested too deeply. Laws say that no list of tokens
//! spells two files, and that each spells one or is refused. The parser is a recursive descent with
//! one function for each form; operators are read by their rank.
//!
//! `dv_job` parses the text of a model, and `dv_hints` parses a refused text again to find what is
//! near; `dv_expand` makes a file of what was read. No name is looked up and no type is tested here:
//! that is `dv_check`. `law_dead_ends` has the law that a refusal names the first token after which
//! the tokens begin no file.
#![tactic(auto)]

/// A whole file, where parsing begins.
pub mod file;
/// Laws of the grammar and its refusals.
pub mod laws;

/// Atomic models and their items.
mod atomic;
/// Coupled models and their items.
mod coupled;
/// Expressions, by the ranks of operators.
mod expression;
/// Limits on depth.
mod limits;
/// Why tokens can't be read.
mod parse_error;
/// Statements and blocks.
mod statement;
/// Single tokens.
mod token;

pub use file::parse;
