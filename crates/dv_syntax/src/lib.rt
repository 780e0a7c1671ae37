//! The syntax of model texts: the trees, and in `specs/` the grammar.
//!
//! A `File` has the models of a text in their order, and each model its items sorted by kind. Trees
//! keep parentheses and the offset of each node, so that a refusal can name it. The grammar is a
//! spelling: it says which tokens a file has.
//!
//! `dv_source` says which files a list of tokens can stand for. `dv_parser` and `dv_expand` make
//! these trees, `dv_check` tests them, and `dv_eval`, `dv_gen`, `dv_bound` and the views read them.
//! Nothing here reads tokens or tests a rule of the language: a tree may name something that is not
//! declared.
#![tactic(auto)]

/// Laws of trees.
pub mod laws;
/// The trees.
pub mod tree;

pub use tree::{
    Atomic, BagCall, Block, Bound, Command, Coupled, Declaration, End, Expr, File, Flag, Hold,
    Link, Model, Name, Number, Operator, OperatorClass, Part, Phases, Prefix, Rule, RuleSort,
    Start, StateCollection, Stmt, Ticks, Variable, Version,
};
