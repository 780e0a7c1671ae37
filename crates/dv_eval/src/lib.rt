//! The meaning of expressions, rules and holds, on trees.
//!
//! A `Scope` has the names that an atomic model declares, and a `Moment` everything else that an
//! expression may read: the state, what arrived, and the variables of the loops around it. `eval`
//! gives the value of an expression or its fault, `run_rule` the effect of a rule or its first
//! fault, and `hold` the ticks of a hold. The definitions of `specs/` say exactly what these are.
//! The meaning is total: in a text that was not checked, an unknown name counts as 0.
//!
//! `dv_plain` runs models by this meaning; `dv_gen` proves its programs against it, and `dv_bound`
//! its lower bound on holds. `dv_check` evaluates the hold of the start phase, and `dv_fault` runs
//! a rule again. A run in processes uses programs instead.
#![tactic(auto)]

/// The collections that names denote.
mod collection;
/// The values of expressions.
pub mod expression;
/// Laws of rules and holds.
pub mod laws;
/// The start, the rules and the holds of an atomic model.
pub mod model;
/// The names of one kind that an atomic model declares.
mod name_list;
/// What an expression can read.
pub mod moment;
/// The effects of rules.
pub mod rule;
/// What the names of an atomic model denote.
pub mod scope;
/// The variables, flags, bags and queues that an atomic model declares.
mod variable_list;

pub use expression::eval;
pub use model::{hold, phase_hold, phase_ticks, rule_body, rule_of, start_state};
pub use moment::{Context, Moment};
pub use rule::{loop_values, run_rule, run_statement};
pub use scope::{Domain, Scope, VariableRange, state_variable_of};
