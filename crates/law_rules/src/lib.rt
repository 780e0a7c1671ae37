//! Laws that join processes by programs and processes by rules.
//!
//! The processes of a run work with the programs of a text. These laws say the same of the rules
//! that the text has: a run of processes by programs is a run of the same processes by rules, step
//! by step. So what is claimed of a run speaks of rules alone.
//!
//! Nothing here runs: each function states a law. `dv_run` uses them.
#![tactic(auto)]

/// Runs by programs and by rules.
pub mod laws;
