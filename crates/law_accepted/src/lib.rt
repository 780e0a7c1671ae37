//! Laws of accepted texts: what the checks guarantee for every run.
//!
//! States of an accepted model stay in its phases, in the ranges of its variables, and within the
//! capacities of its bags and queues. No name is ever unknown, no value is of a wrong type, and
//! what a rule sends is a list of bags. There are also worked rows: small files that are accepted,
//! or refused with one number.
//!
//! Nothing here runs: each function states a law of the definitions of `dv_check` and `dv_eval`.
//! `dv_gen`, `dv_bound`, `law_compiled`, `law_sound` and `dv_coded` use them. Rules of accepted
//! models may still have faults.
#![tactic(auto)]

/// Laws of every accepted model.
pub mod laws;

/// Files that are accepted or refused.
pub mod rows;
