//! The resultant of a checked text, and the plain run that computes it.
//!
//! The definitions make a behaviour of the tree of each atomic model, and a network of the file.
//! The trace of a text is the run of that network. `resultant_run` computes the whole trace in
//! memory: it visits every component at every instant, evaluates rules on trees, and routes values
//! from level to level. It is proved that its result is the trace of the text.
//!
//! This is the slow and simple way to run a model. Tests compare the run in processes with it, and
//! `dv_job` offers it as `run_plain`; the program runs no model with it. The claims of
//! `law_compiled`, `law_sound`, `dv_run` and `dv_job` use its definitions.
#![tactic(auto)]

/// The plain run.
pub mod run;

/// Laws of the networks of texts.
pub mod laws;

/// The behaviour of an atomic model, by the trees of its rules.
mod atom;

/// What comes in from outside.
mod input;

/// All components at one instant.
mod network;

pub use run::resultant_run;
