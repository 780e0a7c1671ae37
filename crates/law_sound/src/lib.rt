//! Laws that join texts and processes: an accepted text is a flat model that may run in logical
//! processes.
//!
//! The components of an accepted text are sound: their holds are not below their responses, and
//! their numbers are numbers of the language. For any partition, what a process commits is its
//! components' part of the text's trace; what leaves all processes, united, is what leaves the
//! text; and a process that has all components commits the trace.
//!
//! Nothing here runs: each function states a law that joins `law_compiled` with `dv_conservative`.
//! `dv_coded`, `dv_run` and `dv_job` use them. No law says that there is enough memory for a run.
#![tactic(auto)]

/// Rules keep to numbers of the language.
pub mod numbers;

/// The components of a text are sound.
pub mod sound;

/// Texts as flat models.
pub mod texts;

/// Texts run in processes.
pub mod jobs;

/// The start of a process of a text.
pub mod shares;

/// What leaves a text.
pub mod outside;

/// What the processes of a text commit, together.
pub mod parts;
