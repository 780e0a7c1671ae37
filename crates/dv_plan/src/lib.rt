//! From a flat model to the processes of its run.
//!
//! A [`Whole`] is a flat model to be planned: components, their atomic models and responses, and
//! links. [`Plan::new`] cuts it by groups, with the inputs, so that each process has its share, and
//! numbers the channels between processes. It is proved that each share runs as that of the job of
//! the whole model. `world_of` and `world_alone` make a world of the processes of a plan, which
//! makes rounds; [`step_plan`] makes any list of steps. After both, each process has committed its
//! part of the whole run before its clock. [`plan_json`] prints a plan as text.
//!
//! `dv_run` plans the text of a model, and `dv_stream` runs plans in rounds and by workers. A plan
//! knows no rules, paths or programs: the code of components is of any type that implements
//! `Atomic`.
#![tactic(auto)]

/// Makes a world of the one process of a plan.
pub mod alone;
/// The channels between processes.
pub mod channels;
/// The links of a model, cut to processes.
pub mod cut;
/// Links by the processes of their ends.
mod keys;
/// Laws of cuts.
pub mod laws;
/// The least clock of processes.
pub mod least;
/// The inputs that lead to the components of a process.
mod led;
/// The links of a flat model.
pub mod links;
/// The atomic models of components, each once.
pub mod models;
/// A plan.
pub mod plan;
/// Begins the processes of a plan.
pub mod processes;
/// What processes committed.
pub mod ran;
/// The responses of processes.
pub mod responses;
/// The shares of a plan.
mod share;
/// Runs the processes of a plan by a list of steps.
pub mod steps;
/// The text of a plan.
pub mod text;
/// A flat model to be planned.
pub mod whole;
/// Makes a world of the processes of a plan.
pub mod worlds;

pub use channels::Away;
pub use cut::Cut;
pub use links::Links;
pub use models::Models;
pub use plan::Plan;
pub use ran::{Committed, Stepped};
pub use steps::step_plan;
pub use text::{Names, plan_json};
pub use whole::Whole;
