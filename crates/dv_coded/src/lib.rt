//! The programs of atomic models as code for the kernel, and the components of a text.
//!
//! `components_of` makes the `Components` of an accepted text: the programs and the response of
//! each model once, however many components it has, and of each component its number, its ports and
//! its start. `Lent` refers to the programs of a model and implements `Atomic` of `dv_react`. A
//! `Bench` runs them: short programs directly, all others by the machine of `dv_code`. It is proved
//! that they give the behaviour of the model, and that components start as the text says.
//!
//! `dv_run` plans these components and runs them. Links are made by `dv_flat`, processes by
//! `dv_plan`.
#![tactic(auto)]

/// The bench: what programs are run with.
pub mod bench;
/// The components of a text.
pub mod components;
/// References to the programs of models, as code for the kernel.
pub mod lent;
/// The models of a text that have components.
pub mod models;
/// The programs of an atomic model.
pub mod programs;

pub use bench::Bench;
pub use components::{Components, components_of};
pub use lent::{Lent, lend};
pub use programs::Programs;
