//! The kernel of an instant: the reaction of one component, written once for any code of an atomic
//! model.
//!
//! `Atomic` is the trait of such code: output, the three kinds of transition, and the hold.
//! `Running` is a component of a run: its state, the tick of its last transition, and when its hold
//! ends. `react_component` finds which transition takes place, makes it, and returns what happened.
//! This is the reaction of `dv_devs` for the behaviour of the code, also in which fault comes first
//! if there are several.
//!
//! Two kinds of code implement the trait: trees in `dv_plain`, and programs in `dv_coded`.
//! `dv_share` calls the kernel for components that emitted or receive something, `dv_plain` for
//! all. Which components these are, and where their values go, is not decided here.
#![tactic(auto)]

/// The trait of code for atomic models.
pub mod atomic;

/// Faults of rules, told apart from refused memory.
mod fault;

/// The phase after a rule.
pub mod goto;

/// What happens to a component.
pub mod happened;

/// An instant of a run.
pub mod instant;

/// What a component was before it reacted.
pub mod kept;

/// The output lines of an instant.
pub mod leaving;

/// How one component reacts at an instant.
pub mod reaction;

/// What a component receives.
mod received;

/// One component of a run.
pub mod running;

/// The transitions of an atomic model.
mod transition;

/// When holds end.
pub mod wait;

pub use atomic::Atomic;
pub use goto::go_to;
pub use happened::Happened;
pub use instant::Instant;
pub use kept::Kept;
pub use leaving::commit_outer;
pub use reaction::react_component;
pub use running::Running;
pub use wait::{Hold, Wait};
