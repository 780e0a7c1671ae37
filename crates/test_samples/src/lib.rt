//! What tests of programs share.
//!
//! `model_texts` are the texts of models, `compile` makes their programs beside the trees,
//! `state_at` and `deliveries` give states that fit a program and values that arrive, and `Runs`
//! runs a program on the machine. `Random` gives numbers that look random and are the same in each
//! run.
//!
//! `test_lists`, `test_programs`, `test_reactions` and `test_steps` use it. It has no tests of its
//! own, and no program for users uses it.
#![tactic(auto)]

/// From a text to the programs of its atomic models.
mod compiled;
/// States that fit, and values that arrive.
mod fitting;
/// Numbers that look random.
mod random;
/// Runs of programs on states that may not fit them.
mod runs;
/// What lists of instructions are for.
mod shapes;
/// The texts of models.
mod texts;

pub use compiled::{Compiled, Pair, Tree, atomic_at, checked, compile};
pub use fitting::{Level, deliveries, state_at};
pub use random::Random;
pub use runs::Runs;
pub use shapes::{shape_of_collections, tables_of_each_slot};
pub use texts::model_texts;
