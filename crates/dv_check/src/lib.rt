//! The static checks of a model text: names, types, phases and holds, links, models that contain
//! themselves, limits.
//!
//! Each check is a function that notes in the `Findings` what is wrong, and goes on; the findings
//! keep the first refusal. Names are looked up in tables, so that the time is linear in the length
//! of the text. `check` accepts a file if and only if it breaks no rule, and returns it as a
//! `Checked`, whose type keeps that. Else its error is the refusal at the least offset, and at one
//! token the one with the least number (E6 to E17).
//!
//! `dv_tree`, `dv_flat`, `dv_gen` and `dv_bound` rely on what is true of checked files, and so do
//! all runs. The limit on links is not tested here but in `dv_flat`, which counts them.
#![tactic(auto)]

/// The checks of a whole text.
mod checker;

/// A model text that breaks no rule.
pub mod checked;

/// Laws of checked files and of refusals.
pub mod laws;

/// The limits on a model text.
pub mod limits;

/// The checks of an atomic model.
mod atomic;

/// The checks of a coupled model.
mod coupled;

/// The names that an atomic model declares.
mod declarations;

/// Models that contain themselves.
mod cycles;

/// What names denote: a short list, or a table.
pub mod directory;

/// What names denote at a place in an atomic model.
mod environment;

/// The types of expressions.
mod expression;

/// The first refusal that was found so far.
mod findings;

/// Sets of links.
mod link_set;

/// The models of a text, as links see them.
mod models;

/// Sets of names.
mod name_set;

/// The names in the lists of an atomic model.
mod names;

/// Sets of the numbers of names.
mod number_set;

/// The parts and links of a coupled model.
mod parts;

/// The ports of a coupled model in the order of the text.
mod ports;

/// The positions of the models of a text.
mod positions;

/// Names that are declared twice or too often.
mod repeats;

/// The size of the whole tree, counted without building it.
mod sizes;

/// The variables, flags, bags and queues of an atomic model that are known at the start.
mod starts;

/// The statements of rules.
mod statements;

/// What names denote, in a table by their numbers.
mod table;

/// Which collection can be read where.
mod wanted;

pub use checked::Checked;
pub use checker::check;
pub use directory::Directory;
pub use limits::{GREATEST_COMPONENTS, GREATEST_DEPTH, GREATEST_INSTANCES, GREATEST_NAMES};
