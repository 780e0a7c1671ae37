//! The compiler of rules: from an atomic model to programs of the stack machine.
//!
//! `generate` gives the `ModelCode` of a model: for each phase the programs of its output rule, its
//! transitions and its hold. The theorem of the compiler says of every accepted model: each program
//! is valid, and from every state that fits and with any arrivals it ends with the effect of its
//! rule or with the rule's first fault, and the program of a hold with its ticks or its fault. A
//! program has no more instructions than its rule has tokens.
//!
//! `dv_coded` makes the programs of a run here, `dv_listing` prints them, and `law_compiled`
//! extends the theorem to whole models. Links are not compiled here: that is `dv_flat`. Nothing is
//! optimized: the machine does that.
#![tactic(auto)]

/// The rules and the holds by the names of their phases.
pub mod directory;
/// Programs that are being written.
pub mod draft;
/// The code of expressions.
pub mod expression;
/// From a model to its programs.
pub mod generator;
/// Laws of generated programs.
pub mod laws;
/// The loops around a statement.
pub mod loops;
/// The programs of a model.
pub mod model_code;
/// The indices of names.
pub mod names;
/// The programs of rules and holds.
pub mod program;
/// Worked rows.
pub mod rows;
/// The code of statements.
pub mod statement;

pub use generator::generate;
pub use model_code::{ModelCode, PhaseCode};
