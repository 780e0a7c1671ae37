//! The components of a checked text, their paths, and routing through coupled models.
//!
//! A `Tree` has the components in the order of their numbers, each with its path and its model, and
//! a table of the links of each coupled model that the root leads to. `route` takes what components
//! send at one instant up to the root and down into its parts. It gives what arrives and leaves by
//! the definitions, and a law says that routing is linear: what is sent together arrives as the
//! union of what is sent separately.
//!
//! `dv_plain` routes by this tree at each instant, and `dv_flat` makes links between its components
//! once. Views and traces take the names of components, ports and variables from it. Times and
//! states are not known here.
#![tactic(auto)]

/// What has arrived at the ports of one coupled model.
mod arrived;
/// The components by number.
mod components;
/// The links of a coupled model as indices of ports.
pub mod couplings;
/// Laws of routing.
pub mod laws;
/// The tables of coupled models.
mod levels;
/// Lists of lists.
pub mod lists;
/// The parts of a coupled model, with the indices of their models.
mod resolved_parts;
/// The indices of names in a list.
mod indices;
/// The models that the root leads to.
mod reached;
/// Routing along links.
mod routing;
/// The tables of the models of a file.
mod tables;
/// The tree of a checked text.
pub mod tree;

pub use couplings::{Coupling, Target};
pub use levels::{Level, level_at};
pub use lists::empty_lists;
pub use resolved_parts::ResolvedPart;
pub use tree::{Routed, Tree};
