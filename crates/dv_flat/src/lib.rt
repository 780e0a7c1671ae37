//! From a tree of coupled models to direct links between components, and their paths.
//!
//! `flatten` gives the `LinkLists` of an accepted text: which output reaches which input, also from
//! and to the outside, each pair once, with as many copies as there are ways. These are exactly the
//! links of the text, and a law says that they carry what routing by the tree gives. `count_links`
//! refuses a checked text with more than `GREATEST_LINKS` (E17) before any link is made. `paths_of`
//! gives the path of each component.
//!
//! `dv_run` divides these links among processes; the graphs, the tables and the reports of faults
//! follow them too. No values of a run are sent here, and no rules are read.
#![tactic(auto)]

/// What the probes reach.
mod arrivals;
/// The links of a text.
pub mod flat;
/// Laws of links.
pub mod laws;
/// The limit on links.
pub mod limit;
/// Links between ports.
pub mod link;
/// Lists of links.
mod links;
/// Which outputs lead on.
mod live;
/// The paths of the components.
pub mod paths;
/// The ports of the components.
mod ports;
/// Values that show where they were sent.
mod probes;

pub use flat::{LinkLists, flatten};
pub use limit::count_links;
pub use link::{ComponentPort, DirectLink, EntryLink, ExitLink, Link};
pub use paths::paths_of;

/// The most links of a text, each counted as often as it has copies.
pub const GREATEST_LINKS: u64 = 65_536;
