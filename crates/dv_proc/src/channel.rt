//! Links between processes.

/// Which processes a link joins, by their numbers.
#[derive(Clone, Copy, PartialEq, Eq)]
pub struct Channel {
    /// The number of the process from which the link leads.
    pub source: u32,
    /// The number of the process to which it leads.
    pub target: u32,
}
