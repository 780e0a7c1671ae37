//! The numbers of nodes, ports and components.

/// A count or an index as a number. No accepted model has so many ports or components that it does
/// not fit.
pub(crate) fn number_of(count: usize) -> u32 {
    u32::try_from(count).unwrap_or(u32::MAX)
}
