//! Laws of bags and of parts. Each function states a law in its contract; its body does nothing.

/// Bags are maps from values to counts, and a commutative monoid.
pub mod bags;
/// A time cuts a part into two.
pub mod parts;
