//! Laws of the formalism. Each function states a law in its contract; its body does nothing, or
//! calls the laws of bags that the law follows from.

/// What is at a rank depends only on what arrives before it, and nothing changes between one
/// instant at which a component is imminent or values come and the next.
pub mod runs;

/// A trace is its instants, and its parts; where it can be cut, and what continues it.
pub mod parts;

/// States that fit lead to states that fit, and networks whose behaviours agree in them have the
/// same runs.
pub mod fits;

/// The definitions compute the traces of small models.
pub mod rows;
