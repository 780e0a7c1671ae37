//! Worked rows, computed in the definitions alone.

/// Clocks, and what leaves.
pub mod clocks;

/// Inputs at the end of a hold.
pub mod confluent;

/// What ends in a fault, and what does not, though it nearly does.
pub mod faults;

/// Inputs during a hold.
pub mod inputs;

/// A component that runs alone.
pub mod shares;
