//! Visits to components.

use crate::index::Indexed;
use dv_bag::Bags;

/// A visit to a component that emitted or receives something at an instant.
#[derive(Clone, Copy)]
pub struct Visit<'a> {
    /// What arrives at the component, with its index.
    pub arrival: &'a Indexed<Bags>,
    /// The cursor of the first emission that is not before that index.
    pub cursor: usize,
}
