//! The links of a flat model.

use dv_share::Link;

/// The links of a flat model, between components by their numbers. The outside, where entrances
/// begin and exits end, has the number 0.
#[derive(Drop)]
pub struct Links {
    /// From component to component.
    pub direct: Vec<Link>,
    /// From the outside to components.
    pub entrances: Vec<Link>,
    /// From components to the outside.
    pub exits: Vec<Link>,
}
