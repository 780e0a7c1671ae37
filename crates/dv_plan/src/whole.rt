//! A flat model to be planned.

use crate::links::Links;
use dv_bag::Response;
use dv_share::Member;

/// A flat model to be run in processes.
#[derive(Drop)]
pub struct Whole<A> {
    /// The limit on the microsteps of a tick.
    pub limit: u32,
    /// The last tick of the run.
    pub horizon: u64,
    /// The components, by number.
    pub members: Vec<Member>,
    /// The models of the components.
    pub models: Vec<A>,
    /// The response of each component, by its number.
    pub responses: Vec<Response>,
    /// The links between components, from outside and to the outside.
    pub links: Links,
    /// How many input ports the model has.
    pub ports: u32,
    /// How many output ports the model has.
    pub outputs: u32,
}
