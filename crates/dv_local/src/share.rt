//! The share of a process.

use dv_bag::{Inputs, Response};
use dv_share::{Routes, Tables};

/// A link to another process.
#[derive(Drop)]
pub struct Way {
    /// The number of the link between processes.
    pub number: u32,
    /// The links between components of which it is made.
    pub links: Routes,
}

/// The share of a process. It never changes.
#[derive(Drop)]
pub struct Share<A> {
    /// The components, their code, and the links among them.
    pub tables: Tables<A>,
    /// The last tick of the run.
    pub horizon: u64,
    /// A lower bound, in ticks or never, on the holds that external rules of the components begin.
    pub response: Response,
    /// The numbers of the links that lead here.
    pub sources: Vec<u32>,
    /// The links that lead to other processes.
    pub ways: Vec<Way>,
    /// How many input ports the outside has.
    pub ports: u32,
    /// The inputs from outside that lead to a component here, by time.
    pub inputs: Inputs,
}
