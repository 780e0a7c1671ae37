//! What processes committed.

use dv_bag::Part;
use dv_core::{Ended, Reply};
use dv_time::Time;

/// How far the processes of a run in rounds came: each committed all before its clock.
#[derive(Drop)]
pub struct Committed {
    /// The clock of each process, by its number.
    pub clocks: Vec<Time>,
    /// How the rounds ended.
    pub ended: Ended,
}

/// What processes committed by a list of steps, each before its clock.
#[derive(Drop)]
pub struct Stepped {
    /// What each process committed before its clock, by its number.
    pub parts: Vec<Part>,
    /// The clock of each process, by its number.
    pub clocks: Vec<Time>,
    /// The reply to each step, in the order of the list.
    pub replies: Vec<Reply>,
}
