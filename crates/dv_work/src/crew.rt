//! The parts of a run by workers.

use dv_proc::Channel;

/// The parts of a run by workers: the processes of a job, the channels between them, and what each
/// worker works with. Process p belongs to worker p mod the number of workers.
#[derive(Drop)]
pub struct Crew<P, K> {
    /// The channels of the job; each becomes a link.
    pub channels: Vec<Channel>,
    /// The new processes, by their numbers.
    pub processes: Vec<P>,
    /// What the turns of each worker work with, by the number of the worker. There are as many
    /// workers as items.
    pub works: Vec<K>,
    /// How many packets each link has room for. One more may be held at the end of its sender.
    pub capacity: usize,
}
