//! The steps of a world, and their replies.

/// A step of a world. Processes and links are given by their numbers.
#[derive(Clone, Copy, PartialEq, Eq)]
pub enum Step {
    /// A process takes a turn.
    Turn(u32),
    /// The packet that a link's sender prepared is put at the end of the link's queue.
    Put(u32),
    /// The first packet of a link's queue is taken to the receiver.
    Take(u32),
    /// A process is stopped: from now on it takes no turns, and neither sends nor receives.
    Stop(u32),
}

/// The reply to a step. If it is not `Done`, nothing has changed. If several of the others hold,
/// the first one in this order is the reply.
#[derive(Clone, Copy, PartialEq, Eq)]
pub enum Reply {
    /// The step is done.
    Done,
    /// There is no process or link with this number.
    Refused,
    /// The process that would act is stopped.
    Stopped,
    /// The sender prepared no packet, or the queue is empty.
    Empty,
    /// The queue has as many packets as it may have.
    Full,
    /// There is no memory for the step.
    Memory,
}

/// How rounds end.
#[derive(Clone, Copy, PartialEq, Eq)]
pub enum Ended {
    /// Every clock is at the end.
    Whole,
    /// The limit of rounds is reached, and some clock is not at the end.
    Stalled,
    /// Memory ran out.
    Memory,
}
