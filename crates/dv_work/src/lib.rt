//! Runs the logical processes of a job by workers, which are threads.
//!
//! `run_streamed` starts the workers of a [`Crew`]. Process p belongs to worker p mod the number
//! of workers, and stays there. A worker visits its processes one after the other, again and
//! again. At a visit it takes a packet from each link that leads to the process, lets the process
//! make a turn, and puts the packets that the process prepared. Now and then it posts what its
//! processes committed on the board of a [`Stream`]. A [`Watch`] is called before and after each
//! turn, and may stop the run.
//!
//! For any timing of the threads, what a process posts and what it leaves in the [`Report`] is its
//! part of the trace, and a run is reported whole exactly if every clock is at the end. That the
//! workers come to an end is tested, not proved; the sections below say why they do. `dv_stream`
//! runs plans by this crate, and takes and writes what is posted.
//!
//! # Bells
//!
//! A worker with nothing to do waits at its [`Bell`], which counts its rings. It reads the count,
//! visits all its processes, and waits only while the count is the one that it read. Four things
//! give it work: a packet on a link to one of its processes, room on a full link that leads away
//! from one, a lead that was too long and has fallen to half, and a flag that ends the run. A bell
//! is always rung after the work is there:
//!
//! - A worker that puts a packet rings the bell of the receiver's worker.
//! - A worker that finds a link full asks for room there, and tries to put once more. A worker that
//!   takes a packet from a link on which room was asked for rings the bell of the sender's worker.
//! - The thread that writes takes what is written off the leads, and rings all bells if a lead that
//!   was too long has fallen to half.
//! - A flag is raised first, and then all bells ring.
//!
//! So work that a visit missed came after the count was read, and its ring raises the count. A
//! worker that falls asleep first says that it sleeps and then looks at the count. A ring first
//! raises the count and then looks for sleepers. All threads see these steps in one order, so
//! either the worker sees the ring, or the ring wakes the worker.
//!
//! # Before a worker sleeps
//!
//! A worker first looks at its bell some 1,000 times, which takes about a microsecond. Then it
//! yields the processor up to 400 times, and looks before each. Only then it posts what its
//! processes committed, and sleeps. Processes that answer each other within microseconds would
//! otherwise post and sleep at each answer, and a sleep costs a post and two wake-ups: of the
//! thread that writes, and of the worker.
//!
//! # Why not all workers wait
//!
//! Suppose that all workers wait, and some process is not at the end. Then every link that the
//! last visit found empty is still empty, and every link that it found full is still full. The
//! receiver of a full link takes from it at each visit, so no link is full. It is proved that a
//! worker waits only if each link that leads away got all packets that were prepared for it, null
//! messages too, or its end holds a packet. A visit tries to put a held packet, and no link is
//! full. So all packets that were prepared were put, and all that were put were taken.
//!
//! Take a process with the least clock. The clock of each of its senders is not before its own. A
//! turn that begins with no packet left to put on a link promises, on this link, a time past the
//! clock that the turn leaves. The last turn of each sender was such a turn: a worker waits only
//! after visits in which nothing was put, and a process that is held back makes such a turn first.
//! So all channel clocks of the process are past its clock, its next turn moves it, and its worker
//! does not wait, unless the process is held back. That ends, as the next section says.
//!
//! # When a process is held back
//!
//! Workers commit faster than one thread can merge and write, and only what is before the least
//! clock can be written. So without a limit, what waits would grow with the run. The lead of a
//! process is the number of bytes of its lines that were posted and are not written yet. Once a
//! thread takes pieces off the board, a process whose lead is too long is held back until it has
//! fallen to half of what may wait: 96 bytes for each component that a process has on average, and
//! at least 48 KiB.
//!
//! A process that is held back makes one turn more, as soon as none of its packets is left to put,
//! and then none. A turn prepares nothing for a link for which a packet is left, so without this
//! turn its receivers, and so the writing, might wait for a promise for ever. Meanwhile its worker
//! takes and puts packets as before.
//!
//! No process is held back for ever if, after each ring for news, the thread that takes pieces
//! writes all that is before the least clock and takes it off the leads, before it waits for
//! anything else. A worker posts before it sleeps, and the bell for news rings after that. So if
//! all workers slept, all that was committed would be taken, and all of the process with the least
//! clock would be written: its lead would be 0. Only the worker of a process adds to its lead. What
//! is written is taken off in one step, which also returns the lead before it. So the call at which
//! a lead falls to half returns this, and the bells ring.
//!
//! # When a null message is put
//!
//! A packet with events is put at once. A null message is put at a visit at which its process took
//! a packet, since the sender may wait for an answer, or did not move. A process that moves on its
//! own runs ahead: a null message for each of its instants would wake receivers that can't go on.
//! So its null messages are put only in the rounds that the worker's pace gives: 1, 2, 4, .. and
//! every 64th, and the round after one that left a long piece. Until then a null message stays with
//! its process, and the window of the next one begins where it ends.
//!
//! It is proved that no visit keeps back a packet with events, and that in the rounds of the pace
//! none keeps back a null message, unless the end of its link held a packet before the visit.
//!
//! # When a worker posts
//!
//! A piece is what one process committed since its last post and before its clock. It is moved out
//! of the process, so nothing is kept twice. Only the worker of a process posts its pieces, so
//! there is no gap between them. If the board has no memory for a piece, the piece is lost and the
//! run ends.
//!
//! A worker posts after the rounds of its pace, after a round that leaves a piece with 12 KiB of
//! lines or more, before it sleeps, and when its processes are done. What it has not posted when it
//! ends is in the report. While a worker sleeps its processes commit nothing, so all that they
//! committed is on the board.
//!
//! The bell for news rings after a post. The thread that takes pieces reads its count, takes all
//! pieces, and waits until the count differs, so it misses no post. A worker does not hold the
//! board's lock during a turn, and pieces are not joined while it is held.
//!
//! # How a run is stopped
//!
//! A caller stops a run by a flag of its own (`stop` of [`Stream`]), and rings all bells after it.
//! Each worker looks at it at each visit. A worker that sees it ends, and raises the flag of the
//! workers, at which the others end too. A worker that lacks memory, or is stopped by a [`Watch`],
//! does the same.
#![tactic(auto)]

/// Bells and flags.
pub mod bell;
/// The parts of a run by workers.
pub mod crew;
/// How many bytes each process has posted that are not written yet.
pub mod lead;
/// Whether a process is held back.
pub mod pause;
/// Posts what processes committed.
pub mod post;
/// How a run ended, and what was not posted.
pub mod report;
/// Requests for room on links.
pub mod room;
/// Runs processes by workers.
pub mod run;
/// A process with the ends of its links.
pub mod seat;
/// Makes the links of a job, and gives each worker its processes.
pub mod setup;
/// Watches the turns of processes.
pub mod watch;
/// A worker.
pub mod worker;

pub use bell::{Bell, Flag, FlagView, Raised, bells_of};
pub use crew::Crew;
pub use lead::{Lead, Leads};
pub use post::Stream;
pub use report::{Ended, Report, first_cause, lacked_memory, was_stopped};
pub use run::run_streamed;
pub use watch::{Unwatched, Watch};
pub use worker::Halt;
