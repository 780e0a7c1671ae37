//! What the processes of a job have committed, on its way from workers to the writer of the trace.
//!
//! A `Board` is a list of pieces behind a lock. A worker posts a `Piece`: what a process committed
//! from its last post up to its clock. The loop that writes the trace takes all pieces at once, in
//! the order in which they were posted. While the lock is held nothing is copied or merged, so no
//! worker waits while the trace is put together. A board wakes no thread: a worker that posts also
//! rings a bell of `dv_work`.
//!
//! A board also knows before which time a process has posted all that it committed. What it did not
//! post in the end is a `Rest`, which only the board makes: it leaves no gap behind the posts.
//!
//! What is on a board depends on the threads, so no contract says when a piece arrives. The type of
//! a board says that each piece is true: it has exactly the part of the job's trace that its
//! process has between its two times. From that the reader may conclude what it can write. It joins
//! the pieces to a `Backlog`, which has a clock for each process, the end of its last piece, and a
//! mark, up to which all is written. What is kept from the mark up to the least clock is, merged,
//! exactly the trace in between (`known`). After it is written, `let_go` discards it and raises the
//! mark.
//!
//! A piece has to begin at or before the clock of its process; one that leaves a gap is refused and
//! returned. A piece that is lost for want of memory leaves a gap for the next one of its process,
//! so the trace may end early, but never lacks a line in between. `Held` keeps the pieces of a
//! process in stretches: long pieces as they are, short ones joined to at most 64 entries. So an
//! entry is moved at most once while it waits.
#![tactic(auto)]

/// The backlog: what was taken off a board and not written yet.
pub mod backlog;
/// The board: posts behind a lock.
pub mod board;
/// What a backlog keeps of one process.
mod held;
/// Laws of what is written from mark to mark.
pub mod laws;
/// Pieces, and the list of those that were posted and not taken yet.
pub mod posts;

pub use backlog::{Backlog, Unjoined};
pub use board::Board;
pub use posts::{Piece, Posts, Rest};
