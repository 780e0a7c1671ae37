//! Pieces, the list of those that were posted and not taken yet, which is the value behind a board's
//! lock, and what is left besides.

ghost use Rattle.std.specs.Prelude.{◌≡◌, ◌++◌, [], ◌∷◌, map, replicate, IfOk, OnErr, OnOk};
ghost use Rattle.std.specs.List.{All};
ghost use Rattle.dv_conservative.specs.Process.{first_time};
ghost use Rattle.dv_board.specs.Clocks.{later};
ghost use Rattle.dv_board.specs.Posts.{IsPiece, end_in, ends_with, without_gap};

use dv_time::Time;
use dv_written::{OfJob, WrittenPart};
use std::alloc::{AllocError, Global};
use std::marker::{Model, PhantomData};
use std::mem;

/// What one process committed from some time on and before its clock.
#[derive(Drop)]
pub struct Piece<N: OfJob> {
    /// The number of the process.
    pub process: u32,
    /// Where the piece begins: the part has nothing before this time.
    pub from: Time,
    /// The clock of the process: the part has all from `from` on and before this time.
    pub clock: Time,
    /// The entries and the output lines in between.
    pub part: WrittenPart<N>,
}

/// Pieces of what the processes of a job committed, in the order in which they were posted, and for
/// each process the time before which all that it committed was posted.
#[derive(Drop)]
pub struct Posts<N: OfJob> {
    pieces: Vec<Piece<N>>,
    ends: Vec<Time>,
}

impl<N: OfJob> Model for Posts<N> {
    ghost use Rattle.std.specs.List.{All};
    ghost use Rattle.dv_board.specs.Posts.{AreEnds, IsPiece, PostsOf};

    ghost Value = { PostsOf N };

    ghost view = { λ p. record { pieces = p.pieces.items; ends = p.ends.items } };

    ghost invariant = { λ p. All (IsPiece N.job) p.pieces.items × AreEnds N.job p.ends.items };
}

/// What is left of the processes of a job besides their posts. Only their board makes one, and each
/// piece begins at or before the time before which its process posted all: so what a process posted
/// and its piece are, joined, all that it committed before the piece's clock.
#[derive(Drop)]
pub struct Rest<'b, N: OfJob> {
    board: PhantomData<&'b N>,
    pieces: Vec<Piece<N>>,
}

impl<'b, N: OfJob> Model for Rest<'b, N> {
    ghost use Rattle.std.specs.List.{All};
    ghost use Rattle.dv_board.specs.Posts.{IsPiece, RestOf};

    ghost Value = { RestOf N };

    ghost view = { λ r. record { pieces = r.pieces.items } };

    ghost invariant = { λ r. All (IsPiece N.job) r.pieces.items };
}

impl<N: OfJob> Rest<'_, N> {
    /// The pieces.
    pub fn pieces(&self) -> &[Piece<N>]
        ensures { result.now ≡ self.now.pieces }
    {
        &self.pieces
    }

    /// Moves the pieces out.
    pub fn into_pieces(self) -> Vec<Piece<N>>
        ensures { result.items ≡ self.entry.pieces }
    {
        self.pieces
    }
}

// The later of two times.
fn later(a: Time, b: Time) -> Time
    ensures { result ≡ later a b }
{
    if a.is_before(b) { b } else { a }
}

// The time 0.0 for each process.
fn first_times(alloc: Global, processes: u32) -> Result<Vec<Time>, AllocError>
    ensures { IfOk result (λ times. times.items ≡ replicate processes first_time) }
{
    let mut times = Vec::new(alloc);
    for _ in 0..processes {
        times.push(Time::ZERO)?;
    }
    Ok(times)
}

// The time before which all that a process committed was posted.
fn end_in(ends: &[Time], process: u32) -> Time
    ensures { result ≡ end_in ends.now process }
{
    match ends.get(process as usize) {
        Some(end) => *end,
        None => Time::ZERO,
    }
}

// If a piece begins after what its process posted, it becomes nothing at the end of the posts.
fn close_gap<N: OfJob>(alloc: Global, ends: &[Time], piece: &mut Piece<N>)
    ensures { piece.new ≡ without_gap ends.now piece.old }
{
    let end = end_in(ends, piece.process);
    if end.is_before(piece.from) {
        piece.from = end;
        piece.clock = end;
        piece.part = WrittenPart::new(alloc);
    }
}

// Does this to each piece.
fn close_gaps<N: OfJob>(ends: &[Time], pieces: &mut Vec<Piece<N>>)
    ensures { pieces.new.items ≡ map (without_gap ends.now) pieces.old.items }
{
    let alloc = *pieces.allocator();
    for piece in pieces.iter_mut() {
        close_gap(alloc, ends, piece);
    }
}

impl<N: OfJob> Posts<N> {
    /// No pieces of any process.
    ///
    /// # Errors
    ///
    /// No memory for so many processes.
    pub fn new(alloc: Global, processes: u32) -> Result<Self, AllocError>
        requires { processes ≡ N.job.processes }
        ensures pieces { IfOk result (λ posts. posts.pieces ≡ []) }
        ensures ends { IfOk result (λ posts. posts.ends ≡ replicate processes first_time) }
    {
        Ok(Posts {
            pieces: Vec::new(alloc),
            ends: first_times(alloc, processes)?,
        })
    }

    /// Adds a piece.
    ///
    /// # Errors
    ///
    /// No memory. Nothing has changed, and the piece is lost.
    pub fn post(&mut self, piece: Piece<N>) -> Result<(), AllocError>
        requires { IsPiece N.job piece }
        ensures pieces { OnOk result (self.new.pieces ≡ self.old.pieces ++ piece ∷ []) }
        ensures ends { OnOk result (self.new.ends ≡ ends_with self.old.ends piece) }
        ensures err { OnErr result (self.new ≡ self.old) }
    {
        let process = piece.process;
        let from = piece.from;
        let clock = piece.clock;
        let end = end_in(&self.ends, process);
        self.pieces.push(piece)?;
        if !end.is_before(from) {
            self.ends[process as usize] = later(end, clock);
        }
        Ok(())
    }

    /// Takes out all pieces.
    pub fn take(&mut self, alloc: Global) -> Vec<Piece<N>>
        ensures pieces { result.items ≡ self.old.pieces }
        ensures none { self.new.pieces ≡ [] }
        ensures ends { self.new.ends ≡ self.old.ends }
        ensures each { All (IsPiece N.job) result.items }
    {
        mem::replace(&mut self.pieces, Vec::new(alloc))
    }

    /// What is left besides these posts, by pieces that were not posted.
    pub(crate) fn rest<'b>(&self, pieces: Vec<Piece<N>>) -> Rest<'b, N>
        requires { All (IsPiece N.job) pieces.items }
        ensures rest { result.pieces ≡ map (without_gap self.now.ends) pieces.items }
        ensures each { All (IsPiece N.job) result.pieces }
    {
        let mut pieces = pieces;
        close_gaps(&self.ends, &mut pieces);
        Rest {
            board: PhantomData,
            pieces,
        }
    }
}
