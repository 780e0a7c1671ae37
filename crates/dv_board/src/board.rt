//! The board: posts behind a lock.

ghost use Rattle.std.specs.Prelude.{◌≡◌, map};
ghost use Rattle.std.specs.List.{All};
ghost use Rattle.dv_board.specs.Posts.{IsPiece};

use crate::posts::{Piece, Posts, Rest};
use dv_written::OfJob;
use std::alloc::{AllocError, Global};
use std::sync::{Mutex, Wait};

/// A board that threads share by reference; a function that is generic over the job needs `N: Send`
/// for that. What is on it at a call depends on the other threads, but all of it is of the job.
/// While the lock is held, nothing is copied or merged.
#[derive(Drop)]
pub struct Board<N: OfJob> {
    posts: Mutex<Posts<N>>,
}

impl<N: OfJob> Board<N> {
    /// An empty board for so many processes.
    ///
    /// # Errors
    ///
    /// No memory for them.
    pub fn new(alloc: Global, processes: u32) -> Result<Self, AllocError>
        requires { processes ≡ N.job.processes }
    {
        Ok(Board {
            posts: Mutex::new(Posts::new(alloc, processes)?),
        })
    }

    /// Posts a piece.
    ///
    /// # Errors
    ///
    /// No memory. Nothing is posted, and the piece is lost.
    pub fn post<R: Wait>(&self, rt: &R, piece: Piece<N>) -> Result<(), AllocError>
        requires { IsPiece N.job piece }
    {
        self.posts.lock(rt).post(piece)
    }

    /// Takes off all pieces, in the order in which they were posted.
    pub fn take<R: Wait>(&self, rt: &R, alloc: Global) -> Vec<Piece<N>>
        ensures { All (IsPiece N.job) result.items }
    {
        self.posts.lock(rt).take(alloc)
    }

    /// What is left of processes besides what they posted here, by pieces that were not posted. A
    /// piece that begins after what its process posted, since one before it was lost, becomes
    /// nothing at the end of the posts.
    pub fn rest<R: Wait>(&self, rt: &R, pieces: Vec<Piece<N>>) -> Rest<'_, N>
        requires { All (IsPiece N.job) pieces.items }
        ensures processes { map (λ x. x.process) result.pieces
            ≡ map (λ x. x.process) pieces.items }
        ensures each { All (IsPiece N.job) result.pieces }
    {
        self.posts.lock(rt).rest(pieces)
    }
}
