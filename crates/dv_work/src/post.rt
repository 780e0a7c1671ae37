//! Posts what processes committed on a board, while the run goes on.

ghost use Rattle.std.specs.List.{All};
ghost use Rattle.std.specs.Prelude.{◌≡◌, ◌%◌, true};
ghost use Rattle.dv_work.specs.Seats.{HasToldAll, HoldsNone, Sits, StaySeated};

use crate::bell::{Bell, Flag, FlagView};
use crate::lead::Leads;
use crate::seat::{Floor, Seat};
use dv_board::Board;
use dv_core::ProcessHandsOver;
use dv_written::OfJob;
use std::alloc::AllocError;
use std::sync::Wait;

// A worker whose pieces stay short posts in each round with a multiple of this number. A post with
// its ring costs more than one turn, but almost nothing compared with this many rounds.
const ROUNDS_TO_A_POST: u64 = 64;

// A piece with so many bytes of lines is posted. With its entries it takes about 20 kilobytes then,
// so it is still in the processor's caches when it is written, and pieces take the same memory one
// after the other.
const BYTES_TO_A_POST: usize = 12_288;

/// The pace of a worker: in which rounds all null messages are put, and its processes post.
#[derive(Drop)]
pub struct Pace {
    rounds: u64,
    // Whether the last round left a long piece.
    was_long: bool,
}

impl Pace {
    /// The pace before the first round.
    pub fn new() -> Pace {
        Pace {
            rounds: 0,
            was_long: false,
        }
    }

    /// Counts a round, and returns whether null messages and posts are due in it. They are due now
    /// and then, more often at first, so that a reader sees the first lines soon; and after a round
    /// that left a long piece, since a round that does much is worth a packet.
    pub fn tells_in_next(&mut self) -> bool {
        self.rounds = self.rounds.wrapping_add(1);
        tells_in(self.rounds, self.was_long)
    }

    /// Notes whether the round left a long piece.
    pub fn adapt(&mut self, is_long: bool) {
        self.was_long = is_long;
    }
}

// Whether null messages and posts are due in the round of this number.
fn tells_in(round: u64, was_long: bool) -> bool
    ensures after_long { was_long ≡ true → result ≡ true }
    ensures now_and_then { round % 64 ≡ 0 → result ≡ true }
{
    was_long || round.is_power_of_two() || round.is_multiple_of(ROUNDS_TO_A_POST)
}

/// Whether one of a worker's processes has a long piece to post.
pub fn is_any_long<N: OfJob, P: ProcessHandsOver<N>>(seats: &[Seat<P>]) -> bool {
    for seat in seats {
        if seat.process.rest_length() >= BYTES_TO_A_POST {
            return true;
        }
    }
    false
}

/// What workers share with the thread that takes their pieces.
#[derive(Drop)]
pub struct Stream<'a, N: OfJob> {
    /// Where the workers post.
    pub board: &'a Board<N>,
    /// Rings after a post.
    pub news: &'a Bell,
    /// Ends the run once it is raised. The bells have to ring after that, since workers may wait
    /// at them.
    pub stop: FlagView<'a>,
    /// Is raised once a thread takes what is posted. Only then processes are held back.
    pub paced: &'a Flag,
    /// The lead of each process. The thread that takes pieces counts there what it took and what it
    /// still keeps, and rings the bells if a lead that was too long has fallen to half.
    pub leads: &'a Leads,
    /// A bell for each worker, where it waits.
    pub bells: &'a [Bell],
}

impl<N: OfJob> Stream<'_, N> {
    /// Whether a process has to be held back, where it was so before or not: if a thread takes what
    /// is posted, and too much of the process is not written yet.
    pub fn holds_back(&self, process: u32, was_held_back: bool) -> bool {
        self.paced.is_raised() && self.leads.is_long(process, was_held_back)
    }
}

// Posts what a process committed since its last post. Returns whether it did: if its clock has not
// moved, there is nothing to post.
fn post<N: OfJob, P: ProcessHandsOver<N>, R: Wait>(
    rt: &R,
    floor: &Floor<'_, N>,
    seat: &mut Seat<P>,
) -> Result<bool, AllocError>
    requires { Sits N.job P.state P.handed P.valid floor.now.links.now seat.old }
    ensures sits { Sits N.job P.state P.handed P.valid floor.now.links.now seat.new }
    ensures told { HasToldAll P.state seat.old → HasToldAll P.state seat.new }
    ensures put { HoldsNone seat.old → HoldsNone seat.new }
{
    seat.account(floor);
    let clock = seat.process.clock();
    if !seat.posted.is_before(clock) {
        return Ok(false);
    }
    let piece = seat.piece::<N>();
    let bytes = piece.part.byte_count();
    // This comes before the post, since the piece may be taken off the lead right after it.
    floor.stream.leads.add(piece.process, bytes);
    floor.stream.board.post(rt, piece)?;
    Ok(true)
}

/// Posts what the processes of a worker committed since their last posts, and rings for it.
///
/// # Errors
///
/// No memory on the board. The piece is lost, so the next piece of its process begins after a gap.
pub fn post_all<N: OfJob, P: ProcessHandsOver<N>, R: Wait>(
    rt: &R,
    floor: &Floor<'_, N>,
    seats: &mut [Seat<P>],
) -> Result<(), AllocError>
    requires { All (Sits N.job P.state P.handed P.valid floor.now.links.now) seats.old }
    ensures { StaySeated N.job P.state P.handed P.valid floor.now.links.now seats.old seats.new }
{
    let mut any_posted = false;
    for i in 0..seats.len() {
        let has_posted = post(rt, floor, &mut seats[i])?;
        any_posted |= has_posted;
    }
    if any_posted {
        floor.stream.news.ring();
    }
    Ok(())
}
