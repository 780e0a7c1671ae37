//! The backlog: what was taken off a board and not written yet.

ghost use Rattle.std.specs.Prelude.{◌≡◌, ◌<◌, ◌≤◌, IfErr, IfNone, IfOk, IfSome, OnErr, OnOk, OnSome, length, map, replicate, set};
ghost use Rattle.std.specs.List.{All};
ghost use Rattle.dv_bag.specs.Part.{before, since};
ghost use Rattle.dv_conservative.specs.Process.{first_time};
ghost use Rattle.dv_merge.specs.Whole.{ArePartsOf};
ghost use Rattle.dv_time.specs.Time.{IsOfRun, end_of, rank};
ghost use Rattle.dv_time.specs.declared.time.Time.{Time as MeantTime};
ghost use Rattle.dv_board.specs.Answers.{IsCutAt, IsRefused};
ghost use Rattle.dv_board.specs.Backlogs.{clock_of, clocks_with};
ghost use Rattle.dv_board.specs.Clocks.{IsLeast, IsNoLater, later};
ghost use Rattle.dv_board.specs.Jobs.{IsMergeable, trace};
ghost use Rattle.dv_board.specs.Stretches.{AreByTime, nothing_held, part_of, rest_of};
ghost use Rattle.dv_board.specs.Posts.{IsPiece};

use crate::held::Held;
use crate::posts::Piece;
use dv_merge::PartRefs;
use dv_time::Time;
use dv_written::OfJob;
use std::alloc::{AllocError, Global};
use std::marker::Model;

/// What the processes of a job committed from a mark on, each up to its clock. It lends the pieces
/// of the trace up to the least clock. It is owned by the writer's thread and needs no lock.
#[derive(Drop)]
pub struct Backlog<N: OfJob> {
    mark: Time,
    held: Vec<Held<N>>,
}

impl<N: OfJob> Model for Backlog<N> {
    ghost use Rattle.std.specs.Prelude.{map};
    ghost use Rattle.dv_board.specs.Backlogs.{AreHeld, BacklogOf};

    ghost Value = { BacklogOf };

    ghost view = { λ b. record { mark = b.mark; clocks = map (λ h. h.clock) b.held.items } };

    ghost invariant = { λ b. AreHeld N.job b.mark b.held.items };
}

/// Why a piece was not joined.
#[derive(Drop)]
pub enum Unjoined<N: OfJob> {
    /// The piece begins after the time up to which its process is kept. The piece is returned.
    Gap { kept: Time, piece: Piece<N> },
    /// There is no memory for what the piece adds. The piece is lost.
    Memory,
}

// Entries for so many processes at 0.0, which committed nothing.
fn none_held<N: OfJob>(alloc: Global, processes: u32) -> Result<Vec<Held<N>>, AllocError>
    ensures { IfOk result (λ held. held.items
        ≡ replicate processes nothing_held) }
{
    let mut held = Vec::new(alloc);
    for _ in 0..processes {
        held.push(Held::new(alloc))?;
    }
    Ok(held)
}

// The least clock.
fn least_clock<N: OfJob>(held: &[Held<N>]) -> Time
    requires { 0 < length held.now }
    ensures { IsLeast result (map (λ h. h.clock) held.now) }
{
    let mut least = held[0].clock();
    for kept in held {
        let clock = kept.clock();
        if clock.is_before(least) {
            least = clock;
        }
    }
    least
}

// The clock of each process.
fn clocks_of<N: OfJob>(alloc: Global, held: &[Held<N>]) -> Result<Vec<Time>, AllocError>
    ensures { IfOk result (λ clocks. clocks.items ≡ map (λ h. h.clock) held.now) }
{
    let mut clocks = Vec::with_capacity(alloc, held.len())?;
    for kept in held {
        clocks.push(kept.clock())?;
    }
    Ok(clocks)
}

// References to what each process committed from one time on and before another.
fn pieces_between<'h, N: OfJob>(
    alloc: Global,
    held: &'h [Held<N>],
    from: Time,
    upto: Time,
) -> Result<Vec<PartRefs<'h, N>>, AllocError>
    requires { All AreByTime held.now }
    ensures { IfOk result (λ pieces. pieces.items
        ≡ map (λ h. since from (before upto (part_of h))) held.now) }
{
    let mut pieces = Vec::with_capacity(alloc, held.len())?;
    for kept in held {
        pieces.push(kept.between(alloc, from, upto)?)?;
    }
    Ok(pieces)
}

// Discards what ends at a time or before.
fn let_go_all<N: OfJob>(held: &mut Vec<Held<N>>, time: Time)
    ensures { held.new.items ≡ map (rest_of time) held.old.items }
{
    for kept in held.iter_mut() {
        kept.let_go(time);
    }
}

impl<N: OfJob> Backlog<N> {
    /// An empty backlog, with its mark and all clocks at 0.0.
    ///
    /// # Errors
    ///
    /// No memory for so many processes.
    pub fn new(alloc: Global, processes: u32) -> Result<Self, AllocError>
        requires processes { processes ≡ N.job.processes }
        requires some { 0 < processes }
        requires merges { IsMergeable N.job }
        ensures mark { IfOk result (λ backlog. backlog.mark ≡ first_time) }
        ensures clocks { IfOk result (λ backlog. backlog.clocks ≡ replicate processes first_time) }
    {
        Ok(Backlog {
            mark: Time::ZERO,
            held: none_held(alloc, processes)?,
        })
    }

    /// The clock up to which a process is kept.
    pub fn clock(&self, process: u32) -> Time
        requires { process < N.job.processes }
        ensures kept { result ≡ clock_of self.now process }
        ensures of_run { IsOfRun N.job.limit result }
    {
        self.held[process as usize].clock()
    }

    /// The clock up to which each process is kept, by their numbers.
    ///
    /// # Errors
    ///
    /// No memory for the list.
    pub fn clocks(&self, alloc: Global) -> Result<Vec<Time>, AllocError>
        ensures clocks { IfOk result (λ clocks. clocks.items ≡ self.now.clocks) }
        ensures count { IfOk result (λ clocks. length clocks.items ≡ N.job.processes) }
        ensures of_run { IfOk result (λ clocks. All (IsOfRun N.job.limit) clocks.items) }
        ensures within { IfOk result (λ clocks. All (λ (t : MeantTime).
            rank N.job.limit t ≤ end_of N.job.limit N.job.horizon) clocks.items) }
    {
        let clocks = clocks_of(alloc, &self.held)?;
        Ok(clocks)
    }

    /// How many bytes the lines have that are kept of a process; 0 if the job has no process with
    /// this number. Of a process with the least clock there are none after `let_go`.
    pub fn byte_count(&self, process: u32) -> usize {
        match self.held.get(process as usize) {
            Some(held) => held.byte_count(),
            None => 0,
        }
    }

    /// Joins a piece. What it repeats is left out; the clock of the process becomes the later of
    /// its own and the piece's.
    ///
    /// # Errors
    ///
    /// `Gap` if the piece begins after the clock of its process; it has that clock and the piece.
    /// `Memory` only if the piece ends after that clock; the piece is lost. The backlog is
    /// unchanged.
    pub fn extend(&mut self, piece: Piece<N>) -> Result<(), Unjoined<N>>
        requires { IsPiece N.job piece }
        ensures mark { self.new.mark ≡ self.old.mark }
        ensures joins { OnOk result (IsNoLater N.job piece.from (clock_of self.old piece.process)) }
        ensures clocks { OnOk result (self.new.clocks ≡ set self.old.clocks piece.process
            (later (clock_of self.old piece.process) piece.clock)) }
        ensures err { OnErr result (self.new ≡ self.old) }
        ensures refused { IfErr result (IsRefused N.job self.old piece) }
    {
        let held = &mut self.held[piece.process as usize];
        let kept = held.clock();
        if kept.is_before(piece.from) {
            return Err(Unjoined::Gap { kept, piece });
        }
        if let Err(_) = held.join(piece) {
            return Err(Unjoined::Memory);
        }
        Ok(())
    }

    /// Joins pieces one after the other, until one is refused.
    ///
    /// # Errors
    ///
    /// The error of `extend` for the first piece that is refused. Those before it were joined,
    /// those after it are lost. From now on nothing past the clock of its process can be written.
    pub fn extend_all(&mut self, pieces: Vec<Piece<N>>) -> Result<(), Unjoined<N>>
        requires { All (IsPiece N.job) pieces.items }
        ensures mark { self.new.mark ≡ self.old.mark }
        ensures clocks { OnOk result (self.new.clocks ≡ clocks_with self.old.clocks pieces.items) }
        ensures refused { IfErr result (IsCutAt N.job self.old self.new pieces.items) }
    {
        for piece in pieces {
            self.extend(piece)?;
        }
        Ok(())
    }

    /// References to what each process committed from the mark on and before the least clock, and
    /// that clock. Merged, this is the trace in between. `None` if the mark is not `from`.
    ///
    /// # Errors
    ///
    /// No memory for the references, or for copies of output lines.
    pub fn known(
        &self,
        alloc: Global,
        from: Time,
    ) -> Result<Option<(Vec<PartRefs<'_, N>>, Time)>, AllocError>
        ensures none { IfOk result (λ known. IfNone known (self.now.mark ≡ from → ⊥)) }
        ensures at { IfOk result (λ known. OnSome known (self.now.mark ≡ from)) }
        ensures pieces { IfOk result (λ known. IfSome known (λ k.
            ArePartsOf N.job.owner (trace N.job from k.1) k.0.items)) }
        ensures order { IfOk result (λ known. IfSome known (λ k. IsNoLater N.job from k.1)) }
        ensures of_run { IfOk result (λ known. IfSome known (λ k. IsOfRun N.job.limit k.1)) }
        ensures within { IfOk result (λ known. IfSome known (λ k.
            rank N.job.limit k.1 ≤ end_of N.job.limit N.job.horizon)) }
        ensures least { IfOk result (λ known. IfSome known (λ k. IsLeast k.1 self.now.clocks)) }
    {
        if from != self.mark {
            return Ok(None);
        }
        let least = least_clock(&self.held);
        let pieces = pieces_between(alloc, &self.held, from, least)?;
        Ok(Some((pieces, least)))
    }

    /// Discards what is before the least clock, which becomes the mark: it is written.
    pub fn let_go(&mut self, least: Time)
        requires { IsLeast least self.old.clocks }
        ensures mark { self.new.mark ≡ least }
        ensures clocks { self.new.clocks ≡ self.old.clocks }
    {
        let_go_all(&mut self.held, least);
        self.mark = least;
    }
}
