//! What a backlog keeps of one process.

ghost use Rattle.std.specs.Prelude.{◌≡◌, ◌++◌, [], ◌∷◌, true, IfOk, OnOk, OnErr};
ghost use Rattle.dv_bag.specs.Part.{before, nothing, since};
ghost use Rattle.dv_conservative.specs.Process.{first_time};
ghost use Rattle.dv_time.specs.Time.{is_before};
ghost use Rattle.dv_board.specs.Posts.{IsPiece};
ghost use Rattle.dv_board.specs.Stretches.{AreByTime, AreInTurn, ended_past, is_joined, joined_in_turn, nothing_held};
ghost use Rattle.dv_board.specs.Stretches.{part_of, rest_of, start_past, with_piece};

use crate::posts::Piece;
use dv_merge::PartRefs;
use dv_time::Time;
use dv_written::{OfJob, WrittenPart};
use std::alloc::{AllocError, Global};
use std::collections::VecDeque;
use std::marker::Model;
use std::mem;

// Short pieces are joined to stretches of at most so many entries. To join copies an entry once; a
// full stretch takes some 5 kilobytes.
const ENTRIES_OF_A_STRETCH: usize = 64;

/// What a process committed from the end of the stretch before on, and before its own end.
#[derive(Drop)]
pub struct Stretch<N: OfJob> {
    /// Its end.
    pub upto: Time,
    /// The entries and the output lines.
    pub part: WrittenPart<N>,
}

/// What one process committed from some time on and before its clock, in stretches that follow one
/// another. A long piece is a stretch by itself, and a stretch is discarded as a whole. So what
/// waits takes the memory of its pieces, and long ones are not copied.
#[derive(Drop)]
pub struct Held<N: OfJob> {
    // Where the first stretch begins.
    from: Time,
    clock: Time,
    // The stretches to which nothing is joined any more.
    ended: VecDeque<Stretch<N>>,
    // The last stretch, up to the clock.
    last: WrittenPart<N>,
}

impl<N: OfJob> Model for Held<N> {
    ghost use Rattle.dv_board.specs.Stretches.{HeldOf};

    ghost Value = { HeldOf N };

    ghost view = { λ h. record
        { from = h.from; clock = h.clock; ended = h.ended.items; last = h.last } };
}

// Whether a part is short enough to be joined to the last stretch.
fn is_joined<N: OfJob>(last: &WrittenPart<N>, more: &WrittenPart<N>) -> bool
    ensures { result ≡ is_joined last.now more.now }
{
    let entries = last.entry_count();
    entries == 0 || more.entry_count() <= ENTRIES_OF_A_STRETCH.saturating_sub(entries)
}

// References to what stretches have from one time on and before another. The search ends at the
// first stretch that begins at the latter or later: a process that is far ahead has very many of
// these.
fn ended_between<'h, N: OfJob>(
    alloc: Global,
    ended: &'h VecDeque<Stretch<N>>,
    from: Time,
    upto: Time,
) -> Result<PartRefs<'h, N>, AllocError>
    requires { AreInTurn first_time ended.now.items }
    ensures { IfOk result (λ part.
        part ≡ since from (before upto (joined_in_turn nothing ended.now.items))) }
{
    let mut part = PartRefs::new(alloc);
    let mut start = Time::ZERO;
    for index in 0..ended.len() {
        if !start.is_before(upto) {
            return Ok(part);
        }
        part.append_between(alloc, &ended[index].part, from, upto)?;
        start = ended[index].upto;
    }
    Ok(part)
}

// Discards the first stretches, as far as they end at a time or before, and returns where the
// others begin.
fn let_go_ended<N: OfJob>(ended: &mut VecDeque<Stretch<N>>, from: Time, time: Time) -> Time
    ensures start { result ≡ start_past time from ended.old.items }
    ensures ended { ended.new.items ≡ ended_past time ended.old.items }
{
    let mut start = from;
    while let Some(first) = ended.front() {
        if time.is_before(first.upto) {
            return start;
        }
        start = first.upto;
        let _ = ended.pop_front();
    }
    start
}

// What a piece has from a time on. Mostly it begins there, and is taken as it is.
fn since<N: OfJob>(alloc: Global, piece: Piece<N>, time: Time) -> Result<WrittenPart<N>, AllocError>
    requires { IsPiece N.job piece }
    ensures { IfOk result (λ part. part ≡ since time piece.part) }
{
    if piece.from == time {
        return Ok(piece.part);
    }
    Ok(piece.part.since(alloc, time)?)
}

impl<N: OfJob> Held<N> {
    /// Nothing, of a process at 0.0.
    pub fn new(alloc: Global) -> Self
        ensures { result ≡ nothing_held }
    {
        Held {
            from: Time::ZERO,
            clock: Time::ZERO,
            ended: VecDeque::new(alloc),
            last: WrittenPart::new(alloc),
        }
    }

    /// The clock up to which the process is kept.
    pub fn clock(&self) -> Time
        ensures { result ≡ self.now.clock }
    {
        self.clock
    }

    /// How many bytes the lines have that are kept.
    pub fn byte_count(&self) -> usize {
        let mut bytes = self.last.byte_count();
        for index in 0..self.ended.len() {
            bytes = bytes.saturating_add(self.ended[index].part.byte_count());
        }
        bytes
    }

    /// References to what is kept from one time on and before another.
    ///
    /// # Errors
    ///
    /// No memory for the references, or for copies of output lines.
    pub fn between(
        &self,
        alloc: Global,
        from: Time,
        upto: Time,
    ) -> Result<PartRefs<'_, N>, AllocError>
        requires { AreByTime self.now }
        ensures { IfOk result (λ part. part ≡ since from (before upto (part_of self.now))) }
    {
        let mut part = ended_between(alloc, &self.ended, from, upto)?;
        part.append_between(alloc, &self.last, from, upto)?;
        Ok(part)
    }

    // Ends the last stretch at the clock, and begins another one with a part.
    fn end_last(&mut self, more: WrittenPart<N>) -> Result<(), AllocError>
        ensures ok { OnOk result (self.new ≡ record self.old {
          ended = self.old.ended ++ record { upto = self.old.clock; part = self.old.last } ∷ [];
          last = more;
        }) }
        ensures err { OnErr result (self.new ≡ self.old) }
    {
        self.ended.reserve(1)?;
        let part = mem::replace(&mut self.last, more);
        self.ended.push_back_reserved(Stretch {
            upto: self.clock,
            part,
        });
        Ok(())
    }

    /// Joins what a piece has from the clock on. The clock becomes the later of its own and the
    /// piece's.
    ///
    /// # Errors
    ///
    /// No memory for what is joined. Nothing has changed, and the piece is lost.
    pub fn join(&mut self, piece: Piece<N>) -> Result<(), AllocError>
        requires { IsPiece N.job piece }
        ensures ok { OnOk result (self.new ≡ with_piece self.old piece.part piece.clock) }
        ensures err { OnErr result (self.new ≡ self.old) }
        ensures more { OnErr result (is_before self.old.clock piece.clock ≡ true) }
    {
        let clock = piece.clock;
        if !self.clock.is_before(clock) {
            return Ok(());
        }
        let more = since(*self.ended.allocator(), piece, self.clock)?;
        if is_joined(&self.last, &more) {
            self.last.append(more)?;
        } else {
            self.end_last(more)?;
        }
        self.clock = clock;
        Ok(())
    }

    /// Discards the stretches that end at a time or before.
    pub fn let_go(&mut self, time: Time)
        ensures { self.new ≡ rest_of time self.old }
    {
        if time.is_before(self.clock) {
            self.from = let_go_ended(&mut self.ended, self.from, time);
            return;
        }
        let alloc = *self.ended.allocator();
        self.from = self.clock;
        self.ended.clear();
        self.last = WrittenPart::new(alloc);
    }
}
