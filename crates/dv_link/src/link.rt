//! A link and its two passes.

ghost use Rattle.std.specs.Prelude.{◌≡◌, ◌<◌, true, [], IfOk, MatchResult, MatchOption};
ghost use Rattle.crossbeam_queue.specs.Passes.{view, IsPassOf};
ghost use Rattle.dv_proc.specs.Packets.{meant_packets};
ghost use Rattle.dv_link.specs.Views.{end_view};
ghost use Rattle.dv_link.specs.Carries.{AreTrueOn, IsLinkOf, IsNextOn};
ghost use Rattle.dv_link.specs.Ends.{IsSendPassOf, IsTakePassOf, after_put, after_take, capacity as capacity_of};
ghost use Rattle.dv_link.specs.Ends.{new_receiver, new_sender, receiver, sender};

use crate::rule::{EndView, Ends, OfLink, Puts, Relay, Takes};
use crossbeam_queue::{Pass, RuledArrayQueue};
use dv_proc::Packet;
use dv_written::OfJob;
use std::alloc::{AllocError, Global};
use std::marker::Brand;
use std::sync::Wait;

type Line<N> = RuledArrayQueue<Packet, EndView, Relay<N>>;

/// A link of a job, which threads share by reference. It is a queue of a fixed capacity, in
/// packets.
#[derive(Drop)]
pub struct Link<N: OfJob> {
    line: Line<N>,
}

/// The right to put packets on a link. It takes no memory.
#[derive(Drop)]
pub struct SendPass {
    pass: Pass<Packet, EndView>,
}

/// The right to take packets from a link. It takes no memory.
#[derive(Drop)]
pub struct TakePass {
    pass: Pass<Packet, EndView>,
}

/// A packet for which a link had no room.
#[derive(Drop)]
pub struct Full<T> {
    /// The packet.
    pub value: T,
}

// Splits the pass of a new queue into those of its two ends.
fn ends<N: OfJob, L: OfLink>(
    line: &Line<N>,
    mut pass: Pass<Packet, EndView>,
    link: u32,
) -> (Pass<Packet, EndView>, Pass<Packet, EndView>)
    requires number { L.link ≡ link }
    requires new { IsPassOf line.now pass × (view pass ≡ end_view 0 true true [] []) }
    ensures sender { IsPassOf line.now result.0 × (view result.0 ≡ new_sender link) }
    ensures receiver { IsPassOf line.now result.1 × (view result.1 ≡ new_receiver link) }
{
    let _ = link;
    let taker = line.another::<Ends<L>>(&mut pass);
    (pass, taker)
}

impl<N: OfJob> Link<N> {
    /// An empty link with a number that the job has, with room for so many packets, and the passes
    /// of its two ends.
    ///
    /// # Errors
    ///
    /// No memory for the queue.
    pub fn new(
        alloc: Global,
        link: u32,
        capacity: usize,
    ) -> Result<(Self, SendPass, TakePass), AllocError>
        requires channel { IsLinkOf N.job link }
        requires capacity { 0 < capacity }
        ensures capacity { IfOk result (λ r. capacity_of r.0 ≡ capacity) }
        ensures sender { IfOk result (λ r. IsSendPassOf r.0 r.1 × (sender r.1 ≡ new_sender link)) }
        ensures receiver { IfOk result (λ r. IsTakePassOf r.0 r.2
            × (receiver r.2 ≡ new_receiver link)) }
    {
        let (line, pass) = Line::<N>::ruled(alloc, capacity)?;
        let (send, take) = ends::<N, Brand>(&line, pass, link);
        Ok((
            Link { line },
            SendPass { pass: send },
            TakePass { pass: take },
        ))
    }

    /// Puts a packet at the end of the queue. It has to be the next true one: its window begins
    /// where that of the last packet ended, and its events are exactly those that cross within it.
    ///
    /// # Errors
    ///
    /// `Full`, with the packet, if there is no room for it.
    pub fn put<R: Wait>(
        &self,
        rt: &R,
        pass: &mut SendPass,
        packet: Packet,
    ) -> Result<(), Full<Packet>>
        requires link { IsSendPassOf self.now pass.old }
        requires next { IsNextOn N.job (sender pass.old).link (sender pass.old).put packet }
        ensures link { IsSendPassOf self.now pass.new }
        ensures put { MatchResult result
            (λ _. sender pass.new ≡ after_put (sender pass.old) packet)
            (λ e. (e.value ≡ packet) × (sender pass.new ≡ sender pass.old)) }
    {
        match self.line.push_as::<Puts, R>(rt, &mut pass.pass, packet) {
            Ok(()) => Ok(()),
            Err(value) => Err(Full { value }),
        }
    }

    /// Takes the first packet of the queue, if there is one. All packets that were taken are true,
    /// and their windows follow one another from 0.0 on.
    pub fn take<R: Wait>(&self, rt: &R, pass: &mut TakePass) -> Option<Packet>
        requires link { IsTakePassOf self.now pass.old }
        requires channel { IsLinkOf N.job (receiver pass.old).link }
        ensures link { IsTakePassOf self.now pass.new }
        ensures taken { MatchOption result (receiver pass.new ≡ receiver pass.old)
            (λ p. receiver pass.new ≡ after_take (receiver pass.old) p) }
        ensures all_true { AreTrueOn N.job (receiver pass.new).link
            (meant_packets (receiver pass.new).taken) }
    {
        self.line.pop_as::<Takes<N>, R>(rt, &mut pass.pass)
    }
}
