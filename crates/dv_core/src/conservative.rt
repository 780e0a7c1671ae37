//! `Process` of `dv_proc` as a process of a world.

ghost use Rattle.dv_core.specs.Conservative.{IsConservative, state_by};

use crate::process::{LogicalProcess, ProcessHandsOver};
use dv_proc::{Local, LocalHandsOver, Packet, Process, Refused, Turned};
use dv_time::Time;
use dv_written::{OfJob, WrittenPart};
use std::alloc::AllocError;

impl<L: Local + Drop> LogicalProcess for Process<L> {
    type Work = L::Work;

    type Record = L::Record;

    ghost state = { state_by L.view };

    ghost handed = { λ p. L.handed p.local };

    ghost valid = { IsConservative L.view L.settled };

    fn turn(&mut self, work: &mut L::Work) -> Result<Turned, AllocError> {
        Process::turn(self, work)
    }

    fn receive(&mut self, packet: Packet) -> Result<(), (Refused, Packet)> {
        Process::receive(self, packet)
    }

    fn out(&self, link: u32) -> Option<&Packet> {
        Process::out(self, link)
    }

    fn sent(&mut self, link: u32) -> Packet {
        let Some(packet) = Process::sent(self, link) else {
            unreachable!()
        };
        packet
    }

    fn clock(&self) -> Time {
        Process::clock(self)
    }

    fn record(&self) -> &L::Record {
        Process::record(self)
    }

    fn let_go(&mut self) {
        Process::let_go(self);
    }

    fn finish(self) -> (L::Record, Time) {
        Process::into_record(self)
    }
}

impl<N: OfJob, L: LocalHandsOver<N> + Drop> ProcessHandsOver<N> for Process<L> {
    fn rest_length(&self) -> usize {
        Process::rest_length::<N>(self)
    }

    fn hand_over(&mut self) -> WrittenPart<N> {
        Process::hand_over(self)
    }
}
