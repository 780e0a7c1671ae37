//! The traits of a world's processes and of their job.

ghost use Rattle.std.specs.Prelude.{◌≡◌, ◌≢◌, ◌≤◌, ℕ, None, Some, IfOk, IfErr, OnErr, OnOk, MatchOption};
ghost use Rattle.dv_bag.specs.Part.{joined};
ghost use Rattle.dv_conservative.specs.Process.{refusal_of};
ghost use Rattle.dv_conservative.specs.World.{Job};
ghost use Rattle.dv_proc.specs.Packets.{meant_packet};
ghost use Rattle.dv_proc.specs.Midway.{meant_turned};
ghost use Rattle.dv_proc.specs.Refusals.{meant_refusal};
ghost use Rattle.dv_record.specs.Told.{Handed};
ghost use Rattle.dv_time.specs.Limits.{greatest_tick};
ghost use Rattle.dv_written.specs.Rest.{rest_length};
ghost use Rattle.dv_core.specs.ProcessState.{IsReceived, IsSent, IsTurned, ProcessState};

use dv_proc::{Packet, Refused, Turned};
use dv_record::Record;
use dv_time::Time;
use dv_written::{OfJob, WrittenPart};
use std::alloc::AllocError;

/// A logical process, as a world sees it.
pub trait LogicalProcess: Drop {
    /// What a turn works with, such as the stack machine. A turn leaves nothing in it, so one
    /// serves all processes.
    type Work;

    /// The record that is told what the process commits.
    type Record: Record;

    /// Its state for contracts: the share, the components, the packets received, the position, and
    /// what was committed.
    ghost state: { Self → ProcessState };

    /// How the record writes what it is told, and what of that was handed over.
    ghost handed: { Self → Handed };

    /// The invariant that holds between calls.
    ghost valid: { Self → Type 0 };

    /// Takes a turn: commits at most one instant, raises the clock and prepares packets.
    ///
    /// # Errors
    ///
    /// No memory. The process is unchanged.
    fn turn(&mut self, work: &mut Self::Work) -> Result<Turned, AllocError>
        requires { valid self.old }
        ensures valid { valid self.new }
        ensures ok { IfOk result (λ answer. IsTurned (meant_turned answer)
            (state self.old) (state self.new)) }
        ensures err { OnErr result (state self.new ≡ state self.old) }
        ensures handed { handed self.new ≡ handed self.old };

    /// Receives a packet.
    ///
    /// # Errors
    ///
    /// The first test that the packet fails, or no memory. The packet is returned with it, and the
    /// process is unchanged.
    fn receive(&mut self, packet: Packet) -> Result<(), (Refused, Packet)>
        requires { valid self.old }
        ensures valid { valid self.new }
        ensures ok { OnOk result (IsReceived (meant_packet packet)
            (state self.old) (state self.new)) }
        ensures refused { IfErr result (λ e. meant_refusal e.0
            ≡ refusal_of (state self.old).share (state self.old).received
            (meant_packet packet)) }
        ensures unchanged { OnErr result (state self.new ≡ state self.old) }
        ensures handed_back { IfErr result (λ e. e.1 ≡ packet) }
        ensures handed { handed self.new ≡ handed self.old };

    /// The packet that is prepared for an outgoing link, if there is one.
    fn out(&self, link: u32) -> Option<&Packet>
        ensures { MatchOption result ((state self.now).position.standing link ≡ None)
            (λ p. (state self.now).position.standing link ≡ Some (meant_packet p.now)) };

    /// Takes the packet that is prepared for an outgoing link. There has to be one.
    fn sent(&mut self, link: u32) -> Packet
        requires valid { valid self.old }
        requires stands { (state self.old).position.standing link ≢ None }
        ensures valid { valid self.new }
        ensures packet { (state self.old).position.standing link ≡ Some (meant_packet result) }
        ensures sent { IsSent link (state self.old) (state self.new) }
        ensures handed { handed self.new ≡ handed self.old };

    /// The clock: every instant before it is committed.
    fn clock(&self) -> Time
        ensures { result ≡ (state self.now).position.clock };

    /// The record, which was told what was committed.
    fn record(&self) -> &Self::Record
        ensures told { Self.Record.told result.now ≡ (state self.now).part }
        ensures handed { Self.Record.handed result.now ≡ handed self.now };

    /// Discards the bytes of the record, which were handed over.
    fn let_go(&mut self)
        requires { valid self.old }
        ensures valid { valid self.new }
        ensures state { state self.new ≡ state self.old }
        ensures handed { handed self.new ≡ record (handed self.old) {
          text = (handed self.old).text_of (state self.old).part;
        } };

    /// The record, moved out, and the clock.
    fn finish(self) -> (Self::Record, Time)
        ensures told { Self.Record.told result.0 ≡ (state self).part }
        ensures clock { result.1 ≡ (state self).position.clock };
}

/// A logical process whose record hands over what it was told while the run goes on, as lines.
pub trait ProcessHandsOver<N: OfJob>: LogicalProcess {
    /// How many bytes the lines have that were committed and not handed over yet.
    fn rest_length(&self) -> usize
        ensures { result ≡ rest_length N.line (Self.handed self.now).past (Self.state self.now).part };

    /// Moves out what was committed and not handed over yet.
    fn hand_over(&mut self) -> WrittenPart<N>
        requires { Self.valid self.old }
        ensures valid { Self.valid self.new }
        ensures state { Self.state self.new ≡ Self.state self.old }
        ensures part { (Self.state self.old).part ≡ joined (Self.handed self.old).past result }
        ensures handed { Self.handed self.new
            ≡ record (Self.handed self.old) { past = (Self.state self.old).part } };
}

/// What is planned: a job, with its horizon.
pub trait PlannedJob: Drop {
    /// The job for contracts: a flat model, its processes, inputs and horizon.
    ghost means: { Self → Job };

    /// The last tick of the run.
    fn horizon(&self) -> u64
        ensures is { result ≡ (means self.now).horizon }
        ensures few { result ≤ greatest_tick };
}
