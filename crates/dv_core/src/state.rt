//! The state of a world, and what steps do to it.

ghost use Rattle.std.specs.Prelude.{◌≡◌, ◌≢◌, ◌+◌, ◌^◌, ◌≤◌, ◌<◌, ℕ, ◌↔◌, IsTrue, IfOk, OnErr, OnOk, map, [], length};
ghost use Rattle.std.specs.Prelude.{replicate, slice_get, slice_set, Some, vec_len, true, false};
ghost use Rattle.dv_bag.specs.Part.{joined};
ghost use Rattle.dv_conservative.specs.Rounds.{IsDriven, moves_from, round};
ghost use Rattle.dv_conservative.specs.World.{new_world};
ghost use Rattle.dv_proc.specs.Packets.{meant_packets};
ghost use Rattle.dv_time.specs.Time.{end_of};
ghost use Rattle.dv_core.specs.Worlds.{AreMadeFor, AreTheTrace, EndsAs, IsCut, IsRunWithProgress, IsTrueToModel, IsWhole};
ghost use Rattle.dv_core.specs.Worlds.{kept_by, shown, with_replies};
ghost use Rattle.dv_core.specs.Standing.{Continues, IsStepped, Stands};
ghost use Rattle.dv_core.specs.declared.step.Ended.TheVariants as ended;
ghost use Rattle.dv_core.specs.declared.step.Step.TheVariants as step;

use crate::process::{LogicalProcess, PlannedJob, ProcessHandsOver};
use crate::step::{Ended, Reply, Step};
use dv_proc::{Channel, Packet, Refused};
use dv_time::Time;
use dv_written::{OfJob, WrittenPart};
use std::alloc::{AllocError, Global};
use std::collections::VecDeque;

/// The state of a world. Processes and links are in the order of their numbers.
#[derive(Drop)]
pub struct WorldState<J, P> {
    /// The job.
    pub job: J,
    /// Which processes each link joins.
    pub channels: Vec<Channel>,
    /// The processes.
    pub processes: Vec<P>,
    /// Whether each process is stopped.
    pub stopped: Vec<bool>,
    /// The packets on their way on each link, the oldest first.
    pub queues: Vec<VecDeque<Packet>>,
    /// How many packets may be on their way on each link.
    pub capacity: usize,
}

impl<J: PlannedJob, P: LogicalProcess> WorldState<J, P> {
    /// A new world: no packet is on its way, and no process is stopped. `capacity` is how many
    /// packets may be on their way on each link.
    ///
    /// # Errors
    ///
    /// No memory for the world.
    pub fn new(
        alloc: Global,
        job: J,
        channels: Vec<Channel>,
        processes: Vec<P>,
        capacity: usize,
    ) -> Result<Self, AllocError>
        requires { AreMadeFor J.means P.state P.valid job channels.items processes.items }
        ensures fresh { IfOk result (λ w. shown J.means P.state w ≡ new_world capacity) }
        ensures stands { IfOk result (λ w. Stands J.means P.state P.valid w) }
        ensures job { IfOk result (λ w. w.job ≡ job) }
        ensures processes { IfOk result (λ w. w.processes ≡ processes) }
    {
        let stopped = vec![in alloc; false; processes.len()]?;
        let queues = empty_queues(alloc, channels.len())?;
        Ok(WorldState {
            job,
            channels,
            processes,
            stopped,
            queues,
            capacity,
        })
    }

    /// The record of each process, moved out, and the clock of each, by their numbers.
    ///
    /// # Errors
    ///
    /// No memory for the lists. The records are lost.
    pub fn finish(self, alloc: Global) -> Result<(Vec<P::Record>, Vec<Time>), AllocError>
        ensures told { IfOk result (λ r. map P.Record.told r.0.items
            ≡ map (λ x. (P.state x).part) self.processes.items) }
        ensures clocks { IfOk result (λ r. r.1.items
            ≡ map (λ x. (P.state x).position.clock) self.processes.items) }
    {
        let WorldState {
            job: _,
            channels: _,
            processes,
            stopped: _,
            queues: _,
            capacity: _,
        } = self;
        let mut records = Vec::with_capacity(alloc, processes.len())?;
        let mut clocks = Vec::with_capacity(alloc, processes.len())?;
        for process in processes {
            let (told, clock) = process.finish();
            records.push_reserved(told);
            clocks.push_reserved(clock);
        }
        Ok((records, clocks))
    }

    /// Lets a process take a turn.
    fn turn(&mut self, work: &mut P::Work, process: u32) -> Reply
        requires { Stands J.means P.state P.valid self.old }
        ensures stepped { IsStepped J.means P.state P.valid (step.Turn process) result
            self.old self.new }
        ensures handed { map P.handed self.new.processes.items
            ≡ map P.handed self.old.processes.items }
    {
        let index = process as usize;
        if index >= self.processes.len() {
            return Reply::Refused;
        }
        if self.stopped[index] {
            return Reply::Stopped;
        }
        let owner = &mut self.processes[index];
        let Ok(_answer) = owner.turn(work) else {
            return Reply::Memory;
        };
        Reply::Done
    }

    /// Puts the packet that the sender of a link prepared at the end of the link's queue.
    fn put(&mut self, link: u32) -> Reply
        requires { Stands J.means P.state P.valid self.old }
        ensures stepped { IsStepped J.means P.state P.valid (step.Put link) result
            self.old self.new }
        ensures handed { map P.handed self.new.processes.items
            ≡ map P.handed self.old.processes.items }
    {
        let index = link as usize;
        if index >= self.channels.len() {
            return Reply::Refused;
        }
        let source = self.channels[index].source as usize;
        if self.stopped[source] {
            return Reply::Stopped;
        }
        let Some(_standing) = self.processes[source].out(link) else {
            return Reply::Empty;
        };
        let queue = &mut self.queues[index];
        if queue.len() >= self.capacity {
            return Reply::Full;
        }
        let Ok(()) = queue.reserve(1) else {
            return Reply::Memory;
        };
        let sender = &mut self.processes[source];
        let packet = sender.sent(link);
        queue.push_back_reserved(packet);
        Reply::Done
    }

    /// Takes the first packet of a link's queue to the receiver.
    fn take(&mut self, link: u32) -> Reply
        requires { Stands J.means P.state P.valid self.old }
        ensures stepped { IsStepped J.means P.state P.valid (step.Take link) result
            self.old self.new }
        ensures handed { map P.handed self.new.processes.items
            ≡ map P.handed self.old.processes.items }
    {
        let index = link as usize;
        if index >= self.channels.len() {
            return Reply::Refused;
        }
        let target = self.channels[index].target as usize;
        if self.stopped[target] {
            return Reply::Stopped;
        }
        let queue = &mut self.queues[index];
        let Some(packet) = queue.pop_front() else {
            return Reply::Empty;
        };
        let receiver = &mut self.processes[target];
        match receiver.receive(packet) {
            Ok(()) => return Reply::Done,
            Err((refused, packet)) => {
                // A packet on its way is true, so no test refuses it.
                let Refused::NoMemory = refused else {
                    unreachable!()
                };
                queue.push_front_reserved(packet);
                return Reply::Memory;
            }
        }
    }

    /// Stops a process for the rest of the run.
    fn stop(&mut self, process: u32) -> Reply
        requires { Stands J.means P.state P.valid self.old }
        ensures { IsStepped J.means P.state P.valid (step.Stop process) result
            self.old self.new }
    {
        let index = process as usize;
        if index >= self.processes.len() {
            return Reply::Refused;
        }
        self.stopped[index] = true;
        Reply::Done
    }

    /// Takes one step.
    pub fn step(&mut self, work: &mut P::Work, step: Step) -> Reply
        requires { Stands J.means P.state P.valid self.old }
        ensures { IsStepped J.means P.state P.valid step result self.old self.new }
    {
        match step {
            Step::Turn(process) => self.turn(work, process),
            Step::Put(link) => self.put(link),
            Step::Take(link) => self.take(link),
            Step::Stop(process) => self.stop(process),
        }
    }

    /// Takes steps one after the other, and returns their replies. Each turn that is done makes
    /// progress. Afterwards every packet is true, each process has committed its part of the
    /// model's trace before its clock, and its components are as they are in the model just before
    /// its clock.
    ///
    /// # Errors
    ///
    /// No memory for the replies. No step was taken.
    pub fn run(
        &mut self,
        alloc: Global,
        work: &mut P::Work,
        steps: &[Step],
    ) -> Result<Vec<Reply>, AllocError>
        requires { Stands J.means P.state P.valid self.old }
        ensures run { IfOk result (λ replies. IsRunWithProgress (J.means self.old.job)
            (with_replies steps.now replies.items)
            (shown J.means P.state self.old) (shown J.means P.state self.new)) }
        ensures each { IfOk result (λ replies. vec_len replies ≡ length steps.now) }
        ensures none { OnErr result (self.new ≡ self.old) }
        ensures true_to_model { IsTrueToModel (J.means self.new.job) (kept_by P.state self.new) }
        ensures job { self.new.job ≡ self.old.job }
        ensures stands { Stands J.means P.state P.valid self.new }
    {
        let mut replies = Vec::with_capacity(alloc, steps.len())?;
        for step in steps {
            let reply = self.step(work, *step);
            replies.push_reserved(reply);
        }
        Ok(replies)
    }

    /// Whether every clock is at the end. Then the parts of all processes are the model's whole
    /// trace.
    pub fn whole(&self) -> bool
        requires { Stands J.means P.state P.valid self.now }
        ensures whole { IsTrue result
            ↔ IsWhole (J.means self.now.job) (shown J.means P.state self.now) }
        ensures trace { IsTrue result
            → AreTheTrace (J.means self.now.job) (map P.state self.now.processes.items) }
    {
        let end = self.job.horizon() + 1;
        for process in &self.processes {
            let clock = process.clock();
            if clock.tick != end {
                return false;
            }
            if clock.micro != 0 {
                return false;
            }
        }
        true
    }

    /// Lets each process take a turn, in order. Returns whether memory sufficed for all of them.
    fn turns(&mut self, work: &mut P::Work) -> bool
        requires { Stands J.means P.state P.valid self.old }
        ensures done { result ≡ true → Continues (J.means self.old.job)
            (round (J.means self.old.job)) (moves_from 0 (J.means self.old.job).channels)
            (shown J.means P.state self.old) (shown J.means P.state self.new) }
        ensures cut { result ≡ false → IsCut (J.means self.old.job)
            (round (J.means self.old.job))
            (shown J.means P.state self.old) (shown J.means P.state self.new) }
        ensures job { self.new.job ≡ self.old.job }
        ensures stands { Stands J.means P.state P.valid self.new }
        ensures handed { map P.handed self.new.processes.items
            ≡ map P.handed self.old.processes.items }
    {
        let count = self.processes.len() as u32;
        for process in 0..count {
            if let Reply::Memory = self.turn(work, process) {
                return false;
            }
        }
        true
    }

    /// Makes a put and a take on each link, in order. Returns whether memory sufficed for all of
    /// them.
    fn moves(&mut self) -> bool
        requires { Stands J.means P.state P.valid self.old }
        ensures done { result ≡ true → IsDriven (J.means self.old.job)
            (moves_from 0 (J.means self.old.job).channels)
            (shown J.means P.state self.old) (shown J.means P.state self.new) }
        ensures cut { result ≡ false → IsCut (J.means self.old.job)
            (moves_from 0 (J.means self.old.job).channels)
            (shown J.means P.state self.old) (shown J.means P.state self.new) }
        ensures job { self.new.job ≡ self.old.job }
        ensures stands { Stands J.means P.state P.valid self.new }
        ensures handed { map P.handed self.new.processes.items
            ≡ map P.handed self.old.processes.items }
    {
        let count = self.channels.len() as u32;
        for link in 0..count {
            if let Reply::Memory = self.put(link) {
                return false;
            }
            if let Reply::Memory = self.take(link) {
                return false;
            }
        }
        true
    }

    /// Makes one round. Returns whether memory sufficed for it.
    fn round(&mut self, work: &mut P::Work) -> bool
        requires { Stands J.means P.state P.valid self.old }
        ensures done { result ≡ true → IsDriven (J.means self.old.job)
            (round (J.means self.old.job))
            (shown J.means P.state self.old) (shown J.means P.state self.new) }
        ensures cut { result ≡ false → IsCut (J.means self.old.job)
            (round (J.means self.old.job))
            (shown J.means P.state self.old) (shown J.means P.state self.new) }
        ensures job { self.new.job ≡ self.old.job }
        ensures stands { Stands J.means P.state P.valid self.new }
        ensures handed { map P.handed self.new.processes.items
            ≡ map P.handed self.old.processes.items }
    {
        if !self.turns(work) {
            return false;
        }
        self.moves()
    }

    /// Makes rounds, at most so many, until every clock is at the end. From a new world one round
    /// more than there are times before the end is enough. If memory runs out, the rest of the
    /// round is left out; what was done stays.
    pub fn serial(&mut self, work: &mut P::Work, limit: u64) -> Ended
        requires { Stands J.means P.state P.valid self.old }
        ensures rounds { EndsAs (J.means self.old.job) limit result
            (shown J.means P.state self.old) (shown J.means P.state self.new) }
        ensures enough { (capacity : ℕ) → shown J.means P.state self.old ≡ new_world capacity
            → 0 < capacity
            → end_of (J.means self.old.job).limit (J.means self.old.job).horizon + 1 ≤ limit
            → result ≢ ended.Stalled }
        ensures trace { result ≡ ended.Whole
            → AreTheTrace (J.means self.new.job) (map P.state self.new.processes.items) }
        ensures true_to_model { IsTrueToModel (J.means self.new.job) (kept_by P.state self.new) }
        ensures job { self.new.job ≡ self.old.job }
        ensures stands { Stands J.means P.state P.valid self.new }
        ensures handed { map P.handed self.new.processes.items
            ≡ map P.handed self.old.processes.items }
    {
        for _done in 0..limit {
            if self.whole() {
                return Ended::Whole;
            }
            if !self.round(work) {
                return Ended::Memory;
            }
        }
        if self.whole() {
            return Ended::Whole;
        }
        Ended::Stalled
    }

    /// Discards the bytes of a process's record, which were handed over.
    pub fn let_go(&mut self, process: u32)
        requires stands { Stands J.means P.state P.valid self.old }
        requires process { process < vec_len self.old.processes }
        ensures stands { Stands J.means P.state P.valid self.new }
        ensures job { self.new.job ≡ self.old.job }
        ensures kept { kept_by P.state self.new ≡ kept_by P.state self.old }
        ensures handed { (x : P) → slice_get self.old.processes.items process ≡ Some x
            → map P.handed self.new.processes.items
            ≡ slice_set (map P.handed self.old.processes.items) process
            (record (P.handed x) { text = (P.handed x).text_of (P.state x).part }) }
    {
        let owner = &mut self.processes[process as usize];
        owner.let_go();
    }

    /// The process with a number.
    pub fn process(&self, process: u32) -> &P
        requires { process < vec_len self.now.processes }
        ensures { slice_get self.now.processes.items process ≡ Some result.now }
    {
        &self.processes[process as usize]
    }

    /// The job.
    pub fn job(&self) -> &J
        ensures { result.now ≡ self.now.job }
    {
        &self.job
    }
}

impl<J: PlannedJob, P: LogicalProcess> WorldState<J, P> {
    /// Moves out what a process committed and did not hand over yet, as lines.
    pub fn hand_over<N: OfJob>(&mut self, process: u32) -> WrittenPart<N>
    where
        P: ProcessHandsOver<N>,
        requires stands { Stands J.means P.state P.valid self.old }
        requires process { process < vec_len self.old.processes }
        ensures stands { Stands J.means P.state P.valid self.new }
        ensures job { self.new.job ≡ self.old.job }
        ensures kept { kept_by P.state self.new ≡ kept_by P.state self.old }
        ensures part { (x : P) → slice_get self.old.processes.items process ≡ Some x
            → (P.state x).part ≡ joined (P.handed x).past result }
        ensures handed { (x : P) → slice_get self.old.processes.items process ≡ Some x
            → map P.handed self.new.processes.items
            ≡ slice_set (map P.handed self.old.processes.items) process
            (record (P.handed x) { past = (P.state x).part }) }
    {
        let owner = &mut self.processes[process as usize];
        owner.hand_over()
    }
}

// So many empty queues.
fn empty_queues(alloc: Global, count: usize) -> Result<Vec<VecDeque<Packet>>, AllocError>
    ensures { IfOk result (λ queues. map (λ q. meant_packets q.items) queues.items
        ≡ replicate count []) }
{
    let mut queues = Vec::with_capacity(alloc, count)?;
    for _made in 0..count {
        queues.push_reserved(VecDeque::new(alloc));
    }
    Ok(queues)
}
