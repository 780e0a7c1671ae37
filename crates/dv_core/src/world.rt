//! Logical processes, the links between them, and their steps.

use crate::process::{LogicalProcess, PlannedJob, ProcessHandsOver};
use crate::state::WorldState;
use crate::step::{Ended, Reply, Step};
use dv_proc::Channel;
use dv_time::Time;
use dv_written::{OfJob, WrittenPart};
use std::alloc::{AllocError, Global};
use std::marker::Model;

/// The world of a job: its logical processes, the links between them with the packets on their way,
/// and which processes are stopped. Only steps change it.
#[derive(Drop)]
pub struct World<J: PlannedJob, P: LogicalProcess> {
    state: WorldState<J, P>,
}

impl<J: PlannedJob, P: LogicalProcess> Model for World<J, P> {
    ghost use Rattle.dv_core.specs.declared.state.WorldState.{WorldState};
    ghost use Rattle.dv_core.specs.Standing.{Stands};

    ghost Value = { WorldState J P };

    ghost view = { λ w. w.state };

    ghost invariant = { λ w. Stands J.means P.state P.valid w.state };
}

impl<J: PlannedJob, P: LogicalProcess> World<J, P> {
    ghost use Rattle.std.specs.Prelude.{◌≡◌, ◌≢◌, ◌+◌, ◌≤◌, ◌<◌, ℕ, ◌↔◌, IsTrue, IfOk, OnErr};
    ghost use Rattle.std.specs.Prelude.{map, length, slice_get, slice_set, Some, vec_len};
    ghost use Rattle.dv_time.specs.Time.{end_of};
    ghost use Rattle.dv_conservative.specs.World.{new_world};
    ghost use Rattle.dv_core.specs.Worlds.{AreMadeFor, AreTheTrace, EndsAs, IsAnswered, IsTrueToModel, IsWhole, kept_by, shown};
    ghost use Rattle.dv_core.specs.Worlds.{IsRunWithProgress, with_replies};
    ghost use Rattle.dv_core.specs.declared.step.Ended.TheVariants as ended;

    /// A new world: no packet is on its way, and no process is stopped. Links and processes are in
    /// the order of their numbers. `capacity` is how many packets may be on their way on each link.
    ///
    /// # Errors
    ///
    /// No memory for the world.
    pub fn new(
        alloc: Global,
        job: J,
        channels: Vec<Channel>,
        processes: Vec<P>,
        capacity: usize,
    ) -> Result<Self, AllocError>
        requires { AreMadeFor J.means P.state P.valid job channels.items processes.items }
        ensures fresh { IfOk result (λ w. shown J.means P.state w ≡ new_world capacity) }
        ensures job { IfOk result (λ w. w.job ≡ job) }
        ensures processes { IfOk result (λ w. w.processes ≡ processes) }
    {
        let state = WorldState::new(alloc, job, channels, processes, capacity)?;
        Ok(World { state })
    }

    /// Takes one step. The reply says whether it was done, and if not, why.
    pub fn step(&mut self, work: &mut P::Work, step: Step) -> Reply
        ensures { IsAnswered J.means P.state step result self.old self.new }
    {
        self.state.step(work, step)
    }

    /// Takes steps one after the other, and returns their replies. Each turn that is done makes
    /// progress. Afterwards every packet is true, each process has committed its part of the
    /// model's trace before its clock, and its components are as they are in the model just before
    /// its clock.
    ///
    /// # Errors
    ///
    /// No memory for the replies. No step was taken.
    pub fn run(
        &mut self,
        alloc: Global,
        work: &mut P::Work,
        steps: &[Step],
    ) -> Result<Vec<Reply>, AllocError>
        ensures run { IfOk result (λ replies. IsRunWithProgress (J.means self.old.job)
            (with_replies steps.now replies.items)
            (shown J.means P.state self.old) (shown J.means P.state self.new)) }
        ensures each { IfOk result (λ replies. vec_len replies ≡ length steps.now) }
        ensures none { OnErr result (self.new ≡ self.old) }
        ensures true_to_model { IsTrueToModel (J.means self.new.job) (kept_by P.state self.new) }
        ensures job { self.new.job ≡ self.old.job }
    {
        self.state.run(alloc, work, steps)
    }

    /// Whether every clock is at the end. Then the parts of all processes are the model's whole
    /// trace.
    pub fn whole(&self) -> bool
        ensures whole { IsTrue result
            ↔ IsWhole (J.means self.now.job) (shown J.means P.state self.now) }
        ensures trace { IsTrue result
            → AreTheTrace (J.means self.now.job) (map P.state self.now.processes.items) }
    {
        self.state.whole()
    }

    /// Makes rounds, at most so many, until every clock is at the end. A round is a turn of each
    /// process, then a put and a take on each link. From a new world one round more than there are
    /// times before the end is enough. If memory runs out, the rest of the round is left out; what
    /// was done stays, and more rounds can be made.
    pub fn serial(&mut self, work: &mut P::Work, limit: u64) -> Ended
        ensures rounds { EndsAs (J.means self.old.job) limit result
            (shown J.means P.state self.old) (shown J.means P.state self.new) }
        ensures enough { (capacity : ℕ) → shown J.means P.state self.old ≡ new_world capacity
            → 0 < capacity
            → end_of (J.means self.old.job).limit (J.means self.old.job).horizon + 1 ≤ limit
            → result ≢ ended.Stalled }
        ensures trace { result ≡ ended.Whole
            → AreTheTrace (J.means self.new.job) (map P.state self.new.processes.items) }
        ensures true_to_model { IsTrueToModel (J.means self.new.job) (kept_by P.state self.new) }
        ensures job { self.new.job ≡ self.old.job }
        ensures handed { map P.handed self.new.processes.items
            ≡ map P.handed self.old.processes.items }
    {
        self.state.serial(work, limit)
    }

    /// Discards the bytes of a process's record, which were handed over. Contracts see no other
    /// change.
    pub fn let_go(&mut self, process: u32)
        requires { process < (J.means self.old.job).processes }
        ensures job { self.new.job ≡ self.old.job }
        ensures kept { kept_by P.state self.new ≡ kept_by P.state self.old }
        ensures handed { (x : P) → slice_get self.old.processes.items process ≡ Some x
            → map P.handed self.new.processes.items
            ≡ slice_set (map P.handed self.old.processes.items) process
            (record (P.handed x) { text = (P.handed x).text_of (P.state x).part }) }
    {
        self.state.let_go(process);
    }

    /// The process with a number.
    pub fn process(&self, process: u32) -> &P
        requires { process < (J.means self.now.job).processes }
        ensures process { slice_get self.now.processes.items process ≡ Some result.now }
        ensures valid { P.valid result.now }
    {
        self.state.process(process)
    }

    /// All processes, by their numbers.
    pub fn processes(&self) -> &[P]
        ensures { result.now ≡ self.now.processes.items }
    {
        self.state.processes.as_slice()
    }

    /// The job.
    pub fn job(&self) -> &J
        ensures { result.now ≡ self.now.job }
    {
        self.state.job()
    }

    /// The record of each process, moved out, and the clock of each, by their numbers.
    ///
    /// # Errors
    ///
    /// No memory for the lists. The records are lost.
    pub fn finish(self, alloc: Global) -> Result<(Vec<P::Record>, Vec<Time>), AllocError>
        ensures told { IfOk result (λ r. map P.Record.told r.0.items
            ≡ map (λ x. (P.state x).part) self.processes.items) }
        ensures clocks { IfOk result (λ r. r.1.items
            ≡ map (λ x. (P.state x).position.clock) self.processes.items) }
    {
        self.state.finish(alloc)
    }
}

impl<J: PlannedJob, P: LogicalProcess> World<J, P> {
    ghost use Rattle.std.specs.Prelude.{◌≡◌, ◌<◌, Some, map, slice_get, slice_set};
    ghost use Rattle.dv_bag.specs.Part.{joined};
    ghost use Rattle.dv_core.specs.Worlds.{kept_by};

    /// Moves out what a process committed and did not hand over yet, as lines. Contracts see no
    /// other change.
    pub fn hand_over<N: OfJob>(&mut self, process: u32) -> WrittenPart<N>
    where
        P: ProcessHandsOver<N>,
        requires { process < (J.means self.old.job).processes }
        ensures job { self.new.job ≡ self.old.job }
        ensures kept { kept_by P.state self.new ≡ kept_by P.state self.old }
        ensures part { (x : P) → slice_get self.old.processes.items process ≡ Some x
            → (P.state x).part ≡ joined (P.handed x).past result }
        ensures handed { (x : P) → slice_get self.old.processes.items process ≡ Some x
            → map P.handed self.new.processes.items
            ≡ slice_set (map P.handed self.old.processes.items) process
            (record (P.handed x) { past = (P.state x).part }) }
    {
        self.state.hand_over(process)
    }
}
