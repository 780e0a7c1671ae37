//! All runs of processes that exchange packets.

ghost use Rattle.std.specs.Prelude.{◌≡◌, ℕ, ◌+◌, ◌<◌, ◌≤◌, Bool, List, ◌∷◌, Some, None, length, nat_eq, slice_get};
ghost use Rattle.std.specs.List.{filter};
ghost use Rattle.dv_bag.specs.declared.state.State.{State};
ghost use Rattle.dv_bag.specs.declared.entry.Entry.{Entry};
ghost use Rattle.dv_devs.specs.Idle.{LeavesOnlyWhatIsSent};
ghost use Rattle.dv_devs.specs.Network.{Network, components_at, trace_before};
ghost use Rattle.dv_devs.specs.NextTimes.{IsReady};
ghost use Rattle.dv_devs.specs.Outside.{LeavesLinearly, SendsBags};
ghost use Rattle.dv_devs.specs.Parts.{part_before};
ghost use Rattle.dv_time.specs.Time.{end_of, rank};
ghost use Rattle.dv_conservative.specs.Flat.{kept, numbers, whole};
ghost use Rattle.dv_conservative.specs.Process.{IsWithin, Packet, components_by, events_by, first_time, least_clock, part_by, refusal_of};
ghost use Rattle.dv_conservative.specs.Sound.{IsJob};
ghost use Rattle.dv_conservative.specs.True.{AreTrue, united};
ghost use Rattle.dv_conservative.specs.World.{Channel, IsRun, Job, Reply, Step, World, all_of, new_world, owned, received_in, share_of};

/// After any steps in any order, with refused ones and stops among them: every packet is true and
/// continues the one before it; no clock passes a channel clock or the end; each process is where
/// its part of the whole run is before its clock, and has committed exactly its part of the trace
/// before its clock.
pub fn every_process_commits_its_part()
    ensures packets { (fits : ℕ → State → Bool) (job : Job) (capacity : ℕ)
        (steps : List (Step × Reply)) (w : World)
        → IsJob fits job → IsRun job steps (new_world capacity) w
        → (l : ℕ) (c : Channel) → slice_get job.channels l ≡ Some c
        → AreTrue job l c first_time (all_of (w.link l)) }
    ensures clocks { (fits : ℕ → State → Bool) (job : Job) (capacity : ℕ)
        (steps : List (Step × Reply)) (w : World)
        → IsJob fits job → IsRun job steps (new_world capacity) w
        → (p : ℕ) → rank job.limit (w.clock p) ≤ least_clock (share_of job p) (received_in w) }
    ensures within { (fits : ℕ → State → Bool) (job : Job) (capacity : ℕ)
        (steps : List (Step × Reply)) (w : World)
        → IsJob fits job → IsRun job steps (new_world capacity) w
        → (p : ℕ) → IsWithin (share_of job p) (w.clock p) }
    ensures components { (fits : ℕ → State → Bool) (job : Job) (capacity : ℕ)
        (steps : List (Step × Reply)) (w : World)
        → IsJob fits job → IsRun job steps (new_world capacity) w
        → (p : ℕ) → let n = rank job.limit (w.clock p) in
        components_by (share_of job p) (events_by (received_in w)) n
        ≡ kept (owned job p) (numbers job.flat.members)
        (components_at job.limit (whole job.flat) job.outside n) }
    ensures part { (fits : ℕ → State → Bool) (job : Job) (capacity : ℕ)
        (steps : List (Step × Reply)) (w : World)
        → IsJob fits job → IsRun job steps (new_world capacity) w
        → (p : ℕ) → let n = rank job.limit (w.clock p) in
        part_by (share_of job p) (events_by (received_in w)) n
        ≡ part_before (owned job p) job.limit (whole job.flat) job.outside n }
{}

/// A link never carries more packets than there are times before the end.
pub fn links_carry_few_packets()
    ensures { (fits : ℕ → State → Bool) (job : Job) (capacity : ℕ) (steps : List (Step × Reply))
        (w : World)
        → IsJob fits job → IsRun job steps (new_world capacity) w
        → (l : ℕ) (c : Channel) → slice_get job.channels l ≡ Some c
        → length (all_of (w.link l)) ≤ end_of job.limit job.horizon }
{}

/// A packet that is taken is never refused.
pub fn no_packet_is_refused()
    ensures { (fits : ℕ → State → Bool) (job : Job) (capacity : ℕ) (steps : List (Step × Reply))
        (w : World)
        → IsJob fits job → IsRun job steps (new_world capacity) w
        → (l : ℕ) (c : Channel) (p : Packet) (rest : List Packet)
        → slice_get job.channels l ≡ Some c
        → (w.link l).queued ≡ p ∷ rest
        → refusal_of (share_of job c.target) (received_in w) p ≡ None }
{}

/// If every clock is at the end, each process has committed its part of the whole trace.
pub fn a_whole_run_is_the_trace()
    ensures { (fits : ℕ → State → Bool) (job : Job) (capacity : ℕ) (steps : List (Step × Reply))
        (w : World) (p : ℕ)
        → IsJob fits job → IsRun job steps (new_world capacity) w
        → w.clock p ≡ record { tick = job.horizon + 1; micro = 0 }
        → part_by (share_of job p) (events_by (received_in w)) (end_of job.limit job.horizon)
        ≡ part_before (owned job p) job.limit (whole job.flat) job.outside
        (end_of job.limit job.horizon) }
{}

/// The parts of all processes are the trace: each has the entries of its components, and what
/// leaves all of them, united by time and port, is what leaves the model.
pub fn parts_of_processes_are_the_trace<I>()
    ensures entries { (limit : ℕ) (net : Network I) (inputs : ℕ → I) (owner : ℕ → ℕ) (n p : ℕ)
        → (part_before (λ k. nat_eq (owner k) p) limit net inputs n).entries
        ≡ filter (λ (e : Entry). nat_eq (owner e.component) p)
        (trace_before limit net inputs n).entries }
    ensures outer { (limit : ℕ) (net : Network I) (inputs : ℕ → I) (owner : ℕ → ℕ) (n processes : ℕ)
        → IsReady net → LeavesOnlyWhatIsSent net → LeavesLinearly net → SendsBags limit net inputs n
        → ((k : ℕ) → owner k < processes)
        → united (λ p. (part_before (λ k. nat_eq (owner k) p) limit net inputs n).outer) processes
        ≡ (trace_before limit net inputs n).outer }
{}
