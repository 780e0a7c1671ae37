//! How many rounds are enough.

ghost use Rattle.std.specs.Prelude.{◌≡◌, ℕ, suc, ◌+◌, ◌<◌, ◌≤◌, min, List, Some, slice_get};
ghost use Rattle.dv_time.specs.Time.{end_of, rank};
ghost use Rattle.dv_conservative.specs.Process.{channel_clock};
ghost use Rattle.dv_conservative.specs.Rounds.{AllHaveSources, AreRounds};
ghost use Rattle.dv_conservative.specs.World.{Channel, IsRun, Job, Reply, Step, World, new_world, received_in};

/// After each round of a new world that has memory every channel clock is a rank further, and every
/// clock follows one rank behind; so one more round than there are ranks before the end brings all
/// clocks to the end.
pub fn rounds_are_enough()
    ensures clocks { (job : Job) (capacity k : ℕ) (w : World) → 0 < capacity
        → AllHaveSources job.processes job.channels
        → AreRounds job k (new_world capacity) w
        → (p : ℕ) → p < job.processes
        → min k (suc (end_of job.limit job.horizon)) ≤ suc (rank job.limit (w.clock p)) }
    ensures channel_clocks { (job : Job) (capacity k : ℕ) (w : World) → 0 < capacity
        → AllHaveSources job.processes job.channels
        → AreRounds job k (new_world capacity) w
        → (l : ℕ) (c : Channel) → slice_get job.channels l ≡ Some c
        → min k (end_of job.limit job.horizon) ≤ rank job.limit (channel_clock (received_in w l)) }
    ensures enough { (job : Job) (capacity k : ℕ) (w : World) → 0 < capacity
        → AllHaveSources job.processes job.channels
        → AreRounds job k (new_world capacity) w → end_of job.limit job.horizon + 1 ≤ k
        → (p : ℕ) → p < job.processes → w.clock p ≡ record { tick = job.horizon + 1; micro = 0 } }
{}

/// Rounds are a run of the world, so whatever is true after every run is true after them.
pub fn rounds_are_runs()
    ensures { (job : Job) (k : ℕ) (w v : World) → AreRounds job k w v
        → (steps : List (Step × Reply)) × IsRun job steps w v }
{}
