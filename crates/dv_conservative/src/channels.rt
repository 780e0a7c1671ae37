//! The links between processes.

ghost use Rattle.std.specs.Prelude.{◌≡◌, ℕ, ◌<◌, Some, slice_get};
ghost use Rattle.dv_conservative.specs.Channels.{all_channels};
ghost use Rattle.dv_conservative.specs.Rounds.{AllHaveSources};
ghost use Rattle.dv_conservative.specs.Sound.{AllHeard, AreApart};
ghost use Rattle.dv_conservative.specs.World.{Channel, Job};

/// If there is a channel from one process to another wherever a link between components crosses,
/// each process receives from every other one that sends to it, from each by one channel; and each
/// channel leads from a process of the job to one.
pub fn channels_are_where_links_cross()
    ensures apart { (job : Job) → job.channels ≡ all_channels job.owner job.flat.links job.processes
        → (q : ℕ) → AreApart job q job.channels }
    ensures heard { (job : Job) → job.channels ≡ all_channels job.owner job.flat.links job.processes
        → ((k : ℕ) → job.owner k < job.processes) → (q : ℕ) → AllHeard job q job.flat.links }
    ensures sources { (job : Job)
        → job.channels ≡ all_channels job.owner job.flat.links job.processes
        → AllHaveSources job.processes job.channels }
    ensures ends { (job : Job) (l : ℕ) (c : Channel)
        → job.channels ≡ all_channels job.owner job.flat.links job.processes
        → slice_get job.channels l ≡ Some c
        → (c.source < job.processes) × (c.target < job.processes) }
{}
