//! Runs whose turns make progress.

ghost use Rattle.std.specs.Prelude.{List};
ghost use Rattle.dv_conservative.specs.World.{IsRun, Job, Reply, Step, World};
ghost use Rattle.dv_core.specs.Worlds.{IsRunWithProgress};

/// A run whose turns make progress is a run. So what holds after every run holds after it.
pub fn runs_with_progress_are_runs()
    ensures { (job : Job) (steps : List (Step × Reply)) (w v : World)
        → IsRunWithProgress job steps w v → IsRun job steps w v }
{}
