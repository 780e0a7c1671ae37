//! Laws of cuts. Each function is the law in its contract.

ghost use Rattle.std.specs.Prelude.{◌≡◌, ℕ};
ghost use Rattle.dv_conservative.specs.World.{Job, share_of};
ghost use Rattle.dv_partition.specs.Groups.{owner_of};
ghost use Rattle.dv_share.specs.Links.{RiseByPort, RiseBySource};
ghost use Rattle.dv_plan.specs.Cuts.{CutOf, between, entrances_to, exits_from};

/// A cut of the model of a job has, of each process, the links that its share of the job has.
pub fn cuts_are_shares()
    ensures links { (job : Job) (c : CutOf) (p : ℕ) → job.owner ≡ owner_of c.grouping
        → job.flat.links ≡ c.direct
        → (share_of job p).flat.links ≡ between c p p }
    ensures entrances { (job : Job) (c : CutOf) (p : ℕ) → job.owner ≡ owner_of c.grouping
        → job.flat.entrances ≡ c.entrances → (share_of job p).flat.entrances ≡ entrances_to c p }
    ensures exits { (job : Job) (c : CutOf) (p : ℕ) → job.owner ≡ owner_of c.grouping
        → job.flat.exits ≡ c.exits
        → (share_of job p).flat.exits ≡ exits_from c p }
{}

/// If links are sorted by the ports that they lead from, so is each list of their cut.
pub fn cuts_rise()
    ensures between { (c : CutOf) (p q : ℕ) → RiseBySource c.direct → RiseBySource (between c p q) }
    ensures entrances { (c : CutOf) (p : ℕ) → RiseByPort c.entrances
        → RiseByPort (entrances_to c p) }
    ensures exits { (c : CutOf) (p : ℕ) → RiseBySource c.exits → RiseBySource (exits_from c p) }
{}
