//! The start of the process of a share.

ghost use Rattle.std.specs.Prelude.{◌≡◌, ℕ, Bool, IsTrue, List, [], map};
ghost use Rattle.std.specs.List.{list_all};
ghost use Rattle.dv_bag.specs.declared.state.State.{State};
ghost use Rattle.dv_devs.specs.Cuts.{RiseFrom};
ghost use Rattle.dv_devs.specs.Fits.{AllFit, OnlyArrives};
ghost use Rattle.dv_devs.specs.Network.{emissions_at, trace_before};
ghost use Rattle.dv_devs.specs.NextTimes.{AllFrom, IsFrom, least_next};
ghost use Rattle.dv_conservative.specs.Events.{Event};
ghost use Rattle.dv_conservative.specs.Flat.{network, whole};
ghost use Rattle.dv_conservative.specs.Process.{Outgoing, Packet, Share, all_events, components_by, events_by, inputs_by, part_by};
ghost use Rattle.dv_conservative.specs.Sound.{AllReceivedNumbers, IsJob, IsSoundShare, are_of_numbers, by_index};
ghost use Rattle.dv_conservative.specs.World.{Job, share_of};

/// The components of a process of a job are sound, and numbers come to them from outside. None has
/// a next time before a rank if none of the whole model has. The links that lead to a process, and
/// those that lead away, are in the order of their numbers, each once.
pub fn processes_start_sound()
    ensures sound { (fits : ℕ → State → Bool) (job : Job) (p : ℕ) → IsJob fits job
        → IsSoundShare fits (share_of job p) }
    ensures later { (job : Job) (p n : ℕ) → AllFrom n (whole job.flat).start
        → IsFrom n (least_next (network (share_of job p).flat).start) }
    ensures incoming { (job : Job) (p : ℕ) → RiseFrom 0 (share_of job p).incoming }
    ensures outgoing { (job : Job) (p : ℕ)
        → RiseFrom 0 (map (λ (o : Outgoing). o.number) (share_of job p).outgoing) }
{}

/// If packets of numbers are received, a process has numbers of the language alone: at each rank
/// the states of its components fit, and before it only numbers arrive at them and are sent by
/// them.
pub fn numbers_stay_in_a_run()
    ensures states { (fits : ℕ → State → Bool) (s : Share) (received : ℕ → List Packet) (n : ℕ)
        → IsSoundShare fits s → AllReceivedNumbers received s.incoming
        → AllFit (by_index fits s.flat.members) 0 (components_by s (events_by received) n) }
    ensures arrive { (fits : ℕ → State → Bool) (s : Share) (received : ℕ → List Packet) (n : ℕ)
        → IsSoundShare fits s → AllReceivedNumbers received s.incoming
        → OnlyArrives are_of_numbers s.limit (network s.flat)
        (inputs_by s (events_by received)) n }
    ensures sent { (fits : ℕ → State → Bool) (s : Share) (received : ℕ → List Packet) (n : ℕ)
        → IsSoundShare fits s → AllReceivedNumbers received s.incoming
        → IsTrue (list_all are_of_numbers
        (emissions_at s.limit (network s.flat) (inputs_by s (events_by received)) n)) }
{}

/// A process that has all components receives from no other: without events it commits the whole
/// trace.
pub fn one_process_commits_the_trace()
    ensures { (job : Job) (p n : ℕ) (events : ℕ → List Event) → ((k : ℕ) → job.owner k ≡ p)
        → all_events (share_of job p).incoming events ≡ []
        → part_by (share_of job p) events n
        ≡ trace_before job.limit (whole job.flat) job.outside n }
{}
