//! The start of a process of a text.

ghost use Rattle.std.specs.Prelude.{◌≡◌, ◌<◌, ℕ, List, [], None, map};
ghost use Rattle.dv_bag.specs.Part.{nothing};
ghost use Rattle.dv_bag.specs.declared.inputs.Input.{Input};
ghost use Rattle.dv_check.specs.Refusals.{refusal_of};
ghost use Rattle.dv_check.specs.Writable.{IsWritable};
ghost use Rattle.dv_conservative.specs.Flat.{network};
ghost use Rattle.dv_conservative.specs.Process.{Outgoing};
ghost use Rattle.dv_conservative.specs.Sound.{IsSoundShare};
ghost use Rattle.dv_conservative.specs.World.{Job, share_of};
ghost use Rattle.dv_proc.specs.Arriving.{AreApart};
ghost use Rattle.dv_proc.specs.Local.{DeliverAlike, View};
ghost use Rattle.dv_proc.specs.Standing.{IsBegun};
ghost use Rattle.dv_syntax.specs.Trees.{FileTree};
ghost use Rattle.dv_tree.specs.Instances.{instances};
ghost use Rattle.law_sound.specs.Jobs.{AllInputNumbers, fits_number, job_of};

use crate::jobs::texts_are_jobs;
use dv_conservative::shares::processes_start_sound;
use dv_devs::laws::runs::holds_end_later;

/// A process of a text is sound: the states of its components fit them and hold numbers, and
/// numbers come from outside. If its components are in their start states, and nothing was
/// committed or received, the process has begun correctly, since no hold of a start state ends at
/// 0.0. The links to a process have different numbers, and so have those from it.
pub fn processes_of_texts_start_sound()
    ensures sound { (f : FileTree) (inputs : List Input)
        (limit horizon processes p : ℕ) (owner : ℕ → ℕ)
        → IsWritable f → refusal_of f ≡ None → AllInputNumbers inputs
        → ((k : ℕ) → owner k < processes)
        → IsSoundShare (fits_number (instances f))
        (share_of (job_of limit horizon f inputs processes owner) p) }
    ensures begun { (f : FileTree) (inputs : List Input) (limit horizon processes p : ℕ)
        (owner : ℕ → ℕ) (v : View)
        → v.share ≡ share_of (job_of limit horizon f inputs processes owner) p
        → v.components ≡ (network v.share.flat).start → v.committed ≡ nothing
        → ((n : ℕ) → DeliverAlike (v.held n) []) → IsBegun v }
    ensures apart_in { (job : Job) (p : ℕ) → AreApart (share_of job p).incoming }
    ensures apart_out { (job : Job) (p : ℕ)
        → AreApart (map (λ (o : Outgoing). o.number) (share_of job p).outgoing) }
{
    texts_are_jobs();
    processes_start_sound();
    holds_end_later();
}
