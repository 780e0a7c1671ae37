//! Runs by programs and by rules.

ghost use Rattle.std.specs.Prelude.{◌≡◌, ℕ, List, None};
ghost use Rattle.dv_bag.specs.declared.inputs.Input.{Input};
ghost use Rattle.dv_check.specs.Refusals.{refusal_of};
ghost use Rattle.dv_check.specs.Writable.{IsWritable};
ghost use Rattle.dv_conservative.specs.World.{Reply, Step, World, new_world};
ghost use Rattle.dv_core.specs.Worlds.{EndsAs, IsRunWithProgress};
ghost use Rattle.dv_core.specs.declared.step.Ended.{Ended};
ghost use Rattle.dv_syntax.specs.Trees.{FileTree};
ghost use Rattle.law_sound.specs.Jobs.{job_of};
ghost use Rattle.law_rules.specs.Jobs.{job_by_rules};

use dv_gen::laws::accepted_files_are_compilable;
use law_accepted::laws::start_states_fit;
use law_compiled::laws::programs_behave_as_rules;

/// Whatever the processes of an accepted text do by its programs, they may do by its rules: rounds
/// lead to the same world and end the same, and so do steps in any order.
pub fn runs_by_programs_are_runs_by_rules()
    ensures rounds { (f : FileTree) (inputs : List Input)
        (limit horizon processes capacity rounds : ℕ)
        (owner : ℕ → ℕ) (ended : Ended) (w : World)
        → IsWritable f → refusal_of f ≡ None
        → EndsAs (job_of limit horizon f inputs processes owner) rounds ended
        (new_world capacity) w
        → EndsAs (job_by_rules limit horizon f inputs processes owner) rounds ended
        (new_world capacity) w }
    ensures steps { (f : FileTree) (inputs : List Input) (limit horizon processes capacity : ℕ)
        (owner : ℕ → ℕ) (steps : List (Step × Reply)) (w : World)
        → IsWritable f → refusal_of f ≡ None
        → IsRunWithProgress (job_of limit horizon f inputs processes owner) steps
        (new_world capacity) w
        → IsRunWithProgress (job_by_rules limit horizon f inputs processes owner) steps
        (new_world capacity) w }
{
    programs_behave_as_rules();
    accepted_files_are_compilable();
    start_states_fit();
}
