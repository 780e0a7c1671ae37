//! Texts as flat models.

ghost use Rattle.std.specs.Prelude.{◌≡◌, ℕ, ◌≤◌, List, None, length};
ghost use Rattle.dv_bag.specs.Bag.{Counts};
ghost use Rattle.dv_bag.specs.declared.inputs.Input.{Input};
ghost use Rattle.dv_check.specs.Refusals.{refusal_of};
ghost use Rattle.dv_check.specs.Writable.{IsWritable};
ghost use Rattle.dv_conservative.specs.Flat.{IsNumberedFrom, whole};
ghost use Rattle.dv_conservative.specs.Sound.{AllLead};
ghost use Rattle.dv_devs.specs.Network.{trace_before};
ghost use Rattle.dv_flat.specs.Carried.{arrives_by_links, leaves_by_links};
ghost use Rattle.dv_plain.specs.Source.{outside, trace_of};
ghost use Rattle.dv_syntax.specs.Trees.{FileTree};
ghost use Rattle.dv_time.specs.Time.{end_of};
ghost use Rattle.dv_tree.specs.Instances.{instances};
ghost use Rattle.law_sound.specs.Members.{flat_of};

use law_compiled::laws::the_compiled_model_is_the_model;

/// A text as a flat model routes as its links do, for everything that its components send.
pub fn flat_models_route_by_links()
    ensures arrives { (limit : ℕ) (f : FileTree) (sent : List (List Counts)) (input : List Counts)
        → length sent ≤ length (instances f)
        → (whole (flat_of limit f)).arrives sent input ≡ arrives_by_links f sent input }
    ensures leaves { (limit : ℕ) (f : FileTree) (sent : List (List Counts))
        → length sent ≤ length (instances f)
        → (whole (flat_of limit f)).leaves sent ≡ leaves_by_links f sent }
    ensures numbered { (limit : ℕ) (f : FileTree) → IsNumberedFrom 0 (flat_of limit f).members }
    ensures lead { (limit : ℕ) (f : FileTree)
        → AllLead (flat_of limit f).members (flat_of limit f).links }
{}

/// The flat model of an accepted text has the trace of the text.
pub fn the_flat_model_is_the_model()
    ensures { (f : FileTree) (inputs : List Input) (horizon limit : ℕ)
        → IsWritable f → refusal_of f ≡ None
        → trace_before limit (whole (flat_of limit f)) (outside f limit inputs)
        (end_of limit horizon)
        ≡ trace_of f inputs horizon limit }
{
    the_compiled_model_is_the_model();
}
