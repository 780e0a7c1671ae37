//! What the processes of a text commit, together.

ghost use Rattle.std.specs.Prelude.{◌≡◌, ◌<◌, ℕ, List, None, Some, length, nat_eq, slice_get};
ghost use Rattle.dv_bag.specs.Part.{PartOf};
ghost use Rattle.dv_bag.specs.declared.inputs.Input.{Input};
ghost use Rattle.dv_check.specs.Refusals.{refusal_of};
ghost use Rattle.dv_check.specs.Writable.{IsWritable};
ghost use Rattle.dv_conservative.specs.Flat.{whole};
ghost use Rattle.dv_devs.specs.Parts.{part_before};
ghost use Rattle.dv_merge.specs.Whole.{AreCommitted};
ghost use Rattle.dv_plain.specs.Source.{network_of, outside};
ghost use Rattle.dv_syntax.specs.Trees.{FileTree};
ghost use Rattle.law_sound.specs.Members.{flat_of};

use crate::jobs::parts_of_the_flat_model_are_those_of_the_text;
use crate::outside::what_leaves_a_text_is_linear;
use dv_devs::laws::parts::counted_numbers_rise;
use dv_plain::laws::networks_of_texts;

/// Parts before one rank of the flat model of a text, one of each process, are what processes
/// commit of the run of the text itself; so, merged, they are the trace of the text before that
/// rank.
pub fn processes_commit_the_run_of_the_text()
    ensures { (f : FileTree) (inputs : List Input) (limit n : ℕ)
        (owner : ℕ → ℕ) (parts : List PartOf)
        → IsWritable f → refusal_of f ≡ None → ((k : ℕ) → owner k < length parts)
        → ((p : ℕ) (x : PartOf) → slice_get parts p ≡ Some x
        → x ≡ part_before (λ k. nat_eq (owner k) p) limit (whole (flat_of limit f))
        (outside f limit inputs) n)
        → AreCommitted limit (network_of limit f) (outside f limit inputs) owner n parts }
{
    parts_of_the_flat_model_are_those_of_the_text();
    what_leaves_a_text_is_linear();
    networks_of_texts();
    counted_numbers_rise();
}
