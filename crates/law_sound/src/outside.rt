//! What leaves a text.

ghost use Rattle.std.specs.Prelude.{◌≡◌, ℕ, List, [], None, length, replicate};
ghost use Rattle.dv_bag.specs.Bag.{Counts};
ghost use Rattle.dv_bag.specs.declared.inputs.Input.{Input};
ghost use Rattle.dv_check.specs.Refusals.{refusal_of};
ghost use Rattle.dv_check.specs.Writable.{IsWritable};
ghost use Rattle.dv_conservative.specs.Flat.{whole};
ghost use Rattle.dv_devs.specs.Cuts.{RiseFrom};
ghost use Rattle.dv_devs.specs.Idle.{BringsNothing, LeavesOnlyWhatIsSent};
ghost use Rattle.dv_devs.specs.NextTimes.{IsReady};
ghost use Rattle.dv_devs.specs.Outside.{LeavesLinearly, SendsBags};
ghost use Rattle.dv_plain.specs.Source.{network_of, outside};
ghost use Rattle.dv_syntax.specs.Trees.{FileTree};
ghost use Rattle.dv_tree.specs.Instances.{root_inputs};
ghost use Rattle.law_compiled.specs.Networks.{compiled_network};
ghost use Rattle.law_sound.specs.Members.{flat_of};

use crate::jobs::parts_of_the_flat_model_are_those_of_the_text;
use dv_conservative::links::nothing_comes_of_nothing;
use dv_devs::laws::parts::counted_numbers_rise;
use dv_flat::laws::links_route_as_the_tree;
use dv_plain::laws::networks_of_texts;
use dv_tree::laws::routing_is_linear;
use law_accepted::laws::rules_send_bags;

/// The components of a text send bags, and what leaves it is linear in what they send; so what
/// leaves disjoint sets of components, united, is what leaves them together.
pub fn what_leaves_a_text_is_linear()
    ensures linear { (limit : ℕ) (f : FileTree) → LeavesLinearly (network_of limit f) }
    ensures bags { (limit : ℕ) (f : FileTree) (inputs : ℕ → List Counts) (n : ℕ)
        → SendsBags limit (network_of limit f) inputs n }
{
    routing_is_linear();
    rules_send_bags();
}

/// The same for a text as a flat model: it is ready for a run, with components in the order of
/// their numbers; they send bags; and what leaves was sent by a component, and is linear in what
/// they send.
pub fn what_leaves_a_flat_model_is_linear()
    ensures ready { (limit : ℕ) (f : FileTree) → IsReady (whole (flat_of limit f)) }
    ensures numbers { (limit : ℕ) (f : FileTree) → RiseFrom 0 (whole (flat_of limit f)).numbers }
    ensures outputs { (limit : ℕ) (f : FileTree)
        → LeavesOnlyWhatIsSent (whole (flat_of limit f)) }
    ensures linear { (limit : ℕ) (f : FileTree) → LeavesLinearly (whole (flat_of limit f)) }
    ensures bags { (f : FileTree) (inputs : List Input) (limit n : ℕ)
        → IsWritable f → refusal_of f ≡ None
        → SendsBags limit (whole (flat_of limit f)) (outside f limit inputs) n }
{
    what_leaves_a_text_is_linear();
    parts_of_the_flat_model_are_those_of_the_text();
    links_route_as_the_tree();
    nothing_comes_of_nothing();
    counted_numbers_rise();
}

/// The network of a text by its programs and links is ready for a run. If nothing is sent and
/// nothing comes from outside, nothing arrives; and what leaves was sent by a component.
pub fn compiled_networks_of_texts()
    ensures ready { (limit : ℕ) (f : FileTree) → IsReady (compiled_network limit f) }
    ensures inputs { (limit : ℕ) (f : FileTree)
        → BringsNothing (compiled_network limit f) (replicate (length (root_inputs f)) []) }
    ensures outputs { (limit : ℕ) (f : FileTree) → LeavesOnlyWhatIsSent (compiled_network limit f) }
{
    links_route_as_the_tree();
    networks_of_texts();
}
