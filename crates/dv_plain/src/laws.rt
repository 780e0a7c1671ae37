//! Laws of the networks of texts. A law is the contract of a function; the body only names the laws
//! that it rests on.

ghost use Rattle.std.specs.Prelude.{ℕ, [], length, replicate};
ghost use Rattle.dv_devs.specs.Idle.{BringsNothing, LeavesOnlyWhatIsSent};
ghost use Rattle.dv_devs.specs.NextTimes.{IsReady};
ghost use Rattle.dv_syntax.specs.Trees.{FileTree};
ghost use Rattle.dv_tree.specs.Instances.{root_inputs};
ghost use Rattle.dv_plain.specs.Source.{network_of};

use dv_tree::laws::nothing_comes_of_nothing;

/// The network of a text is ready for a run. If no component sends and nothing comes from outside,
/// nothing arrives. If no component sends, nothing leaves.
pub fn networks_of_texts()
    ensures ready { (limit : ℕ) (f : FileTree) → IsReady (network_of limit f) }
    ensures inputs { (limit : ℕ) (f : FileTree)
        → BringsNothing (network_of limit f) (replicate (length (root_inputs f)) []) }
    ensures outputs { (limit : ℕ) (f : FileTree) → LeavesOnlyWhatIsSent (network_of limit f) }
{
    // For the prover alone.
    nothing_comes_of_nothing();
}
