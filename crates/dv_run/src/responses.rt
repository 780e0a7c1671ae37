//! The responses of the processes of a text.

ghost use Rattle.std.specs.List.{All, range_with_len};
ghost use Rattle.std.specs.Prelude.{◌≡◌, None, map, IfOk};
ghost use Rattle.dv_bag.specs.Responses.{ticks_of};
ghost use Rattle.dv_check.specs.Refusals.{refusal_of};
ghost use Rattle.dv_check.specs.Writable.{IsWritable};
ghost use Rattle.dv_conservative.specs.Responses.{least_response};
ghost use Rattle.dv_gen.specs.ModelCode.{IsCompilableModel};
ghost use Rattle.dv_partition.specs.Groups.{owner_of};
ghost use Rattle.dv_syntax.specs.Trees.{ModelTree, file_of};
ghost use Rattle.dv_tree.specs.Instances.{instances};
ghost use Rattle.law_sound.specs.Jobs.{responses_of};

use crate::components::lone_components;
use dv_bag::Response;
use dv_check::laws::checked_files;
use dv_coded::Components;
use dv_gen::laws::accepted_files_are_compilable;
use dv_partition::Groups;
use dv_plan::responses::responses;
use dv_tree::Tree;
use std::alloc::{AllocError, Global};

/// The microstep limit under which components are made for their responses, which do not depend on
/// it.
const LIMIT: u32 = 20;

/// The response (lookahead) of each process of an accepted text: the least one of its components.
///
/// # Errors
///
/// No memory for the components, or for the list.
pub fn least_responses(
    alloc: Global,
    tree: &Tree,
    groups: &Groups,
) -> Result<Vec<Response>, AllocError>
    requires writable { IsWritable (file_of tree.now.file) }
    requires accepted { refusal_of (file_of tree.now.file) ≡ None }
    ensures { IfOk result (λ least. map ticks_of least.items
        ≡ map (λ p. least_response (owner_of groups.now) p 0
        (responses_of (instances (file_of tree.now.file))))
        (range_with_len 0 groups.now.processes)) }
{
    // For the prover alone: an accepted text has few components, and its atomic models have
    // programs.
    checked_files();
    accepted_files_are_compilable();
    let each = responses_of(alloc, tree)?;
    responses(alloc, groups, &each)
}

// The response of each component.
fn responses_of(alloc: Global, tree: &Tree) -> Result<Vec<Response>, AllocError>
    requires compilable { All (λ (m : ModelTree). IsCompilableModel m)
        (file_of tree.now.file).models }
    ensures { IfOk result (λ each. map ticks_of each.items
        ≡ responses_of (instances (file_of tree.now.file))) }
{
    let Components {
        models: _,
        members: _,
        responses,
    } = lone_components(alloc, tree, LIMIT)?;
    Ok(responses)
}
