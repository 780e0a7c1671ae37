//! The responses (lookaheads) of processes.

ghost use Rattle.std.specs.Prelude.{◌≡◌, ◌<◌, ◌≤◌, ◌^◌, None, length, map, replicate, slice_index_or, slice_set, IfOk};
ghost use Rattle.std.specs.List.{range_with_len};
ghost use Rattle.dv_bag.specs.Responses.{ticks_of};
ghost use Rattle.dv_conservative.specs.Responses.{least_response};
ghost use Rattle.dv_partition.specs.Groups.{owner_of};
ghost use Rattle.dv_time.specs.Time.{earlier};

use dv_bag::Response;
use dv_partition::Groups;
use std::alloc::{AllocError, Global};

/// The response of each process, which is the least one of its components, in one pass over the
/// components.
///
/// # Errors
///
/// No memory for the list.
pub fn responses(
    alloc: Global,
    groups: &Groups,
    components: &[Response],
) -> Result<Vec<Response>, AllocError>
    requires { length components.now ≤ 2 ^ 32 }
    ensures { IfOk result (λ found. map ticks_of found.items
        ≡ map (λ p. least_response (owner_of groups.now) p 0 (map ticks_of components.now))
        (range_with_len 0 groups.now.processes)) }
{
    let mut found = no_responses(alloc, groups.processes())?;
    for (component, response) in components.iter().enumerate() {
        lower(groups.owner(component as u32), *response, &mut found);
    }
    Ok(found)
}

fn no_responses(alloc: Global, count: usize) -> Result<Vec<Response>, AllocError>
    ensures { IfOk result (λ found. map ticks_of found.items ≡ replicate count None) }
{
    let mut found = Vec::with_capacity(alloc, count)?;
    for _ in 0..count {
        found.push(Response::Never)?;
    }
    Ok(found)
}

// Lowers the response of a process to that of a component, if that is less.
fn lower(process: u32, response: Response, responses: &mut Vec<Response>)
    ensures { map ticks_of responses.new.items
        ≡ slice_set (map ticks_of responses.old.items) process
        (earlier (slice_index_or (map ticks_of responses.old.items) process None)
        (ticks_of response)) }
{
    let index = process as usize;
    if index < responses.len() {
        let least = responses[index].sooner(response);
        responses[index] = least;
    }
}
