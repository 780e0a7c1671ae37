//! Lists of lists.

ghost use Rattle.std.specs.Prelude.{◌≡◌, [], map, replicate, IfOk};

use std::alloc::{AllocError, Global};

/// `count` empty lists.
///
/// # Errors
///
/// No memory for the list of them.
pub fn empty_lists<T: Drop>(alloc: Global, count: usize) -> Result<Vec<Vec<T>>, AllocError>
    ensures { IfOk result (λ lists. map (λ list. list.items) lists.items ≡ replicate count []) }
{
    let mut lists = Vec::with_capacity(alloc, count)?;
    for _ in 0..count {
        lists.push(Vec::new(alloc))?;
    }
    Ok(lists)
}
