//! Items by their keys, in one pass.

ghost use Rattle.std.specs.Prelude.{◌≡◌, [], map, length, replicate, IfOk, OnOk};
ghost use Rattle.std.specs.List.{range_with_len};
ghost use Rattle.dv_partition.specs.Steps.{with_item, with_key};

use std::alloc::{AllocError, Global};

/// The items by key: a list for each key below `count`, in the order of the items. Items with other
/// keys are dropped.
///
/// # Errors
///
/// No memory for the lists. The items are dropped.
pub fn by_key<T: Drop>(
    alloc: Global,
    count: usize,
    keys: &[u32],
    items: Vec<T>,
) -> Result<Vec<Vec<T>>, AllocError>
    requires { length keys.now ≡ length items.items }
    ensures { IfOk result (λ lists. map (λ list. list.items) lists.items
        ≡ map (λ key. with_key key keys.now items.items) (range_with_len 0 count)) }
{
    let mut lists = empty_lists(alloc, count)?;
    let mut rest = items.into_iter();
    for key in keys {
        if let Some(item) = rest.next() {
            add_item(*key, item, &mut lists)?;
        }
    }
    Ok(lists)
}

// Adds an item to the list of its key, if there is one.
fn add_item<T: Drop>(key: u32, item: T, lists: &mut Vec<Vec<T>>) -> Result<(), AllocError>
    ensures { OnOk result (map (λ list. list.items) lists.new.items
        ≡ with_item key item (map (λ list. list.items) lists.old.items)) }
{
    let index = key as usize;
    if index < lists.len() {
        lists[index].push(item)?;
    }
    Ok(())
}

fn empty_lists<T: Drop>(alloc: Global, count: usize) -> Result<Vec<Vec<T>>, AllocError>
    ensures { IfOk result (λ lists. map (λ list. list.items) lists.items ≡ replicate count []) }
{
    let mut lists = Vec::with_capacity(alloc, count)?;
    for _ in 0..count {
        lists.push(Vec::new(alloc))?;
    }
    Ok(lists)
}
