//! Output lines, merged by time and port.

ghost use Rattle.std.specs.Prelude.{◌≡◌, ◌+◌, ◌<◌, ◌≤◌, ◌++◌, [], length, map, None, IfOk};
ghost use Rattle.std.specs.List.{All};
ghost use Rattle.std.specs.Option.{option_to_list};
ghost use Rattle.dv_conservative.specs.True.{united};
ghost use Rattle.dv_devs.specs.Outside.{line_cmp, union_of_lines};
ghost use Rattle.dv_merge.specs.Lines.{AreBoth, AreLines, list_at, merged_lines};

use dv_bag::Outer;
use std::alloc::{AllocError, Global};
use std::cmp::Ordering;
use std::collections::VecDeque;

// Compares by time and then by port.
fn compare(first: &Outer, second: &Outer) -> Ordering
    ensures { result ≡ line_cmp first.now second.now }
{
    first
        .time
        .cmp(&second.time)
        .then(first.port.cmp(&second.port))
}

// Takes the first line of each list and unites their values.
fn both_lines(
    first: &mut VecDeque<Outer>,
    second: &mut VecDeque<Outer>,
) -> Result<Option<Outer>, AllocError>
    requires first { 0 < length first.old.items }
    requires second { 0 < length second.old.items }
    ensures { IfOk result (λ line. AreBoth first.old.items second.old.items line first.new.items
        second.new.items) }
{
    let Some(mut line) = first.pop_front() else {
        return Ok(None);
    };
    let Some(other) = second.pop_front() else {
        return Ok(Some(line));
    };
    line.values.union(&other.values)?;
    Ok(Some(line))
}

// Takes the next line of two lists. If both have a line of its time and port, their values are
// united.
fn next_line(
    first: &mut VecDeque<Outer>,
    second: &mut VecDeque<Outer>,
) -> Result<Option<Outer>, AllocError>
    ensures next { IfOk result (λ line. merged_lines first.old.items second.old.items
        ≡ option_to_list line ++ merged_lines first.new.items second.new.items) }
    ensures none { IfOk result (λ line. line ≡ None
        → merged_lines first.new.items second.new.items ≡ []) }
    ensures less { IfOk result (λ line. (length first.new.items + length second.new.items)
        + length (option_to_list line)
        ≤ length first.old.items + length second.old.items) }
{
    if first.is_empty() {
        return Ok(second.pop_front());
    }
    if second.is_empty() {
        return Ok(first.pop_front());
    }
    match compare(&second[0], &first[0]) {
        Ordering::Less => Ok(second.pop_front()),
        Ordering::Equal => both_lines(first, second),
        Ordering::Greater => Ok(first.pop_front()),
    }
}

// Merges two lists.
fn unite_two(alloc: Global, first: Vec<Outer>, second: Vec<Outer>) -> Result<Vec<Outer>, AllocError>
    ensures { IfOk result (λ all. AreLines second.items
        → all.items ≡ union_of_lines first.items second.items) }
{
    let count = first.len() + second.len();
    let mut first = VecDeque::from_vec(first);
    let mut second = VecDeque::from_vec(second);
    let mut all = Vec::with_capacity(alloc, count)?;
    while let Some(line) = next_line(&mut first, &mut second)? {
        all.push_reserved(line);
    }
    Ok(all)
}

/// Merges lists by time and port. Lines of the same time and port become one. A single list is
/// returned as it is.
///
/// # Errors
///
/// No memory for the merged lists.
pub fn unite_lines(alloc: Global, mut lists: Vec<Vec<Outer>>) -> Result<Vec<Outer>, AllocError>
    ensures { let lines = map (λ list. list.items) lists.items in IfOk result (λ all.
        All AreLines lines → all.items ≡ united (list_at lines) (length lines)) }
{
    if lists.len() < 2 {
        return match lists.pop() {
            Some(list) => Ok(list),
            None => Ok(Vec::new(alloc)),
        };
    }
    let half = lists.len() / 2;
    let back = lists.split_off(half)?;
    let first = unite_lines(alloc, lists)?;
    let second = unite_lines(alloc, back)?;
    Ok(unite_two(alloc, first, second)?)
}
