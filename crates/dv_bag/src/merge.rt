//! Two bags merged in the order of their values.

ghost use Rattle.std.specs.Prelude.{◌≡◌, ◌+◌, ◌<◌, ◌∷◌, [], length, IfOk, IfSome, None};
ghost use Rattle.dv_bag.specs.Bag.{IsBag, union};

use smallvec::SmallVec;
use std::alloc::{AllocError, Global};
use std::cmp::Ordering;

/// The pairs of the union of two bags. Takes time and memory for the pairs of both.
///
/// # Errors
///
/// No memory for the pairs.
pub fn merged<'a>(
    alloc: Global,
    mut first: &'a [(i64, u64)],
    mut second: &'a [(i64, u64)],
) -> Result<SmallVec<(i64, u64), 1>, AllocError>
    requires first { IsBag first.now }
    requires second { IsBag second.now }
    ensures { IfOk result (λ pairs. pairs.items ≡ union first.now second.now) }
{
    let mut pairs = SmallVec::with_capacity(alloc, first.len().saturating_add(second.len()))?;
    while let Some(next) = next_pair(first, second) {
        pairs.push(next.pair)?;
        first = next.first;
        second = next.second;
    }
    Ok(pairs)
}

// The least pair of two bags, and the pairs of both that remain.
#[derive(Clone, Copy)]
struct Next<'a> {
    pair: (i64, u64),
    first: &'a [(i64, u64)],
    second: &'a [(i64, u64)],
}

// Adds the copies of a value that both bags have.
fn next_pair<'a>(first: &'a [(i64, u64)], second: &'a [(i64, u64)]) -> Option<Next<'a>>
    requires first { IsBag first.now }
    requires second { IsBag second.now }
    ensures next { IfSome result (λ next. union first.now second.now
        ≡ next.pair ∷ union next.first.now next.second.now) }
    ensures first { IfSome result (λ next. IsBag next.first.now) }
    ensures second { IfSome result (λ next. IsBag next.second.now) }
    ensures less { IfSome result (λ next. length next.first.now + length next.second.now
        < length first.now + length second.now) }
    ensures none { result ≡ None → union first.now second.now ≡ [] }
{
    match (first, second) {
        ([], []) => None,
        ([pair, rest @ ..], []) => Some(Next {
            pair: *pair,
            first: rest,
            second,
        }),
        ([], [other, rest @ ..]) => Some(Next {
            pair: *other,
            first,
            second: rest,
        }),
        ([pair, rest @ ..], [other, others @ ..]) => Some(match pair.0.cmp(&other.0) {
            Ordering::Less => Next {
                pair: *pair,
                first: rest,
                second,
            },
            Ordering::Equal => Next {
                pair: (pair.0, pair.1.saturating_add(other.1)),
                first: rest,
                second: others,
            },
            Ordering::Greater => Next {
                pair: *other,
                first,
                second: others,
            },
        }),
    }
}
