//! Lists in the order of numbers, in which the items of one number lie together.

ghost use Rattle.std.specs.Prelude.{◌≡◌, ℕ, ◌+◌, ◌<◌, ◌≤◌, IsTrue, filter, length, nat_eq, slice_index_or};
ghost use Rattle.std.specs.List.{AllWithin};
ghost use Rattle.std.specs.List.Sorted.{IsNonDecreasingBy};

use crate::link::Link;
use dv_bag::sent::Sending;

/// Orders by the number of a component.
pub struct ByComponent;

/// Orders by the number of a port.
pub struct ByPort;

/// An item with a number. If it has several, `By` says which is meant.
pub trait Numbered<By> {
    /// The number.
    ghost number: { Self → ℕ };

    /// The number.
    fn number(&self) -> usize
        ensures { result ≡ number self.now };
}

/// The number of a link is that of the component that it leads from.
impl Numbered<ByComponent> for Link {
    ghost number = { λ l. l.from };

    fn number(&self) -> usize {
        self.from as usize
    }
}

/// The number of a link is that of the port that it leads from.
impl Numbered<ByPort> for Link {
    ghost number = { λ l. l.from_port };

    fn number(&self) -> usize {
        self.from_port as usize
    }
}

/// The number of a sending is that of its port.
impl Numbered<ByPort> for Sending {
    ghost number = { λ s. s.port };

    fn number(&self) -> usize {
        self.port
    }
}

/// The items of a number, by two binary searches if they are not found at once.
#[inline]
pub(crate) fn run_of<By, T: Numbered<By>>(items: &[T], number: usize) -> &[T]
    requires { IsNonDecreasingBy T.number items.now }
    ensures { result.now ≡ filter (λ (x : T). nat_eq (T.number x) number) items.now }
{
    let (first, end) = indices_of::<By, T>(items, number);
    &items[first..end]
}

// Where the items of a number begin and end. All may be of this number, or the only one of it may be
// at the index that is the number, as where each number has one item.
#[inline]
fn indices_of<By, T: Numbered<By>>(items: &[T], number: usize) -> (usize, usize)
    requires { IsNonDecreasingBy T.number items.now }
    ensures order { result.0 ≤ result.1 }
    ensures within { result.1 ≤ length items.now }
    ensures before { AllWithin (λ (x : T). T.number x < number) items.now 0 result.0 }
    ensures there { AllWithin (λ (x : T). T.number x ≡ number) items.now result.0 result.1 }
    ensures behind { AllWithin (λ (x : T). number < T.number x) items.now result.1
        (length items.now) }
{
    if is_first(items, 0, number) && is_last(items, items.len() - 1, number) {
        return (0, items.len());
    }
    if is_first(items, number, number) && is_last(items, number, number) {
        return (number, number + 1);
    }
    searched_indices(items, number)
}

// Whether the item at an index is the first one of a number.
#[inline]
fn is_first<By, T: Numbered<By>>(items: &[T], index: usize, number: usize) -> bool
    requires { IsNonDecreasingBy T.number items.now }
    ensures within { IsTrue result → index < length items.now }
    ensures before { IsTrue result
        → AllWithin (λ (x : T). T.number x < number) items.now 0 index }
    ensures from { IsTrue result → AllWithin (λ (x : T). number ≤ T.number x) items.now index
        (length items.now) }
{
    if index >= items.len() || items[index].number() != number {
        return false;
    }
    index == 0 || items[index - 1].number() < number
}

// Whether the item at an index is the last one of a number.
#[inline]
fn is_last<By, T: Numbered<By>>(items: &[T], index: usize, number: usize) -> bool
    requires { IsNonDecreasingBy T.number items.now }
    ensures within { IsTrue result → index < length items.now }
    ensures to { IsTrue result → AllWithin (λ (x : T). T.number x ≤ number) items.now 0
        (index + 1) }
    ensures behind { IsTrue result → AllWithin (λ (x : T). number < T.number x) items.now
        (index + 1) (length items.now) }
{
    if index >= items.len() || items[index].number() != number {
        return false;
    }
    index + 1 == items.len() || items[index + 1].number() > number
}

// Where the items of a number begin and end, by two binary searches.
fn searched_indices<By, T: Numbered<By>>(items: &[T], number: usize) -> (usize, usize)
    requires { IsNonDecreasingBy T.number items.now }
    ensures order { result.0 ≤ result.1 }
    ensures within { result.1 ≤ length items.now }
    ensures before { AllWithin (λ (x : T). T.number x < number) items.now 0 result.0 }
    ensures there { AllWithin (λ (x : T). T.number x ≡ number) items.now result.0 result.1 }
    ensures behind { AllWithin (λ (x : T). number < T.number x) items.now result.1
        (length items.now) }
{
    let first = items.partition_point(|item| item.number() < number);
    let end = items.partition_point(|item| item.number() <= number);
    (first, end)
}

/// Where the items of a number end, from an index on; from there no item has a smaller number.
pub(crate) fn run_end<By, T: Numbered<By>>(items: &[T], start: usize, number: usize) -> usize
    requires rise { IsNonDecreasingBy T.number items.now }
    requires within { start ≤ length items.now }
    requires from { (d : T) → start < length items.now
        → number ≤ T.number (slice_index_or items.now start d) }
    ensures onward { start ≤ result }
    ensures within { result ≤ length items.now }
    ensures there { AllWithin (λ (x : T). T.number x ≡ number) items.now start result }
    ensures behind { AllWithin (λ (x : T). number < T.number x) items.now result
        (length items.now) }
{
    let mut end = start;
    while end < items.len() && items[end].number() == number {
        end += 1;
    }
    end
}
