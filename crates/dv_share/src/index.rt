//! Items by the index of a component.

ghost use Rattle.std.specs.Prelude.{◌≡◌, length, ◌<◌, ◌≤◌};
ghost use Rattle.std.specs.List.{AllWithin};
ghost use Rattle.std.specs.Option.{option_copied};
ghost use Rattle.dv_share.specs.Indices.{AreRising, IsNext, found, indices_of};

/// An item of the component at an index.
#[derive(Drop)]
pub struct Indexed<T> {
    /// The index of the component in the list of members.
    pub index: u32,
    /// The item.
    pub what: T,
}

/// The cursor of the first item that is not before an index; all items before `from` have to be. It
/// goes from item to item, so calls for rising indices look at each item once.
#[inline]
pub fn next_cursor<T>(items: &[Indexed<T>], from: usize, index: u32) -> usize
    requires within { from ≤ length items.now }
    requires before { AllWithin (λ (x : Indexed T). x.index < index) items.now 0 from }
    ensures { IsNext index items.now result }
{
    let mut cursor = from;
    while cursor < items.len() && items[cursor].index < index {
        cursor += 1;
    }
    cursor
}

/// The item at an index, if there is one. `cursor` is that of the first item not before the index.
#[inline]
pub fn item_at<T>(items: &[Indexed<T>], cursor: usize, index: u32) -> Option<&T>
    requires rise { AreRising (indices_of items.now) }
    requires next { IsNext index items.now cursor }
    ensures { option_copied result ≡ found index items.now }
{
    if cursor < items.len() && items[cursor].index == index {
        Some(&items[cursor].what)
    } else {
        None
    }
}
