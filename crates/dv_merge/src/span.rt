//! Borrowed entries that follow one another, with their lines.

ghost use Rattle.std.specs.Prelude.{◌≡◌, ◌<◌, ◌≤◌, ◌^◌, ◌++◌, IfSome, Some, drop, false, filter};
ghost use Rattle.std.specs.Prelude.{length, not, slice_get, take, true};
ghost use Rattle.std.specs.List.{All, AllPairs, flat_map, list_any};
ghost use Rattle.std.specs.Option.{option_to_list};
ghost use Rattle.dv_bag.specs.declared.entry.Entry.{Entry};
ghost use Rattle.dv_time.specs.Time.{is_before};
ghost use Rattle.dv_written.specs.Faults.{is_fault};
ghost use Rattle.dv_merge.specs.Entries.{precedes};
ghost use Rattle.dv_merge.specs.Spans.{entries_of};

use crate::indices::entries_before;
use dv_time::Time;
use dv_written::{OfJob, WrittenEntry};
use std::marker::Model;

/// Borrowed entries that follow one another in a part, with their lines in one text. There is at
/// least one. A contract reads them as a list.
#[derive(Drop)]
pub struct Span<'p, N: OfJob> {
    entries: &'p [WrittenEntry<N>],
    text: &'p [u8],
}

impl<'p, N: OfJob> Model for Span<'p, N> {
    ghost use Rattle.std.specs.Prelude.{◌≡◌, ◌<◌, List, length};
    ghost use Rattle.std.specs.List.{flat_map};
    ghost use Rattle.dv_bag.specs.declared.entry.Entry.{Entry};

    ghost Value = { List Entry };

    ghost view = { λ s. s.entries.now };

    ghost invariant = { λ s. (s.text.now ≡ flat_map N.line s.entries.now)
        × (0 < length s.entries.now) };
}

// The length of the lines of these entries in bytes.
fn text_length<N: OfJob>(entries: &[WrittenEntry<N>]) -> usize
    requires { length (flat_map N.line entries.now) < 2 ^ 64 }
    ensures { result ≡ length (flat_map N.line entries.now) }
{
    let mut bytes = 0;
    for entry in entries {
        bytes += entry.line_length();
    }
    bytes
}

// Cuts the lines of entries behind those of the first `count`.
fn cut_text<'p, N: OfJob>(
    entries: &[WrittenEntry<N>],
    text: &'p [u8],
    count: usize,
) -> (&'p [u8], &'p [u8])
    requires lines { text.now ≡ flat_map N.line entries.now }
    requires within { count ≤ length entries.now }
    ensures front { result.0.now ≡ flat_map N.line (take count entries.now) }
    ensures behind { result.1.now ≡ flat_map N.line (drop count entries.now) }
{
    if count == entries.len() {
        return text.split_at(text.len());
    }
    text.split_at(text_length(&entries[..count]))
}

/// Compares by time and then by component.
pub(crate) fn precedes<N: OfJob>(first: &WrittenEntry<N>, second: &WrittenEntry<N>) -> bool
    ensures { result ≡ precedes first.now second.now }
{
    first.time() < second.time()
        || first.time() == second.time() && first.component() < second.component()
}

// The number of entries in front that precede another entry.
fn count_before<N: OfJob>(entries: &[WrittenEntry<N>], bound: &WrittenEntry<N>) -> usize
    ensures within { result ≤ length entries.now }
    ensures before { All (λ (e : Entry). precedes e bound.now ≡ true) (take result entries.now) }
{
    for index in 0..entries.len() {
        if !precedes(&entries[index], bound) {
            return index;
        }
    }
    entries.len()
}

impl<'p, N: OfJob> Span<'p, N> {
    /// These entries with their lines. `None` if there are no entries.
    pub(crate) fn of(entries: &'p [WrittenEntry<N>], text: &'p [u8]) -> Option<Self>
        requires { text.now ≡ flat_map N.line entries.now }
        ensures entries { entries_of (option_to_list result) ≡ entries.now }
        ensures some { IfSome result (λ span. 0 < length span) }
    {
        if entries.is_empty() {
            return None;
        }
        Some(Span { entries, text })
    }

    /// The entries from one time on and before another. The entries have to be in order by time,
    /// and `text` has their lines.
    pub(crate) fn between(
        entries: &'p [WrittenEntry<N>],
        text: &'p [u8],
        from: Time,
        upto: Time,
    ) -> Option<Self>
        requires order { AllPairs (λ (a b : Entry). is_before b.time a.time ≡ false) entries.now }
        requires lines { text.now ≡ flat_map N.line entries.now }
        ensures { entries_of (option_to_list result)
            ≡ filter (λ (e : Entry). not (is_before e.time from))
            (filter (λ (e : Entry). is_before e.time upto) entries.now) }
    {
        let count = entries_before(entries, upto);
        let early = &entries[..count];
        let (text, _) = cut_text(entries, text, count);
        let first = entries_before(early, from);
        let (_, text) = cut_text(early, text, first);
        Span::of(&early[first..], text)
    }

    /// The same entries.
    pub(crate) fn again(&self) -> Self
        ensures same { result ≡ self.now }
        ensures some { 0 < length result }
    {
        Span {
            entries: self.entries,
            text: self.text,
        }
    }

    /// The first entry.
    pub(crate) fn first(&self) -> &'p WrittenEntry<N>
        ensures { slice_get self.now 0 ≡ Some result.now }
    {
        &self.entries[0]
    }

    /// Cuts it behind the entries in front that precede another entry. The first entry is in front
    /// in any case.
    pub(crate) fn cut_before(&self, bound: &WrittenEntry<N>) -> (Self, Option<Self>)
        ensures whole { self.now ≡ result.0 ++ entries_of (option_to_list result.1) }
        ensures front { 0 < length result.0 }
        ensures before { All (λ (e : Entry). precedes e bound.now ≡ true) (drop 1 result.0) }
        ensures behind { IfSome result.1 (λ span. 0 < length span) }
    {
        let count = 1 + count_before(&self.entries[1..], bound);
        let (front, behind) = cut_text(self.entries, self.text, count);
        let first = Span {
            entries: &self.entries[..count],
            text: front,
        };
        (first, Span::of(&self.entries[count..], behind))
    }

    /// The entries.
    pub fn entries(&self) -> &'p [WrittenEntry<N>]
        ensures { result.now ≡ self.now }
    {
        self.entries
    }

    /// The lines of the entries, one after the other.
    pub fn text(&self) -> &'p [u8]
        ensures { result.now ≡ flat_map N.line self.now }
    {
        self.text
    }

    /// Whether an entry is a fault.
    pub fn has_fault(&self) -> bool
        ensures { result ≡ list_any (λ (e : Entry). is_fault e.what) self.now }
    {
        self.entries.iter().any(|entry| entry.is_fault())
    }
}
