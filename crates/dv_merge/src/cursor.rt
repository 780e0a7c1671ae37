//! A walk through a list of spans.

ghost use Rattle.std.specs.Prelude.{◌≡◌, ◌<◌, ◌≤◌, ◌+◌, ◌++◌, [], IfSome, None, Some, drop};
ghost use Rattle.std.specs.Prelude.{length, slice_get, true};
ghost use Rattle.std.specs.List.{All};
ghost use Rattle.std.specs.Option.{option_to_list};
ghost use Rattle.dv_bag.specs.declared.entry.Entry.{Entry};
ghost use Rattle.dv_merge.specs.Entries.{precedes};
ghost use Rattle.dv_merge.specs.Spans.{entries_of};

use crate::span::Span;
use dv_written::{OfJob, WrittenEntry};
use std::marker::Model;

/// What is left of a list of spans. A contract reads it as the entries that are left.
#[derive(Drop)]
pub(crate) struct Cursor<'l, 'p, N: OfJob> {
    // What is left of the current span.
    span: Option<Span<'p, N>>,
    behind: &'l [Span<'p, N>],
}

impl<'l, 'p, N: OfJob> Model for Cursor<'l, 'p, N> {
    ghost use Rattle.std.specs.Prelude.{◌≡◌, ◌<◌, ◌++◌, [], IfSome, List, None, length};
    ghost use Rattle.std.specs.Option.{option_to_list};
    ghost use Rattle.dv_bag.specs.declared.entry.Entry.{Entry};
    ghost use Rattle.dv_merge.specs.Spans.{entries_of};

    ghost Value = { List Entry };

    ghost view = { λ c. entries_of (option_to_list c.span) ++ entries_of c.behind.now };

    ghost invariant = { λ c. (c.span ≡ None → c.behind.now ≡ [])
        × IfSome c.span (λ span. 0 < length span) };
}

impl<'l, 'p, N: OfJob> Cursor<'l, 'p, N> {
    /// A walk through these spans.
    pub(crate) fn new(spans: &'l [Span<'p, N>]) -> Self
        ensures { result ≡ entries_of spans.now }
    {
        match spans.split_first() {
            Some((first, behind)) => Cursor {
                span: Some(first.again()),
                behind,
            },
            None => Cursor {
                span: None,
                behind: spans,
            },
        }
    }

    /// The next entry.
    pub(crate) fn head(&self) -> Option<&'p WrittenEntry<N>>
        ensures some { IfSome result (λ e. slice_get self.now 0 ≡ Some e.now) }
        ensures none { result ≡ None → self.now ≡ [] }
    {
        match &self.span {
            Some(span) => Some(span.first()),
            None => None,
        }
    }

    /// Takes what is left of the current span.
    pub(crate) fn take_span(&mut self) -> Option<Span<'p, N>>
        ensures taken { self.old ≡ entries_of (option_to_list result) ++ self.new }
        ensures none { result ≡ None → self.new ≡ [] }
        ensures less { length self.new + length (option_to_list result) ≤ length self.old }
    {
        let span = self.span.take();
        *self = Cursor::new(self.behind);
        span
    }

    /// Takes the next entry and those behind it, in the current span, that precede another entry.
    pub(crate) fn take_before(&mut self, bound: &WrittenEntry<N>) -> Span<'p, N>
        requires { 0 < length self.old }
        ensures taken { self.old ≡ result ++ self.new }
        ensures some { 0 < length result }
        ensures before { All (λ (e : Entry). precedes e bound.now ≡ true) (drop 1 result) }
    {
        let Some(span) = self.span.take() else {
            unreachable!("an entry is left");
        };
        let (front, rest) = span.cut_before(bound);
        match rest {
            Some(rest) => self.span = Some(rest),
            None => *self = Cursor::new(self.behind),
        }
        front
    }
}
