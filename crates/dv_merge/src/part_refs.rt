//! Parts with borrowed entries.

ghost use Rattle.std.specs.Prelude.{◌≡◌, ◌++◌, IfOk, OnOk};
ghost use Rattle.std.specs.Option.{option_to_list};
ghost use Rattle.dv_bag.specs.Part.{IsByTime, before, joined, nothing, since};
ghost use Rattle.dv_written.specs.Faults.{has_fault};
ghost use Rattle.dv_merge.specs.Spans.{entries_of};

use crate::indices::lines_between;
use crate::span::Span;
use dv_bag::Outer;
use dv_time::Time;
use dv_written::{OfJob, WrittenPart};
use std::alloc::{AllocError, Global};
use std::marker::Model;

/// Borrowed entries with their lines, as spans of one or several parts, and copies of the output
/// lines of these parts.
#[derive(Drop)]
pub struct PartRefs<'p, N: OfJob> {
    pub(crate) spans: Vec<Span<'p, N>>,
    pub(crate) outer: Vec<Outer>,
}

impl<'p, N: OfJob> Model for PartRefs<'p, N> {
    ghost use Rattle.dv_bag.specs.Part.{PartOf};
    ghost use Rattle.dv_merge.specs.Spans.{entries_of};

    ghost Value = { PartOf };

    ghost view = { λ p. record { entries = entries_of p.spans.items; outer = p.outer.items } };
}

// Appends a span, if there is one.
fn push_span<'p, N: OfJob>(
    spans: &mut Vec<Span<'p, N>>,
    span: Option<Span<'p, N>>,
) -> Result<(), AllocError>
    ensures { OnOk result (entries_of spans.new.items
        ≡ entries_of spans.old.items ++ entries_of (option_to_list span.entry)) }
{
    match span {
        Some(span) => Ok(spans.push(span)?),
        None => Ok(()),
    }
}

impl<'p, N: OfJob> PartRefs<'p, N> {
    /// No entries and no output lines.
    pub fn new(alloc: Global) -> Self
        ensures { result ≡ nothing }
    {
        PartRefs {
            spans: Vec::new(alloc),
            outer: Vec::new(alloc),
        }
    }

    /// All of a part. Its entries are borrowed, and its output lines are copied.
    ///
    /// # Errors
    ///
    /// No memory for it.
    pub fn all_of(alloc: Global, part: &'p WrittenPart<N>) -> Result<Self, AllocError>
        ensures { IfOk result (λ all. all ≡ part.now) }
    {
        let mut all = PartRefs::new(alloc);
        push_span(&mut all.spans, Span::of(part.entries(), part.text()))?;
        all.outer = part.outer().to_vec(alloc)?;
        Ok(all)
    }

    /// Appends what a part has from one time on and before another. The part has to be in order by
    /// time. Its entries are borrowed, and its output lines are copied.
    ///
    /// # Errors
    ///
    /// No memory for it.
    pub fn append_between(
        &mut self,
        alloc: Global,
        part: &'p WrittenPart<N>,
        from: Time,
        upto: Time,
    ) -> Result<(), AllocError>
        requires { IsByTime part.now }
        ensures { OnOk result
            (self.new ≡ joined self.old (since from (before upto part.now))) }
    {
        let span = Span::between(part.entries(), part.text(), from, upto);
        push_span(&mut self.spans, span)?;
        let mut outer = lines_between(part.outer(), from, upto).to_vec(alloc)?;
        Ok(self.outer.append(&mut outer)?)
    }

    /// The entries with their lines.
    pub fn spans(&self) -> &[Span<'p, N>]
        ensures { entries_of result.now ≡ self.now.entries }
    {
        &self.spans
    }

    /// Whether an entry is a fault.
    pub fn has_fault(&self) -> bool
        ensures { result ≡ has_fault self.now }
    {
        let spans = self.spans();
        for span in spans {
            if span.has_fault() {
                return true;
            }
        }
        false
    }

    /// The output lines.
    pub fn outer(&self) -> &[Outer]
        ensures { result.now ≡ self.now.outer }
    {
        &self.outer
    }
}
