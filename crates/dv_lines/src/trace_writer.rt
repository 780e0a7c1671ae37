//! Writes a trace as text, part by part.

ghost use Rattle.std.specs.Prelude.{◌≡◌, ◌++◌, ◌-◌, ◌≤◌, false, length, IsTrue, OnErr, OnOk, IfOk};
ghost use Rattle.std.specs.Io.KnownBytes.{Appends};
ghost use Rattle.std.specs.List.{All, flat_map};
ghost use Rattle.std.specs.Ordering.{is_eq};
ghost use Rattle.dv_bag.specs.Part.{IsByTime};
ghost use Rattle.dv_bag.specs.declared.entry.Entry.{Entry as MeantEntry};
ghost use Rattle.dv_text.specs.Merging.{first_text, group_text, groups_before, groups_from, groups_of, other_groups, trace_text};
ghost use Rattle.dv_text.specs.Names.{tree_names, tree_ports};
ghost use Rattle.dv_text.specs.Texts.{ending_text, part_text};
ghost use Rattle.dv_text.specs.Writing.{AppendsBeginning, StopsShort, TakesFront};
ghost use Rattle.dv_text.specs.declared.writing.Ending.TheVariants.{Whole};
ghost use Rattle.dv_time.specs.Time.{time_cmp};
ghost use Rattle.dv_lines.specs.Entries.{line_of};
ghost use Rattle.dv_lines.specs.Spans.{SpanBegins, SpanPasses, is_first_before};

use crate::lines::Lines;
use crate::tree_words::TreeWords;
use crate::written_part::written_part;
use dv_bag::{Outer, Trace};
use dv_merge::{PartRefs, Span};
use dv_text::{Ending, WriteError, hand_over, write_ending};
use dv_time::Time;
use dv_tree::Tree;
use dv_written::{OfJob, WrittenEntry, WrittenPart};
use std::alloc::{AllocError, Global};
use std::io::Write;
use std::marker::{Brand, Model, PhantomData};

// How many bytes are collected before they are written.
const PIECE_LENGTH: usize = 65_536;

/// Writes a trace as text, part by part, with the words of a tree. One buffer serves all parts.
#[derive(Drop)]
pub struct TraceWriter<'t, N: OfJob> {
    words: TreeWords<'t>,
    lines: Lines,
    of: PhantomData<N>,
}

impl<'t, N: OfJob> Model for TraceWriter<'t, N> {
    ghost use Rattle.std.specs.Prelude.{◌≡◌};
    ghost use Rattle.dv_bag.specs.declared.entry.Entry.{Entry};
    ghost use Rattle.dv_lines.specs.Entries.{line_of};
    ghost use Rattle.dv_text.specs.Names.{tree_names};
    ghost use Rattle.dv_tree.specs.Tables.{Source, source_code};

    ghost Value = { Source };

    ghost coded = { source_code };

    ghost view = { λ w. w.words };

    ghost invariant = { λ w. (e : Entry) → line_of (tree_names w.words) e ≡ N.line e };
}

impl<'t, N: OfJob> TraceWriter<'t, N> {
    /// A writer for the tree of `words`, for a job whose entries print the lines with the names of
    /// the tree. It looks up words of its own, so it may be used beside records that share `words`.
    ///
    /// # Errors
    ///
    /// No memory for them.
    pub fn new(alloc: Global, words: &TreeWords<'t>) -> Result<Self, AllocError>
        requires { (e : MeantEntry) → line_of (tree_names words.now) e ≡ N.line e }
        ensures { IfOk result (λ writer. writer ≡ words.now) }
    {
        Ok(TraceWriter {
            words: TreeWords::of(alloc, words.tree())?,
            lines: Lines::new(alloc),
            of: PhantomData,
        })
    }

    /// The tree.
    pub fn tree(&self) -> &'t Tree<'t>
        ensures { result.now ≡ self.now }
    {
        self.words.tree()
    }

    /// Writes the text of a part that is in order by time. All of it has been passed to `writer`
    /// afterwards. A write that failed is not tried again.
    ///
    /// # Errors
    ///
    /// `WriteError::Write` if a write failed or took nothing, `WriteError::Memory` if memory was
    /// refused. A beginning of the text was written, and the rest is lost.
    pub fn part<W: Write>(
        &mut self,
        part: &PartRefs<'_, N>,
        writer: &mut W,
    ) -> Result<(), WriteError>
        ensures tree { self.new ≡ self.old }
        ensures ok { IsByTime part.now
            → OnOk result (Appends (W.contents writer.old) (W.contents writer.new)
            (part_text (tree_names self.old) (tree_ports self.old) part.now)) }
        ensures err { IsByTime part.now
            → OnErr result (AppendsBeginning (W.contents writer.old) (W.contents writer.new)
            (part_text (tree_names self.old) (tree_ports self.old) part.now)) }
    {
        write_merged(&mut self.lines, writer, &self.words, part)
    }
}

/// Writes the text of a trace that is in order by time and reaches the horizon, which is in ticks.
/// A write that failed is not tried again.
///
/// # Errors
///
/// `WriteError::Write` if a write failed or took nothing, `WriteError::Memory` if memory was
/// refused. A beginning of the text was written, but not all of it.
pub fn write_trace<W: Write>(
    alloc: Global,
    trace: &Trace,
    tree: &Tree,
    horizon: u64,
    writer: &mut W,
) -> Result<(), WriteError>
    ensures ok { IsByTime trace.now
        → OnOk result (Appends (W.contents writer.old) (W.contents writer.new)
        (part_text (tree_names tree.now) (tree_ports tree.now) trace.now
        ++ ending_text (Whole horizon))) }
    ensures err { IsByTime trace.now
        → OnErr result (StopsShort (W.contents writer.old) (W.contents writer.new)
        (part_text (tree_names tree.now) (tree_ports tree.now) trace.now
        ++ ending_text (Whole horizon))) }
{
    let words = TreeWords::of(alloc, tree)?;
    write_lines::<Brand, W>(alloc, trace, &words, writer)?;
    write_ending(alloc, &Ending::Whole(horizon), writer)
}

// Writes the lines of a trace that is in order by time. The job is in no parameter, so the caller
// chooses it.
fn write_lines<N: OfJob, W: Write>(
    alloc: Global,
    trace: &Trace,
    words: &TreeWords,
    writer: &mut W,
) -> Result<(), WriteError>
    requires { (e : MeantEntry) → line_of (tree_names words.now) e ≡ N.line e }
    ensures ok { IsByTime trace.now
        → OnOk result (Appends (W.contents writer.old) (W.contents writer.new)
        (part_text (tree_names words.now) (tree_ports words.now) trace.now)) }
    ensures err { IsByTime trace.now
        → OnErr result (AppendsBeginning (W.contents writer.old) (W.contents writer.new)
        (part_text (tree_names words.now) (tree_ports words.now) trace.now)) }
{
    let written: WrittenPart<N> = written_part(alloc, trace, words)?;
    let part = PartRefs::all_of(alloc, &written)?;
    let mut lines = Lines::new(alloc);
    write_merged(&mut lines, writer, words, &part)
}

// Writes the lines of a part, merged by time.
fn write_merged<N: OfJob, W: Write>(
    lines: &mut Lines,
    writer: &mut W,
    words: &TreeWords,
    part: &PartRefs<'_, N>,
) -> Result<(), WriteError>
    requires { (e : MeantEntry) → line_of (tree_names words.now) e ≡ N.line e }
    ensures ok { OnOk result (Appends (W.contents writer.old) (W.contents writer.new)
        (trace_text (tree_names words.now) (tree_ports words.now) part.now)) }
    ensures err { OnErr result (AppendsBeginning (W.contents writer.old) (W.contents writer.new)
        (trace_text (tree_names words.now) (tree_ports words.now) part.now)) }
{
    lines.clear();
    let mut outer = part.outer();
    let spans = part.spans();
    for span in spans {
        outer = write_span(lines, writer, words, span, outer)?;
    }
    write_groups(lines, writer, words, outer)?;
    hand_over(writer, lines.as_bytes())
}

// Writes the lines of a span, merged by time with output lines. Returns the rest of these.
fn write_span<'o, N: OfJob, W: Write>(
    lines: &mut Lines,
    writer: &mut W,
    words: &TreeWords,
    span: &Span<'_, N>,
    outer: &'o [Outer],
) -> Result<&'o [Outer], WriteError>
    requires { (e : MeantEntry) → line_of (tree_names words.now) e ≡ N.line e }
    ensures ok { IfOk result (λ left. SpanPasses words.now span.now
        (W.contents writer.old) (W.contents writer.new) lines.old lines.new outer.now left.now) }
    ensures err { OnErr result (SpanBegins words.now span.now
        (W.contents writer.old) (W.contents writer.new) lines.old outer.now) }
{
    if is_none_after(span.entries(), outer) {
        write_text(lines, writer, span.text())?;
        return Ok(outer);
    }
    write_entries(lines, writer, words, span, outer)
}

// Whether no entry is after the first output line.
fn is_none_after<N: OfJob>(entries: &[WrittenEntry<N>], outer: &[Outer]) -> bool
    ensures { IsTrue result
        → All (λ (e : MeantEntry). is_first_before outer.now e.time ≡ false) entries.now }
{
    let Some((first, _)) = outer.split_first() else {
        return true;
    };
    for entry in entries {
        if first.time.is_before(entry.time()) {
            return false;
        }
    }
    true
}

// Writes a text behind the lines so far. A long text is not copied.
fn write_text<W: Write>(lines: &mut Lines, writer: &mut W, text: &[u8]) -> Result<(), WriteError>
    ensures ok { OnOk result (TakesFront (W.contents writer.old) (W.contents writer.new)
        (lines.old ++ text.now) lines.new) }
    ensures err { OnErr result (AppendsBeginning (W.contents writer.old) (W.contents writer.new)
        (lines.old ++ text.now)) }
{
    if text.len() >= PIECE_LENGTH {
        hand_over(writer, lines.as_bytes())?;
        lines.clear();
        return hand_over(writer, text);
    }
    lines.put(text)?;
    hand_over_if_long(lines, writer)
}

// Writes the lines of a span one by one, merged by time with output lines. Returns the rest of
// these.
fn write_entries<'o, N: OfJob, W: Write>(
    lines: &mut Lines,
    writer: &mut W,
    words: &TreeWords,
    span: &Span<'_, N>,
    outer: &'o [Outer],
) -> Result<&'o [Outer], WriteError>
    requires { (e : MeantEntry) → line_of (tree_names words.now) e ≡ N.line e }
    ensures ok { IfOk result (λ left. SpanPasses words.now span.now
        (W.contents writer.old) (W.contents writer.new) lines.old lines.new outer.now left.now) }
    ensures err { OnErr result (SpanBegins words.now span.now
        (W.contents writer.old) (W.contents writer.new) lines.old outer.now) }
{
    let entries = span.entries();
    let mut text = span.text();
    let mut rest = outer;
    for entry in entries {
        rest = write_before(lines, writer, words, entry.time(), rest)?;
        let (line, behind) = text.split_at(entry.line_length());
        lines.put(line)?;
        hand_over_if_long(lines, writer)?;
        text = behind;
    }
    Ok(rest)
}

// Writes the lines so far if they are long enough.
fn hand_over_if_long<W: Write>(lines: &mut Lines, writer: &mut W) -> Result<(), WriteError>
    ensures ok { OnOk result (TakesFront (W.contents writer.old) (W.contents writer.new)
        lines.old lines.new) }
    ensures err { OnErr result (StopsShort (W.contents writer.old) (W.contents writer.new)
        lines.old) }
{
    if lines.len() >= PIECE_LENGTH {
        hand_over(writer, lines.as_bytes())?;
        lines.clear();
    }
    Ok(())
}

// Writes the output lines before a time. Returns the rest of them.
fn write_before<'o, W: Write>(
    lines: &mut Lines,
    writer: &mut W,
    words: &TreeWords,
    time: Time,
    outer: &'o [Outer],
) -> Result<&'o [Outer], WriteError>
    ensures ok { OnOk result (TakesFront (W.contents writer.old) (W.contents writer.new)
        (lines.old ++ groups_before time (groups_of (tree_ports words.now) outer.now))
        lines.new) }
    ensures left { IfOk result (λ left. groups_of (tree_ports words.now) left.now
        ≡ groups_from time (groups_of (tree_ports words.now) outer.now)) }
    ensures err { OnErr result (AppendsBeginning (W.contents writer.old) (W.contents writer.new)
        (lines.old ++ groups_before time (groups_of (tree_ports words.now) outer.now))) }
{
    let mut rest = outer;
    while let Some((first, _)) = rest.split_first()
        && first.time.is_before(time)
    {
        rest = put_group(lines, words, rest)?;
        hand_over_if_long(lines, writer)?;
    }
    Ok(rest)
}

// Writes all output lines.
fn write_groups<W: Write>(
    lines: &mut Lines,
    writer: &mut W,
    words: &TreeWords,
    outer: &[Outer],
) -> Result<(), WriteError>
    ensures ok { OnOk result (TakesFront (W.contents writer.old) (W.contents writer.new)
        (lines.old ++ flat_map group_text (groups_of (tree_ports words.now) outer.now))
        lines.new) }
    ensures err { OnErr result (AppendsBeginning (W.contents writer.old) (W.contents writer.new)
        (lines.old ++ flat_map group_text (groups_of (tree_ports words.now) outer.now))) }
{
    let mut rest = outer;
    while !rest.is_empty() {
        rest = put_group(lines, words, rest)?;
        hand_over_if_long(lines, writer)?;
    }
    Ok(())
}

// Whether two times are the same.
fn is_same(first: Time, second: Time) -> bool
    ensures { result ≡ is_eq (time_cmp first second) }
{
    first == second
}

// Appends the output line of the first time. Returns what left later.
fn put_group<'o>(
    lines: &mut Lines,
    words: &TreeWords,
    outer: &'o [Outer],
) -> Result<&'o [Outer], AllocError>
    ensures line { OnOk result (lines.new ≡ lines.old
        ++ first_text (groups_of (tree_ports words.now) outer.now)) }
    ensures left { IfOk result (λ left. groups_of (tree_ports words.now) left.now
        ≡ other_groups (groups_of (tree_ports words.now) outer.now)) }
    ensures fewer { IfOk result (λ left. length left.now ≤ length outer.now - 1) }
{
    let Some((first, after)) = outer.split_first() else {
        return Ok(outer);
    };
    lines.begin_left(first.time)?;
    words.put_port(lines, first.port, &first.values)?;
    let mut rest = after;
    while let Some((next, after)) = rest.split_first()
        && is_same(first.time, next.time)
    {
        words.put_port(lines, next.port, &next.values)?;
        rest = after;
    }
    lines.end_left()?;
    Ok(rest)
}
