//! Parts of written entries.

ghost use Rattle.std.specs.Prelude.{◌≡◌, ◌<◌, ◌^◌, [], ◌∷◌, ◌++◌, length, take, IfOk, OnOk, OnErr};
ghost use Rattle.std.specs.List.{flat_map};
ghost use Rattle.std.specs.Vec.{vec_capacity, vec_len};
ghost use Rattle.dv_bag.specs.Part.{joined, nothing, since};
ghost use Rattle.dv_bag.specs.declared.entry.What.TheVariants as what;
ghost use Rattle.dv_record.specs.Told.{entry};

use crate::entry::WrittenEntry;
use crate::job::OfJob;
use crate::room::{Ready, Room, Text};
use dv_bag::{Fault, Kind, Outer, Sent, State};
use dv_time::Time;
use std::alloc::{AllocError, Global};
use std::marker::Model;
use std::mem;

/// Entries of some components with the lines that they print, and the output lines of what those
/// components sent out of the model, each in the order in which they were pushed. The lines of the
/// entries are in one text.
#[derive(Drop)]
pub struct WrittenPart<N: OfJob> {
    entries: Vec<WrittenEntry<N>>,
    text: Room,
    outer: Vec<Outer>,
}

impl<N: OfJob> Model for WrittenPart<N> {
    ghost use Rattle.std.specs.Prelude.{◌≡◌};
    ghost use Rattle.std.specs.List.{flat_map};
    ghost use Rattle.dv_bag.specs.Part.{PartOf};

    ghost Value = { PartOf };

    ghost view = { λ p. record { entries = p.entries.items; outer = p.outer.items } };

    ghost invariant = { λ p. p.text ≡ flat_map N.line p.entries.items };
}

// A part has room in blocks of four kibibytes. An allocator keeps freed memory by its size: with
// parts of all sizes it would keep more of it the longer a run is.
const ENTRIES_OF_A_BLOCK: usize = 128;

const BYTES_OF_A_BLOCK: usize = 4_096;

// Rounds a count up to whole blocks.
fn whole_blocks(count: usize, block: usize) -> usize {
    count.checked_next_multiple_of(block).unwrap_or(count)
}

// The length of the lines of these entries in bytes.
fn text_length<N: OfJob>(entries: &[WrittenEntry<N>]) -> usize
    requires { length (flat_map N.line entries.now) < 2 ^ 64 }
    ensures { result ≡ length (flat_map N.line entries.now) }
{
    let mut bytes = 0;
    for entry in entries {
        bytes += entry.line_length();
    }
    bytes
}

// The entries that are not before a time, with their lines.
fn entries_since<N: OfJob>(
    alloc: Global,
    entries: Vec<WrittenEntry<N>>,
    text: &[u8],
    time: Time,
) -> Result<WrittenPart<N>, AllocError>
    requires { text.now ≡ flat_map N.line entries.items }
    ensures { IfOk result (λ rest.
        rest ≡ since time (record { entries = entries.items; outer = [] })) }
{
    let mut rest = WrittenPart::new(alloc);
    let mut text = text;
    for entry in entries {
        let (line, behind) = text.split_at(entry.line_length());
        if !entry.time().is_before(time) {
            rest.push(entry, line)?;
        }
        text = behind;
    }
    Ok(rest)
}

// Makes room for one more entry, and appends its line to the text. Returns the length of the line in
// bytes. If memory is refused, the text is as before.
#[inline(always)]
fn push_line<N: OfJob, T: Text>(
    entries: &mut Vec<WrittenEntry<N>>,
    text: &mut Room,
    line: &T,
) -> Result<usize, AllocError>
    ensures entries { entries.new.items ≡ entries.old.items }
    ensures room { OnOk result (vec_len entries.new < vec_capacity entries.new) }
    ensures text { OnOk result (text.new ≡ text.old ++ T.bytes line.now) }
    ensures bytes { IfOk result (λ bytes. bytes ≡ length (T.bytes line.now)) }
    ensures err { OnErr result (text.new ≡ text.old) }
{
    let before = text.len();
    entries.reserve(1)?;
    text.append(line)?;
    Ok(text.len() - before)
}

impl<N: OfJob> WrittenPart<N> {
    /// A part without entries and output lines. It takes no memory.
    pub fn new(alloc: Global) -> Self
        ensures { result ≡ nothing }
    {
        WrittenPart {
            entries: Vec::new(alloc),
            text: Room::new(alloc),
            outer: Vec::new(alloc),
        }
    }

    /// A part without entries and output lines, with room for `entries` entries and `bytes` bytes
    /// of their lines. If there is no memory for some of it, it has no room there.
    pub fn with_room(alloc: Global, entries: usize, bytes: usize) -> Self
        ensures { result ≡ nothing }
    {
        let entries = whole_blocks(entries, ENTRIES_OF_A_BLOCK);
        let bytes = whole_blocks(bytes, BYTES_OF_A_BLOCK);
        WrittenPart {
            entries: Vec::with_capacity(alloc, entries).unwrap_or(Vec::new(alloc)),
            text: Room::with_room(alloc, bytes),
            outer: Vec::new(alloc),
        }
    }

    // Appends an entry with its line. If memory is refused, the part is as before.
    fn push(&mut self, entry: WrittenEntry<N>, line: &[u8]) -> Result<(), AllocError>
        requires { line.now ≡ N.line entry }
        ensures ok { OnOk result
            (self.new ≡ record self.old { entries = self.old.entries ++ entry ∷ [] }) }
        ensures err { OnErr result (self.new ≡ self.old) }
    {
        push_line(&mut self.entries, &mut self.text, &Ready { text: line })?;
        self.entries.push_reserved(entry);
        Ok(())
    }

    /// Appends a transition of a component at a time, with the state after it and what it sent.
    /// `line` is its line.
    ///
    /// # Errors
    ///
    /// No memory for it. The part is as before.
    #[inline(always)]
    pub fn push_moved<T: Text>(
        &mut self,
        line: &T,
        time: Time,
        component: u32,
        kind: Kind,
        state: &State,
        sent: &Sent,
    ) -> Result<(), AllocError>
        requires { T.bytes line.now
            ≡ N.line (entry time component (what.Transition kind state.now) sent.now) }
        ensures ok { OnOk result (self.new ≡ record self.old {
          entries = self.old.entries
              ++ entry time component (what.Transition kind state.now) sent.now ∷ [];
        }) }
        ensures err { OnErr result (self.new ≡ self.old) }
    {
        let bytes = push_line(&mut self.entries, &mut self.text, line)?;
        let entry = WrittenEntry::moved(bytes, time, component, kind, state, sent);
        self.entries.push_reserved(entry);
        Ok(())
    }

    /// Appends a fault of a component at a time, with what it sent. `line` is its line.
    ///
    /// # Errors
    ///
    /// No memory for it. The part is as before.
    pub fn push_faulted<T: Text>(
        &mut self,
        line: &T,
        time: Time,
        component: u32,
        fault: Fault,
        sent: &Sent,
    ) -> Result<(), AllocError>
        requires { T.bytes line.now
            ≡ N.line (entry time component (what.Fault fault) sent.now) }
        ensures ok { OnOk result (self.new ≡ record self.old {
          entries = self.old.entries
              ++ entry time component (what.Fault fault) sent.now ∷ [];
        }) }
        ensures err { OnErr result (self.new ≡ self.old) }
    {
        let bytes = push_line(&mut self.entries, &mut self.text, line)?;
        let entry = WrittenEntry::faulted(bytes, time, component, fault, sent);
        self.entries.push_reserved(entry);
        Ok(())
    }

    /// Appends an output line.
    ///
    /// # Errors
    ///
    /// No memory for it. The part is as before.
    pub fn push_outer(&mut self, outer: Outer) -> Result<(), AllocError>
        ensures ok { OnOk result
            (self.new ≡ record self.old { outer = self.old.outer ++ outer ∷ [] }) }
        ensures err { OnErr result (self.new ≡ self.old) }
    {
        Ok(self.outer.push(outer)?)
    }

    /// The number of entries.
    pub fn entry_count(&self) -> usize
        ensures { result ≡ length self.now.entries }
    {
        self.entries.len()
    }

    /// The length of the lines of all entries in bytes.
    pub fn byte_count(&self) -> usize
        ensures { result ≡ length (flat_map N.line self.now.entries) }
    {
        self.text.len()
    }

    /// The number of output lines.
    pub fn outer_count(&self) -> usize
        ensures { result ≡ length self.now.outer }
    {
        self.outer.len()
    }

    /// Appends all of another part.
    ///
    /// # Errors
    ///
    /// No memory for it. The part is as before.
    pub fn append(&mut self, mut more: Self) -> Result<(), AllocError>
        ensures ok { OnOk result (self.new ≡ joined self.old more) }
        ensures err { OnErr result (self.new ≡ self.old) }
    {
        if self.entries.is_empty() {
            self.outer.append(&mut more.outer)?;
            self.entries = more.entries;
            self.text = more.text;
            return Ok(());
        }
        self.pour(&mut more)
    }

    // Appends all of another part, which keeps its room. If memory is refused, both are as before.
    fn pour(&mut self, more: &mut Self) -> Result<(), AllocError>
        ensures joined { OnOk result (self.new ≡ joined self.old more.old) }
        ensures emptied { OnOk result (more.new ≡ nothing) }
        ensures err { OnErr result (self.new ≡ self.old) }
        ensures same { OnErr result (more.new ≡ more.old) }
    {
        self.entries.reserve(more.entries.len())?;
        self.outer.reserve(more.outer.len())?;
        self.text.append_bytes(more.text.as_bytes())?;
        if self.entries.append(&mut more.entries).is_err()
            || self.outer.append(&mut more.outer).is_err()
        {
            unreachable!("room was made");
        }
        more.text.clear();
        Ok(())
    }

    /// Moves all of it out, into a part with room for just that in whole blocks. This part keeps
    /// its room for what comes next. If there is no memory for another part, the room is moved out,
    /// too.
    pub fn take(&mut self, alloc: Global) -> Self
        ensures taken { result ≡ self.old }
        ensures none { self.new ≡ nothing }
    {
        let mut part = WrittenPart::with_room(alloc, self.entries.len(), self.text.len());
        match part.pour(self) {
            Ok(()) => part,
            Err(_) => mem::replace(self, part),
        }
    }

    /// Keeps the first `entries` entries and the first `outer` output lines, or all if there are
    /// not as many.
    pub fn truncate(&mut self, entries: usize, outer: usize)
        ensures entries { self.new.entries ≡ take entries self.old.entries }
        ensures outer { self.new.outer ≡ take outer self.old.outer }
    {
        let bytes = self.text.len();
        let kept = entries.min(self.entries.len());
        self.text.cut(bytes - text_length(&self.entries[kept..]));
        self.entries.truncate(kept);
        self.outer.truncate(outer);
    }

    /// The entries and output lines that are not before a time. The others are dropped.
    ///
    /// # Errors
    ///
    /// No memory for it. The whole part is dropped.
    pub fn since(mut self, alloc: Global, time: Time) -> Result<Self, AllocError>
        ensures { IfOk result (λ rest. rest ≡ since time self) }
    {
        let mut rest = entries_since(alloc, self.entries, self.text.as_bytes(), time)?;
        self.outer.retain(|line| !line.time.is_before(time));
        rest.outer = self.outer;
        Ok(rest)
    }

    /// The entries in the order in which they were pushed. A run pushes them by time and component.
    pub fn entries(&self) -> &[WrittenEntry<N>]
        ensures { result.now ≡ self.now.entries }
    {
        &self.entries
    }

    /// The lines of the entries, one after the other.
    pub fn text(&self) -> &[u8]
        ensures { result.now ≡ flat_map N.line self.now.entries }
    {
        self.text.as_bytes()
    }

    /// The output lines in the order in which they were pushed. A run pushes them by time and port.
    pub fn outer(&self) -> &[Outer]
        ensures { result.now ≡ self.now.outer }
    {
        &self.outer
    }
}
