//! A record that keeps entries as lines, and what makes such records.

ghost use Rattle.std.specs.Prelude.{◌≡◌, ◌≤◌, ◌∷◌, ◌++◌, ◌^◌, [], List, OnErr, OnOk, length};
ghost use Rattle.dv_bag.specs.Bag.{Counts};
ghost use Rattle.dv_bag.specs.declared.entry.Entry.{Entry};
ghost use Rattle.dv_bag.specs.declared.entry.Outer.{Outer as OuterOfCode};
ghost use Rattle.dv_bag.specs.declared.entry.What.{What};
ghost use Rattle.dv_bag.specs.declared.entry.What.TheVariants as what;
ghost use Rattle.dv_record.specs.Told.{entry, lines_from, with_lines};
ghost use Rattle.dv_lines.specs.Components.{words_found};
ghost use Rattle.dv_lines.specs.Entries.{line_by};
ghost use Rattle.dv_lines.specs.Tables.{rows_found};
ghost use Rattle.dv_lines.specs.Words.{line_words};

use crate::line::{ComponentWords, FaultLine, TransitionLine};
use crate::stamp::Stamp;
use crate::words::Words;
use dv_bag::{Bags, Fault, Kind, Outer, Sent, State};
use dv_record::{History, Record};
use dv_time::Time;
use dv_written::{HandsOver, MakesRecord, OfJob, WrittenPart};
use std::alloc::{AllocError, Global};
use std::marker::{Model, PhantomData};

// The room of a part from the start. Most parts are handed over before they need more.
const ENTRIES_AT_FIRST: usize = 512;

const BYTES_AT_FIRST: usize = 16_384;

/// Makes records that share the words of a tree. The records may be on different threads. A
/// contract reads the words.
#[derive(Drop)]
pub struct WrittenRecords<'w, N: OfJob> {
    words: &'w Words,
    of: PhantomData<N>,
}

impl<'w, N: OfJob> Model for WrittenRecords<'w, N> {
    ghost use Rattle.std.specs.Prelude.{◌≡◌, List};
    ghost use Rattle.dv_bag.specs.declared.entry.Entry.{Entry};
    ghost use Rattle.dv_lines.specs.Entries.{line_by};
    ghost use Rattle.dv_lines.specs.Tables.{rows_found};
    ghost use Rattle.dv_lines.specs.Words.{WordTexts};

    ghost Value = { List WordTexts };

    ghost view = { λ r. rows_found r.words.now };

    ghost invariant = { λ r. (e : Entry) → line_by (rows_found r.words.now) e ≡ N.line e };
}

impl<'w, N: OfJob> WrittenRecords<'w, N> {
    /// Makes records that use these words.
    pub fn new(words: &'w Words) -> Self
        requires { (e : Entry) → line_by (rows_found words.now) e ≡ N.line e }
    {
        WrittenRecords {
            words,
            of: PhantomData,
        }
    }

    // The words of a component. A line that is made of them is the one that the job prints.
    #[inline(always)]
    fn component(&self, component: u32) -> ComponentWords<'_>
        ensures { (t : Time) (w : What) (sent : List Counts)
            → line_words (words_found result) t w sent ≡ N.line (entry t component w sent) }
    {
        ComponentWords::of(self.words, component)
    }

    /// Appends a transition of a component to a part, with the state after it and what it sent.
    /// Its line is made where it stays. `stamp` may have any time before.
    ///
    /// # Errors
    ///
    /// No memory for it. The part is as before.
    #[inline(always)]
    pub(crate) fn push_moved(
        &self,
        part: &mut WrittenPart<N>,
        stamp: &mut Stamp,
        time: Time,
        component: u32,
        kind: Kind,
        state: &State,
        sent: &Sent,
    ) -> Result<(), AllocError>
        ensures ok { OnOk result (part.new ≡ record part.old {
          entries = part.old.entries
              ++ entry time component (what.Transition kind state.now) sent.now ∷ [];
        }) }
        ensures err { OnErr result (part.new ≡ part.old) }
    {
        let line = TransitionLine {
            words: self.component(component),
            stamp: stamp.at(time),
            kind,
            state,
            sent,
        };
        part.push_moved(&line, time, component, kind, state, sent)
    }

    /// Appends a fault of a component to a part, with what it sent. Its line is made where it
    /// stays. `stamp` may have any time before.
    ///
    /// # Errors
    ///
    /// No memory for it. The part is as before.
    pub(crate) fn push_faulted(
        &self,
        part: &mut WrittenPart<N>,
        stamp: &mut Stamp,
        time: Time,
        component: u32,
        fault: Fault,
        sent: &Sent,
    ) -> Result<(), AllocError>
        ensures ok { OnOk result (part.new ≡ record part.old {
          entries = part.old.entries ++ entry time component (what.Fault fault) sent.now ∷ [];
        }) }
        ensures err { OnErr result (part.new ≡ part.old) }
    {
        let line = FaultLine {
            words: self.component(component),
            stamp: stamp.at(time),
            fault,
            sent,
        };
        part.push_faulted(&line, time, component, fault, sent)
    }
}

impl<'w, N: OfJob> MakesRecord<WrittenRecord<'w, N>> for WrittenRecords<'w, N> {
    fn make(&self, alloc: Global) -> Result<WrittenRecord<'w, N>, AllocError> {
        Ok(WrittenRecord {
            by: WrittenRecords::new(self.words),
            stamp: Stamp::of(Time::ZERO),
            kept: WrittenPart::with_room(alloc, ENTRIES_AT_FIRST, BYTES_AT_FIRST),
            entries: 0,
            lines: 0,
            told: History::new(),
            settled: History::new(),
            past: History::new(),
            alloc,
        })
    }
}

/// A record that keeps what it was told since it last handed over, with each entry as its line. A
/// contract reads all that was told, what of it is settled, and what was handed over.
#[derive(Drop)]
pub struct WrittenRecord<'w, N: OfJob> {
    by: WrittenRecords<'w, N>,
    // The text of the last time.
    stamp: Stamp,
    kept: WrittenPart<N>,
    // How many entries and output lines are settled.
    entries: usize,
    lines: usize,
    told: History,
    settled: History,
    past: History,
    alloc: Global,
}

impl<'w, N: OfJob> Model for WrittenRecord<'w, N> {
    ghost use Rattle.std.specs.Prelude.{◌≡◌, ◌≤◌, length};
    ghost use Rattle.dv_bag.specs.Part.{joined};
    ghost use Rattle.dv_record.specs.Told.{first_of};
    ghost use Rattle.dv_lines.specs.Entries.{Written};

    ghost Value = { Written };

    ghost view = { λ r. record {
      told = r.told.part;
      settled = r.settled.part;
      past = r.past.part;
    } };

    ghost invariant = { λ r. (r.told.part ≡ joined r.past.part r.kept)
        × (r.settled.part ≡ joined r.past.part (first_of r.entries r.lines r.kept))
        × (r.entries ≤ length r.kept.entries)
        × (r.lines ≤ length r.kept.outer) };
}

impl<'w, N: OfJob> Record for WrittenRecord<'w, N> {
    ghost use Rattle.dv_lines.specs.Entries.{handed_of, settled_of, told_of};

    ghost told = { told_of };

    ghost settled = { settled_of };

    ghost handed = { handed_of };

    #[inline]
    fn moved(
        &mut self,
        time: Time,
        component: u32,
        kind: Kind,
        state: &State,
        sent: &Sent,
    ) -> Result<(), AllocError> {
        let (kept, stamp) = (&mut self.kept, &mut self.stamp);
        self.by
            .push_moved(kept, stamp, time, component, kind, state, sent)?;
        self.told = self.told.and_moved(&time, &component, &kind, state, sent);
        Ok(())
    }

    fn faulted(
        &mut self,
        time: Time,
        component: u32,
        fault: Fault,
        sent: &Sent,
    ) -> Result<(), AllocError> {
        let (kept, stamp) = (&mut self.kept, &mut self.stamp);
        self.by
            .push_faulted(kept, stamp, time, component, fault, sent)?;
        self.told = self.told.and_faulted(&time, &component, &fault, sent);
        Ok(())
    }

    fn left(&mut self, time: Time, values: &Bags) -> Result<(), AllocError> {
        push_left(&mut self.kept, time, values)?;
        self.told = self.told.and_left(&time, values);
        Ok(())
    }

    fn settle(&mut self) {
        self.entries = self.kept.entry_count();
        self.lines = self.kept.outer_count();
        self.settled = self.told.again();
    }

    fn roll_back(&mut self) {
        self.kept.truncate(self.entries, self.lines);
        self.told = self.settled.again();
    }

    fn bytes(&self) -> &[u8] {
        &[]
    }

    fn let_go(&mut self) {}
}

impl<'w, N: OfJob> HandsOver<N> for WrittenRecord<'w, N> {
    fn rest_length(&self) -> usize {
        self.kept.byte_count()
    }

    fn hand_over(&mut self, alloc: Global) -> WrittenPart<N> {
        self.entries = 0;
        self.lines = 0;
        self.past = self.told.again();
        self.kept.take(alloc)
    }
}

// Appends the output lines of a time: one for each port with values. If memory is refused, the part
// is as before.
fn push_left<N: OfJob>(
    part: &mut WrittenPart<N>,
    time: Time,
    values: &Bags,
) -> Result<(), AllocError>
    requires { length values.now ≤ 2 ^ 32 }
    ensures ok { OnOk result
        (part.new ≡ with_lines (lines_from time 0 values.now) part.old) }
    ensures err { OnErr result (part.new ≡ part.old) }
{
    let (entries, lines) = (part.entry_count(), part.outer_count());
    match push_lines(part, time, values) {
        Ok(()) => Ok(()),
        Err(error) => {
            part.truncate(entries, lines);
            Err(error)
        }
    }
}

// Appends the output lines of a time. If memory is refused, some of them may have been appended.
fn push_lines<N: OfJob>(
    part: &mut WrittenPart<N>,
    time: Time,
    values: &Bags,
) -> Result<(), AllocError>
    requires { length values.now ≤ 2 ^ 32 }
    ensures lines { OnOk result
        (part.new ≡ with_lines (lines_from time 0 values.now) part.old) }
    ensures grown { (more : List OuterOfCode) × (part.new ≡ with_lines more part.old) }
{
    for held in values.held() {
        part.push_outer(Outer {
            time,
            port: held.port as u32,
            values: held.bag.clone()?,
        })?;
    }
    Ok(())
}
