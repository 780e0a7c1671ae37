//! A record that keeps a part of a trace.

ghost use Rattle.std.specs.Prelude.{◌≡◌, ◌≤◌, ◌^◌, IfOk, List, OnErr, OnOk, length, map};
ghost use Rattle.dv_bag.specs.Part.{nothing};
ghost use Rattle.dv_bag.specs.declared.entry.Outer.{Outer as OuterOfCode};
ghost use Rattle.dv_record.specs.Told.{entry, lines_from, with_entry, with_lines};

use crate::records::{BlankRecord, Record};
use dv_bag::{Bags, Entry, Fault, Kind, Outer, Part, Sent, State, What};
use dv_time::Time;
use std::alloc::{AllocError, Global};
use std::marker::Model;
use std::mem;

/// A record that keeps all that it was told as a part of a trace.
#[derive(Drop)]
pub struct PartRecord {
    part: Part,
    // How many entries and output lines are settled.
    entries: usize,
    lines: usize,
}

impl Model for PartRecord {
    ghost use Rattle.std.specs.Prelude.{◌≤◌, length};
    ghost use Rattle.dv_record.specs.Told.{Told, first_of};

    ghost Value = { Told };

    ghost view = { λ r. record { told = r.part; settled = first_of r.entries r.lines r.part } };

    ghost invariant = { λ r. (r.entries ≤ length r.part.entries)
        × (r.lines ≤ length r.part.outer) };
}

impl PartRecord {
    /// A record to which nothing was told.
    pub fn new(alloc: Global) -> Self
        ensures told { result.told ≡ nothing }
        ensures settled { result.settled ≡ nothing }
    {
        PartRecord {
            part: Part::new(alloc),
            entries: 0,
            lines: 0,
        }
    }

    /// All that was told.
    pub fn part(&self) -> &Part
        ensures { result.now ≡ self.now.told }
    {
        &self.part
    }

    /// All that was told. The record is consumed.
    pub fn into_part(self) -> Part
        ensures { result ≡ self.told }
    {
        self.part
    }

    /// Moves out all that was told. The record is as new afterwards.
    pub fn take(&mut self, alloc: Global) -> Part
        ensures part { result ≡ self.old.told }
        ensures told { self.new.told ≡ nothing }
        ensures settled { self.new.settled ≡ nothing }
    {
        self.entries = 0;
        self.lines = 0;
        mem::replace(&mut self.part, Part::new(alloc))
    }
}

impl Record for PartRecord {
    ghost use Rattle.dv_record.specs.Told.{no_text, settled_of, told_of};

    ghost told = { told_of };

    ghost settled = { settled_of };

    ghost handed = { λ _. no_text };

    fn moved(
        &mut self,
        time: Time,
        component: u32,
        kind: Kind,
        state: &State,
        sent: &Sent,
    ) -> Result<(), AllocError> {
        let what = What::Transition {
            kind,
            state: state.clone()?,
        };
        push(&mut self.part, time, component, what, sent)
    }

    fn faulted(
        &mut self,
        time: Time,
        component: u32,
        fault: Fault,
        sent: &Sent,
    ) -> Result<(), AllocError> {
        push(&mut self.part, time, component, What::Fault(fault), sent)
    }

    fn left(&mut self, time: Time, values: &Bags) -> Result<(), AllocError> {
        push_lines(&mut self.part, time, values)
    }

    fn settle(&mut self) {
        self.entries = self.part.entry_count();
        self.lines = self.part.outer_count();
    }

    fn roll_back(&mut self) {
        self.part.truncate(self.entries, self.lines);
    }

    fn bytes(&self) -> &[u8] {
        &[]
    }

    fn let_go(&mut self) {}
}

impl BlankRecord for PartRecord {
    fn blank(alloc: Global) -> Self {
        PartRecord::new(alloc)
    }
}

// Appends an entry.
fn push(
    part: &mut Part,
    time: Time,
    component: u32,
    what: What,
    sent: &Sent,
) -> Result<(), AllocError>
    ensures told { OnOk result
        (part.new ≡ with_entry (entry time component what sent.now) part.old) }
    ensures err { OnErr result (part.new ≡ part.old) }
{
    let sent = sent.clone()?;
    part.push_entry(Entry {
        time,
        component,
        what,
        sent,
    })
}

/// Appends the output lines of a time: one for each port at which values left.
///
/// # Errors
///
/// No memory for the lines. Some of them may have been appended.
pub fn push_lines(part: &mut Part, time: Time, values: &Bags) -> Result<(), AllocError>
    requires { length values.now ≤ 2 ^ 32 }
    ensures lines { OnOk result
        (part.new ≡ with_lines (lines_from time 0 values.now) part.old) }
    ensures grown { (more : List OuterOfCode) × (part.new ≡ with_lines more part.old) }
{
    for held in values.held() {
        part.push_outer(Outer {
            time,
            port: held.port as u32,
            values: held.bag.clone()?,
        })?;
    }
    Ok(())
}

/// What was told to each record, in the order of the records.
///
/// # Errors
///
/// No memory for the list.
pub fn parts_of(alloc: Global, records: Vec<PartRecord>) -> Result<Vec<Part>, AllocError>
    ensures { IfOk result (λ parts. parts.items ≡ map (λ r. r.told) records.items) }
{
    let mut parts = Vec::with_capacity(alloc, records.len())?;
    for one in records {
        parts.push_reserved(one.into_part());
    }
    Ok(parts)
}
