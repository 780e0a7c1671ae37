//! Cases, and whether a process behaves as they say.

ghost use Rattle.std.specs.Prelude.{IfOk};

use dv_bag::{Entry, Fault, Kind, What};
use dv_core::{LogicalProcess, committed};
use dv_proc::{Event, Packet, Refused};
use dv_record::PartRecord;
use dv_time::Time;
use std::alloc::{AllocError, Global};

/// A process takes more turns than it needs to commit all that it knows.
const TURNS: usize = 8;

/// A packet, and how it is refused; without a refusal it is taken.
pub struct Row {
    /// The number of the link.
    pub link: u32,
    /// Where the window of the packet begins.
    pub from: Time,
    /// Where the window of the packet ends.
    pub upto: Time,
    /// The events of the packet.
    pub events: &'static [Event],
    /// How it is refused; none where it is taken.
    pub refusal: Option<Refused>,
}

/// What a process commits.
pub enum Committed {
    /// Nothing.
    Nothing,
    /// One fault of a component.
    Fault(Time, u32, Fault),
    /// One transition of a component.
    Transition(Time, u32, Kind),
}

/// Packets for a new process, one after the other, what it commits then, up to a clock, and how
/// often it visits components.
pub struct Case {
    /// What is printed of the case.
    pub name: &'static str,
    /// The packets, in their order.
    pub rows: &'static [Row],
    /// What the process commits then.
    pub committed: Committed,
    /// The clock to which the process comes.
    pub clock: Time,
    /// How often the process visits components.
    pub visits: u64,
}

impl Row {
    fn packet(&self, alloc: Global) -> Result<Packet, AllocError> {
        Ok(Packet {
            link: self.link,
            from: self.from,
            upto: self.upto,
            events: Vec::from_slice(alloc, self.events)?,
        })
    }

    /// Whether an answer is the one that the packet has to have.
    fn is_answer(&self, answer: Result<(), (Refused, Packet)>) -> bool {
        match answer {
            Ok(()) => self.refusal.is_none(),
            Err((refused, _packet)) => self.refusal == Some(refused),
        }
    }
}

impl Committed {
    /// Whether an entry is the one that is committed.
    fn is_entry(&self, entry: &Entry) -> bool {
        match self {
            Committed::Nothing => false,
            Committed::Fault(time, component, fault) => {
                entry.time == *time
                    && entry.component == *component
                    && entry.what == What::Fault(*fault)
            }
            Committed::Transition(time, component, kind) => {
                entry.time == *time
                    && entry.component == *component
                    && is_of_kind(&entry.what, *kind)
            }
        }
    }

    /// How many entries are committed.
    fn count(&self) -> usize {
        match self {
            Committed::Nothing => 0,
            Committed::Fault(..) | Committed::Transition(..) => 1,
        }
    }
}

/// Whether what happened is a transition of a kind.
fn is_of_kind(what: &What, kind: Kind) -> bool {
    match what {
        What::Transition { kind: found, .. } => *found == kind,
        What::Fault(_) => false,
    }
}

/// Whether a new process answers and commits as a case says.
pub fn does_hold<P: LogicalProcess<Record = PartRecord>>(
    alloc: Global,
    process: &mut P,
    work: &mut P::Work,
    case: &Case,
) -> Result<bool, AllocError>
    requires { P.valid process.old }
{
    if !does_answer(alloc, process, case.rows)? {
        return Ok(false);
    }
    take_turns(process, work)?;
    let part = committed(process);
    let is_count = part.entry_count() == case.committed.count();
    let mut entries = part.entries();
    let are_entries = entries.all(|entry| case.committed.is_entry(entry));
    Ok(is_count && are_entries && process.clock() == case.clock)
}

/// Whether a process answers packets as a table says.
fn does_answer<P: LogicalProcess>(
    alloc: Global,
    process: &mut P,
    rows: &[Row],
) -> Result<bool, AllocError>
    requires { P.valid process.old }
    ensures { P.valid process.new }
{
    for row in rows {
        let packet = row.packet(alloc)?;
        let answer = process.receive(packet);
        if !row.is_answer(answer) {
            return Ok(false);
        }
    }
    Ok(true)
}

fn take_turns<P: LogicalProcess>(process: &mut P, work: &mut P::Work) -> Result<(), AllocError>
    requires { P.valid process.old }
    ensures { P.valid process.new }
{
    for _turn in 0..TURNS {
        let _turned = process.turn(work)?;
    }
    Ok(())
}
