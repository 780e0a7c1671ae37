//! The first reading of a trace, which tests it and finds the form of each port.

use crate::changes::Changes;
use crate::error::VcdError;
use crate::ports::{Passing, Ports};
use crate::reading::read_lines;
use crate::shown::AllShown;
use dv_trace::{
    End, LineHead, LineLists, PieceReader, Reach, Sending, TakeLine, TraceReader, Values,
};
use std::io::Read;

/// Reads a trace to its end and tests it. If ports are held, `changes.ports` has what passed by
/// each of them afterwards.
pub(crate) fn survey<T: Read>(
    changes: &mut Changes<'_>,
    pieces: &mut PieceReader<'_, T>,
    end: End,
) -> Result<(), VcdError> {
    let mut reader = TraceReader::new(changes.alloc, changes.tree)?;
    survey_lines(&mut reader, changes, pieces, end)
}

fn survey_lines<'a, T: Read>(
    reader: &mut TraceReader<'a>,
    changes: &mut Changes<'a>,
    pieces: &mut PieceReader<'_, T>,
    end: End,
) -> Result<(), VcdError> {
    let mut last = 0;
    let watch = Watch {
        reader: &mut *reader,
        shown: &changes.shown,
        ports: &mut changes.ports,
        last: &mut last,
    };
    read_lines(changes.alloc, pieces, end, watch)?;
    let behind = tick_behind(reader.end(end)?, last);
    pass_inputs(changes, behind);
    Ok(())
}

// Notes the inputs that arrive before a tick.
fn pass_inputs(changes: &mut Changes<'_>, behind: u64) {
    for input in &changes.root.inputs {
        if input.time.tick >= behind {
            break;
        }
        let code = changes.shown.inputs.saturating_add(u64::from(input.port));
        let passing = Passing::of(input.value);
        changes.ports.pass(input.time.tick, code, passing);
    }
}

/// Reads the lines of a trace and notes what passes by ports.
#[derive(Drop)]
struct Watch<'a, 'w> {
    reader: &'w mut TraceReader<'a>,
    shown: &'w AllShown<'a>,
    ports: &'w mut Ports,
    // The tick of the last line of a component or of the root's outputs.
    last: &'w mut u64,
}

impl Watch<'_, '_> {
    // Notes what passes by ports at a line, and its tick.
    fn note(&mut self, head: LineHead, sent: &[Sending<'_>]) {
        let (tick, first) = match head {
            LineHead::Entry(entry) => match self.shown.components.get(entry.component as usize) {
                Some(component) => (entry.time.tick, component.codes.port(0)),
                None => return,
            },
            LineHead::Outside(time) => (time.tick, self.shown.outputs),
            LineHead::Empty | LineHead::Whole(_) | LineHead::Clock(_) | LineHead::Partial => return,
        };
        *self.last = tick;
        pass_all(self.ports, tick, first, sent);
    }
}

impl TakeLine for Watch<'_, '_> {
    type Error = VcdError;

    fn take_line<'a>(&mut self, line: &'a [u8], lists: &mut LineLists<'a>) -> Result<(), VcdError> {
        let head = self.reader.read_into(line, lists)?;
        if self.ports.are_held() {
            self.note(head, &lists.sent);
        }
        Ok(())
    }
}

/// The first tick behind a trace whose last line is at the tick `last`.
pub(crate) fn tick_behind(reach: Reach, last: u64) -> u64 {
    let next = last.saturating_add(1);
    match reach {
        Reach::Whole(horizon) => horizon.saturating_add(1),
        Reach::Partial(Some(clock)) => clock.tick.max(next),
        Reach::Partial(None) | Reach::NoEnd(_) => next,
    }
}

// Notes what passes in a tick by output ports. `first` is the code of the first one.
fn pass_all(ports: &mut Ports, tick: u64, first: u64, sent: &[Sending<'_>]) {
    for sending in sent {
        let code = first.saturating_add(sending.port as u64);
        ports.pass(tick, code, passing_of(sending.values));
    }
}

fn passing_of(values: Values<'_>) -> Passing {
    match values.text.parse::<i64>() {
        Ok(number) => Passing::of(number),
        Err(_) => Passing::Several,
    }
}
