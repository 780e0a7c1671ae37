//! Reads the lines of a trace.

use crate::cutter::{LineCutter, TakeLine};
use crate::line::{EntryHead, Event, LineHead, LineLists, TraceLine};
use crate::names::Directory;
use crate::numbers::{number_in, tick_in, time_in};
use crate::pieces::{Sender, phase_of, read_sendings, read_sent, split_state, split_word};
use crate::reach::{End, Reach};
use crate::recent::Recent;
use crate::refusal::{LineError, TraceError, TraceReason, TraceRefusal};
use dv_bag::{Fault, Kind};
use dv_eval::Scope;
use dv_time::{GREATEST_TICK, Time};
use dv_tree::Tree;
use std::alloc::{AllocError, Global};
use std::io::Write;

/// The last line so far.
#[derive(Clone, Copy)]
enum Last {
    Nothing,
    Entry(Time, u32),
    Outside(Time),
    // A clock: the least one so far, and the time of the last line before the clocks, if there is
    // one.
    Clock { least: Time, before: Option<Time> },
    End(Reach),
}

/// Reads the lines of a trace of a model, one after the other. Its memory does not grow with the
/// trace.
#[derive(Drop)]
pub struct TraceReader<'t> {
    alloc: Global,
    tree: &'t Tree<'t>,
    names: Directory<'t>,
    recent: Recent,
    last: Last,
    lines: u64,
}

impl<'t> TraceReader<'t> {
    /// A reader at the first line of a trace of the model of this tree. It is large, so it is
    /// boxed.
    ///
    /// # Errors
    ///
    /// An allocation was refused.
    pub fn new(alloc: Global, tree: &'t Tree<'t>) -> Result<Box<Self>, AllocError> {
        let reader = TraceReader {
            alloc,
            tree,
            names: Directory::of(alloc, tree)?,
            recent: Recent::new(alloc, tree.component_count())?,
            last: Last::Nothing,
            lines: 0,
        };
        Ok(Box::new(alloc, reader)?)
    }

    /// Reads the next line, which is given without its line feed. A carriage return at its end is
    /// ignored.
    ///
    /// # Errors
    ///
    /// `Refused`: the line has none of the forms of a trace, has names that the model does not
    /// have, or is out of order. `Memory`: an allocation was refused.
    pub fn read_line<'a>(&mut self, line: &'a [u8]) -> Result<TraceLine<'a>, TraceError> {
        let mut lists = LineLists::new(self.alloc);
        let head = self.read_into(line, &mut lists)?;
        Ok(TraceLine { head, lists })
    }

    /// Reads the next line as `read_line` does, and puts its lists into `lists`, in the place of
    /// those of another line.
    ///
    /// # Errors
    ///
    /// The same as for `read_line`. `lists` then has a beginning of the lists of the line, perhaps
    /// nothing.
    pub fn read_into<'a>(
        &mut self,
        line: &'a [u8],
        lists: &mut LineLists<'a>,
    ) -> Result<LineHead, TraceError> {
        self.lines = self.lines.saturating_add(1);
        lists.clear();
        match self.head_of(line, lists) {
            Ok(head) => Ok(head),
            Err(LineError::Refused(reason)) => Err(TraceError::Refused(TraceRefusal {
                reason,
                line: self.lines,
            })),
            Err(LineError::Memory) => Err(TraceError::Memory),
        }
    }

    /// Ends the trace and returns how far it reaches. Only lines that have a line feed may have
    /// been read before.
    ///
    /// # Errors
    ///
    /// `Refused`: an end is required, and the last line is no end. The line after it is named.
    pub fn end(&self, end: End) -> Result<Reach, TraceError> {
        match (self.last, end) {
            (Last::End(reach), _) => Ok(reach),
            (last, End::Optional) => Ok(Reach::NoEnd(last.time())),
            (_, End::Required) => Err(TraceError::Refused(TraceRefusal {
                reason: TraceReason::NoEnd,
                line: self.lines.saturating_add(1),
            })),
        }
    }

    fn head_of<'a>(
        &mut self,
        line: &'a [u8],
        lists: &mut LineLists<'a>,
    ) -> Result<LineHead, LineError> {
        let Ok(text) = str::from_utf8(line) else {
            return Err(LineError::Refused(TraceReason::NotText));
        };
        let text = text.strip_suffix('\r').unwrap_or(text);
        if text.is_empty() {
            return Ok(LineHead::Empty);
        }
        if text.ends_with(' ') {
            return Err(LineError::Refused(TraceReason::Form));
        }
        match self.last {
            Last::End(_) => Err(LineError::Refused(TraceReason::AfterEnd)),
            Last::Nothing | Last::Entry(..) | Last::Outside(_) | Last::Clock { .. } => {
                self.text_of(text, lists)
            }
        }
    }

    fn text_of<'a>(
        &mut self,
        text: &'a str,
        lists: &mut LineLists<'a>,
    ) -> Result<LineHead, LineError> {
        if let Some((time, rest)) = self.recent.split_time(text) {
            return self.at_time(time, rest, lists);
        }
        let (first, rest) = split_word(text);
        match first {
            "whole" => self.whole(rest),
            "process" => self.clock(rest),
            "partial" => self.partial(rest),
            _ => {
                let time = self.new_time(first)?;
                self.at_time(time, rest, lists)
            }
        }
    }

    fn new_time(&mut self, word: &str) -> Result<Time, LineError> {
        let Some(time) = time_in(word, GREATEST_TICK) else {
            return Err(LineError::Refused(TraceReason::Time));
        };
        self.recent.keep_time(time, word)?;
        Ok(time)
    }

    fn whole(&mut self, rest: &str) -> Result<LineHead, LineError> {
        let Some(horizon) = tick_in(rest) else {
            return Err(LineError::Refused(TraceReason::Form));
        };
        if !self.last.is_within(horizon) {
            return Err(LineError::Refused(TraceReason::Order));
        }
        self.last = Last::End(Reach::Whole(horizon));
        Ok(LineHead::Whole(horizon))
    }

    fn partial(&mut self, rest: &str) -> Result<LineHead, LineError> {
        if !rest.is_empty() {
            return Err(LineError::Refused(TraceReason::Form));
        }
        self.last = Last::End(Reach::Partial(self.last.clock()));
        Ok(LineHead::Partial)
    }

    // Reads the clock in `process N clock T.K`. The clock of a process that has finished is after
    // the horizon.
    fn clock(&mut self, rest: &str) -> Result<LineHead, LineError> {
        let (number, rest) = split_word(rest);
        let Some(clock) = rest.strip_prefix("clock ") else {
            return Err(LineError::Refused(TraceReason::Form));
        };
        if number_in(number, u64::MAX).is_none() {
            return Err(LineError::Refused(TraceReason::Form));
        }
        let Some(clock) = time_in(clock, GREATEST_TICK + 1) else {
            return Err(LineError::Refused(TraceReason::Time));
        };
        if !self.last.is_before_clock(clock) {
            return Err(LineError::Refused(TraceReason::Order));
        }
        self.last = Last::Clock {
            least: match self.last.clock() {
                Some(least) if least.is_before(clock) => least,
                Some(_) | None => clock,
            },
            before: self.last.time(),
        };
        Ok(LineHead::Clock(clock))
    }

    fn at_time<'a>(
        &mut self,
        time: Time,
        rest: &'a str,
        lists: &mut LineLists<'a>,
    ) -> Result<LineHead, LineError> {
        if let Some(follower) = self.recent.follower()
            && let Some((component, rest)) = self.names.split_path(follower, rest)
        {
            return self.entry(time, component, rest, lists);
        }
        let (path, rest) = split_word(rest);
        if path == "out" {
            return self.outside(time, rest, lists);
        }
        match self.names.component(path) {
            Some(component) => self.entry(time, component, rest, lists),
            None => Err(LineError::Refused(TraceReason::Path)),
        }
    }

    fn outside<'a>(
        &mut self,
        time: Time,
        rest: &'a str,
        lists: &mut LineLists<'a>,
    ) -> Result<LineHead, LineError> {
        if !self.last.is_before_outside(time) {
            return Err(LineError::Refused(TraceReason::Order));
        }
        self.last = Last::Outside(time);
        read_sendings(self.tree, &self.names, Sender::Root, rest, &mut lists.sent)?;
        Ok(LineHead::Outside(time))
    }

    fn entry<'a>(
        &mut self,
        time: Time,
        component: u32,
        rest: &'a str,
        lists: &mut LineLists<'a>,
    ) -> Result<LineHead, LineError> {
        if !self.last.is_before_entry(time, component) {
            return Err(LineError::Refused(TraceReason::Order));
        }
        self.last = Last::Entry(time, component);
        self.recent.keep_component(component);
        Ok(LineHead::Entry(EntryHead {
            time,
            component,
            event: self.event(self.scope(component)?, rest, lists)?,
        }))
    }

    fn event<'a>(
        &self,
        scope: &Scope,
        rest: &'a str,
        lists: &mut LineLists<'a>,
    ) -> Result<Event, LineError> {
        let (word, rest) = split_word(rest);
        match word.parse::<Kind>() {
            Ok(kind) => Ok(Event::Transition {
                kind,
                phase: self.transition(scope, rest, lists)?,
            }),
            Err(_) if word == "fault" => Ok(Event::Fault(self.fault(scope, rest, lists)?)),
            Err(_) => Err(LineError::Refused(TraceReason::Form)),
        }
    }

    // Reads a transition, and returns the index of its phase.
    fn transition<'a>(
        &self,
        scope: &Scope,
        rest: &'a str,
        lists: &mut LineLists<'a>,
    ) -> Result<u32, LineError> {
        let (word, rest) = split_word(rest);
        let Some(phase) = phase_of(self.tree, &self.names, scope, word) else {
            return Err(LineError::Refused(TraceReason::Phase));
        };
        let rest = split_state(self.tree, scope, rest, &mut lists.state)?;
        read_sent(self.tree, &self.names, scope, rest, &mut lists.sent)?;
        Ok(phase)
    }

    fn fault<'a>(
        &self,
        scope: &Scope,
        rest: &'a str,
        lists: &mut LineLists<'a>,
    ) -> Result<Fault, LineError> {
        let (word, rest) = split_word(rest);
        let Ok(fault) = word.parse::<Fault>() else {
            return Err(LineError::Refused(TraceReason::Fault));
        };
        read_sent(self.tree, &self.names, scope, rest, &mut lists.sent)?;
        Ok(fault)
    }

    fn scope(&self, component: u32) -> Result<&'t Scope, LineError> {
        let component = component as usize;
        if component < self.tree.component_count() {
            Ok(self.tree.scope(component))
        } else {
            Err(LineError::Refused(TraceReason::Path))
        }
    }
}

impl Last {
    // The least clock so far.
    fn clock(self) -> Option<Time> {
        match self {
            Last::Clock { least, .. } => Some(least),
            Last::Nothing | Last::Entry(..) | Last::Outside(_) | Last::End(_) => None,
        }
    }

    // The time of the last line that has one. All that happened before it has been read.
    fn time(self) -> Option<Time> {
        match self {
            Last::Entry(time, _) | Last::Outside(time) => Some(time),
            Last::Clock { before, .. } => before,
            Last::Nothing | Last::End(_) => None,
        }
    }

    // Whether the line of a component may follow.
    fn is_before_entry(self, time: Time, component: u32) -> bool {
        match self {
            Last::Nothing => true,
            Last::Entry(last, other) => {
                last.is_before(time) || (last == time && other < component)
            }
            Last::Outside(last) => last.is_before(time),
            Last::Clock { .. } | Last::End(_) => false,
        }
    }

    // Whether the line of what left the model may follow.
    fn is_before_outside(self, time: Time) -> bool {
        match self {
            Last::Nothing => true,
            Last::Entry(last, _) => last.is_before(time) || last == time,
            Last::Outside(last) => last.is_before(time),
            Last::Clock { .. } | Last::End(_) => false,
        }
    }

    // Whether the clock of a process may follow. What it has printed is before its clock.
    fn is_before_clock(self, clock: Time) -> bool {
        match self.time() {
            Some(last) => last.is_before(clock),
            None => true,
        }
    }

    // Whether `whole` with this horizon may follow.
    fn is_within(self, horizon: u64) -> bool {
        match self {
            Last::Nothing => true,
            Last::Entry(last, _) | Last::Outside(last) => last.tick <= horizon,
            Last::Clock { .. } | Last::End(_) => false,
        }
    }
}

/// Reads the lines of a trace, and takes nothing of them.
#[derive(Drop)]
struct Test<'r, 't> {
    reader: &'r mut TraceReader<'t>,
}

impl TakeLine for Test<'_, '_> {
    type Error = TraceError;

    fn take_line<'a>(
        &mut self,
        line: &'a [u8],
        lists: &mut LineLists<'a>,
    ) -> Result<(), TraceError> {
        let _head = self.reader.read_into(line, lists)?;
        Ok(())
    }
}

/// Tests a trace of the model of a tree, and returns how far it reaches.
///
/// # Errors
///
/// `Refused`: `TraceReader::read_line` refuses a line, or an end is required and there is none.
/// `Memory`: an allocation was refused.
pub fn check_trace(
    alloc: Global,
    tree: &Tree<'_>,
    trace: &[u8],
    end: End,
) -> Result<Reach, TraceError> {
    let mut reader = TraceReader::new(alloc, tree)?;
    let test = Test {
        reader: &mut *reader,
    };
    let mut lines = LineCutter::new(alloc, test);
    // The error of a line that is not taken is that of `finish`.
    let _written = lines.write(trace);
    let _test = lines.finish(end)?;
    reader.end(end)
}
