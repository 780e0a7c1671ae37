//! The changes of values, line by line.

use crate::arrivals::{RootInputs, values_of};
use crate::forms::Form;
use crate::latest::Latest;
use crate::marks::Marks;
use crate::options::WaveOptions;
use crate::ports::Ports;
use crate::shown::{AllShown, Codes, Shown, ShownDatum, Status, all_shown, shown_by};
use crate::survey::tick_behind;
use crate::values::{push_held, push_nothing, push_number, push_status, push_string};
use dv_bag::Input;
use dv_text::{WriteError, hand_over, hand_over_if_long};
use dv_time::Time;
use dv_trace::model::phase_name;
use dv_trace::{
    Chosen, Datum, EntryHead, Event, LineHead, LineLists, Reach, Sending, Side, Span, Text,
};
use dv_tree::Tree;
use std::alloc::{AllocError, Global};
use std::io::Write;
use std::mem::swap;

/// What is shown now, and the text of the changes that is not written yet.
#[derive(Drop)]
pub(crate) struct Changes<'a> {
    pub(crate) text: Text,
    pub(crate) alloc: Global,
    pub(crate) tree: &'a Tree<'a>,
    pub(crate) shown: AllShown<'a>,
    pub(crate) ports: Ports,
    pub(crate) root: &'a RootInputs,
    /// The components that are shown, and whether the root is.
    pub(crate) chosen: Chosen,
    // The ticks that are shown.
    span: Span,
    // Whether the values at the first of these ticks are in the text. Before that no text is kept.
    is_begun: bool,
    // The end of the declarations, until the values at the first of these ticks follow.
    aside: Text,
    // What ports show at the first of these ticks, if they hold their values.
    latest: Latest,
    // How many inputs have arrived.
    arrived: usize,
    // The tick of the last change in the text.
    tick: u64,
    // The tick of the last line.
    last: u64,
    // What passed in this tick by ports that are strings.
    marks: Marks,
}

impl<'a> Changes<'a> {
    /// The start of the model, at tick 0. It is large, so it is boxed.
    pub(crate) fn new(
        alloc: Global,
        tree: &'a Tree<'a>,
        chosen: Chosen,
        root: &'a RootInputs,
        options: &WaveOptions<'_>,
    ) -> Result<Box<Self>, AllocError> {
        let shown = all_shown(alloc, tree)?;
        let changes = Changes {
            text: Text::new(alloc),
            alloc,
            tree,
            ports: Ports::new(alloc, options.holds_ports, shown.behind)?,
            shown,
            root,
            chosen,
            span: options.excerpt.span(),
            is_begun: false,
            aside: Text::new(alloc),
            latest: Latest::new(alloc),
            arrived: 0,
            tick: 0,
            last: 0,
            marks: Marks::new(alloc),
        };
        Ok(Box::new(alloc, changes)?)
    }

    /// Puts the text aside, and takes up the one that was put aside before.
    pub(crate) fn set_aside(&mut self) {
        swap(&mut self.text, &mut self.aside);
    }

    // Takes the inputs that arrive before the tick `behind`, and adds the values of all that is
    // shown at the first of the ticks that are. Writes the text as it gets long.
    fn begin<W: Write>(&mut self, behind: u64, writer: &mut W) -> Result<(), WriteError> {
        if let Some(last) = behind.checked_sub(1) {
            self.take_inputs(last)?;
        }
        self.is_begun = true;
        self.tick = self.span.from;
        self.marks.clear();
        self.set_aside();
        let tick = self.tick;
        self.text.show(format_args!("#{tick}\n$dumpvars\n"));
        if self.chosen.has_root() {
            self.push_root();
        }
        for (component, shown) in self.shown.components.iter().enumerate() {
            if self.chosen.has(component) {
                push_start(&mut self.text, &self.ports, &self.latest, shown);
                hand_over_if_long(self.text.whole()?, writer)?;
            }
        }
        self.text.add("$end\n");
        Ok(())
    }

    // Adds what the ports of the root show at the start.
    fn push_root(&mut self) {
        let text = &mut self.text;
        let count = self.root.ports.len();
        push_ports(text, &self.ports, &self.latest, self.shown.inputs, count);
        let count = self.tree.output_count();
        push_ports(text, &self.ports, &self.latest, self.shown.outputs, count);
    }

    // Moves to a tick. The inputs that arrive up to it are taken first.
    fn advance(&mut self, tick: u64) -> Result<(), AllocError> {
        self.take_inputs(tick)?;
        self.go_to(tick);
        Ok(())
    }

    /// Moves behind the end of the trace, which reaches this far, or of the ticks that are shown,
    /// takes the inputs that arrive before it, and writes the rest of the text.
    pub(crate) fn finish<W: Write>(
        &mut self,
        reach: Reach,
        writer: &mut W,
    ) -> Result<(), WriteError> {
        let behind = self.span.cut(tick_behind(reach, self.last)).before;
        if !self.is_begun {
            self.begin(behind.min(self.span.from), writer)?;
        }
        self.take_inputs(behind.saturating_sub(1))?;
        self.go_to(behind);
        hand_over(writer, self.text.whole()?.as_bytes())
    }

    // Takes the inputs that arrive up to a tick. Mostly there are none.
    fn take_inputs(&mut self, tick: u64) -> Result<(), AllocError> {
        let inputs = &self.root.inputs;
        let rest = inputs.get(self.arrived..).unwrap_or(&[]);
        match rest.first() {
            Some(next) if next.time.tick <= tick => self.take_due(rest, tick),
            Some(_) | None => Ok(()),
        }
    }

    // Takes those that arrive up to a tick, among the inputs that have not arrived yet.
    fn take_due(&mut self, rest: &[Input], tick: u64) -> Result<(), AllocError> {
        for together in rest.chunk_by(|input, next| input.time == next.time
            && input.port == next.port)
        {
            match together.first() {
                Some(first) if first.time.tick <= tick => self.arrive(*first, together)?,
                Some(_) | None => break,
            }
        }
        Ok(())
    }

    // Shows inputs that arrive at one time at one port. `first` is the first of them.
    fn arrive(&mut self, first: Input, together: &[Input]) -> Result<(), AllocError> {
        self.arrived = self.arrived.saturating_add(together.len());
        if !self.chosen.has_root() {
            return Ok(());
        }
        self.go_to(first.time.tick);
        let code = self.shown.inputs.saturating_add(u64::from(first.port));
        let values = values_of(self.alloc, together)?;
        self.pass(code, values.as_str())
    }

    // Moves to a tick. What passed by ports that are not held is shown for one tick only.
    fn go_to(&mut self, tick: u64) {
        if tick <= self.tick {
            return;
        }
        if !self.marks.is_empty() {
            self.clear_marks();
        }
        if tick > self.tick {
            self.push_tick(tick);
        }
    }

    fn push_tick(&mut self, tick: u64) {
        self.tick = tick;
        self.text.show(format_args!("#{tick}\n"));
    }

    fn clear_marks(&mut self) {
        if !self.ports.are_held() {
            self.push_tick(self.tick.saturating_add(1));
            for code in self.marks.codes() {
                push_nothing(&mut self.text, Form::Text, *code);
            }
        }
        self.marks.clear();
    }

    /// Adds what a line changes, and writes the text once it is long. Of a line before the ticks
    /// that are shown no text is kept, and a line behind them changes nothing.
    pub(crate) fn follow<W: Write>(
        &mut self,
        head: LineHead,
        lists: &LineLists<'_>,
        writer: &mut W,
    ) -> Result<(), WriteError> {
        let Some(Time { tick, .. }) = head.time() else {
            return Ok(());
        };
        self.last = tick;
        let side = self.span.side_of(tick);
        if side != Side::Before && !self.is_begun {
            self.begin(self.span.from, writer)?;
        }
        if side != Side::Behind {
            self.change(head, lists)?;
        }
        let text = self.text.whole()?;
        if self.is_begun {
            return hand_over_if_long(text, writer);
        }
        text.clear();
        Ok(())
    }

    // Adds what a line changes.
    fn change(&mut self, head: LineHead, lists: &LineLists<'_>) -> Result<(), AllocError> {
        match head {
            LineHead::Entry(entry) => self.entry(entry, lists),
            LineHead::Outside(time) => self.outside(time.tick, &lists.sent),
            LineHead::Empty | LineHead::Whole(_) | LineHead::Clock(_) | LineHead::Partial => Ok(()),
        }
    }

    // Adds what the line of a component changes. The line of a fault has no variables.
    fn entry(&mut self, entry: EntryHead, lists: &LineLists<'_>) -> Result<(), AllocError> {
        if !self.chosen.has(entry.component as usize) {
            return Ok(());
        }
        self.advance(entry.time.tick)?;
        let Some(shown) = self.shown.components.get_mut(entry.component as usize) else {
            return Ok(());
        };
        let status = match entry.event {
            Event::Transition { kind: _, phase } => {
                Status::Phase(phase_name(self.tree, shown.scope, phase))
            }
            Event::Fault(fault) => Status::Fault(fault),
        };
        move_to(&mut self.text, shown, status);
        follow_state(&mut self.text, shown, &lists.state)?;
        let first = shown.codes.port(0);
        self.sent(first, &lists.sent)
    }

    // Shows what leaves the model at a tick.
    fn outside(&mut self, tick: u64, sent: &[Sending<'_>]) -> Result<(), AllocError> {
        if !self.chosen.has_root() {
            return Ok(());
        }
        self.advance(tick)?;
        self.sent(self.shown.outputs, sent)
    }

    // Shows what passes by output ports. `first` is the code of the first one.
    fn sent(&mut self, first: u64, sent: &[Sending<'_>]) -> Result<(), AllocError> {
        for sending in sent {
            let code = first.saturating_add(sending.port as u64);
            self.pass(code, sending.values.text)?;
        }
        Ok(())
    }

    // Shows the values that pass by a port at one time. Before the ticks that are shown, the change
    // is kept if it lasts.
    fn pass(&mut self, code: u64, values: &str) -> Result<(), AllocError> {
        if self.is_begun {
            return self.push_passed(code, values);
        }
        self.text.whole()?.clear();
        self.push_passed(code, values)?;
        if self.ports.are_held() {
            self.latest
                .keep(self.alloc, code, self.text.whole()?.as_str())?;
        }
        Ok(())
    }

    // Adds the change of a port.
    fn push_passed(&mut self, code: u64, values: &str) -> Result<(), AllocError> {
        let form = self.ports.form(code);
        match form {
            Form::Text => self.mark(code, values),
            Form::Wire | Form::Integer => {
                match values.parse::<i64>() {
                    Ok(value) => push_number(&mut self.text, form, value, code),
                    Err(_) => push_nothing(&mut self.text, form, code),
                }
                Ok(())
            }
        }
    }

    // Shows the values that pass by a port that is a string, behind those of the same tick.
    fn mark(&mut self, code: u64, values: &str) -> Result<(), AllocError> {
        let all = self.marks.add(self.alloc, code, values)?;
        push_string(&mut self.text, all, code);
        Ok(())
    }
}

// Adds what `count` ports show at the start: nothing, or their latest values. `first` is the code
// of the first one.
fn push_ports(text: &mut Text, ports: &Ports, latest: &Latest, first: u64, count: usize) {
    for port in 0..count {
        let code = first.saturating_add(port as u64);
        match latest.line(code) {
            Some(line) => text.add(line),
            None => push_nothing(text, ports.form(code), code),
        }
    }
}

// Adds what a component shows at the start.
fn push_start(text: &mut Text, ports: &Ports, latest: &Latest, shown: &Shown<'_>) {
    let codes = shown.codes;
    push_status(text, shown.status, codes.first);
    for (index, datum) in shown.state.iter().enumerate() {
        push_datum(text, datum, codes, index, true);
    }
    let count = shown.scope.output_count();
    push_ports(text, ports, latest, codes.port(0), count);
}

// Adds the phase or the fault of a component, if it has changed.
fn move_to<'a>(text: &mut Text, shown: &mut Shown<'a>, status: Status<'a>) {
    if shown.status != status {
        shown.status = status;
        push_status(text, status, shown.codes.first);
    }
}

// Adds the variables whose values have changed.
fn follow_state(
    text: &mut Text,
    shown: &mut Shown<'_>,
    state: &[Datum<'_>],
) -> Result<(), AllocError> {
    let codes = shown.codes;
    for (index, (shown, datum)) in shown.state.iter_mut().zip(state).enumerate() {
        follow_datum(text, shown, *datum, codes, index)?;
    }
    Ok(())
}

// Adds the value of a variable, if it has changed. The memory of its text is reused.
fn follow_datum(
    text: &mut Text,
    shown: &mut ShownDatum,
    datum: Datum<'_>,
    codes: Codes,
    index: usize,
) -> Result<(), AllocError> {
    let (number, values) = shown_by(datum);
    let is_other_number = shown.number != number;
    if !is_other_number && shown.values.as_str() == values {
        return Ok(());
    }
    shown.number = number;
    shown.values.clear();
    shown.values.push_str(values)?;
    push_datum(text, shown, codes, index, is_other_number);
    Ok(())
}

// Adds the value of the variable at an index. The size of a bag or a queue is added if `has_size`.
fn push_datum(text: &mut Text, shown: &ShownDatum, codes: Codes, index: usize, has_size: bool) {
    let code = codes.variable(index);
    match shown.form {
        Form::Wire | Form::Integer => push_number(text, shown.form, shown.number, code),
        Form::Text => {
            push_held(text, shown.values.as_str(), code);
            if has_size {
                push_number(text, Form::Integer, shown.number, codes.size(index));
            }
        }
    }
}
