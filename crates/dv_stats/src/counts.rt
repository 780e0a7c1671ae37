//! The counts of a trace.

use crate::component::{ComponentCount, tally_all};
use crate::flow::Flow;
use crate::options::Counted;
use crate::output::OutputCount;
use crate::tally::{PortTallies, tallies_of};
use dv_trace::model::start_phase;
use dv_trace::{EntryHead, LineHead, LineLists, Sending, Side, Span};
use std::alloc::AllocError;

/// The counts of a trace so far.
#[derive(Drop)]
pub(crate) struct Counts<'t> {
    /// By the number of the component; `None` for those that are not asked for.
    pub(crate) components: Vec<Option<ComponentCount>>,
    /// By the index of the root's output port; empty if only some components are asked for.
    pub(crate) outputs: Vec<OutputCount>,
    /// By the index of the root's output port; empty without quantiles.
    pub(crate) tallies: Vec<PortTallies>,
    /// The times between two ports, if they are asked for.
    pub(crate) flow: Option<Flow<'t>>,
    /// The ticks that count. `finish` cuts it at the end of the trace.
    pub(crate) span: Span,
    // The number of ticks in the trace if its end was read, otherwise the tick of the last line.
    ticks: u64,
    // The tick of the least clock, if there are clocks.
    clock: Option<u64>,
}

impl<'t> Counts<'t> {
    /// The counts before the first line.
    pub(crate) fn new(counted: Counted<'t>) -> Result<Self, AllocError> {
        let alloc = counted.alloc;
        let outputs = if counted.chosen.has_root() {
            counted.tree.output_count()
        } else {
            0
        };
        Ok(Counts {
            components: components_of(counted)?,
            outputs: vec![in alloc; OutputCount::NOTHING; outputs]?,
            tallies: tallies_of(alloc, outputs, counted.options.quantiles)?,
            flow: None,
            span: counted.options.excerpt.span(),
            ticks: 0,
            clock: None,
        })
    }

    /// Sets the flow, before the first line.
    pub(crate) fn set_flow(&mut self, flow: Option<Flow<'t>>) {
        self.flow = flow;
    }

    /// Counts a line.
    pub(crate) fn add(&mut self, head: LineHead, lists: &LineLists<'_>) -> Result<(), AllocError> {
        if let Some(flow) = &mut self.flow {
            flow.follow(head, lists)?;
        }
        match head {
            LineHead::Empty => Ok(()),
            LineHead::Entry(entry) => self.add_entry(entry, lists),
            LineHead::Outside(time) => self.add_outside(time.tick, &lists.sent),
            LineHead::Whole(horizon) => {
                self.ticks = horizon.saturating_add(1);
                Ok(())
            }
            LineHead::Clock(time) => {
                self.clock = Some(match self.clock {
                    Some(least) => least.min(time.tick),
                    None => time.tick,
                });
                Ok(())
            }
            LineHead::Partial => {
                self.ticks = self.ticks.max(self.clock.unwrap_or(0));
                Ok(())
            }
        }
    }

    fn add_entry(&mut self, entry: EntryHead, lists: &LineLists<'_>) -> Result<(), AllocError> {
        self.ticks = entry.time.tick;
        match self.components.get_mut(entry.component as usize) {
            Some(Some(component)) => component.add(entry, lists, self.span),
            Some(None) | None => Ok(()),
        }
    }

    // Counts what leaves the model at a tick.
    fn add_outside(&mut self, tick: u64, sent: &[Sending<'_>]) -> Result<(), AllocError> {
        self.ticks = tick;
        match self.span.side_of(tick) {
            Side::Within => {
                self.send(tick, sent);
                tally_all(&mut self.tallies, tick, sent)
            }
            Side::Before | Side::Behind => Ok(()),
        }
    }

    fn send(&mut self, tick: u64, sent: &[Sending<'_>]) {
        for sending in sent {
            if let Some(output) = self.outputs.get_mut(sending.port) {
                output.send(tick, sending.values);
            }
        }
    }

    /// Counts up to the end of the trace, after its last line.
    pub(crate) fn finish(&mut self) -> Result<(), AllocError> {
        self.span = self.span.cut(self.ticks);
        if let Some(flow) = &mut self.flow {
            flow.finish(self.span.before)?;
        }
        for component in &mut self.components {
            if let Some(component) = component {
                component.finish(self.span.before)?;
            }
        }
        Ok(())
    }
}

// The counts of the components that are asked for.
fn components_of(counted: Counted<'_>) -> Result<Vec<Option<ComponentCount>>, AllocError> {
    let Counted {
        alloc,
        tree,
        chosen,
        options,
    } = counted;
    let span = options.excerpt.span();
    let mut components = Vec::with_capacity(alloc, tree.component_count())?;
    for component in 0..tree.component_count() {
        let count = if chosen.has(component) {
            let phase = start_phase(tree, component);
            let scope = tree.scope(component);
            Some(ComponentCount::new(alloc, scope, phase, span, options.quantiles)?)
        } else {
            None
        };
        components.push(count)?;
    }
    Ok(components)
}
