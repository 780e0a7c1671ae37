//! Follows a run by the lines of its trace, instant by instant.

use crate::atom::Atom;
use crate::component::{Component, state_at_start, state_shown};
use crate::paragraphs::{FileText, Paragraphs};
use crate::reaction::Instant;
use dv_bag::{Bags, Input, What};
use dv_eval::phase_hold;
use dv_flat::LinkLists;
use dv_table::{Arrival, Routes, arrivals_to};
use dv_time::Time;
use dv_trace::{EntryHead, LineHead, LineLists};
use dv_tree::Tree;
use std::alloc::{AllocError, Global};
use std::mem;

/// What happened to a component at the current instant.
#[derive(Drop)]
struct Event {
    component: u32,
    what: What,
}

/// Follows a run by the lines of its trace. It keeps each component as it was before the current
/// instant (that of the last line), and what happened and arrived at this instant.
#[derive(Drop)]
pub(crate) struct Follower<'t> {
    alloc: Global,
    tree: &'t Tree<'t>,
    /// The greatest microstep of a tick.
    limit: u32,
    routes: Routes<'t>,
    components: Vec<Component>,
    time: Time,
    events: Vec<Event>,
    arrivals: Vec<Arrival>,
    paragraphs: Paragraphs<'t>,
}

impl<'t> Follower<'t> {
    /// A run of the model of a tree, with these links and inputs, before its first line.
    ///
    /// # Errors
    ///
    /// No memory for the components.
    pub(crate) fn new(
        alloc: Global,
        tree: &'t Tree<'t>,
        links: &'t LinkLists,
        inputs: &'t [Input],
        limit: u32,
        model: FileText<'t>,
    ) -> Result<Self, AllocError> {
        Ok(Follower {
            alloc,
            tree,
            limit,
            routes: Routes::new(links, inputs),
            components: components_at_start(alloc, tree, limit)?,
            time: Time::ZERO,
            events: Vec::new(alloc),
            arrivals: Vec::new(alloc),
            paragraphs: Paragraphs::new(alloc, model),
        })
    }

    /// Takes one more line. If it is of a later instant, the faults of the instant before are
    /// explained.
    ///
    /// # Errors
    ///
    /// No memory for what is kept, or for the paragraphs.
    pub(crate) fn add(&mut self, head: LineHead, lists: &LineLists<'_>) -> Result<(), AllocError> {
        let LineHead::Entry(entry) = head else {
            return Ok(());
        };
        if self.time != entry.time {
            self.settle()?;
            self.time = entry.time;
        }
        if self.paragraphs.is_full() {
            self.count(entry);
            return Ok(());
        }
        self.keep(entry, lists)
    }

    /// The text on all faults, after the last line.
    ///
    /// # Errors
    ///
    /// No memory for the text.
    pub(crate) fn finish(mut self) -> Result<String, AllocError> {
        self.settle()?;
        let Follower { paragraphs, .. } = self;
        paragraphs.into_text()
    }

    // Counts a fault that is not explained.
    fn count(&mut self, entry: EntryHead) {
        if let dv_trace::Event::Fault(_) = entry.event {
            self.paragraphs.count_one();
        }
    }

    // Keeps what happened to a component, and where the values that it sent arrive.
    fn keep(&mut self, entry: EntryHead, lists: &LineLists<'_>) -> Result<(), AllocError> {
        self.routes
            .add_sent(entry.component, &lists.sent, &mut self.arrivals)?;
        let Some(atom) = Atom::of(self.alloc, self.tree, entry.component) else {
            return Ok(());
        };
        let what = match entry.event {
            dv_trace::Event::Fault(fault) => What::Fault(fault),
            dv_trace::Event::Transition { kind, phase } => What::Transition {
                kind,
                state: state_shown(self.alloc, atom.scope, phase, &lists.state)?,
            },
        };
        self.events.push(Event {
            component: entry.component,
            what,
        })?;
        Ok(())
    }

    // Brings all components past the current instant.
    fn settle(&mut self) -> Result<(), AllocError> {
        self.routes.complete(self.time, &mut self.arrivals)?;
        let events = mem::replace(&mut self.events, Vec::new(self.alloc));
        for event in events {
            self.pass(event)?;
        }
        self.arrivals.clear();
        Ok(())
    }

    // Brings a component past the current instant, or explains its fault.
    fn pass(&mut self, event: Event) -> Result<(), AllocError> {
        let received = self.received_by(event.component)?;
        self.pass_with(event, &received)
    }

    // What arrives at a component at the current instant: a bag for each of its input ports.
    fn received_by(&self, component: u32) -> Result<Bags, AllocError> {
        let ports = match Atom::of(self.alloc, self.tree, component) {
            Some(atom) => atom.scope.inputs().len(),
            None => 0,
        };
        bags_of(self.alloc, ports, arrivals_to(&self.arrivals, component))
    }

    fn pass_with(&mut self, event: Event, received: &Bags) -> Result<(), AllocError> {
        let Some(atom) = Atom::of(self.alloc, self.tree, event.component) else {
            return Ok(());
        };
        let Some(component) = self.components.get_mut(event.component as usize) else {
            return Ok(());
        };
        let instant = Instant {
            time: self.time,
            limit: self.limit,
            received,
        };
        match event.what {
            What::Fault(_) => self.paragraphs.explain(&atom, component, &instant),
            What::Transition { kind, state } => component.pass(&atom, &instant, kind, state),
        }
    }
}

// The components at the start of a run.
fn components_at_start(
    alloc: Global,
    tree: &Tree<'_>,
    limit: u32,
) -> Result<Vec<Component>, AllocError> {
    let mut components = Vec::with_capacity(alloc, tree.component_count())?;
    for number in 0..tree.component_count() {
        if let Some(atom) = Atom::of(alloc, tree, number as u32) {
            components.push(component_at_start(&atom, limit)?)?;
        }
    }
    Ok(components)
}

// A component at the start of a run. The hold of the start phase of an accepted model has no fault.
fn component_at_start(atom: &Atom<'_>, limit: u32) -> Result<Component, AllocError> {
    let state = state_at_start(atom)?;
    let phase = atom.phase_of(&state);
    let until = match phase_hold(atom.model, phase, &state, atom.scope) {
        Ok(Some(ticks)) => Time::ZERO.after(ticks, limit).ok(),
        Ok(None) | Err(_) => None,
    };
    Ok(Component {
        state,
        last: 0,
        until,
    })
}

// Arrivals at a component: a bag for each of so many input ports.
fn bags_of(alloc: Global, ports: usize, arrivals: &[Arrival]) -> Result<Bags, AllocError> {
    let mut bags = Bags::empty(alloc, ports);
    for arrival in arrivals {
        let port = arrival.to.port as usize;
        if port < bags.len() {
            bags.insert_copies(port, arrival.value, arrival.copies)?;
        }
    }
    Ok(bags)
}
