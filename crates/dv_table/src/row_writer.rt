//! From lines to rows.

use crate::arrivals::{Arrival, push_values};
use crate::error::TableError;
use crate::row::{ARRIVED, Index, LEFT, Row, Rows, SENT, State};
use dv_eval::Scope;
use dv_time::Time;
use dv_trace::model::{name_at, phase_name};
use dv_trace::{Datum, EntryHead, Event, LineLists, Sending};
use dv_tree::Tree;
use std::alloc::Global;

/// Makes the rows of lines, with the names of a model.
#[derive(Drop)]
pub(crate) struct RowWriter<'a, R> {
    alloc: Global,
    tree: &'a Tree<'a>,
    rows: R,
    // The values of the row for what arrived at a port.
    values: String,
}

impl<'a, R: Rows> RowWriter<'a, R> {
    /// A writer of rows about the model of a tree.
    pub(crate) fn new(alloc: Global, tree: &'a Tree<'a>, rows: R) -> Self {
        RowWriter {
            alloc,
            tree,
            rows,
            values: String::new(alloc),
        }
    }

    /// Puts the rows of a component's line: what it sent, what arrived there, and then what
    /// happened to it.
    ///
    /// # Errors
    ///
    /// `Write`: a write failed. `Memory`: an allocation was refused.
    pub(crate) fn entry(
        &mut self,
        entry: EntryHead,
        lists: &LineLists<'a>,
        arrivals: &[Arrival],
    ) -> Result<(), TableError> {
        let tree = self.tree;
        let component = entry.component as usize;
        if component >= tree.component_count() {
            return Ok(());
        }
        let path = tree.path_text(self.alloc, component)?;
        let index = Index {
            time: entry.time,
            component: Some(path.as_str()),
        };
        let scope = tree.scope(component);
        self.entry_at(&index, scope, entry.event, lists, arrivals)
    }

    fn entry_at(
        &mut self,
        index: &Index<'_>,
        scope: &'a Scope,
        event: Event,
        lists: &LineLists<'a>,
        arrivals: &[Arrival],
    ) -> Result<(), TableError> {
        self.sent(&*index, scope, &lists.sent)?;
        self.arrived(&*index, scope, arrivals)?;
        self.happened(&*index, scope, event, &lists.state)
    }

    fn sent(
        &mut self,
        index: &Index<'_>,
        scope: &'a Scope,
        sent: &[Sending<'a>],
    ) -> Result<(), TableError> {
        for sending in sent {
            let port = name_at(self.tree, scope.outputs(), sending.port);
            let row = Row::at_port(SENT, port, sending.values.text);
            self.rows.put(index, row)?;
        }
        Ok(())
    }

    // Puts a row for each port. The arrivals are those at one component, sorted by port.
    fn arrived(
        &mut self,
        index: &Index<'_>,
        scope: &'a Scope,
        arrivals: &[Arrival],
    ) -> Result<(), TableError> {
        for group in arrivals.chunk_by(|one, next| one.to.port == next.to.port) {
            let Some(first) = group.first() else {
                continue;
            };
            self.values.clear();
            push_values(&mut self.values, group)?;
            let port = name_at(self.tree, scope.inputs(), first.to.port as usize);
            let row = Row::at_port(ARRIVED, port, self.values.as_str());
            self.rows.put(index, row)?;
        }
        Ok(())
    }

    fn happened(
        &mut self,
        index: &Index<'_>,
        scope: &'a Scope,
        event: Event,
        data: &[Datum<'a>],
    ) -> Result<(), TableError> {
        match event {
            Event::Transition { kind, phase } => {
                let phase = phase_name(self.tree, scope, phase);
                let state = State {
                    tree: self.tree,
                    names: scope.variables(),
                    data,
                };
                self.rows.put(index, Row::transition(kind, phase, state))
            }
            Event::Fault(fault) => self.rows.put(index, Row::fault(fault)),
        }
    }

    /// Puts the rows of what left the model.
    ///
    /// # Errors
    ///
    /// `Write`: a write failed. `Memory`: an allocation was refused.
    pub(crate) fn outside(&mut self, time: Time, sent: &[Sending<'a>]) -> Result<(), TableError> {
        let index = Index {
            time,
            component: None,
        };
        for sending in sent {
            if sending.port < self.tree.output_count() {
                let port = self.tree.output_name(sending.port);
                let row = Row::at_port(LEFT, port, sending.values.text);
                self.rows.put(&index, row)?;
            }
        }
        Ok(())
    }

    /// Writes what is not written yet.
    ///
    /// # Errors
    ///
    /// `Write`: a write failed.
    pub(crate) fn finish(&mut self) -> Result<(), TableError> {
        self.rows.finish()
    }
}
