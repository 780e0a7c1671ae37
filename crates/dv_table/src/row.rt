//! The rows of a table.

use crate::error::TableError;
use dv_bag::{Fault, Kind};
use dv_time::Time;
use dv_trace::Datum;
use dv_tree::Tree;

/// When something happened, and at which component.
#[derive(Clone, Copy)]
pub(crate) struct Index<'a> {
    pub(crate) time: Time,
    /// The path of the component; `None` for what left the model.
    pub(crate) component: Option<&'a str>,
}

/// The word of a row for values that were sent by an output port.
pub(crate) const SENT: &str = "sent";
/// The word of a row for values that arrived at an input port.
pub(crate) const ARRIVED: &str = "arrived";
/// The word of a row for values that left the model by an output port of the root.
pub(crate) const LEFT: &str = "left";
/// The word of a row for a fault.
const FAULT: &str = "fault";

/// The state variables of a component: the numbers of their names, and what they hold.
#[derive(Clone, Copy)]
pub(crate) struct State<'t, 'v> {
    pub(crate) tree: &'t Tree<'t>,
    pub(crate) names: &'t [u32],
    pub(crate) data: &'v [Datum<'t>],
}

/// The value of a row.
#[derive(Clone, Copy)]
pub(crate) enum Value<'t, 'v> {
    /// No value: the row of a fault.
    Nothing,
    /// Values at a port, as in a trace: ascending, copies repeated, with commas between them.
    Numbers(&'v str),
    /// The state after a transition.
    State(State<'t, 'v>),
}

/// A row, without its index.
#[derive(Clone, Copy)]
pub(crate) struct Row<'t, 'v> {
    /// What happened, in a word.
    pub(crate) what: &'static str,
    /// The name of the port, the phase or the fault.
    pub(crate) name: &'t str,
    pub(crate) value: Value<'t, 'v>,
}

impl<'t, 'v> Row<'t, 'v> {
    /// Values that passed by a port, as in a trace. `what` is `SENT`, `ARRIVED` or `LEFT`.
    pub(crate) fn at_port(what: &'static str, port: &'t str, values: &'v str) -> Self {
        Row {
            what,
            name: port,
            value: Value::Numbers(values),
        }
    }

    /// A transition to a phase, with the state after it.
    pub(crate) fn transition(kind: Kind, phase: &'t str, state: State<'t, 'v>) -> Self {
        Row {
            what: kind_word(kind),
            name: phase,
            value: Value::State(state),
        }
    }

    /// A fault.
    pub(crate) fn fault(fault: Fault) -> Self {
        Row {
            what: FAULT,
            name: fault.word(),
            value: Value::Nothing,
        }
    }
}

fn kind_word(kind: Kind) -> &'static str {
    match kind {
        Kind::Internal => "internal",
        Kind::External => "external",
        Kind::Confluent => "confluent",
    }
}

/// A form of tables, to which rows are put one after the other.
pub(crate) trait Rows {
    /// Adds a row.
    ///
    /// # Errors
    ///
    /// `Write`: a write failed. `Memory`: an allocation was refused.
    fn put(&mut self, index: &Index<'_>, row: Row<'_, '_>) -> Result<(), TableError>;

    /// Writes what is not written yet.
    ///
    /// # Errors
    ///
    /// `Write`: a write failed.
    fn finish(&mut self) -> Result<(), TableError>;
}
