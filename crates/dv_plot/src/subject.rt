//! What names stand for, and what a trace shows of it.

use crate::curve::{Curve, Source};
use crate::grid::Moment;
use crate::lanes::Lanes;
use crate::marks::Marks;
use crate::scale::{Area, CURVE};
use dv_eval::{Domain, Scope};
use dv_trace::model::{
    component_in, index_of, output_named, push_names, start_number, start_phase,
};
use dv_trace::{Event, LineLists, Text};
use dv_tree::Tree;
use std::alloc::{AllocError, Global};

/// What a name stands for.
#[derive(Clone, Copy)]
enum Meant {
    // A component, by the phase in which it starts.
    Phases(u32),
    Datum(Source),
    // An output port, by its index.
    Port(usize),
}

/// How a trace is shown.
#[derive(Drop)]
enum Shown {
    Lanes(Lanes),
    Curve(Curve),
    Marks(Marks),
}

impl Shown {
    // Nothing is shown yet.
    fn new(alloc: Global, meant: Meant) -> Result<Self, AllocError> {
        Ok(match meant {
            Meant::Phases(start) => Shown::Lanes(Lanes::new(alloc, start)?),
            Meant::Datum(source) => Shown::Curve(Curve::new(alloc, source)?),
            Meant::Port(port) => Shown::Marks(Marks::new(alloc, port)?),
        })
    }
}

/// A component, one of its variables, flags, bags, queues or output ports, or an output of the
/// root; and what a trace shows of it.
#[derive(Drop)]
pub struct Subject {
    pub(crate) name: String,
    /// The component; `None` for the root.
    pub(crate) component: Option<u32>,
    shown: Shown,
}

impl Subject {
    /// What a name stands for in a model. The name of a component is its path. That of
    /// a variable, a flag, a bag, a queue or an output port is the path of its component, a dot and
    /// its own name. That of an output of the root is its own name. `None` if nothing has the name.
    ///
    /// # Errors
    ///
    /// An allocation was refused.
    pub fn named(alloc: Global, tree: &Tree<'_>, name: &str) -> Result<Option<Self>, AllocError> {
        let (component, meant) = match component_in(alloc, tree, name)? {
            Some((component, member)) => {
                (
                    u32::try_from(component).ok(),
                    meant_in(tree, component, member),
                )
            }
            None => (None, port_at(output_named(tree, name))),
        };
        let Some(meant) = meant else {
            return Ok(None);
        };
        Ok(Some(Subject {
            name: String::from_str(alloc, name)?,
            component,
            shown: Shown::new(alloc, meant)?,
        }))
    }

    /// Takes a line of the component, or of what left the model, for which there is no event.
    pub(crate) fn follow(&mut self, moment: Moment, event: Option<Event>, lists: &LineLists<'_>) {
        match (&mut self.shown, event) {
            (Shown::Lanes(lanes), Some(event)) => lanes.follow(moment, event),
            (Shown::Curve(curve), Some(event)) => curve.follow(moment, event, &lists.state),
            (Shown::Marks(marks), _) => marks.send(moment, &lists.sent),
            (Shown::Lanes(_) | Shown::Curve(_), None) => {}
        }
    }

    /// Makes one column of two each.
    pub(crate) fn fold(&mut self) {
        match &mut self.shown {
            Shown::Lanes(lanes) => lanes.fold(),
            Shown::Curve(curve) => curve.fold(),
            Shown::Marks(marks) => marks.fold(),
        }
    }

    /// Ends the trace before a tick.
    pub(crate) fn finish(&mut self, behind: Moment) {
        if let Shown::Lanes(lanes) = &mut self.shown {
            lanes.finish(behind);
        }
    }

    /// The height below the name.
    pub(crate) fn height(&self) -> u64 {
        match &self.shown {
            Shown::Lanes(lanes) => lanes.height(),
            Shown::Curve(_) | Shown::Marks(_) => CURVE,
        }
    }

    /// Adds what is shown below the name, whose lower edge is at 0.
    pub(crate) fn add_to(&self, text: &mut Text, tree: &Tree<'_>, area: Area) {
        match &self.shown {
            Shown::Lanes(lanes) => lanes.add_to(text, tree, self.component, area),
            Shown::Curve(curve) => curve.add_to(text, area),
            Shown::Marks(marks) => marks.add_to(text, area),
        }
    }
}

// What a component is, or the member of it that has a name.
fn meant_in(tree: &Tree<'_>, component: usize, member: Option<&str>) -> Option<Meant> {
    if component >= tree.component_count() {
        return None;
    }
    let scope = tree.scope(component);
    let Some(member) = member else {
        return Some(Meant::Phases(start_phase(tree, component)));
    };
    match source_named(tree, scope, member) {
        Some(source) => Some(Meant::Datum(source)),
        None => port_at(index_of(tree, scope.outputs(), member)),
    }
}

// The variable, the flag, the bag or the queue that has a name.
fn source_named(tree: &Tree<'_>, scope: &Scope, name: &str) -> Option<Source> {
    let index = index_of(tree, scope.variables(), name)?;
    let domain = scope.domains().get(index)?;
    Some(Source {
        index,
        start: start_number(*domain),
        is_flag: matches!(domain, Domain::Flag { .. }),
    })
}

// The output port at an index, if there is one.
fn port_at(index: Option<usize>) -> Option<Meant> {
    Some(Meant::Port(index?))
}

/// The names of all that can be shown of a model.
///
/// # Errors
///
/// An allocation was refused.
pub fn all_names(alloc: Global, tree: &Tree<'_>) -> Result<Vec<String>, AllocError> {
    let mut names = Vec::new(alloc);
    push_names(alloc, tree, &mut names, true)?;
    Ok(names)
}
