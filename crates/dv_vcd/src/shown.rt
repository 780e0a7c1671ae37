//! What is shown of each component, and with which codes.

use crate::forms::Form;
use dv_bag::Fault;
use dv_eval::{Domain, Scope};
use dv_trace::Datum;
use dv_trace::model::{phase_name, start_number, start_phase};
use dv_tree::Tree;
use std::alloc::{AllocError, Global};

/// The name of a component's phase, or its fault.
#[derive(Clone, Copy, PartialEq, Eq)]
pub(crate) enum Status<'a> {
    Phase(&'a str),
    Fault(Fault),
}

/// What is shown of a variable, a flag, a bag or a queue.
#[derive(Drop)]
pub(crate) struct ShownDatum {
    pub(crate) form: Form,
    /// The number of a variable, 1 or 0 for a flag, the size of a bag or a queue.
    pub(crate) number: i64,
    /// The values of a bag or a queue; otherwise empty.
    pub(crate) values: String,
}

impl ShownDatum {
    // What is shown at the start.
    fn at_start(alloc: Global, domain: Domain) -> Self {
        ShownDatum {
            form: Form::of(domain),
            number: start_number(domain),
            values: String::new(alloc),
        }
    }
}

/// The number and the values that are shown of a datum.
pub(crate) fn shown_by(datum: Datum<'_>) -> (i64, &str) {
    match datum {
        Datum::Number(_) | Datum::Flag(_) => (datum.number(), ""),
        Datum::Held(values) => (datum.number(), values.text),
    }
}

/// The codes of what is shown of a component. They follow each other: the phase, the state
/// variables, their sizes (used for bags and queues only), the output ports.
#[derive(Clone, Copy)]
pub(crate) struct Codes {
    /// The code of the phase.
    pub(crate) first: u64,
    // How many state variables there are.
    count: usize,
}

impl Codes {
    /// The code of the variable at an index.
    pub(crate) fn variable(self, index: usize) -> u64 {
        self.first.saturating_add(1).saturating_add(index as u64)
    }

    /// The code of the size of the bag or the queue at an index.
    pub(crate) fn size(self, index: usize) -> u64 {
        self.variable(self.count).saturating_add(index as u64)
    }

    /// The code of the output port at an index.
    pub(crate) fn port(self, index: usize) -> u64 {
        self.size(self.count).saturating_add(index as u64)
    }
}

/// What is shown of a component now.
#[derive(Drop)]
pub(crate) struct Shown<'a> {
    /// What the component declares.
    pub(crate) scope: &'a Scope,
    pub(crate) codes: Codes,
    pub(crate) status: Status<'a>,
    /// The state variables, in their order.
    pub(crate) state: Vec<ShownDatum>,
}

/// What is shown of all components, and the codes of the root's ports.
#[derive(Drop)]
pub(crate) struct AllShown<'a> {
    pub(crate) components: Vec<Shown<'a>>,
    /// The code of the root's first output port.
    pub(crate) outputs: u64,
    /// The code of the root's first input port.
    pub(crate) inputs: u64,
    /// The least number that is no code.
    pub(crate) behind: u64,
}

/// What is shown at the start of a model.
pub(crate) fn all_shown<'a>(alloc: Global, tree: &'a Tree<'a>) -> Result<AllShown<'a>, AllocError> {
    let mut components = Vec::with_capacity(alloc, tree.component_count())?;
    let mut outputs: u64 = 0;
    for component in 0..tree.component_count() {
        let scope = tree.scope(component);
        let codes = Codes {
            first: outputs,
            count: scope.domains().len(),
        };
        components.push(Shown {
            scope,
            codes,
            status: Status::Phase(phase_name(tree, scope, start_phase(tree, component))),
            state: start_state(alloc, scope.domains())?,
        })?;
        outputs = codes.port(scope.output_count());
    }
    let inputs = outputs.saturating_add(tree.output_count() as u64);
    Ok(AllShown {
        components,
        outputs,
        inputs,
        behind: inputs.saturating_add(tree.input_count() as u64),
    })
}

fn start_state(alloc: Global, domains: &[Domain]) -> Result<Vec<ShownDatum>, AllocError> {
    let mut state = Vec::with_capacity(alloc, domains.len())?;
    for domain in domains {
        state.push(ShownDatum::at_start(alloc, *domain))?;
    }
    Ok(state)
}
