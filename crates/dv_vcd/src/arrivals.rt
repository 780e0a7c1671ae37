//! What arrives at the input ports of the root.

use dv_bag::Input;
use dv_inputs::{InputsError, read_inputs};
use dv_time::GREATEST_LIMIT;
use dv_tree::Tree;
use std::alloc::{AllocError, Global};

/// The inputs of the run and the names of the root's input ports. Both are empty if no inputs are
/// given: then no input port is shown. The inputs are sorted by time, then by port, then by value.
#[derive(Drop)]
pub(crate) struct RootInputs {
    pub(crate) ports: Vec<String>,
    pub(crate) inputs: Vec<Input>,
}

impl RootInputs {
    /// Reads the text of the inputs, if there is one. The microstep limit of the run is not known
    /// here, so the greatest one is used, with which all inputs are accepted.
    pub(crate) fn of(
        alloc: Global,
        tree: &Tree<'_>,
        text: Option<&[u8]>,
    ) -> Result<Self, InputsError> {
        let Some(text) = text else {
            return Ok(RootInputs {
                ports: Vec::new(alloc),
                inputs: Vec::new(alloc),
            });
        };
        let ports = tree.input_names(alloc)?;
        let inputs = read_inputs(alloc, text, &ports, GREATEST_LIMIT)?;
        Ok(RootInputs {
            ports,
            inputs: in_order(alloc, inputs.as_slice())?,
        })
    }
}

// The inputs, sorted by time, port and value.
fn in_order(alloc: Global, inputs: &[Input]) -> Result<Vec<Input>, AllocError> {
    let mut sorted = Vec::from_slice(alloc, inputs)?;
    sorted.sort_unstable_by_key(|input| {
        let time = input.time;
        (time.tick, time.micro, input.port, input.value)
    });
    Ok(sorted)
}

/// The values of the inputs, with commas between them as in a trace.
pub(crate) fn values_of(alloc: Global, inputs: &[Input]) -> Result<String, AllocError> {
    let mut values = String::new(alloc);
    for input in inputs {
        let comma = if values.is_empty() { "" } else { "," };
        write!(values, "{comma}{}", input.value)?;
    }
    Ok(values)
}
