//! What arrives at the components at one time: from components that send then, and from the inputs
//! of that time.

use dv_bag::Input;
use dv_flat::{ComponentPort, DirectLink, EntryLink, LinkLists};
use dv_time::Time;
use dv_trace::Sending;
use std::alloc::AllocError;

/// Copies of a value that arrive at an input port of a component.
#[derive(Clone, Copy)]
pub struct Arrival {
    /// The input port at which the value arrives.
    pub to: ComponentPort,
    /// The value.
    pub value: i64,
    /// The number of its copies.
    pub copies: u64,
}

/// The links of a model and the inputs of a run.
#[derive(Clone, Copy)]
pub struct Routes<'a> {
    links: &'a LinkLists,
    // The inputs after the last time that was asked for.
    inputs: &'a [Input],
}

impl<'a> Routes<'a> {
    /// These links, and all of these inputs, which are sorted by time.
    pub fn new(links: &'a LinkLists, inputs: &'a [Input]) -> Self {
        Routes { links, inputs }
    }

    /// Adds to `arrivals` what arrives at other components from the values that a component sent.
    ///
    /// # Errors
    ///
    /// An allocation was refused.
    pub fn add_sent(
        &self,
        component: u32,
        sent: &[Sending<'_>],
        arrivals: &mut Vec<Arrival>,
    ) -> Result<(), AllocError> {
        for sending in sent {
            for link in items_at(&self.links.direct, (component, sending.port)) {
                add_values(link, sending, arrivals)?;
            }
        }
        Ok(())
    }

    /// Adds to `arrivals` what arrives from the inputs at a time, and sorts them by component, port
    /// and value. No call may name an earlier time than the call before.
    ///
    /// # Errors
    ///
    /// An allocation was refused.
    pub fn complete(&mut self, time: Time, arrivals: &mut Vec<Arrival>) -> Result<(), AllocError> {
        for input in self.inputs_at(time) {
            add_input(&self.links.entries, *input, arrivals)?;
        }
        arrivals.sort_unstable_by_key(|arrival| {
            (arrival.to.component, arrival.to.port, arrival.value)
        });
        Ok(())
    }

    // Takes the inputs of a time. Those before it are dropped.
    fn inputs_at(&mut self, time: Time) -> &'a [Input] {
        let passed = self
            .inputs
            .partition_point(|input| input.time.is_before(time));
        let inputs = behind(self.inputs, passed);
        let count = inputs.partition_point(|input| !time.is_before(input.time));
        self.inputs = behind(inputs, count);
        inputs.get(..count).unwrap_or(&[])
    }
}

fn behind<T>(items: &[T], index: usize) -> &[T] {
    items.get(index..).unwrap_or(&[])
}

// Adds the values of a sending at the end of a link. All pieces are numbers: others are refused by
// the reader of the trace.
fn add_values(
    link: &DirectLink,
    sending: &Sending<'_>,
    arrivals: &mut Vec<Arrival>,
) -> Result<(), AllocError> {
    for piece in sending.values.text.split(',') {
        if let Ok(value) = piece.parse::<i64>() {
            arrivals.push(Arrival {
                to: link.to,
                value,
                copies: link.copies,
            })?;
        }
    }
    Ok(())
}

// Adds an input at the ends of the links from its port of the root.
fn add_input(
    links: &[EntryLink],
    input: Input,
    arrivals: &mut Vec<Arrival>,
) -> Result<(), AllocError> {
    for link in items_at(links, (input.port, 0)) {
        arrivals.push(Arrival {
            to: link.to,
            value: input.value,
            copies: link.copies,
        })?;
    }
    Ok(())
}

/// What is sorted by where it begins, or by where it arrives.
trait Sorted {
    /// A component or an input port of the root, and a port of the component if it counts.
    fn place(&self) -> (u32, usize);
}

impl Sorted for DirectLink {
    fn place(&self) -> (u32, usize) {
        (self.from.component, self.from.port as usize)
    }
}

impl Sorted for EntryLink {
    fn place(&self) -> (u32, usize) {
        (self.from, 0)
    }
}

impl Sorted for Arrival {
    fn place(&self) -> (u32, usize) {
        (self.to.component, 0)
    }
}

// Those of sorted items that are at a place.
fn items_at<T: Sorted>(items: &[T], place: (u32, usize)) -> &[T] {
    let first = items.partition_point(|item| item.place() < place);
    let items = behind(items, first);
    let count = items.partition_point(|item| item.place() == place);
    items.get(..count).unwrap_or(&[])
}

/// The arrivals at a component, among sorted arrivals.
pub fn arrivals_to(arrivals: &[Arrival], component: u32) -> &[Arrival] {
    items_at(arrivals, (component, 0))
}

/// Adds the values of arrivals, with commas between them and copies repeated, as in a trace.
///
/// # Errors
///
/// An allocation was refused.
pub(crate) fn push_values(text: &mut String, arrivals: &[Arrival]) -> Result<(), AllocError> {
    for arrival in arrivals {
        for _copy in 0..arrival.copies {
            let comma = if text.is_empty() { "" } else { "," };
            write!(text, "{comma}{}", arrival.value)?;
        }
    }
    Ok(())
}
