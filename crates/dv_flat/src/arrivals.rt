//! What the probes reach: for each source, and for each input port of the root, the targets.

ghost use Rattle.std.specs.Prelude.{◌≡◌, ◌+◌, ◌^◌, ◌<◌, ◌≤◌, [], fold, length, map, replicate, IfOk, OnOk};
ghost use Rattle.std.specs.List.{All, range_with_len};
ghost use Rattle.dv_check.specs.Limits.{greatest_names};
ghost use Rattle.dv_syntax.specs.Trees.{file_of};
ghost use Rattle.dv_tree.specs.Instances.{instances};
ghost use Rattle.dv_flat.specs.Ends.{input_count, input_ports};
ghost use Rattle.dv_flat.specs.Probes.{IsOutput, arrival_lists, departure_lists, with_arrival, with_arrivals};
ghost use Rattle.dv_flat.specs.Probes.{with_component, with_input, with_output};

use crate::link::ComponentPort;
use crate::ports::port_count;
use crate::probes::route_probes;
use dv_bag::{Bag, Bags};
use dv_tree::{Tree, empty_lists};
use std::alloc::{AllocError, Global};

/// How many copies of a probe arrive at a target.
#[derive(Clone, Copy)]
pub(crate) struct Arrival<T> {
    pub(crate) to: T,
    pub(crate) copies: u64,
}

/// What the probes reach, in the order of the ports: for each source, and after the sources for
/// each input port of the root, the input ports of components; and for each source the output ports
/// of the root.
#[derive(Drop)]
pub(crate) struct Reached {
    pub(crate) inputs: Vec<Vec<Arrival<ComponentPort>>>,
    pub(crate) outputs: Vec<Vec<Arrival<u32>>>,
}

impl Reached {
    /// What the sources and the root's inputs reach.
    ///
    /// # Errors
    ///
    /// No memory for the probes or their arrivals.
    pub(crate) fn of(
        alloc: Global,
        tree: &Tree,
        sources: &[ComponentPort],
    ) -> Result<Self, AllocError>
        requires outputs { All (IsOutput (file_of tree.now.file)) sources.now }
        requires few { length sources.now + greatest_names < 2 ^ 63 }
        ensures inputs { IfOk result (λ reached. map (λ list. list.items) reached.inputs.items
            ≡ arrival_lists (file_of tree.now.file) sources.now) }
        ensures outputs { IfOk result (λ reached. map (λ list. list.items) reached.outputs.items
            ≡ departure_lists (file_of tree.now.file) sources.now) }
    {
        let routed = route_probes(alloc, tree, sources)?;
        let probes = sources.len() + tree.input_count();
        Ok(Reached {
            inputs: arrivals_at_inputs(alloc, probes, tree, &routed.received)?,
            outputs: arrivals_at_outputs(alloc, sources.len(), &routed.leaving)?,
        })
    }
}

// For each of `probes` probes the input ports of components that it reaches.
fn arrivals_at_inputs(
    alloc: Global,
    probes: usize,
    tree: &Tree,
    received: &[Bags],
) -> Result<Vec<Vec<Arrival<ComponentPort>>>, AllocError>
    requires { map length received.now
        ≡ map (λ i. input_count i.model) (instances (file_of tree.now.file)) }
    ensures { IfOk result (λ lists. map (λ list. list.items) lists.items
        ≡ fold (with_input received.now) (replicate probes [])
        (input_ports (file_of tree.now.file))) }
{
    let mut lists = empty_lists(alloc, probes)?;
    for component in 0..tree.component_count() {
        // For the prover alone: there are few enough ports for indices of 32 bits.
        let _ = port_count(tree.scope(component).inputs());
        add_component(component as u32, &received[component], &mut lists)?;
    }
    Ok(lists)
}

// Adds the input ports of a component to the lists of the probes that arrived there. Only ports at
// which something arrived take time.
fn add_component(
    component: u32,
    received: &Bags,
    lists: &mut Vec<Vec<Arrival<ComponentPort>>>,
) -> Result<(), AllocError>
    requires { length received.now ≤ 2 ^ 32 }
    ensures { OnOk result (map (λ list. list.items) lists.new.items
        ≡ with_component component received.now (map (λ list. list.items) lists.old.items)) }
{
    for held in received.held() {
        let to = ComponentPort {
            component,
            port: held.port as u32,
        };
        add_arrivals(to, &held.bag, lists)?;
    }
    Ok(())
}

// For each of `probes` probes the output ports of the root that it reaches.
fn arrivals_at_outputs(
    alloc: Global,
    probes: usize,
    leaving: &Bags,
) -> Result<Vec<Vec<Arrival<u32>>>, AllocError>
    requires { length leaving.now ≤ greatest_names }
    ensures { IfOk result (λ lists. map (λ list. list.items) lists.items
        ≡ fold (with_output leaving.now) (replicate probes [])
        (range_with_len 0 (length leaving.now))) }
{
    let mut lists = empty_lists(alloc, probes)?;
    for held in leaving.held() {
        add_arrivals(held.port as u32, &held.bag, &mut lists)?;
    }
    Ok(lists)
}

// Adds a target to the list of each probe in a bag.
fn add_arrivals<T: Copy>(
    to: T,
    bag: &Bag,
    lists: &mut Vec<Vec<Arrival<T>>>,
) -> Result<(), AllocError>
    ensures { OnOk result (map (λ list. list.items) lists.new.items
        ≡ with_arrivals to (map (λ list. list.items) lists.old.items) bag.now) }
{
    for pair in bag.pairs() {
        add_arrival(pair.0, Arrival { to, copies: pair.1 }, lists)?;
    }
    Ok(())
}

// Adds an arrival to the list of its probe. Other values are not sent.
fn add_arrival<T: Copy>(
    probe: i64,
    arrival: Arrival<T>,
    lists: &mut Vec<Vec<Arrival<T>>>,
) -> Result<(), AllocError>
    ensures { OnOk result (map (λ list. list.items) lists.new.items
        ≡ with_arrival probe arrival (map (λ list. list.items) lists.old.items)) }
{
    if let Ok(index) = usize::try_from(probe) {
        if index < lists.len() {
            lists[index].push(arrival)?;
        }
    }
    Ok(())
}
