//! Probes. Each source, which is an output port of a component, sends a value of its own, its
//! probe, and so does each input port of the root. So the values that arrive at a port show which
//! ports lead there, and by how many ways: one routing finds the links of all sources.

ghost use Rattle.std.specs.Prelude.{◌≡◌, ◌+◌, ◌^◌, ◌<◌, ◌≤◌, length, IfOk};
ghost use Rattle.std.specs.List.{All};
ghost use Rattle.dv_check.specs.Limits.{greatest_names};
ghost use Rattle.dv_syntax.specs.Trees.{file_of};
ghost use Rattle.dv_tree.specs.Instances.{instances};
ghost use Rattle.dv_flat.specs.Probes.{IsOutput, arrived_probes, left_probes, probes_from, sent_probes, silence};

use crate::link::ComponentPort;
use dv_bag::{Bags, Sent};
use dv_tree::{Routed, Tree};
use std::alloc::{AllocError, Global};

/// All probes that arrive, and all that leave.
///
/// # Errors
///
/// No memory for the probes.
pub(crate) fn route_probes(
    alloc: Global,
    tree: &Tree,
    sources: &[ComponentPort],
) -> Result<Routed, AllocError>
    requires outputs { All (IsOutput (file_of tree.now.file)) sources.now }
    requires few { length sources.now + greatest_names < 2 ^ 63 }
    ensures received { IfOk result (λ routed.
        routed.received.items ≡ arrived_probes (file_of tree.now.file) sources.now) }
    ensures leaving { IfOk result (λ routed.
        routed.leaving ≡ left_probes (file_of tree.now.file) sources.now) }
    ensures at_most { IfOk result (λ routed. length routed.leaving ≤ greatest_names) }
{
    let sent = sent_probes(alloc, tree, sources)?;
    let input = come_probes(alloc, sources.len(), tree.input_count())?;
    tree.route(alloc, &sent, &input)
}

// What the components send: at each source its probe, which is its index among the sources.
fn sent_probes(
    alloc: Global,
    tree: &Tree,
    sources: &[ComponentPort],
) -> Result<Vec<Sent>, AllocError>
    requires outputs { All (IsOutput (file_of tree.now.file)) sources.now }
    requires few { length sources.now < 2 ^ 63 }
    ensures { IfOk result (λ sent. sent.items
        ≡ sent_probes (file_of tree.now.file) sources.now) }
{
    let mut sent = silence(alloc, tree)?;
    for (probe, from) in sources.iter().enumerate() {
        let values = &mut sent[from.component as usize];
        values.insert(from.port as usize, probe as i64)?;
    }
    Ok(sent)
}

// Nothing sent at any output port.
fn silence(alloc: Global, tree: &Tree) -> Result<Vec<Sent>, AllocError>
    ensures { IfOk result (λ sent. sent.items ≡ silence (instances (file_of tree.now.file))) }
{
    let mut sent = Vec::with_capacity(alloc, tree.component_count())?;
    for component in 0..tree.component_count() {
        let ports = tree.scope(component).output_count();
        sent.push(Sent::empty(alloc, ports))?;
    }
    Ok(sent)
}

// What comes to the root: at each of `ports` input ports one probe, counted from `first` on.
fn come_probes(alloc: Global, first: usize, ports: usize) -> Result<Bags, AllocError>
    requires { first + ports < 2 ^ 63 }
    ensures { IfOk result (λ input. input ≡ probes_from first ports) }
{
    let mut input = Bags::empty(alloc, ports);
    for port in 0..ports {
        input.insert(port, (first + port) as i64)?;
    }
    Ok(input)
}
