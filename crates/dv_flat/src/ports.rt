//! The ports of the components, in the order of the components' numbers.

ghost use Rattle.std.specs.Prelude.{◌≡◌, ◌≤◌, ◌^◌, ◌++◌, false, length, map, nat_eq, slice_index_or, IfOk, OnOk};
ghost use Rattle.std.specs.List.{IsDistinct, range_with_len};
ghost use Rattle.dv_syntax.specs.Trees.{file_of};
ghost use Rattle.dv_tree.specs.Instances.{root_inputs};
ghost use Rattle.dv_flat.specs.Ends.{output_ports, port_at};
ghost use Rattle.dv_flat.specs.Links.{root_ports};
ghost use Rattle.dv_flat.specs.Probes.{chosen_from};

use crate::link::ComponentPort;
use dv_tree::Tree;
use std::alloc::{AllocError, Global};

/// The output ports of all components.
///
/// # Errors
///
/// No memory for the ports.
pub(crate) fn output_ports(alloc: Global, tree: &Tree) -> Result<Vec<ComponentPort>, AllocError>
    ensures { IfOk result (λ ports. ports.items ≡ output_ports (file_of tree.now.file)) }
{
    let mut ports = Vec::new(alloc);
    for component in 0..tree.component_count() {
        add_ports(
            component as u32,
            tree.scope(component).outputs(),
            &mut ports,
        )?;
    }
    Ok(ports)
}

/// The input ports of the root, by their indices.
///
/// # Errors
///
/// No memory for the ports.
pub(crate) fn root_inputs(alloc: Global, tree: &Tree) -> Result<Vec<u32>, AllocError>
    ensures { IfOk result (λ ports. ports.items
        ≡ root_ports (root_inputs (file_of tree.now.file))) }
{
    let mut ports = Vec::new(alloc);
    for port in 0..tree.input_count() {
        ports.push(port as u32)?;
    }
    Ok(ports)
}

/// The ports at whose indices a flag is set.
///
/// # Errors
///
/// No memory for the ports.
pub(crate) fn chosen(
    alloc: Global,
    ports: &[ComponentPort],
    flags: &[bool],
) -> Result<Vec<ComponentPort>, AllocError>
    ensures { IfOk result (λ chosen. chosen.items ≡ chosen_from 0 flags.now ports.now) }
{
    let mut chosen = Vec::new(alloc);
    for (index, port) in ports.iter().enumerate() {
        if is_set(flags, index) {
            chosen.push(*port)?;
        }
    }
    Ok(chosen)
}

/// Whether the flag at an index is set: not past the last index.
pub(crate) fn is_set(flags: &[bool], index: usize) -> bool
    ensures { result ≡ slice_index_or flags.now index false }
{
    match flags.get(index) {
        Some(flag) => *flag,
        None => false,
    }
}

/// The number of ports of one component, by their names. Names have 32 bits and differ, so indices
/// have 32 bits.
pub(crate) fn port_count(names: &[u32]) -> usize
    requires { IsDistinct nat_eq names.now }
    ensures value { result ≡ length names.now }
    ensures few { result ≤ 2 ^ 32 }
{
    names.len()
}

// Adds the ports of one component, by their names. Names have 32 bits and differ, so indices have
// 32 bits.
fn add_ports(
    component: u32,
    names: &[u32],
    ports: &mut Vec<ComponentPort>,
) -> Result<(), AllocError>
    requires { IsDistinct nat_eq names.now }
    ensures { OnOk result (ports.new.items
        ≡ ports.old.items ++ map (port_at component) (range_with_len 0 (length names.now))) }
{
    for port in 0..names.len() {
        ports.push(ComponentPort {
            component,
            port: port as u32,
        })?;
    }
    Ok(())
}
