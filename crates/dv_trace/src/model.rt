//! What a model says of its components: their names, and what they hold at the start.

use dv_eval::{Domain, Scope};
use dv_tree::Tree;
use std::alloc::{AllocError, Global};

/// The name at an index of a list of names, which are given by their numbers. An index that is too
/// great has an empty name.
pub fn name_at<'t>(tree: &'t Tree<'_>, names: &[u32], index: usize) -> &'t str {
    match names.get(index) {
        Some(number) => tree.name(*number),
        None => "",
    }
}

/// The name of an output port of the root. An index that is too great has an empty name.
pub fn output_name<'t>(tree: &'t Tree<'_>, port: usize) -> &'t str {
    if port < tree.output_count() {
        tree.output_name(port)
    } else {
        ""
    }
}

/// The name of the phase with an index. An index that is too great has an empty name.
pub fn phase_name<'t>(tree: &'t Tree<'_>, scope: &Scope, phase: u32) -> &'t str {
    name_at(tree, scope.phases(), phase as usize)
}

/// The index of the phase in which a component starts.
pub fn start_phase(tree: &Tree<'_>, component: usize) -> u32 {
    if component >= tree.component_count() {
        return 0;
    }
    match tree.atomic(component).starts.first() {
        Some(start) => tree.scope(component).phase(start.phase.number).unwrap_or(0),
        None => 0,
    }
}

/// The number of a state variable at the start. A flag counts as 1 or 0, a bag or a queue as the
/// number of its values.
pub fn start_number(domain: Domain) -> i64 {
    match domain {
        Domain::Number(range) => range.start,
        Domain::Flag { start } => i64::from(start),
        Domain::Held { .. } => 0,
    }
}

/// The component whose path a name is, or begins with before a dot, and what is behind the dot. No
/// path of a component begins with that of another one. `None` if there is none.
///
/// # Errors
///
/// An allocation was refused.
pub fn component_in<'n>(
    alloc: Global,
    tree: &Tree<'_>,
    name: &'n str,
) -> Result<Option<(usize, Option<&'n str>)>, AllocError> {
    for component in 0..tree.component_count() {
        let path = tree.path_text(alloc, component)?;
        if let Some(rest) = name.strip_prefix(path.as_str()) {
            if rest.is_empty() {
                return Ok(Some((component, None)));
            }
            if let Some(member) = rest.strip_prefix(".") {
                return Ok(Some((component, Some(member))));
            }
        }
    }
    Ok(None)
}

/// The index of a name in a list of names, which are given by their numbers.
pub fn index_of(tree: &Tree<'_>, names: &[u32], name: &str) -> Option<usize> {
    names.iter().position(|number| tree.name(*number) == name)
}

/// The index of the root's output port of this name.
pub fn output_named(tree: &Tree<'_>, name: &str) -> Option<usize> {
    for port in 0..tree.output_count() {
        if tree.output_name(port) == name {
            return Some(port);
        }
    }
    None
}

/// Adds the names of all output ports, those of components as `PATH.PORT`; with `has_state` also the
/// paths of components and the names of their state variables, as `PATH.VARIABLE`.
///
/// # Errors
///
/// An allocation was refused. Some names may have been added.
pub fn push_names(
    alloc: Global,
    tree: &Tree<'_>,
    names: &mut Vec<String>,
    has_state: bool,
) -> Result<(), AllocError> {
    push_outputs(alloc, tree, names)?;
    push_names_of_components(alloc, tree, names, has_state)
}

fn push_names_of_components(
    alloc: Global,
    tree: &Tree<'_>,
    names: &mut Vec<String>,
    has_state: bool,
) -> Result<(), AllocError> {
    for component in 0..tree.component_count() {
        let scope = tree.scope(component);
        let path = tree.path_text(alloc, component)?;
        let variables = if has_state { scope.variables() } else { &[] };
        push_members(alloc, tree, names, path.as_str(), variables)?;
        push_members(alloc, tree, names, path.as_str(), scope.outputs())?;
        if has_state {
            names.push(path)?;
        }
    }
    Ok(())
}

/// Adds the names `PATH.MEMBER` of members of the component with a path.
///
/// # Errors
///
/// An allocation was refused.
pub fn push_members(
    alloc: Global,
    tree: &Tree<'_>,
    names: &mut Vec<String>,
    path: &str,
    members: &[u32],
) -> Result<(), AllocError> {
    for member in members {
        names.push(format!(in alloc; "{path}.{}", tree.name(*member))?)?;
    }
    Ok(())
}

/// Adds the names of the root's output ports.
///
/// # Errors
///
/// An allocation was refused.
pub fn push_outputs(
    alloc: Global,
    tree: &Tree<'_>,
    names: &mut Vec<String>,
) -> Result<(), AllocError> {
    for port in 0..tree.output_count() {
        names.push(String::from_str(alloc, tree.output_name(port))?)?;
    }
    Ok(())
}
