//! What has a name that a view does not take.

use crate::error::ViewError;
use dv_syntax::{Model, Name};
use dv_trace::Chosen;
use dv_trace::model::{component_in, index_of};
use dv_tree::Tree;
use std::alloc::{AllocError, Global};

/// The error for a name that a view does not take, if something of the model has it: it says what
/// that is, and then what the view takes. `None` if nothing has the name.
pub(crate) fn not_taken(
    alloc: Global,
    tree: &Tree<'_>,
    name: &str,
    taken: &str,
) -> Result<Option<ViewError>, AllocError> {
    match other_named(alloc, tree, name)? {
        Some(what) => {
            let words = format!(in alloc; "`{name}` is {what}; {taken}")?;
            Ok(Some(ViewError::NoPath(words)))
        }
        None => Ok(None),
    }
}

// What of a model has a name, if it is an input port, a coupled part, or a port of one.
fn other_named(
    alloc: Global,
    tree: &Tree<'_>,
    name: &str,
) -> Result<Option<&'static str>, AllocError> {
    if let Some((component, member)) = component_in(alloc, tree, name)? {
        return Ok(member_named(tree, component, member.unwrap_or("")));
    }
    if Chosen::of(alloc, tree, Some(name))?.is_some() {
        return Ok(Some("a coupled part"));
    }
    match name.rsplit_once('.') {
        Some((path, port)) if has_coupled_port(tree, port) => {
            let part = Chosen::of(alloc, tree, Some(path))?;
            Ok(part.map(|_part| "a port of a coupled part"))
        }
        Some(_) => Ok(None),
        None => root_input(alloc, tree, name),
    }
}

// What the member of a component is that has a name.
fn member_named(tree: &Tree<'_>, component: usize, member: &str) -> Option<&'static str> {
    if component >= tree.component_count() {
        return None;
    }
    let scope = tree.scope(component);
    if index_of(tree, scope.inputs(), member).is_some() {
        Some("an input port of a component")
    } else if index_of(tree, scope.variables(), member).is_some() {
        Some("a variable")
    } else {
        None
    }
}

fn root_input(
    alloc: Global,
    tree: &Tree<'_>,
    name: &str,
) -> Result<Option<&'static str>, AllocError> {
    let inputs = tree.input_names(alloc)?;
    if inputs.iter().any(|input| input.as_str() == name) {
        Ok(Some("an input of the root"))
    } else {
        Ok(None)
    }
}

// Whether a coupled model has a port of this name.
fn has_coupled_port(tree: &Tree<'_>, port: &str) -> bool {
    for model in &tree.file().models {
        if let Model::Coupled(coupled) = model
            && (has(tree, &coupled.inputs, port) || has(tree, &coupled.outputs, port))
        {
            return true;
        }
    }
    false
}

fn has(tree: &Tree<'_>, ports: &[Name], name: &str) -> bool {
    ports.iter().any(|port| tree.name(port.number) == name)
}
