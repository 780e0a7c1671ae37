//! Names, labels and indentation.

use dv_check::GREATEST_DEPTH;
use dv_eval::Scope;
use dv_flat::ComponentPort;
use dv_syntax::Model;
use dv_tree::{ResolvedPart, Tree};
use std::fmt;

/// As many tabs as the most indented line has: the label of a cluster at the greatest depth.
const TABS: &str = "\t\t\t\t\t\t\t\t\t\t\t\t\t\t\t\t\t";

/// A name inside of a quoted string. A quote or a backslash gets a backslash before it, though no
/// name of a model has one.
#[derive(Clone, Copy)]
pub(crate) struct Escaped<'n>(pub(crate) &'n str);

impl fmt::Display for Escaped<'_> {
    fn fmt<W: fmt::Write>(&self, f: &mut fmt::Formatter<W>) -> fmt::Result {
        for letter in self.0.chars() {
            let backslash = if letter == '"' || letter == '\\' {
                "\\"
            } else {
                ""
            };
            write!(f, "{backslash}{letter}")?;
        }
        Ok(())
    }
}

/// The name of a part and the name of its model.
#[derive(Clone, Copy)]
pub(crate) struct PartLabel<'t> {
    name: &'t str,
    model: &'t str,
}

impl<'t> PartLabel<'t> {
    /// The label of a part of a tree.
    pub(crate) fn of(tree: &'t Tree<'_>, part: &ResolvedPart) -> Self {
        PartLabel {
            name: tree.name(part.name.number),
            model: match tree.reached().get(part.model) {
                Some(Model::Atomic(model)) => tree.name(model.name.number),
                Some(Model::Coupled(model)) => tree.name(model.name.number),
                None => "",
            },
        }
    }
}

impl fmt::Display for PartLabel<'_> {
    fn fmt<W: fmt::Write>(&self, f: &mut fmt::Formatter<W>) -> fmt::Result {
        write!(f, "{}: {}", Escaped(self.name), Escaped(self.model))
    }
}

/// How many tabs indent the lines of a level, if there can be at most `depth` levels from there on.
pub(crate) fn tabs_at(depth: usize) -> usize {
    GREATEST_DEPTH.saturating_sub(depth).saturating_add(1)
}

/// A string of tabs.
pub(crate) fn tabs(count: usize) -> &'static str {
    TABS.get(..count).unwrap_or(TABS)
}

/// The name of an output port of a component.
pub(crate) fn output_name<'t>(tree: &'t Tree<'_>, port: ComponentPort) -> &'t str {
    port_name(tree, outputs_of(tree, port.component), port.port)
}

/// The name of an input port of a component.
pub(crate) fn input_name<'t>(tree: &'t Tree<'_>, port: ComponentPort) -> &'t str {
    port_name(tree, inputs_of(tree, port.component), port.port)
}

/// The numbers of the names of a component's output ports.
pub(crate) fn outputs_of<'t>(tree: &'t Tree<'_>, component: u32) -> &'t [u32] {
    match scope_of(tree, component) {
        Some(scope) => scope.outputs(),
        None => &[],
    }
}

/// The numbers of the names of a component's input ports.
pub(crate) fn inputs_of<'t>(tree: &'t Tree<'_>, component: u32) -> &'t [u32] {
    match scope_of(tree, component) {
        Some(scope) => scope.inputs(),
        None => &[],
    }
}

// What the model of a component declares, if there is a component of this number.
fn scope_of<'t>(tree: &'t Tree<'_>, component: u32) -> Option<&'t Scope> {
    let component = component as usize;
    if component < tree.component_count() {
        Some(tree.scope(component))
    } else {
        None
    }
}

// The name of the port at an index, or nothing if there is no such port.
fn port_name<'t>(tree: &'t Tree<'_>, ports: &[u32], port: u32) -> &'t str {
    match ports.get(port as usize) {
        Some(number) => tree.name(*number),
        None => "",
    }
}
