//! The declarations: a scope for each model, a variable for each value that is shown.

use crate::changes::Changes;
use crate::forms::Form;
use crate::ports::Ports;
use crate::shown::{AllShown, Codes};
use crate::timescale::Timescale;
use crate::values::{push_all, push_code};
use dv_check::GREATEST_DEPTH;
use dv_text::{WriteError, hand_over_if_long};
use dv_trace::{Chosen, Text};
use dv_tree::{Level, Tree, level_at};
use std::io::Write;

/// What is declared.
#[derive(Clone, Copy)]
struct Declared<'d> {
    tree: &'d Tree<'d>,
    shown: &'d AllShown<'d>,
    ports: &'d Ports,
    /// The names of the root's input ports that are shown.
    inputs: &'d [String],
    /// The components that are declared, and whether the root's ports are.
    chosen: Chosen,
}

/// Adds the declarations to the text, and writes it as it gets long.
pub(crate) fn write_header<W: Write>(
    changes: &mut Changes<'_>,
    timescale: Timescale,
    writer: &mut W,
) -> Result<(), WriteError> {
    let tree = changes.tree;
    let declared = Declared {
        tree,
        shown: &changes.shown,
        ports: &changes.ports,
        inputs: &changes.root.ports,
        chosen: changes.chosen,
    };
    let text = &mut changes.text;
    text.show(format_args!("$version pdevs vcd $end\n$timescale {timescale} $end\n"));
    push_scope(text, tree.name(tree.file().root.number));
    if declared.chosen.has_root() {
        push_root(text, &declared);
    }
    if let Some(level) = tree.root_level() {
        write_parts(&declared, level, GREATEST_DEPTH, 0, text, writer)?;
    }
    text.add("$upscope $end\n$enddefinitions $end\n");
    Ok(())
}

// Declares the ports of the root.
fn push_root(text: &mut Text, declared: &Declared<'_>) {
    for (port, name) in declared.inputs.iter().enumerate() {
        let code = declared.shown.inputs.saturating_add(port as u64);
        push_port(text, declared, code, name.as_str());
    }
    for port in 0..declared.tree.output_count() {
        let code = declared.shown.outputs.saturating_add(port as u64);
        push_port(text, declared, code, declared.tree.output_name(port));
    }
}

// Declares a scope for each part of a coupled model in which a component is shown. The components
// of the model have the numbers from `first` on. No tree is deeper than `depth`.
fn write_parts<W: Write>(
    declared: &Declared<'_>,
    level: &Level,
    depth: usize,
    first: usize,
    text: &mut Text,
    writer: &mut W,
) -> Result<(), WriteError> {
    if depth == 0 {
        return Ok(());
    }
    let mut next = first;
    for part in level.parts() {
        let inside = level_at(declared.tree.levels(), part.model);
        let behind = next.saturating_add(count_of(declared.tree, inside, depth - 1));
        if declared.chosen.has_some(next, behind) {
            push_scope(text, declared.tree.name(part.name.number));
            match inside {
                Some(inside) => write_parts(declared, inside, depth - 1, next, text, writer)?,
                None => push_component(text, declared, next),
            }
            text.add("$upscope $end\n");
            hand_over_if_long(text.whole()?, writer)?;
        }
        next = behind;
    }
    Ok(())
}

// The number of components in a part, which has a level if its model is coupled. No tree is deeper
// than `depth`.
fn count_of(tree: &Tree<'_>, level: Option<&Level>, depth: usize) -> usize {
    let Some(level) = level else {
        return 1;
    };
    if depth == 0 {
        return 0;
    }
    let mut count: usize = 0;
    for part in level.parts() {
        let inside = level_at(tree.levels(), part.model);
        count = count.saturating_add(count_of(tree, inside, depth - 1));
    }
    count
}

// Declares the variables of a component.
fn push_component(text: &mut Text, declared: &Declared<'_>, component: usize) {
    let Some(shown) = declared.shown.components.get(component) else {
        return;
    };
    let (tree, scope, codes) = (declared.tree, shown.scope, shown.codes);
    // `phases` is a reserved word, so no variable or port has this name.
    push_variable(text, Form::Text, codes.first, "phases", "");
    for (index, (name, datum)) in scope.variables().iter().zip(&shown.state).enumerate() {
        push_datum(text, datum.form, codes, index, tree.name(*name));
    }
    for (index, name) in scope.outputs().iter().enumerate() {
        push_port(text, declared, codes.port(index), tree.name(*name));
    }
}

// Declares a state variable, and the size of a bag or a queue. No name of a model has a dollar
// sign.
fn push_datum(text: &mut Text, form: Form, codes: Codes, index: usize, name: &str) {
    push_variable(text, form, codes.variable(index), name, "");
    if let Form::Text = form {
        push_variable(text, Form::Integer, codes.size(index), name, "$size");
    }
}

fn push_scope(text: &mut Text, name: &str) {
    push_all(text, &["$scope module ", name, " $end\n"]);
}

fn push_port(text: &mut Text, declared: &Declared<'_>, code: u64, name: &str) {
    push_variable(text, declared.ports.form(code), code, name, "");
}

// Declares a variable of the dump. Its name is `name` followed by `suffix`.
fn push_variable(text: &mut Text, form: Form, code: u64, name: &str, suffix: &str) {
    push_all(text, &["$var ", form.words(), " "]);
    push_code(text, code);
    push_all(text, &[" ", name, suffix, " $end\n"]);
}
