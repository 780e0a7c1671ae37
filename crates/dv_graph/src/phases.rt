//! The phases of an atomic model, as a state diagram.

use crate::expressions::short_text;
use crate::graph_text::GraphText;
use crate::pieces::Escaped;
use crate::rules::{Deed, Reading, Step, steps_of};
use dv_syntax::{Atomic, Name, Rule, RuleSort, Ticks};
use dv_text::WriteError;
use dv_tree::Tree;
use std::alloc::{AllocError, Global};
use std::io::Write;

/// What a diagram shows, and where names are looked up.
#[derive(Clone, Copy)]
struct Diagram<'d> {
    alloc: Global,
    tree: &'d Tree<'d>,
    atomic: &'d Atomic,
    phases: &'d [Name],
}

/// Writes the phases of an atomic model of a tree as a graph in the DOT language.
///
/// A phase is a node with its hold and with what its output rule sends. An arrow from a point leads
/// to the start phase. Each `goto` of a rule is an edge, labelled with the conditions and the loops
/// around it. A rule that may end without a `goto` is an edge from its phase to itself. Edges of
/// internal rules are solid, of external rules dashed, of confluent rules dotted. A phase whose
/// hold ends and that has no internal rule begins again, so it has an edge to itself.
///
/// # Errors
///
/// `WriteError::Write` if a write fails or takes nothing, `WriteError::Memory` if memory is
/// refused. Then only a part of the graph is written, from its beginning on.
pub fn write_phases<W: Write>(
    alloc: Global,
    tree: &Tree<'_>,
    atomic: &Atomic,
    writer: &mut W,
) -> Result<(), WriteError> {
    let phases = phases_of(alloc, atomic)?;
    let diagram = Diagram {
        alloc,
        tree: &*tree,
        atomic: &*atomic,
        phases: &phases,
    };
    write_diagram(diagram, &mut GraphText::new(alloc, writer))
}

fn phases_of(alloc: Global, atomic: &Atomic) -> Result<Vec<Name>, AllocError> {
    let mut phases = Vec::new(alloc);
    for item in &atomic.phases {
        phases.extend_from_slice(&item.names)?;
    }
    Ok(phases)
}

fn write_diagram<W: Write>(
    diagram: Diagram<'_>,
    text: &mut GraphText<'_, W>,
) -> Result<(), WriteError> {
    put_front(diagram, text)?;
    write_nodes(diagram, text)?;
    put_starts(diagram, text)?;
    write_edges(diagram, text)?;
    write_new_beginnings(diagram, text)?;
    text.end()
}

// Begins the graph: the name of the model, and the style of nodes and edges.
fn put_front<W: Write>(
    diagram: Diagram<'_>,
    text: &mut GraphText<'_, W>,
) -> Result<(), WriteError> {
    let name = Escaped(diagram.tree.name(diagram.atomic.name.number));
    text.put(format_args!(
        "digraph \"{name}\" {{\n\tlabel=\"{name}\";\n\tlabelloc=t;\n\tnodesep=0.6;\n"
    ))?;
    text.put(
        "\tedge [fontsize=11];\n\tnode [shape=box, style=\"rounded,filled\", fillcolor=white];\n",
    )
}

fn write_nodes<W: Write>(
    diagram: Diagram<'_>,
    text: &mut GraphText<'_, W>,
) -> Result<(), WriteError> {
    for (index, name) in diagram.phases.iter().enumerate() {
        let label = Escaped(diagram.tree.name(name.number));
        text.put(format_args!("\tp{index} [label=\"{label}"))?;
        put_hold(diagram, name.number, text)?;
        put_sends(diagram, name.number, text)?;
        text.put("\"];\n")?;
    }
    Ok(())
}

// Writes the hold of a phase, given by the number of its name.
fn put_hold<W: Write>(
    diagram: Diagram<'_>,
    phase: u32,
    text: &mut GraphText<'_, W>,
) -> Result<(), WriteError> {
    match ticks_of(diagram.atomic, phase) {
        Some(Ticks::After(ticks)) => {
            let ticks = short_text(diagram.alloc, diagram.tree, ticks)?;
            text.put(format_args!("\\nhold {ticks}"))
        }
        Some(Ticks::Forever) => text.put("\\nhold forever"),
        None => Ok(()),
    }
}

fn ticks_of(atomic: &Atomic, phase: u32) -> Option<&Ticks> {
    for hold in &atomic.holds {
        if hold.phase.number == phase {
            return Some(&hold.ticks);
        }
    }
    None
}

// Writes what the output rule of a phase sends.
fn put_sends<W: Write>(
    diagram: Diagram<'_>,
    phase: u32,
    text: &mut GraphText<'_, W>,
) -> Result<(), WriteError> {
    for rule in &diagram.atomic.rules {
        if rule.sort == RuleSort::Output && rule.phase.number == phase {
            let steps = steps_of(diagram.reading(" "), &rule.body)?;
            put_sends_of(diagram, &steps, text)?;
        }
    }
    Ok(())
}

fn put_sends_of<W: Write>(
    diagram: Diagram<'_>,
    steps: &[Step<'_>],
    text: &mut GraphText<'_, W>,
) -> Result<(), WriteError> {
    for step in steps {
        if let Deed::Send { port, value } = step.deed {
            let port = Escaped(diagram.tree.name(port));
            let value = short_text(diagram.alloc, diagram.tree, value)?;
            text.put(format_args!("\\n! {port} {value}{}", step.conditions))?;
        }
    }
    Ok(())
}

// Writes an arrow to the start phase.
fn put_starts<W: Write>(
    diagram: Diagram<'_>,
    text: &mut GraphText<'_, W>,
) -> Result<(), WriteError> {
    for start in &diagram.atomic.starts {
        if let Some(index) = diagram.index_of(start.phase.number) {
            text.put(format_args!("\tstart [shape=point];\n\tstart -> p{index};\n"))?;
        }
    }
    Ok(())
}

// Writes the edges of the rules, in the order of the text.
fn write_edges<W: Write>(
    diagram: Diagram<'_>,
    text: &mut GraphText<'_, W>,
) -> Result<(), WriteError> {
    for rule in &diagram.atomic.rules {
        if rule.sort != RuleSort::Output
            && let Some(from) = diagram.index_of(rule.phase.number)
        {
            let steps = steps_of(diagram.reading("\\n"), &rule.body)?;
            put_rule(diagram, rule, from, &steps, text)?;
        }
    }
    Ok(())
}

// Writes the edges of a rule. `from` is the index of its phase, `steps` is what the rule does.
fn put_rule<W: Write>(
    diagram: Diagram<'_>,
    rule: &Rule,
    from: usize,
    steps: &[Step<'_>],
    text: &mut GraphText<'_, W>,
) -> Result<(), WriteError> {
    for step in steps {
        if let Deed::GoTo(phase) = step.deed
            && let Some(to) = diagram.index_of(phase)
        {
            put_edge(from, to, rule.sort, step.conditions.as_str(), text)?;
        }
    }
    if rule.body.always_goes() {
        return Ok(());
    }
    let conditions = if steps.is_empty() { "" } else { "\\notherwise" };
    put_edge(from, from, rule.sort, conditions, text)
}

fn put_edge<W: Write>(
    from: usize,
    to: usize,
    sort: RuleSort,
    conditions: &str,
    text: &mut GraphText<'_, W>,
) -> Result<(), WriteError> {
    let (word, style) = looks_of(sort);
    text.put(format_args!("\tp{from} -> p{to} [label=\"{word}{conditions}\"{style}];\n"))
}

// The word for a sort of rules, and the style of its edges.
fn looks_of(sort: RuleSort) -> (&'static str, &'static str) {
    match sort {
        RuleSort::Output => ("output", ""),
        RuleSort::Internal => ("internal", ""),
        RuleSort::External => ("external", ", style=dashed"),
        RuleSort::Confluent => ("confluent", ", style=dotted"),
    }
}

// Writes the edges of the phases that begin again.
fn write_new_beginnings<W: Write>(
    diagram: Diagram<'_>,
    text: &mut GraphText<'_, W>,
) -> Result<(), WriteError> {
    for (index, name) in diagram.phases.iter().enumerate() {
        if diagram.begins_again(name.number) {
            text.put(format_args!("\tp{index} -> p{index};\n"))?;
        }
    }
    Ok(())
}

impl<'d> Diagram<'d> {
    // The index of a phase, given by the number of its name.
    fn index_of(self, phase: u32) -> Option<usize> {
        for (index, name) in self.phases.iter().enumerate() {
            if name.number == phase {
                return Some(index);
            }
        }
        None
    }

    // How rules are read, with `separator` before each condition.
    fn reading(self, separator: &'static str) -> Reading<'d> {
        Reading {
            alloc: self.alloc,
            tree: self.tree,
            separator,
        }
    }

    // Whether a phase has a hold that ends, and no internal rule.
    fn begins_again(self, phase: u32) -> bool {
        for rule in &self.atomic.rules {
            if rule.sort == RuleSort::Internal && rule.phase.number == phase {
                return false;
            }
        }
        matches!(ticks_of(self.atomic, phase), Some(Ticks::After(_)))
    }
}
