//! The lines of a listing, appended to the text so far.

ghost use Rattle.std.specs.Prelude.{◌≡◌, ◌++◌, length, OnOk, string_bytes};
ghost use Rattle.dv_eval.specs.Scope.{scope_of};
ghost use Rattle.dv_gen.specs.ModelCode.{IsCompilable};
ghost use Rattle.dv_syntax.specs.Trees.{atomic_of};
ghost use Rattle.dv_listing.specs.Listing.{confluent_text, domain_word, hold_text, model_text, names_text, phase_text};
ghost use Rattle.dv_listing.specs.Listing.{phases_text, program_text, scope_text, slots_text};
ghost use Rattle.dv_listing.specs.Placing.{gap};

use dv_bag::Discipline;
use dv_code::Valid;
use dv_eval::{Domain, Scope};
use dv_gen::{PhaseCode, generate};
use dv_syntax::Atomic;
use dv_tree::Tree;
use std::alloc::{AllocError, Global};

/// Appends an atomic model, with an empty line before it unless it is the first.
pub fn push_model(
    alloc: Global,
    text: &mut String,
    tree: &Tree,
    is_first: bool,
    model: &Atomic,
) -> Result<(), AllocError>
    requires { IsCompilable (atomic_of model.now) }
    ensures { OnOk result (string_bytes text.new ≡ string_bytes text.old
        ++ (gap is_first ++ model_text tree.now.names (atomic_of model.now))) }
{
    let scope = Scope::of(alloc, model)?;
    push_model_in(alloc, text, tree, is_first, model, &scope)
}

// The same, for the scope of the model.
fn push_model_in(
    alloc: Global,
    text: &mut String,
    tree: &Tree,
    is_first: bool,
    model: &Atomic,
    scope: &Scope,
) -> Result<(), AllocError>
    requires scope { scope.now ≡ scope_of (atomic_of model.now) }
    requires compilable { IsCompilable (atomic_of model.now) }
    ensures { OnOk result (string_bytes text.new ≡ string_bytes text.old
        ++ (gap is_first ++ model_text tree.now.names (atomic_of model.now))) }
{
    let code = generate(alloc, model, scope)?;
    push_gap(text, is_first)?;
    writeln!(text, "atomic {}", tree.name(model.name.number))?;
    push_scope(text, tree, scope)?;
    push_phases(text, tree, scope.phases(), &code.phases)
}

// Appends an empty line, except before the first model.
fn push_gap(text: &mut String, is_first: bool) -> Result<(), AllocError>
    ensures { OnOk result (string_bytes text.new ≡ string_bytes text.old ++ gap is_first) }
{
    if is_first {
        return Ok(());
    }
    text.push('\n')
}

// Appends a line for each name that a model declares, with its index.
fn push_scope(text: &mut String, tree: &Tree, scope: &Scope) -> Result<(), AllocError>
    ensures { OnOk result (string_bytes text.new
        ≡ string_bytes text.old ++ scope_text tree.now.names scope.now) }
{
    push_names(text, tree, "input", scope.inputs())?;
    push_names(text, tree, "output", scope.outputs())?;
    push_slots(text, tree, scope)?;
    push_names(text, tree, "phase", scope.phases())
}

// Appends a line for each of some names, with its index.
fn push_names(text: &mut String, tree: &Tree, word: &str, names: &[u32]) -> Result<(), AllocError>
    ensures { OnOk result (string_bytes text.new
        ≡ string_bytes text.old ++ names_text tree.now.names word.now names.now) }
{
    for (index, name) in names.iter().enumerate() {
        writeln!(text, "{word} {index} {}", tree.name(*name))?;
    }
    Ok(())
}

// Appends a line for each variable, flag, bag and queue, with its index.
fn push_slots(text: &mut String, tree: &Tree, scope: &Scope) -> Result<(), AllocError>
    ensures { OnOk result (string_bytes text.new
        ≡ string_bytes text.old ++ slots_text tree.now.names scope.now.variables) }
{
    let names = scope.variables();
    for (index, domain) in scope.domains().iter().enumerate() {
        writeln!(
            text,
            "{} {index} {}",
            word_of(*domain),
            tree.name(names[index])
        )?;
    }
    Ok(())
}

fn word_of(domain: Domain) -> &'static str
    ensures { result.now ≡ domain_word domain }
{
    match domain {
        Domain::Number(_) => "variable",
        Domain::Flag { .. } => "flag",
        Domain::Held {
            discipline: Discipline::Bag,
            ..
        } => "bag",
        Domain::Held {
            discipline: Discipline::Queue,
            ..
        } => "queue",
    }
}

// Appends the programs of phases, by the names of the phases.
fn push_phases(
    text: &mut String,
    tree: &Tree,
    phases: &[u32],
    codes: &[PhaseCode],
) -> Result<(), AllocError>
    requires { length codes.now ≡ length phases.now }
    ensures { OnOk result (string_bytes text.new
        ≡ string_bytes text.old ++ phases_text tree.now.names phases.now codes.now) }
{
    for (index, phase) in phases.iter().enumerate() {
        push_phase(text, tree.name(*phase), &codes[index])?;
    }
    Ok(())
}

fn push_phase(text: &mut String, phase: &str, code: &PhaseCode) -> Result<(), AllocError>
    ensures { OnOk result (string_bytes text.new
        ≡ string_bytes text.old ++ phase_text phase.now code.now) }
{
    push_program(text, phase, "output", &code.output)?;
    push_program(text, phase, "internal", &code.internal)?;
    push_program(text, phase, "external", &code.external)?;
    push_confluent(text, phase, &code.confluent)?;
    push_hold(text, phase, &code.hold)
}

fn push_confluent(text: &mut String, phase: &str, program: &Option<Valid>) -> Result<(), AllocError>
    ensures { OnOk result (string_bytes text.new
        ≡ string_bytes text.old ++ confluent_text phase.now program.now) }
{
    match program {
        Some(program) => push_program(text, phase, "confluent", program),
        None => Ok(()),
    }
}

fn push_hold(text: &mut String, phase: &str, program: &Option<Valid>) -> Result<(), AllocError>
    ensures { OnOk result (string_bytes text.new
        ≡ string_bytes text.old ++ hold_text phase.now program.now) }
{
    match program {
        Some(program) => push_program(text, phase, "hold", program),
        None => writeln!(text, "{phase} hold forever"),
    }
}

fn push_program(
    text: &mut String,
    phase: &str,
    word: &str,
    program: &Valid,
) -> Result<(), AllocError>
    ensures { OnOk result (string_bytes text.new
        ≡ string_bytes text.old ++ program_text phase.now word.now program.now.code) }
{
    writeln!(text, "{phase} {word}")?;
    for (index, instruction) in program.code().iter().enumerate() {
        writeln!(text, "    {index} {instruction}")?;
    }
    Ok(())
}
