//! From a text to the programs of its atomic models, each with the tree that it was made from.

ghost use Rattle.std.specs.Prelude.{◌≡◌, IfOk, IfSome};
ghost use Rattle.std.specs.List.{All};
ghost use Rattle.dv_eval.specs.Scope.{scope_of};
ghost use Rattle.dv_gen.specs.ModelCode.{IsCompilable, IsCompilableModel};
ghost use Rattle.dv_syntax.specs.Trees.{ModelTree, atomic_of, file_of};

use dv_bag::State;
use dv_check::laws::files_of_texts_are_writable;
use dv_check::{Checked, check};
use dv_code::Valid;
use dv_eval::{Scope, phase_ticks, rule_body, rule_of, start_state};
use dv_expand::expand;
use dv_gen::laws::accepted_files_are_compilable;
use dv_gen::{ModelCode, PhaseCode, generate};
use dv_lex::{LoadError, tokens};
use dv_parser::parse;
use dv_syntax::{Atomic, Expr, Model, RuleSort, Stmt, Ticks};
use std::alloc::{AllocError, Global};

/// The checked file of a text.
///
/// # Errors
///
/// The refusal of the text, or no memory.
pub fn checked(alloc: Global, text: &str) -> Result<Checked, LoadError>
    ensures { IfOk result
        (λ c. All (λ (m : ModelTree). IsCompilableModel m) (file_of c.file).models) }
{
    files_of_texts_are_writable();
    accepted_files_are_compilable();
    let found = tokens(alloc, text.as_bytes())?;
    let source = parse(alloc, &found.tokens, text.len() as u32)?;
    let file = expand(alloc, source)?;
    check(alloc, file, found.names)
}

/// An atomic model with its scope, its start and its programs.
#[derive(Drop)]
pub struct Compiled<'a> {
    /// The tree of the model.
    pub model: &'a Atomic,
    /// What its names stand for.
    pub scope: Scope,
    /// The state at the start.
    pub start: State,
    /// The programs.
    pub code: ModelCode,
}

/// What a program was made from.
#[derive(Clone, Copy)]
pub enum Tree<'a> {
    /// The statements of a rule.
    Rule(&'a [Stmt]),
    /// The expression of a hold.
    Hold(&'a Expr),
}

/// A program and what it was made from.
#[derive(Drop)]
pub struct Pair<'a> {
    /// What the program was made from.
    pub tree: Tree<'a>,
    /// The program.
    pub program: &'a Valid,
}

/// The model at an index of a file, if there is an atomic one.
pub fn atomic_at(checked: &Checked, index: usize) -> Option<&Atomic>
    requires { All (λ (m : ModelTree). IsCompilableModel m) (file_of checked.now.file).models }
    ensures { IfSome result (λ model. IsCompilable (atomic_of model.now)) }
{
    match checked.file.models.get(index) {
        Some(Model::Atomic(model)) => Some(model),
        _ => None,
    }
}

/// A model with its programs.
///
/// # Errors
///
/// No memory for the programs.
pub fn compile(alloc: Global, model: &Atomic) -> Result<Compiled<'_>, AllocError>
    requires { IsCompilable (atomic_of model.now) }
{
    let scope = Scope::of(alloc, model)?;
    let (start, code) = start_and_code(alloc, model, &scope)?;
    Ok(Compiled {
        model,
        scope,
        start,
        code,
    })
}

// The start of a model and its programs, whose names are in this scope.
fn start_and_code(
    alloc: Global,
    model: &Atomic,
    scope: &Scope,
) -> Result<(State, ModelCode), AllocError>
    requires scope { scope.now ≡ scope_of (atomic_of model.now) }
    requires compilable { IsCompilable (atomic_of model.now) }
{
    let start = start_state(alloc, model, scope)?;
    let code = generate(alloc, model, scope)?;
    Ok((start, code))
}

impl<'a> Compiled<'a> {
    /// Each program of the model, phase by phase.
    ///
    /// # Errors
    ///
    /// No memory for the list.
    pub fn pairs<'b>(&'b self, alloc: Global) -> Result<Vec<Pair<'b>>, AllocError> {
        let mut pairs = Vec::new(alloc);
        for (name, programs) in self.scope.phases().iter().zip(&self.code.phases) {
            push_rules(&mut pairs, self.model, *name, programs)?;
            push_others(&mut pairs, self.model, *name, programs)?;
        }
        Ok(pairs)
    }
}

fn push_rules<'b>(
    pairs: &mut Vec<Pair<'b>>,
    model: &'b Atomic,
    name: u32,
    programs: &'b PhaseCode,
) -> Result<(), AllocError> {
    let rules = [
        (RuleSort::Output, &programs.output),
        (RuleSort::Internal, &programs.internal),
        (RuleSort::External, &programs.external),
    ];
    for (sort, program) in rules {
        let tree = Tree::Rule(rule_body(model, sort, name));
        pairs.push(Pair { tree, program })?;
    }
    Ok(())
}

fn push_others<'b>(
    pairs: &mut Vec<Pair<'b>>,
    model: &'b Atomic,
    name: u32,
    programs: &'b PhaseCode,
) -> Result<(), AllocError> {
    let confluent = rule_of(model, RuleSort::Confluent, name);
    if let (Some(statements), Some(program)) = (confluent, &programs.confluent) {
        let tree = Tree::Rule(statements);
        pairs.push(Pair { tree, program })?;
    }
    if let (Some(Ticks::After(ticks)), Some(program)) = (phase_ticks(model, name), &programs.hold) {
        let tree = Tree::Hold(ticks);
        pairs.push(Pair { tree, program })?;
    }
    Ok(())
}
