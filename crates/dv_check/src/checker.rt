//! The checks of a whole text.

ghost use Rattle.std.specs.Prelude.{◌≡◌, List, [], ◌∷◌, map, option_map, Some, None, Err, IfErr, IfOk, OnOk};
ghost use Rattle.std.specs.Option.{option_copied};
ghost use Rattle.std.specs.List.{flat_map};
ghost use Rattle.dv_lex.specs.Order.{first_refusal};
ghost use Rattle.dv_lex.specs.declared.error.LoadError.TheVariants.{Refused};
ghost use Rattle.dv_lex.specs.declared.error.Refusal.{Refusal};
ghost use Rattle.dv_lex.specs.declared.error.RefusalNumber.TheVariants.{E6, E17};
ghost use Rattle.dv_syntax.specs.Trees.{CoupledModel, coupled_of, file_of, model_of, ModelTree};
ghost use Rattle.dv_check.specs.Findings.{with_refusals};
ghost use Rattle.dv_check.specs.Models.{faces_by, faces_in};
ghost use Rattle.dv_check.specs.Names.{model_named, name_of_model, refusal, repeats};
ghost use Rattle.dv_check.specs.Refusals.{IsAnswerTo, limit_refusals, model_refusals, refusal_of, refusals};
ghost use Rattle.dv_check.specs.Refusals.{root_limit_refusals, root_refusals};
ghost use Rattle.dv_check.specs.Tree.{component_count, components_at, components_of, tree_of};
ghost use Rattle.dv_check.specs.Writable.{IsWritable};

use crate::atomic::check_atomic;
use crate::checked::Checked;
use crate::coupled::check_coupled;
use crate::cycles::check_cycles;
use crate::declarations::NameSort;
use crate::directory::Directory;
use crate::findings::Findings;
use crate::models::{faces_of, name_of};
use crate::repeats::find_repeats;
use crate::sizes::components_within;
use dv_lex::{LoadError, Names, Refusal, RefusalNumber};
use dv_syntax::{Coupled, File, Model, Name};
use std::alloc::{AllocError, Global};

/// Checks the file of a model text with this table of names.
///
/// # Errors
///
/// `Refused` has the refusal of the file: of all rules that it breaks, the one at the least offset,
/// and there the one with the least number. The limits on the whole tree are tested only if no
/// other rule is broken. `Memory`: no memory for the tables of names and of models.
pub fn check(alloc: Global, file: File, names: Names) -> Result<Checked, LoadError>
    requires { IsWritable (file_of file) }
    ensures file { IfOk result (λ c. c.file ≡ file) }
    ensures names { IfOk result (λ c. c.names ≡ names) }
    ensures checked { OnOk result (refusal_of (file_of file) ≡ None) }
    ensures refused { IfErr result (IsAnswerTo (file_of file)) }
{
    let component_count = components_of(alloc, &file)?;
    Ok(Checked {
        file,
        names,
        component_count,
    })
}

// The number of components of a file that has no refusal.
fn components_of(alloc: Global, file: &File) -> Result<u32, LoadError>
    ensures checked { OnOk result (refusal_of (file_of file.now) ≡ None) }
    ensures counted { IfOk result (λ count. count ≡ components_of (file_of file.now)) }
    ensures refused { IfErr result (IsAnswerTo (file_of file.now)) }
{
    test_rules(broken_rule(alloc, file)?)?;
    components_within_limits(alloc, file)
}

// Tests that no rule is broken.
fn test_rules(first: Option<Refusal>) -> Result<(), Refusal>
    ensures none { OnOk result (first ≡ None) }
    ensures refused { IfErr result (λ refusal. first ≡ Some refusal) }
{
    match first {
        Some(refusal) => Err(refusal),
        None => Ok(()),
    }
}

// The first refusal of a file, if it breaks a rule.
fn broken_rule(alloc: Global, file: &File) -> Result<Option<Refusal>, AllocError>
    ensures { IfOk result (λ first. first ≡ first_refusal (refusals (file_of file.now))) }
{
    let mut found = Findings::new();
    check_file(alloc, file, &mut found)?;
    Ok(found.first)
}

// The number of components of a file whose tree is within the limits.
fn components_within_limits(alloc: Global, file: &File) -> Result<u32, LoadError>
    ensures within { OnOk result (limit_refusals (file_of file.now) ≡ []) }
    ensures counted { IfOk result (λ count. count ≡ components_of (file_of file.now)) }
    ensures refused { (refusal : Refusal) → result ≡ Err (Refused refusal)
        → limit_refusals (file_of file.now) ≡ refusal ∷ [] }
{
    match model_named(&file.models, file.root.number) {
        Some(root) => components_of_root(alloc, &file.models, root, file.root.offset),
        None => Ok(0),
    }
}

// The number of components of a root whose tree is within the limits. An atomic root has none.
fn components_of_root(
    alloc: Global,
    models: &[Model],
    root: &Model,
    offset: u32,
) -> Result<u32, LoadError>
    ensures within { OnOk result (root_limit_refusals (map model_of models.now)
        (Some (model_of root.now)) offset ≡ []) }
    ensures counted { IfOk result (λ count. count
        ≡ components_at (map model_of models.now) (Some (model_of root.now))) }
    ensures refused { (refusal : Refusal) → result ≡ Err (Refused refusal)
        → root_limit_refusals (map model_of models.now) (Some (model_of root.now)) offset
        ≡ refusal ∷ [] }
{
    match root {
        Model::Atomic(_) => Ok(0),
        Model::Coupled(coupled) => components_inside(alloc, models, coupled, offset),
    }
}

// The number of components of a coupled model whose tree is within the limits.
fn components_inside(
    alloc: Global,
    models: &[Model],
    root: &Coupled,
    offset: u32,
) -> Result<u32, LoadError>
    ensures within { OnOk result (root_limit_refusals (map model_of models.now)
        (Some (CoupledModel (coupled_of root.now))) offset ≡ []) }
    ensures counted { IfOk result (λ count. count
        ≡ component_count (tree_of (map model_of models.now) (coupled_of root.now))) }
    ensures refused { (refusal : Refusal) → result ≡ Err (Refused refusal)
        → root_limit_refusals (map model_of models.now) (Some (CoupledModel (coupled_of root.now)))
        offset ≡ refusal ∷ [] }
{
    let within = components_within(alloc, models, root)?;
    Ok(test_limits(within, offset)?)
}

// The number of components of a root whose name is at this offset, if its tree is within the
// limits.
fn test_limits(within: Option<u32>, offset: u32) -> Result<u32, Refusal>
    ensures within { IfOk result (λ count. within ≡ Some count) }
    ensures refused { IfErr result (λ r. (r ≡ refusal E17 offset) × (within ≡ None)) }
{
    match within {
        Some(count) => Ok(count),
        None => Err(Refusal {
            number: RefusalNumber::E17,
            offset,
        }),
    }
}

fn check_file(alloc: Global, file: &File, found: &mut Findings) -> Result<(), AllocError>
    ensures { OnOk result (found.new ≡ with_refusals found.old (refusals (file_of file.now))) }
{
    check_model_names(alloc, file, found)?;
    check_models(alloc, file, found)?;
    check_cycles(alloc, &file.models, found)?;
    check_root(file, found);
    Ok(())
}

fn check_model_names(alloc: Global, file: &File, found: &mut Findings) -> Result<(), AllocError>
    ensures { OnOk result (found.new ≡ with_refusals found.old
        (repeats E6 (map name_of_model (file_of file.now).models))) }
{
    let names = names_of(alloc, &file.models)?;
    find_repeats(alloc, RefusalNumber::E6, &names, found)?;
    Ok(())
}

fn names_of(alloc: Global, models: &[Model]) -> Result<Vec<Name>, AllocError>
    ensures { IfOk result (λ names. names.items ≡ map name_of_model (map model_of models.now)) }
{
    let mut names = Vec::new(alloc);
    for model in models {
        names.push(name_of(model))?;
    }
    Ok(names)
}

fn check_models(alloc: Global, file: &File, found: &mut Findings) -> Result<(), AllocError>
    ensures { OnOk result (found.new ≡ with_refusals found.old
        (flat_map (model_refusals (file_of file.now).models) (file_of file.now).models)) }
{
    let faces = faces_of(alloc, &file.models)?;
    for model in &file.models {
        check_model(alloc, &faces, model, found)?;
    }
    Ok(())
}

fn check_model(
    alloc: Global,
    faces: &Directory<Directory<NameSort>>,
    model: &Model,
    found: &mut Findings,
) -> Result<(), AllocError>
    ensures { OnOk result ((models : List ModelTree) → faces_by faces.now ≡ faces_in models
        → found.new ≡ with_refusals found.old (model_refusals models (model_of model.now))) }
{
    match model {
        Model::Atomic(atomic) => check_atomic(alloc, atomic, found)?,
        Model::Coupled(coupled) => check_coupled(alloc, faces, coupled, found)?,
    }
    Ok(())
}

// The first model of a name.
fn model_named(models: &[Model], number: u32) -> Option<&Model>
    ensures { option_map model_of (option_copied result) ≡ model_named number
        (map model_of models.now) }
{
    for model in models {
        if name_of(model).number == number {
            return Some(model);
        }
    }
    None
}

fn check_root(file: &File, found: &mut Findings)
    ensures { found.new ≡ with_refusals found.old
        (root_refusals (model_named file.now.root.number (file_of file.now).models)
        file.now.root.offset) }
{
    match model_named(&file.models, file.root.number) {
        Some(model) => check_root_model(model, file.root.offset, found),
        None => found.note(RefusalNumber::E7, file.root.offset),
    }
}

fn check_root_model(model: &Model, offset: u32, found: &mut Findings)
    ensures { found.new ≡ with_refusals found.old
        (root_refusals (Some (model_of model.now)) offset) }
{
    match model {
        Model::Atomic(_) => found.note(RefusalNumber::E16, offset),
        Model::Coupled(_) => {}
    }
}
