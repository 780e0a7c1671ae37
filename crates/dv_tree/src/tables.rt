//! The tables of the models of a file.

ghost use Rattle.std.specs.Prelude.{◌≡◌, map, option_map, Some, IfOk};
ghost use Rattle.std.specs.Option.{option_copied};
ghost use Rattle.dv_check.specs.Names.{name_of_model, numbers_of};
ghost use Rattle.dv_check.specs.Ports.{shown_inputs, shown_outputs};
ghost use Rattle.dv_syntax.specs.Trees.{coupled_of, file_of, model_of};
ghost use Rattle.dv_tree.specs.Instances.{coupled_model, inputs_in, outputs_in, root_of};
ghost use Rattle.dv_tree.specs.Reached.{borrowed_models, parts_inside};
ghost use Rattle.dv_tree.specs.Tables.{model_names, scope_of_model};

use crate::indices::Indices;
use dv_eval::Scope;
use dv_syntax::{Coupled, File, Model, Name, Part};
use smallvec::SmallVec;
use std::alloc::{AllocError, Global};

fn number_of(model: &Model) -> u32
    ensures { result ≡ (name_of_model (model_of model.now)).number }
{
    match model {
        Model::Atomic(atomic) => atomic.name.number,
        Model::Coupled(coupled) => coupled.name.number,
    }
}

/// The names of the models in the order of the text.
pub(crate) fn model_numbers(alloc: Global, models: &[Model]) -> Result<Vec<u32>, AllocError>
    ensures { IfOk result (λ numbers. numbers.items ≡ model_names (map model_of models.now)) }
{
    let mut numbers = Vec::with_capacity(alloc, models.len())?;
    for model in models {
        numbers.push(number_of(model))?;
    }
    Ok(numbers)
}

/// The parts of a model: none if it is atomic.
pub(crate) fn parts_inside(model: &Model) -> &[Part]
    ensures { result.now ≡ parts_inside (model_of model.now) }
{
    match model {
        Model::Atomic(_) => &[],
        Model::Coupled(coupled) => &coupled.parts,
    }
}

/// The names of borrowed models, in their order.
pub(crate) fn numbers_of_models(alloc: Global, models: &[&Model]) -> Result<Vec<u32>, AllocError>
    ensures { IfOk result (λ numbers. numbers.items ≡ model_names (borrowed_models models.now)) }
{
    let mut numbers = Vec::with_capacity(alloc, models.len())?;
    for model in models {
        numbers.push(number_of(model))?;
    }
    Ok(numbers)
}

/// What each of these models declares, in their order.
pub(crate) fn scopes(alloc: Global, models: &[&Model]) -> Result<Vec<Scope>, AllocError>
    ensures { IfOk result
        (λ scopes. scopes.items ≡ map scope_of_model (borrowed_models models.now)) }
{
    let mut scopes = Vec::with_capacity(alloc, models.len())?;
    for model in models {
        scopes.push(scope_of(alloc, model)?)?;
    }
    Ok(scopes)
}

fn scope_of(alloc: Global, model: &Model) -> Result<Scope, AllocError>
    ensures { IfOk result (λ scope. scope ≡ scope_of_model (model_of model.now)) }
{
    match model {
        Model::Atomic(atomic) => Scope::of(alloc, atomic),
        Model::Coupled(_) => Ok(Scope::new(alloc)),
    }
}

/// The numbers of names.
pub(crate) fn numbers(alloc: Global, names: &[Name]) -> Result<Vec<u32>, AllocError>
    ensures { IfOk result (λ found. found.items ≡ numbers_of names.now) }
{
    names.iter().map(|name| name.number).collect(alloc)
}

fn inputs_of(alloc: Global, model: &Model, scope: &Scope) -> Result<SmallVec<u32, 4>, AllocError>
    requires { scope.now ≡ scope_of_model (model_of model.now) }
    ensures { IfOk result (λ names. names.items ≡ shown_inputs (model_of model.now)) }
{
    match model {
        Model::Atomic(_) => SmallVec::from_slice(alloc, scope.inputs()),
        Model::Coupled(coupled) => Ok(SmallVec::from_vec(numbers(alloc, &coupled.inputs)?)),
    }
}

fn outputs_of(alloc: Global, model: &Model, scope: &Scope) -> Result<SmallVec<u32, 4>, AllocError>
    requires { scope.now ≡ scope_of_model (model_of model.now) }
    ensures { IfOk result (λ names. names.items ≡ shown_outputs (model_of model.now)) }
{
    match model {
        Model::Atomic(_) => SmallVec::from_slice(alloc, scope.outputs()),
        Model::Coupled(coupled) => Ok(SmallVec::from_vec(numbers(alloc, &coupled.outputs)?)),
    }
}

/// The indices of the input ports of each model.
pub(crate) fn inputs(
    alloc: Global,
    models: &[&Model],
    scopes: &[Scope],
) -> Result<Vec<Indices>, AllocError>
    requires { scopes.now ≡ map scope_of_model (borrowed_models models.now) }
    ensures { IfOk result (λ inputs. inputs.items ≡ map shown_inputs (borrowed_models models.now)) }
{
    let mut inputs = Vec::with_capacity(alloc, models.len())?;
    for (index, model) in models.iter().enumerate() {
        let names = inputs_of(alloc, model, &scopes[index])?;
        inputs.push(Indices::of(alloc, names)?)?;
    }
    Ok(inputs)
}

/// The indices of the output ports of each model.
pub(crate) fn outputs(
    alloc: Global,
    models: &[&Model],
    scopes: &[Scope],
) -> Result<Vec<Indices>, AllocError>
    requires { scopes.now ≡ map scope_of_model (borrowed_models models.now) }
    ensures { IfOk result
        (λ outputs. outputs.items ≡ map shown_outputs (borrowed_models models.now)) }
{
    let mut outputs = Vec::with_capacity(alloc, models.len())?;
    for (index, model) in models.iter().enumerate() {
        let names = outputs_of(alloc, model, &scopes[index])?;
        outputs.push(Indices::of(alloc, names)?)?;
    }
    Ok(outputs)
}

/// The root: the first model of its name, if it is coupled.
pub(crate) fn root(file: &File) -> Option<&Coupled>
    ensures { option_map coupled_of (option_copied result) ≡ root_of (file_of file.now) }
{
    for model in &file.models {
        if number_of(model) == file.root.number {
            return coupled(model);
        }
    }
    None
}

fn coupled(model: &Model) -> Option<&Coupled>
    ensures { option_map coupled_of (option_copied result)
        ≡ coupled_model (Some (model_of model.now)) }
{
    match model {
        Model::Coupled(coupled) => Some(coupled),
        Model::Atomic(_) => None,
    }
}

/// The input ports of a root.
pub(crate) fn root_inputs(root: Option<&Coupled>) -> &[Name]
    ensures { result.now ≡ inputs_in (option_map coupled_of (option_copied root.entry)) }
{
    match root {
        Some(coupled) => &coupled.inputs,
        None => &[],
    }
}

/// The output ports of a root.
pub(crate) fn root_outputs(root: Option<&Coupled>) -> &[Name]
    ensures { result.now ≡ outputs_in (option_map coupled_of (option_copied root.entry)) }
{
    match root {
        Some(coupled) => &coupled.outputs,
        None => &[],
    }
}
