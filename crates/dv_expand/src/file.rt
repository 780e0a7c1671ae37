//! Whole files, model by model.

ghost use Rattle.std.specs.Prelude.{◌≡◌, map, IfOk};
ghost use Rattle.dv_source.specs.Sources.{source_of, written_model};
ghost use Rattle.dv_syntax.specs.Trees.{file_of, model_of};
ghost use Rattle.dv_syntax.specs.Written.{sorted, sorted_model};

use crate::atomic::atomic;
use crate::coupled::coupled;
use dv_source::{SourceFile, SourceModel};
use dv_syntax::{File, Model};
use std::alloc::{AllocError, Global};

/// The model of a source.
fn model(alloc: Global, source: SourceModel) -> Result<Model, AllocError>
    ensures { IfOk result (λ model. model_of model ≡ sorted_model (written_model source)) }
{
    match source {
        SourceModel::Atomic(source) => Ok(Model::Atomic(atomic(alloc, source)?)),
        SourceModel::Coupled(source) => Ok(Model::Coupled(coupled(alloc, source)?)),
    }
}

/// The models of sources. The memory of each source is free before the next one is looked at.
fn models(alloc: Global, sources: Vec<SourceModel>) -> Result<Vec<Model>, AllocError>
    ensures { IfOk result (λ models. map model_of models.items
        ≡ map sorted_model (map written_model sources.items)) }
{
    let mut models = Vec::with_capacity(alloc, sources.len())?;
    for source in sources {
        models.push(model(alloc, source)?)?;
    }
    Ok(models)
}

/// The file that a source stands for: its models in their order, each with its items sorted by
/// kind, each kind in the order of the text.
///
/// # Errors
///
/// No memory for the models.
pub fn expand(alloc: Global, source: SourceFile) -> Result<File, AllocError>
    ensures { IfOk result (λ file. file_of file ≡ sorted (source_of source)) }
{
    let models = models(alloc, source.models)?;
    Ok(File {
        models,
        root: source.root,
    })
}
