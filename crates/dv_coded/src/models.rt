//! The atomic models of a text that have components.

ghost use Rattle.std.specs.List.{All};
ghost use Rattle.std.specs.Prelude.{◌≡◌, ℕ, ◌+◌, ◌<◌, ◌≤◌, ◌^◌, [], None, Some, length, map, slice_get, IfOk, OnOk};
ghost use Rattle.dv_eval.specs.Scope.{scope_of};
ghost use Rattle.dv_gen.specs.ModelCode.{IsCompilable, IsCompilableModel};
ghost use Rattle.dv_syntax.specs.Trees.{AtomicTree, ModelTree, atomic_of, file_of};
ghost use Rattle.dv_tree.specs.Instances.{instances};
ghost use Rattle.dv_coded.specs.Components.{Adds, AreModelsOf, HasModelAt, KeepsModels};

use crate::programs::Programs;
use dv_bag::Response;
use dv_bound::response;
use dv_eval::Scope;
use dv_syntax::{Atomic, Model};
use dv_tree::Tree;
use std::alloc::{AllocError, Global};

/// The programs and the response of each atomic model that was asked for, in the order in which
/// they were first asked for.
#[derive(Drop)]
pub struct Models {
    /// The programs of each model.
    pub programs: Vec<Programs>,
    /// The response of each model, in the same order.
    pub responses: Vec<Response>,
    // The index here of each model of the text, if it was asked for.
    indices: Vec<Option<u32>>,
}

impl Models {
    /// No models yet, of a text.
    ///
    /// # Errors
    ///
    /// No memory for the list of indices.
    pub fn new(alloc: Global, tree: &Tree) -> Result<Self, AllocError>
        ensures known { IfOk result (λ all. AreModelsOf (file_of tree.now.file).models all) }
        ensures none { IfOk result (λ all. all.programs.items ≡ []) }
    {
        Ok(Models {
            programs: Vec::new(alloc),
            responses: Vec::new(alloc),
            indices: no_indices(alloc, &tree.file().models)?,
        })
    }

    /// The index of a component's model. Its programs and response are made if it was not asked for
    /// before.
    ///
    /// # Errors
    ///
    /// No memory for the programs.
    pub fn of_component(
        &mut self,
        alloc: Global,
        tree: &Tree,
        component: usize,
    ) -> Result<u32, AllocError>
        requires component { component < length (instances (file_of tree.now.file)) }
        requires compilable { All (λ (m : ModelTree). IsCompilableModel m)
            (file_of tree.now.file).models }
        requires known { AreModelsOf (file_of tree.now.file).models self.old }
        requires room { length self.old.programs.items < 2 ^ 32 }
        ensures known { OnOk result (AreModelsOf (file_of tree.now.file).models self.new) }
        ensures model { IfOk result (λ k. (m : AtomicTree)
            → slice_get (map (λ i. i.model) (instances (file_of tree.now.file))) component ≡ Some m
            → HasModelAt self.new k m) }
        ensures kept { OnOk result (KeepsModels self.old self.new) }
        ensures few { OnOk result
            (length self.new.programs.items ≤ length self.old.programs.items + 1) }
    {
        let index = tree.model_index(component);
        if let Some(known) = self.indices[index] {
            return Ok(known);
        }
        let added = self.add(alloc, tree.atomic(component), tree.scope(component))?;
        self.indices[index] = Some(added);
        Ok(added)
    }

    // Adds the programs and the response of a model, and returns its index.
    fn add(&mut self, alloc: Global, model: &Atomic, scope: &Scope) -> Result<u32, AllocError>
        requires scope { scope.now ≡ scope_of (atomic_of model.now) }
        requires compilable { IsCompilable (atomic_of model.now) }
        requires room { length self.old.programs.items < 2 ^ 32 }
        ensures { IfOk result (λ k. Adds (atomic_of model.now) self.old self.new k) }
    {
        let index = self.programs.len() as u32;
        let programs = Programs::of(alloc, model, scope)?;
        let response = response(alloc, model, scope)?;
        self.programs.push(programs)?;
        self.responses.push(response)?;
        Ok(index)
    }
}

// No index for each model of a text.
fn no_indices(alloc: Global, models: &[Model]) -> Result<Vec<Option<u32>>, AllocError>
    ensures { IfOk result (λ indices. indices.items ≡ map (λ _. None) models.now) }
{
    let mut indices = Vec::with_capacity(alloc, models.len())?;
    for _model in models {
        indices.push(None)?;
    }
    Ok(indices)
}
