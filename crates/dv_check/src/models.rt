//! The models of a text, as links see them.

ghost use Rattle.std.specs.Prelude.{◌≡◌, map, IfOk};
ghost use Rattle.dv_syntax.specs.Trees.{model_of};
ghost use Rattle.dv_check.specs.Names.{name_of_model};
ghost use Rattle.dv_check.specs.Models.{face_of, faces_by, faces_in};
ghost use Rattle.dv_check.specs.Tables.{value_for};

use crate::declarations::{NameSort, sorts_of};
use crate::directory::Directory;
use crate::ports::ports_of;
use dv_syntax::{Model, Name};
use std::alloc::{AllocError, Global};

/// The name of a model.
pub fn name_of(model: &Model) -> Name
    ensures { result ≡ name_of_model (model_of model.now) }
{
    match model {
        Model::Atomic(atomic) => atomic.name,
        Model::Coupled(coupled) => coupled.name,
    }
}

// What the names of a model denote: only ports can be coupled.
fn face_of(alloc: Global, model: &Model) -> Result<Directory<NameSort>, AllocError>
    ensures { IfOk result (λ face. value_for face ≡ face_of (model_of model.now)) }
{
    match model {
        Model::Atomic(atomic) => sorts_of(alloc, &atomic.declarations),
        Model::Coupled(coupled) => {
            let ports = ports_of(alloc, coupled)?;
            sorts_of(alloc, &ports)
        }
    }
}

/// What the names of each model denote, by the name of the model. The first model of a name counts.
pub fn faces_of(
    alloc: Global,
    models: &[Model],
) -> Result<Directory<Directory<NameSort>>, AllocError>
    ensures { IfOk result (λ faces. faces_by faces ≡ faces_in (map model_of models.now)) }
{
    let mut faces = Directory::with_room(alloc, models.len())?;
    for model in models {
        faces.add(name_of(model).number, face_of(alloc, model)?)?;
    }
    Ok(faces)
}
