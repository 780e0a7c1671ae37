//! The positions of the models of a text.

ghost use Rattle.std.specs.Prelude.{◌≡◌, filter_map, map, IfOk};
ghost use Rattle.dv_syntax.specs.Trees.{model_of};
ghost use Rattle.dv_check.specs.Cycles.{position_inside, position_of};
ghost use Rattle.dv_check.specs.Tables.{value_for};

use crate::directory::Directory;
use crate::models::name_of;
use dv_syntax::{Model, Part};
use std::alloc::{AllocError, Global};

/// The positions of the models by name. The first model of a name counts.
pub fn positions_of(alloc: Global, models: &[Model]) -> Result<Directory<usize>, AllocError>
    ensures { IfOk result
        (λ positions. value_for positions ≡ position_of (map model_of models.now)) }
{
    let mut positions = Directory::with_room(alloc, models.len())?;
    for (index, model) in models.iter().enumerate() {
        positions.add(name_of(model).number, index)?;
    }
    Ok(positions)
}

/// The positions of the models of parts, in their order. A part whose model is unknown is left out.
pub fn positions_inside(
    alloc: Global,
    positions: &Directory<usize>,
    parts: &[Part],
) -> Result<Vec<usize>, AllocError>
    ensures { IfOk result (λ inside. inside.items
        ≡ filter_map (position_inside (value_for positions.now)) parts.now) }
{
    let mut inside = Vec::new(alloc);
    for part in parts {
        if let Some(position) = positions.get(part.model.number) {
            inside.push(*position)?;
        }
    }
    Ok(inside)
}
