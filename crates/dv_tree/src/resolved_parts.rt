//! The parts of a coupled model, with the indices of their models.

ghost use Rattle.std.specs.Prelude.{◌≡◌, map, IfOk};
ghost use Rattle.std.specs.List.{filter_map};
ghost use Rattle.dv_tree.specs.Tables.{part_names, resolved_part};

use crate::indices::Indices;
use dv_syntax::{Name, Part};
use std::alloc::{AllocError, Global};

/// A part: its name, and the index of its model among those with tables.
#[derive(Clone, Copy, PartialEq, Eq)]
pub struct ResolvedPart {
    /// The name of the part.
    pub name: Name,
    /// The index of its model among those with tables.
    pub model: usize,
}

fn resolved_part(part: &Part, models: &Indices) -> Option<ResolvedPart>
    ensures { result ≡ resolved_part models.now part.now }
{
    let model = models.index_of(part.model.number)?;
    Some(ResolvedPart {
        name: part.name,
        model,
    })
}

/// The parts whose models are known.
pub(crate) fn resolved_parts(
    alloc: Global,
    parts: &[Part],
    models: &Indices,
) -> Result<Vec<ResolvedPart>, AllocError>
    ensures { IfOk result (λ resolved. resolved.items ≡ filter_map (resolved_part models.now) parts.now) }
{
    let mut resolved = Vec::with_capacity(alloc, parts.len())?;
    for part in parts {
        if let Some(found) = resolved_part(part, models) {
            resolved.push(found)?;
        }
    }
    Ok(resolved)
}

/// The names of parts.
pub(crate) fn part_names(alloc: Global, parts: &[ResolvedPart]) -> Result<Vec<u32>, AllocError>
    ensures { IfOk result (λ names. names.items ≡ part_names parts.now) }
{
    parts.iter().map(|part| part.name.number).collect(alloc)
}
