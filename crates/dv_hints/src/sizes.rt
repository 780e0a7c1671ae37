//! How large the tree of a text's root is.

use dv_check::GREATEST_DEPTH;
use dv_syntax::{Coupled, File, Model};
use std::alloc::{AllocError, Global};
use std::collections::HashMap;

// One level more than coupled models may nest.
const LEVELS_SEEN: usize = GREATEST_DEPTH + 1;

/// How large the tree of a model is. Counts end at the greatest `u64`.
#[derive(Clone, Copy)]
pub struct TreeSize {
    /// The components.
    pub components: u64,
    /// The atomic and coupled models in it, each counted as often as it is a part, and the model
    /// itself.
    pub instances: u64,
    /// How deep coupled models nest, the model included, up to one more than they may.
    pub levels: usize,
}

// The size of a model that no file declares.
const NOTHING: TreeSize = TreeSize {
    components: 0,
    instances: 0,
    levels: 0,
};

// The size of an atomic model.
const COMPONENT: TreeSize = TreeSize {
    components: 1,
    instances: 1,
    levels: 0,
};

/// The size of the tree of the root. No model is a part of itself. Parts deeper than one level more
/// than they may nest are not counted.
///
/// # Errors
///
/// No memory for the sizes of the models.
pub fn size_of_root(alloc: Global, file: &File) -> Result<TreeSize, AllocError> {
    let indices = indices_by_name(alloc, file)?;
    let mut sizes = vec![in alloc; NOTHING; file.models.len()]?;
    for _level in 0..=LEVELS_SEEN {
        sizes = sizes_over(alloc, file, &indices, &sizes)?;
    }
    Ok(size_of(&indices, &sizes, file.root.number))
}

// The index of each model, by the number of its name.
fn indices_by_name(alloc: Global, file: &File) -> Result<HashMap<u32, usize>, AllocError> {
    let mut indices = HashMap::new(alloc);
    for (index, model) in file.models.iter().enumerate() {
        indices.insert(name_of(model), index)?;
    }
    Ok(indices)
}

fn name_of(model: &Model) -> u32 {
    match model {
        Model::Atomic(atomic) => atomic.name.number,
        Model::Coupled(coupled) => coupled.name.number,
    }
}

// The sizes of the models, by those of their parts with one level less.
fn sizes_over(
    alloc: Global,
    file: &File,
    indices: &HashMap<u32, usize>,
    below: &[TreeSize],
) -> Result<Vec<TreeSize>, AllocError> {
    let mut sizes = Vec::with_capacity(alloc, file.models.len())?;
    for model in &file.models {
        sizes.push(match model {
            Model::Atomic(_) => COMPONENT,
            Model::Coupled(coupled) => size_by_parts(coupled, indices, below),
        })?;
    }
    Ok(sizes)
}

fn size_by_parts(coupled: &Coupled, indices: &HashMap<u32, usize>, below: &[TreeSize]) -> TreeSize {
    let mut size = TreeSize {
        components: 0,
        instances: 1,
        levels: 0,
    };
    for part in &coupled.parts {
        let inside = size_of(indices, below, part.model.number);
        size.components = size.components.saturating_add(inside.components);
        size.instances = size.instances.saturating_add(inside.instances);
        size.levels = size.levels.max(inside.levels);
    }
    size.levels = size.levels.saturating_add(1).min(LEVELS_SEEN);
    size
}

fn size_of(indices: &HashMap<u32, usize>, sizes: &[TreeSize], name: u32) -> TreeSize {
    match indices.get(&name) {
        Some(index) => sizes.get(*index).copied().unwrap_or(NOTHING),
        None => NOTHING,
    }
}
