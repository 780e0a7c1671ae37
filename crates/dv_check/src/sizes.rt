//! The size of the whole tree, counted without building it.

ghost use Rattle.std.specs.Prelude.{◌≡◌, false, true, List, fold, map, IfOk, IsTrue, MatchOption};
ghost use Rattle.dv_syntax.specs.Trees.{coupled_of, model_of};
ghost use Rattle.dv_check.specs.Sizes.{alone, component, components_within, contents_by, contents_of, kept, size_by, size_of_tree};
ghost use Rattle.dv_check.specs.Sizes.{size_passes_limit, sizes_below, with_part, with_part_at};
ghost use Rattle.dv_check.specs.Tables.{value_for};
ghost use Rattle.dv_check.specs.Tree.{parts_to, tree_of};

use crate::directory::Directory;
use crate::limits::{GREATEST_COMPONENTS, GREATEST_DEPTH, GREATEST_INSTANCES};
use crate::positions::{positions_inside, positions_of};
use dv_syntax::{Coupled, Model};
use std::alloc::{AllocError, Global};

/// What is inside a model.
#[derive(Drop)]
pub enum Contents {
    /// Rules, in an atomic model.
    Rules,
    /// Parts, in a coupled model: the position of the model of each.
    Parts(Vec<usize>),
}

/// The size of a model with itself. Counts saturate at the greatest `usize`.
#[derive(Clone, Copy, PartialEq, Eq)]
pub struct Size {
    /// How deep coupled models are nested, with this one.
    pub depth: usize,
    /// The number of components.
    pub components: usize,
    /// The number of atomic and coupled models, each counted as often as it is a part.
    pub instances: usize,
}

impl Size {
    // An atomic model.
    fn component() -> Self
        ensures { result ≡ component }
    {
        Size {
            depth: 0,
            components: 1,
            instances: 1,
        }
    }

    // A coupled model without its parts.
    fn alone() -> Self
        ensures { result ≡ alone }
    {
        Size {
            depth: 1,
            components: 0,
            instances: 1,
        }
    }

    // A model with one more part.
    fn with_part(self, part: Size) -> Self
        ensures { result ≡ with_part self part }
    {
        Size {
            depth: self.depth.max(part.depth.saturating_add(1)),
            components: self.components.saturating_add(part.components),
            instances: self.instances.saturating_add(part.instances),
        }
    }

    // A model with one more part, whose model is at a position.
    fn with_part_at(self, sizes: &[Size], position: usize) -> Self
        ensures { result ≡ with_part_at sizes.now self position }
    {
        match sizes.get(position) {
            Some(part) => self.with_part(*part),
            None => self,
        }
    }

    // The number of components, if the size is within the limits.
    fn components_within(self) -> Option<u32>
        ensures { MatchOption result (size_passes_limit self ≡ true)
            (λ count. (size_passes_limit self ≡ false) × (count ≡ self.components)) }
    {
        if self.passes_limit() {
            None
        } else {
            Some(self.components as u32)
        }
    }

    fn passes_limit(self) -> bool
        ensures { result ≡ size_passes_limit self }
    {
        self.components == 0
            || self.components > GREATEST_COMPONENTS
            || self.instances > GREATEST_INSTANCES
            || self.depth > GREATEST_DEPTH
    }
}

/// The number of components in the tree of a root, if it is within the limits: there is a
/// component, there are not too many components or instances, and coupled models are not nested too
/// deeply.
pub fn components_within(
    alloc: Global,
    models: &[Model],
    root: &Coupled,
) -> Result<Option<u32>, AllocError>
    ensures { IfOk result (λ count. count
        ≡ components_within (tree_of (map model_of models.now) (coupled_of root.now))) }
{
    let size = size_of_tree(alloc, GREATEST_DEPTH, models, root)?;
    Ok(size.components_within())
}

// The size of a root, down to a number of levels. The sizes of all models are computed level by
// level, each level from the one before: the time depends on the length of the text, not on how
// often models occur in the tree.
fn size_of_tree(
    alloc: Global,
    levels: usize,
    models: &[Model],
    root: &Coupled,
) -> Result<Size, AllocError>
    ensures { IfOk result (λ size. size
        ≡ kept (size_of_tree (parts_to levels (map model_of models.now) (coupled_of root.now)))) }
{
    let positions = positions_of(alloc, models)?;
    let contents = contents_of(alloc, &positions, models)?;
    let sizes = sizes_below(alloc, levels, &contents)?;
    let inside = positions_inside(alloc, &positions, &root.parts)?;
    Ok(size_with_parts(&sizes, &inside))
}

fn contents_of(
    alloc: Global,
    positions: &Directory<usize>,
    models: &[Model],
) -> Result<Vec<Contents>, AllocError>
    ensures { IfOk result (λ contents. map contents_by contents.items
        ≡ map (contents_of (value_for positions.now)) (map model_of models.now)) }
{
    let mut contents = Vec::new(alloc);
    for model in models {
        contents.push(contents_of_model(alloc, positions, model)?)?;
    }
    Ok(contents)
}

fn contents_of_model(
    alloc: Global,
    positions: &Directory<usize>,
    model: &Model,
) -> Result<Contents, AllocError>
    ensures { IfOk result (λ contents. contents_by contents
        ≡ contents_of (value_for positions.now) (model_of model.now)) }
{
    match model {
        Model::Atomic(_) => Ok(Contents::Rules),
        Model::Coupled(coupled) => {
            let inside = positions_inside(alloc, positions, &coupled.parts)?;
            Ok(Contents::Parts(inside))
        }
    }
}

// The sizes of the models, down to fewer levels than this. If two levels have the same sizes, so has
// each deeper one, and no more are computed.
fn sizes_below(alloc: Global, levels: usize, contents: &[Contents]) -> Result<Vec<Size>, AllocError>
    ensures { IfOk result (λ sizes. sizes.items
        ≡ sizes_below levels (map contents_by contents.now)) }
{
    let mut sizes = Vec::new(alloc);
    for _level in 0..levels {
        let over = sizes_over(alloc, &sizes, contents)?;
        if are_same(&over, &sizes) {
            return Ok(over);
        }
        sizes = over;
    }
    Ok(sizes)
}

// Whether two lists of sizes are the same, model by model.
fn are_same(left: &[Size], right: &[Size]) -> bool
    ensures { IsTrue result → left.now ≡ right.now }
{
    if left.len() != right.len() {
        return false;
    }
    for (index, size) in left.iter().enumerate() {
        if *size != right[index] {
            return false;
        }
    }
    true
}

// The sizes of the models with one more level.
fn sizes_over(alloc: Global, sizes: &[Size], contents: &[Contents]) -> Result<Vec<Size>, AllocError>
    ensures { IfOk result (λ over. over.items
        ≡ map (size_by sizes.now) (map contents_by contents.now)) }
{
    let mut over = Vec::new(alloc);
    for model in contents {
        over.push(size_by(sizes, model))?;
    }
    Ok(over)
}

fn size_by(sizes: &[Size], contents: &Contents) -> Size
    ensures { result ≡ size_by sizes.now (contents_by contents.now) }
{
    match contents {
        Contents::Rules => Size::component(),
        Contents::Parts(inside) => size_with_parts(sizes, inside),
    }
}

// The size of a coupled model whose parts have models at these positions.
fn size_with_parts(sizes: &[Size], inside: &[usize]) -> Size
    ensures { result ≡ fold (with_part_at sizes.now) alone inside.now }
{
    let mut size = Size::alone();
    for position in inside {
        size = size.with_part_at(sizes, *position);
    }
    size
}
