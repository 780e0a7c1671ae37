//! The items of a coupled model, sorted by kind.

ghost use Rattle.std.specs.Prelude.{◌≡◌, [], map, IfOk, OnOk};
ghost use Rattle.dv_source.specs.Sources.{coupled_item_of};
ghost use Rattle.dv_syntax.specs.Trees.{coupled_of};
ghost use Rattle.dv_syntax.specs.Written.{sorted_coupled_items};
ghost use Rattle.dv_expand.specs.Sorting.{with_coupled_item};

use dv_source::{SourceCoupled, SourceCoupledItem};
use dv_syntax::{Coupled, Name};
use std::alloc::{AllocError, Global};

/// Adds an item to the list of its kind.
fn add(coupled: &mut Coupled, item: SourceCoupledItem) -> Result<(), AllocError>
    ensures { OnOk result (coupled_of coupled.new
        ≡ with_coupled_item (coupled_of coupled.old) (coupled_item_of item)) }
{
    match item {
        SourceCoupledItem::Inputs(port) => coupled.inputs.push(port)?,
        SourceCoupledItem::Outputs(port) => coupled.outputs.push(port)?,
        SourceCoupledItem::Contains(part) => coupled.parts.push(part)?,
        SourceCoupledItem::Couples(link) => coupled.links.push(link)?,
    }
    Ok(())
}

/// Frees the memory that no item of the model needs.
fn trim(coupled: &mut Coupled)
    ensures { coupled_of coupled.new ≡ coupled_of coupled.old }
{
    coupled.inputs.shrink_to_fit();
    coupled.outputs.shrink_to_fit();
    coupled.parts.shrink_to_fit();
    coupled.links.shrink_to_fit();
}

/// A coupled model without items.
fn empty(alloc: Global, name: Name) -> Coupled
    ensures { coupled_of result ≡ sorted_coupled_items name [] }
{
    Coupled {
        name,
        inputs: Vec::new(alloc),
        outputs: Vec::new(alloc),
        parts: Vec::new(alloc),
        links: Vec::new(alloc),
    }
}

/// The coupled model of a source.
///
/// # Errors
///
/// No memory for its lists of items.
pub fn coupled(alloc: Global, source: SourceCoupled) -> Result<Coupled, AllocError>
    ensures { IfOk result (λ coupled. coupled_of coupled
        ≡ sorted_coupled_items source.name (map coupled_item_of source.items.items)) }
{
    let mut coupled = empty(alloc, source.name);
    for item in source.items {
        add(&mut coupled, item)?;
    }
    trim(&mut coupled);
    Ok(coupled)
}
