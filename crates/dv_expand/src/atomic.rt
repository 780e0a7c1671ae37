//! The items of an atomic model, sorted by kind.

ghost use Rattle.std.specs.Prelude.{◌≡◌, [], map, IfOk, OnOk};
ghost use Rattle.dv_source.specs.Sources.{item_of};
ghost use Rattle.dv_syntax.specs.Trees.{atomic_of};
ghost use Rattle.dv_syntax.specs.Written.{sorted_items};
ghost use Rattle.dv_expand.specs.Sorting.{with_item};

use dv_source::{SourceAtomic, SourceItem};
use dv_syntax::{Atomic, Name};
use std::alloc::{AllocError, Global};

/// Adds an item to the list of its kind.
fn add(atomic: &mut Atomic, item: SourceItem) -> Result<(), AllocError>
    ensures { OnOk result
        (atomic_of atomic.new ≡ with_item (atomic_of atomic.old) (item_of item)) }
{
    match item {
        SourceItem::Declares(declaration) => atomic.declarations.push(declaration)?,
        SourceItem::Lists(phases) => atomic.phases.push(phases)?,
        SourceItem::Starts(start) => atomic.starts.push(start)?,
        SourceItem::Holds(hold) => atomic.holds.push(hold)?,
        SourceItem::Rules(rule) => atomic.rules.push(rule)?,
    }
    Ok(())
}

/// Frees the memory that no item of the model needs: a text may have very many models of a few
/// items each.
fn trim(atomic: &mut Atomic)
    ensures { atomic_of atomic.new ≡ atomic_of atomic.old }
{
    atomic.declarations.shrink_to_fit();
    atomic.phases.shrink_to_fit();
    atomic.starts.shrink_to_fit();
    atomic.holds.shrink_to_fit();
    atomic.rules.shrink_to_fit();
}

/// An atomic model without items, with memory for one item of phases and one start.
///
/// # Errors
///
/// No memory for them.
fn empty(alloc: Global, name: Name) -> Result<Atomic, AllocError>
    ensures { IfOk result (λ atomic. atomic_of atomic ≡ sorted_items name []) }
{
    let phases = Vec::with_capacity(alloc, 1)?;
    let starts = Vec::with_capacity(alloc, 1)?;
    Ok(Atomic {
        name,
        declarations: Vec::new(alloc),
        phases,
        starts,
        holds: Vec::new(alloc),
        rules: Vec::new(alloc),
    })
}

/// The atomic model of a source.
///
/// # Errors
///
/// No memory for its lists of items.
pub fn atomic(alloc: Global, source: SourceAtomic) -> Result<Atomic, AllocError>
    ensures { IfOk result (λ atomic. atomic_of atomic
        ≡ sorted_items source.name (map item_of source.items.items)) }
{
    let mut atomic = empty(alloc, source.name)?;
    for item in source.items {
        add(&mut atomic, item)?;
    }
    trim(&mut atomic);
    Ok(atomic)
}
