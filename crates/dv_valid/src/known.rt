//! What a shape has, and what programs of its sort may do.

ghost use Rattle.std.specs.Prelude.{◌≡◌, ◌↔◌, ℕ, ℤ, slice_get, IsTrue, Some};
ghost use Rattle.dv_code.specs.Shape.{may_change, may_read_elapsed, may_receive, may_send};
ghost use Rattle.dv_code.specs.Known.{IsBagOf, IsSourceOf, KnowsAction, KnowsDeed, KnowsLeaf, KnowsUnary};
ghost use Rattle.dv_code.specs.declared.shape.Slot.TheVariants.{Ranged, Flagged, Holding};

use dv_bag::Discipline;
use dv_code::{Action, Deed, Leaf, ProgramSort, Shape, Slot, Source, Unary};

/// Whether programs of this sort may change the state and go to a phase.
fn may_change(sort: ProgramSort) -> bool
    ensures { result ≡ may_change sort }
{
    match sort {
        ProgramSort::Internal | ProgramSort::External | ProgramSort::Confluent => true,
        ProgramSort::Output | ProgramSort::Hold => false,
    }
}

/// Whether programs of this sort may send.
fn may_send(sort: ProgramSort) -> bool
    ensures { result ≡ may_send sort }
{
    matches!(sort, ProgramSort::Output)
}

/// Whether programs of this sort may read what has arrived.
fn may_receive(sort: ProgramSort) -> bool
    ensures { result ≡ may_receive sort }
{
    matches!(sort, ProgramSort::External | ProgramSort::Confluent)
}

/// Whether programs of this sort may read the elapsed time.
fn may_read_elapsed(sort: ProgramSort) -> bool
    ensures { result ≡ may_read_elapsed sort }
{
    matches!(sort, ProgramSort::External)
}

/// What the slot at an address may hold, if there is one.
fn slot(shape: &Shape, address: u16) -> Option<Slot>
    ensures { result ≡ slice_get shape.now.slots address }
{
    shape.tables().slots().get(usize::from(address)).copied()
}

/// Whether the slot at an address holds a number in a range.
fn is_ranged(shape: &Shape, address: u16) -> bool
    ensures { IsTrue result
        ↔ ((low high : ℤ) × (slice_get shape.now.slots address ≡ Some (Ranged low high))) }
{
    matches!(slot(shape, address), Some(Slot::Ranged { .. }))
}

/// Whether the slot at an address holds a truth value.
fn is_flagged(shape: &Shape, address: u16) -> bool
    ensures { IsTrue result ↔ (slice_get shape.now.slots address ≡ Some Flagged) }
{
    matches!(slot(shape, address), Some(Slot::Flagged))
}

/// Whether the slot at an address holds a collection of this discipline.
fn is_holding(shape: &Shape, discipline: Discipline, address: u16) -> bool
    ensures { IsTrue result
        ↔ ((capacity : ℕ) × (slice_get shape.now.slots address ≡ Some (Holding discipline capacity))) }
{
    matches!(slot(shape, address), Some(Slot::Holding { discipline: held, .. }) if held == discipline)
}

/// Whether a program may read a source as a collection.
pub fn is_source(shape: &Shape, source: Source) -> bool
    ensures { IsTrue result ↔ IsSourceOf shape.now source }
{
    match source {
        Source::Own(discipline, address) => is_holding(shape, discipline, address),
        Source::Port(port) => {
            u32::from(port) < shape.tables().inputs() && may_receive(shape.sort())
        }
    }
}

/// Whether a program may read a source as a bag.
fn is_bag(shape: &Shape, source: Source) -> bool
    ensures { IsTrue result ↔ IsBagOf shape.now source }
{
    match source {
        Source::Own(Discipline::Queue, _) => false,
        _ => is_source(shape, source),
    }
}

/// Whether a program may read a leaf inside so many loops.
pub fn knows_leaf(shape: &Shape, inside: usize, leaf: Leaf) -> bool
    ensures { IsTrue result ↔ KnowsLeaf shape.now inside leaf }
{
    match leaf {
        Leaf::Number(_) | Leaf::Truth(_) => true,
        Leaf::Variable(address) => is_ranged(shape, address),
        Leaf::Flag(address) => is_flagged(shape, address),
        Leaf::Item(number) => usize::from(number) < inside,
        Leaf::Elapsed => may_read_elapsed(shape.sort()),
        Leaf::Size(source) => is_source(shape, source),
        Leaf::Sum(source) | Leaf::Least(source) | Leaf::Most(source) => is_bag(shape, source),
        Leaf::Front(address) => is_holding(shape, Discipline::Queue, address),
    }
}

/// Whether a program may apply an operator.
pub fn knows_unary(shape: &Shape, unary: Unary) -> bool
    ensures { IsTrue result ↔ KnowsUnary shape.now unary }
{
    match unary {
        Unary::Negate | Unary::Not => true,
        Unary::Times(source) => is_bag(shape, source),
    }
}

/// Whether a program may perform an action.
pub fn knows_action(shape: &Shape, action: Action) -> bool
    ensures { IsTrue result ↔ KnowsAction shape.now action }
{
    match action {
        Action::SetVariable(address) => is_ranged(shape, address) && may_change(shape.sort()),
        Action::SetFlag(address) => is_flagged(shape, address) && may_change(shape.sort()),
        Action::Change(change, address) => {
            is_holding(shape, change.discipline(), address) && may_change(shape.sort())
        }
        Action::Send(port) => {
            u32::from(port) < shape.tables().outputs() && may_send(shape.sort())
        }
    }
}

/// Whether a program may do a deed.
pub fn knows_deed(shape: &Shape, deed: Deed) -> bool
    ensures { IsTrue result ↔ KnowsDeed shape.now deed }
{
    match deed {
        Deed::Go(phase) => phase < shape.tables().phases() && may_change(shape.sort()),
        Deed::Pop(address) => {
            is_holding(shape, Discipline::Queue, address) && may_change(shape.sort())
        }
    }
}
