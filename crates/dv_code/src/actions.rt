//! What actions and deeds do.

ghost use Rattle.std.specs.Prelude.{◌≢◌, None, true, slice_get};
ghost use Rattle.dv_code.specs.Operations.{action_effect, change_in, deed_effect, held_in, pop_in, send, set_variable};
ghost use Rattle.dv_code.specs.Performing.{Becomes};

use crate::draft::Draft;
use crate::instruction::{Action, Deed};
use crate::shape::{Shape, Slot};
use dv_bag::limits::{test_flood, test_range, test_room};
use dv_bag::{Change, Collection, DatumView, Fault, RuleError, Value};

/// Performs an action with a value.
///
/// # Errors
///
/// `Range` of a number outside the range of its variable, `Full` of a collection that takes one
/// more value than it may hold, `Flood` of the 4,097th value that is sent. Or no memory.
pub(crate) fn act(
    action: Action,
    value: Value,
    shape: &Shape,
    draft: &mut Draft,
) -> Result<(), RuleError>
    requires { action_effect shape.now action value draft.old ≢ None }
    ensures { Becomes result draft.new (action_effect shape.now action value draft.old) }
{
    let slots = shape.tables().slots();
    match (action, value) {
        (Action::SetVariable(slot), Value::Number(number)) => {
            set_variable(usize::from(slot), number, slots, draft)
        }
        (Action::SetFlag(slot), Value::Truth(truth)) => {
            Ok(draft.set_flag(usize::from(slot), truth)?)
        }
        (Action::Change(change, slot), Value::Number(number)) => {
            edit(change, usize::from(slot), number, slots, draft)
        }
        (Action::Send(port), Value::Number(number)) => send(usize::from(port), number, draft),
        _ => unreachable!(),
    }
}

/// Performs a deed.
///
/// # Errors
///
/// `Empty` if a queue without values is popped. Or no memory.
pub(crate) fn obey(deed: Deed, draft: &mut Draft) -> Result<(), RuleError>
    requires { deed_effect deed draft.old ≢ None }
    ensures { Becomes result draft.new (deed_effect deed draft.old) }
{
    match deed {
        Deed::Go(phase) => {
            draft.go(phase);
            Ok(())
        }
        Deed::Pop(slot) => pop(usize::from(slot), draft),
    }
}

// Sets the variable of a slot to a number.
fn set_variable(
    slot: usize,
    number: i64,
    slots: &[Slot],
    draft: &mut Draft,
) -> Result<(), RuleError>
    requires { set_variable (slice_get slots.now slot) slot number draft.old ≢ None }
    ensures { Becomes result draft.new
        (set_variable (slice_get slots.now slot) slot number draft.old) }
{
    let Some(Slot::Ranged { low, high }) = slots.get(slot) else {
        unreachable!()
    };
    test_range(number, *low, *high)?;
    draft.set_number(slot, number)?;
    Ok(())
}

// Changes the collection of a slot with a number.
fn edit(
    change: Change,
    slot: usize,
    number: i64,
    slots: &[Slot],
    draft: &mut Draft,
) -> Result<(), RuleError>
    requires { change_in change (slice_get slots.now slot)
        (held_in (slice_get draft.old.state.variables slot)) slot number draft.old ≢ None }
    ensures { Becomes result draft.new (change_in change (slice_get slots.now slot)
        (held_in (slice_get draft.old.state.variables slot)) slot number draft.old) }
{
    let Some(Slot::Holding { capacity, .. }) = slots.get(slot) else {
        unreachable!()
    };
    let Some(DatumView::Held(held)) = draft.state().variables.get(slot) else {
        unreachable!()
    };
    if change.makes_more() {
        test_room(held.count(), *capacity)?;
        draft.make_room(slot, *capacity)?;
    }
    draft.edit(change, slot, number)?;
    Ok(())
}

// Pops the first value of the queue of a slot.
fn pop(slot: usize, draft: &mut Draft) -> Result<(), RuleError>
    requires { pop_in (held_in (slice_get draft.old.state.variables slot)) slot draft.old ≢ None }
    ensures { Becomes result draft.new
        (pop_in (held_in (slice_get draft.old.state.variables slot)) slot draft.old) }
{
    let Some(DatumView::Held(Collection::Queue(queue))) = draft.state().variables.get(slot) else {
        unreachable!()
    };
    if queue.len() == 0 {
        return Err(RuleError::Fault(Fault::Empty));
    }
    draft.pop(slot)?;
    Ok(())
}

// Sends a value by an output port.
fn send(port: usize, number: i64, draft: &mut Draft) -> Result<(), RuleError>
    ensures { Becomes result draft.new (send true port number draft.old) }
{
    test_flood(draft.sent_count())?;
    draft.send(port, number)?;
    Ok(())
}
