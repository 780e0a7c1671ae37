//! The effect of a run so far.

ghost use Rattle.std.specs.Prelude.{◌≡◌, ◌<◌, true, IfOk, OnOk};
ghost use Rattle.std.specs.Cow.{IsOwned, cow_value};
ghost use Rattle.dv_bag.specs.Bag.{size_of_all};
ghost use Rattle.dv_bag.specs.Collections.{count_in, edited, makes_more, without_first};
ghost use Rattle.dv_bag.specs.Effects.{with_collection};
ghost use Rattle.dv_bag.specs.Reading.{HasHeldAt, held_at};
ghost use Rattle.dv_bag.specs.declared.state.Datum.TheVariants as datum;
ghost use Rattle.dv_bag.specs.Limits.{greatest_count};
ghost use Rattle.dv_code.specs.Machine.{first_effect};
ghost use Rattle.dv_code.specs.Operations.{going, storing, with_sent};

use crate::shape::Shape;
use dv_bag::{Change, Effect, Sent, State};
use std::alloc::{AllocError, Global};
use std::borrow::Cow;
use std::marker::Model;

/// The effect of a run so far. The state may be borrowed until it changes.
#[derive(Drop)]
pub(crate) struct Draft<'a> {
    state: Cow<'a, State>,
    sent: Sent,
    goto: Option<u32>,
}

impl<'a> Model for Draft<'a> {
    ghost use Rattle.std.specs.Cow.{cow_value};
    ghost use Rattle.dv_bag.specs.declared.state.Effect.{Effect as Meant};

    ghost Value = { Meant };

    ghost view = { λ d. record { state = cow_value d.state; sent = d.sent; goto = d.goto } };
}

impl<'a> Draft<'a> {
    /// A draft with this state, in which nothing was sent.
    pub(crate) fn new(alloc: Global, shape: &Shape, state: Cow<'a, State>) -> Self
        ensures { result ≡ first_effect shape.now (cow_value state.entry) }
    {
        Draft {
            state,
            sent: Sent::empty(alloc, shape.outputs() as usize),
            goto: None,
        }
    }

    /// The state as it is now.
    pub(crate) fn state(&self) -> &State
        ensures { result.now ≡ self.now.state }
    {
        &self.state
    }

    /// The number of values that were sent, each copy counted; at most 2^64 - 1.
    pub(crate) fn sent_count(&self) -> u64
        ensures { result ≡ size_of_all self.now.sent }
    {
        self.sent.total()
    }

    /// Sets the number in a slot, if there is such a slot.
    ///
    /// # Errors
    ///
    /// No memory for a state of its own.
    #[inline(always)]
    pub(crate) fn set_number(&mut self, slot: usize, number: i64) -> Result<(), AllocError>
        ensures { OnOk result (self.new ≡ storing self.old slot (datum.Number number)) }
    {
        own(&mut self.state)?;
        if let Cow::Owned(state) = &mut self.state {
            if slot < state.variables.len() {
                state.variables.set_number(slot, number);
            }
        }
        Ok(())
    }

    /// Sets the truth value in a slot, if there is such a slot.
    ///
    /// # Errors
    ///
    /// No memory for a state of its own.
    pub(crate) fn set_flag(&mut self, slot: usize, truth: bool) -> Result<(), AllocError>
        ensures { OnOk result (self.new ≡ storing self.old slot (datum.Flag truth)) }
    {
        own(&mut self.state)?;
        if let Cow::Owned(state) = &mut self.state {
            if slot < state.variables.len() {
                state.variables.set_flag(slot, truth);
            }
        }
        Ok(())
    }

    /// Makes room for one more value in the collection of a slot, which has this capacity.
    ///
    /// # Errors
    ///
    /// No memory for it, or for a state of its own.
    pub(crate) fn make_room(&mut self, slot: usize, capacity: u64) -> Result<(), AllocError>
        requires { HasHeldAt slot self.old.state.variables }
        ensures { OnOk result (self.new ≡ self.old) }
    {
        own(&mut self.state)?;
        if let Cow::Owned(state) = &mut self.state {
            state.variables.make_room(slot, capacity)?;
        }
        Ok(())
    }

    /// Changes the collection of a slot with a number.
    ///
    /// # Errors
    ///
    /// No memory for the number, or for a state of its own.
    pub(crate) fn edit(
        &mut self,
        change: Change,
        slot: usize,
        number: i64,
    ) -> Result<(), AllocError>
        requires there { HasHeldAt slot self.old.state.variables }
        requires room { makes_more change ≡ true
            → count_in (held_at self.old.state.variables slot) < greatest_count }
        ensures { OnOk result (self.new ≡ with_collection self.old slot
            (edited change number (held_at self.old.state.variables slot))) }
    {
        own(&mut self.state)?;
        if let Cow::Owned(state) = &mut self.state {
            state.variables.edit(change, slot, number)?;
        }
        Ok(())
    }

    /// Pops the first value of the queue in a slot, if it has one.
    ///
    /// # Errors
    ///
    /// No memory for a state of its own.
    pub(crate) fn pop(&mut self, slot: usize) -> Result<(), AllocError>
        requires { HasHeldAt slot self.old.state.variables }
        ensures { OnOk result (self.new ≡ with_collection self.old slot
            (without_first (held_at self.old.state.variables slot))) }
    {
        own(&mut self.state)?;
        if let Cow::Owned(state) = &mut self.state {
            state.variables.pop(slot);
        }
        Ok(())
    }

    /// Sends a value by an output port, if there is such a port.
    ///
    /// # Errors
    ///
    /// No memory for the value.
    pub(crate) fn send(&mut self, port: usize, number: i64) -> Result<(), AllocError>
        ensures { OnOk result (self.new ≡ with_sent self.old port number) }
    {
        if port < self.sent.len() {
            self.sent.insert(port, number)?;
        }
        Ok(())
    }

    /// Sets the phase to go to.
    pub(crate) fn go(&mut self, phase: u32)
        ensures { self.new ≡ going phase self.old }
    {
        self.goto = Some(phase);
    }

    /// What was sent.
    pub(crate) fn into_sent(self) -> Sent
        ensures { result ≡ self.entry.sent }
    {
        let Draft { sent, .. } = self;
        sent
    }

    /// The effect, with a state of its own.
    ///
    /// # Errors
    ///
    /// No memory for a copy of the state.
    pub(crate) fn into_effect(self) -> Result<Effect, AllocError>
        ensures { IfOk result (λ effect. effect ≡ self.entry) }
    {
        let Draft { state, sent, goto } = self;
        Ok(Effect {
            state: state.into_owned()?,
            sent,
            goto,
        })
    }
}

// Replaces a borrowed state by a copy.
#[inline(always)]
fn own(state: &mut Cow<State>) -> Result<(), AllocError>
    ensures owned { OnOk result (IsOwned state.new) }
    ensures same { cow_value state.new ≡ cow_value state.old }
{
    match state {
        Cow::Owned(_) => Ok(()),
        Cow::Borrowed(_) => own_lent(state),
    }
}

// `own` for a borrowed state. This happens at most once in a run, so it is not inlined.
#[cold]
#[inline(never)]
fn own_lent(state: &mut Cow<State>) -> Result<(), AllocError>
    ensures owned { OnOk result (IsOwned state.new) }
    ensures same { cow_value state.new ≡ cow_value state.old }
{
    if let Cow::Borrowed(lent) = state {
        *state = Cow::Owned((*lent).clone()?);
    }
    Ok(())
}
