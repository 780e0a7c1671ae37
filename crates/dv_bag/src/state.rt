//! States of atomic models, and what a rule does to them.

ghost use Rattle.std.specs.Cmp.{decided, partial_equiv_from_equiv};
ghost use Rattle.std.specs.Option.{option_map};
ghost use Rattle.std.specs.Prelude.{◌≡◌, ◌==◌, ◌<◌, true, [], ◌∷◌, ◌++◌, length, slice_get, slice_set, IfSome, OnOk, OnErr};
ghost use Rattle.dv_bag.specs.Collections.{count_in, edited, makes_more, without_first};
ghost use Rattle.dv_bag.specs.Numbers.{HoldsNumbers, IsOfNumbers};
ghost use Rattle.dv_bag.specs.Reading.{HasHeldAt, HoldsFew, datum_of, held_at};
ghost use Rattle.dv_bag.specs.Same.{same_datum, same_datum-decides, same_variables, same_variables-decides};
ghost use Rattle.dv_bag.specs.declared.state.Datum.TheVariants as datum;
ghost use Rattle.dv_bag.specs.Limits.{greatest_count};

use crate::collection::{Collection, Held};
use crate::discipline::Change;
use crate::sent::Sent;
use std::alloc::{AllocError, Global};
use std::default::MadeWith;
use std::marker::Model;

/// The value of a variable, a flag, a bag or a queue. A number needs no memory of its own.
#[derive(Drop)]
pub enum Datum {
    /// The number of a variable.
    Number(i64),
    /// The truth value of a flag.
    Flag(bool),
    /// A bag or a queue, in memory of its own.
    Held(Held),
}

/// A borrowed datum: numbers and flags by value, a collection by reference.
#[derive(Clone, Copy, PartialEq, Eq)]
pub enum DatumView<'a> {
    /// The number of a variable.
    Number(i64),
    /// The truth value of a flag.
    Flag(bool),
    /// A bag or a queue.
    Held(&'a Collection),
}

impl Datum {
    // Makes this a copy of another one. A collection keeps its memory if the other is a collection
    // too.
    #[inline(always)]
    pub(crate) fn copy_from(&mut self, other: &Datum) -> Result<(), AllocError>
        ensures { OnOk result (self.new ≡ other.now) }
    {
        match other {
            Datum::Number(number) => self.become_number(*number),
            Datum::Flag(flag) => self.become_flag(*flag),
            Datum::Held(held) => self.copy_held(held)?,
        }
        Ok(())
    }

    // Becomes a number. One that is a number already has nothing to drop.
    #[inline(always)]
    fn become_number(&mut self, value: i64)
        ensures { self.new ≡ datum.Number value }
    {
        match self {
            Datum::Number(number) => *number = value,
            Datum::Flag(_) | Datum::Held(_) => *self = Datum::Number(value),
        }
    }

    // Becomes a truth value. One that is a truth value already has nothing to drop.
    #[inline(always)]
    fn become_flag(&mut self, value: bool)
        ensures { self.new ≡ datum.Flag value }
    {
        match self {
            Datum::Flag(flag) => *flag = value,
            Datum::Number(_) | Datum::Held(_) => *self = Datum::Flag(value),
        }
    }

    // Makes this a copy of a collection, in its own memory if this is a collection too.
    #[inline(never)]
    fn copy_held(&mut self, other: &Held) -> Result<(), AllocError>
        ensures { OnOk result (self.new ≡ datum.Held other.now) }
    {
        match self {
            Datum::Held(held) => held.copy_from(other),
            Datum::Number(_) | Datum::Flag(_) => {
                *self = Datum::Held(other.clone()?);
                Ok(())
            }
        }
    }

    // States that each number is a number of the language. Does nothing.
    fn holds_numbers(&self)
        ensures { IsOfNumbers self.now }
    {
        match self {
            Datum::Number(number) => {
                let _number = *number;
            }
            Datum::Flag(_) => {}
            Datum::Held(held) => held.as_collection().holds_numbers(),
        }
    }
}

impl MadeWith<Global> for Datum {
    fn made_with(_alloc: Global) -> Self {
        Datum::Flag(false)
    }
}

impl Clone for Datum {
    ghost is_clone = { λ d e. e ≡ d };

    fn clone(&self) -> Result<Self, AllocError> {
        match self {
            Datum::Number(number) => Ok(Datum::Number(*number)),
            Datum::Flag(flag) => Ok(Datum::Flag(*flag)),
            Datum::Held(held) => Ok(Datum::Held(held.clone()?)),
        }
    }
}

impl PartialEq for Datum {
    ghost eq = { same_datum };

    ghost laws = { partial_equiv_from_equiv (decided same_datum same_datum-decides) };

    fn eq(&self, other: &Self) -> bool {
        match (self, other) {
            (Datum::Number(one), Datum::Number(two)) => one == two,
            (Datum::Flag(one), Datum::Flag(two)) => one == two,
            (Datum::Held(one), Datum::Held(two)) => one == two,
            _ => false,
        }
    }
}

impl Eq for Datum {
    ghost laws = { decided same_datum same_datum-decides };
}

/// The variables, flags, bags and queues of a state, in the order of their declaration. A state is
/// made once and then changed in place, so that its memory serves a whole run.
#[derive(Drop)]
pub struct Variables {
    pub(crate) data: Vec<Datum>,
}

impl Model for Variables {
    ghost use Rattle.std.specs.Prelude.{List};
    ghost use Rattle.dv_bag.specs.declared.state.Datum.{Datum};

    ghost Value = { List Datum };

    ghost view = { λ v. v.data.items };
}

impl Variables {
    /// An empty list of variables.
    pub fn new(alloc: Global) -> Self
        ensures { result ≡ [] }
    {
        Variables {
            data: Vec::new(alloc),
        }
    }

    /// Appends a variable, flag, bag or queue.
    ///
    /// # Errors
    ///
    /// No memory for one more. The variables are as before.
    pub fn push(&mut self, datum: Datum) -> Result<(), AllocError>
        ensures ok { OnOk result (self.new ≡ self.old ++ datum ∷ []) }
        ensures err { OnErr result (self.new ≡ self.old) }
    {
        Ok(self.data.push(datum)?)
    }

    /// The number of variables, flags, bags and queues.
    pub fn len(&self) -> usize
        ensures { result ≡ length self.now }
    {
        self.data.len()
    }

    /// Whether there is no variable, flag, bag or queue.
    pub fn is_empty(&self) -> bool
        ensures { result ≡ (length self.now == 0) }
    {
        self.data.is_empty()
    }

    /// All variables, flags, bags and queues, in the order of their declaration.
    #[inline]
    pub fn as_slice(&self) -> &[Datum]
        ensures { result.now ≡ self.now }
    {
        &self.data
    }

    /// The variable, flag, bag or queue at an index, if there is one. A collection has at most
    /// `GREATEST_COUNT` values.
    #[inline]
    pub fn get(&self, index: usize) -> Option<DatumView<'_>>
        ensures datum { option_map datum_of result ≡ slice_get self.now index }
        ensures few { IfSome result (λ view. HoldsFew view) }
    {
        match self.data.as_slice().get(index) {
            None => None,
            Some(Datum::Number(number)) => Some(DatumView::Number(*number)),
            Some(Datum::Flag(flag)) => Some(DatumView::Flag(*flag)),
            Some(Datum::Held(held)) => Some(DatumView::Held(held.as_collection())),
        }
    }

    /// Sets the variable at an index.
    #[inline(always)]
    pub fn set_number(&mut self, index: usize, value: i64)
        requires { index < length self.old }
        ensures { self.new ≡ slice_set self.old index (datum.Number value) }
    {
        match &mut self.data[index] {
            Datum::Number(number) => *number = value,
            _ => self.replace_by_number(index, value),
        }
    }

    // `set_number` where something else stands. No rule does this, so it is not inlined.
    #[cold]
    #[inline(never)]
    fn replace_by_number(&mut self, index: usize, value: i64)
        requires { index < length self.old }
        ensures { self.new ≡ slice_set self.old index (datum.Number value) }
    {
        self.data[index] = Datum::Number(value);
    }

    /// Sets the flag at an index.
    pub fn set_flag(&mut self, index: usize, value: bool)
        requires { index < length self.old }
        ensures { self.new ≡ slice_set self.old index (datum.Flag value) }
    {
        self.data[index] = Datum::Flag(value);
    }

    /// Makes room for one more value in the collection at an index, if there is none: for all
    /// values that it may hold, up to `ROOM_AT_ONCE`. So a state takes memory early that a long run
    /// would take later.
    ///
    /// # Errors
    ///
    /// No memory for them. The variables are as before.
    pub fn make_room(&mut self, index: usize, capacity: u64) -> Result<(), AllocError>
        requires { HasHeldAt index self.old }
        ensures { self.new ≡ self.old }
    {
        match &mut self.data[index] {
            Datum::Held(held) => held.make_room(capacity),
            Datum::Number(_) | Datum::Flag(_) => Ok(()),
        }
    }

    /// Applies a change with a value to the collection at an index.
    ///
    /// # Errors
    ///
    /// No memory for the value. The variables are as before.
    pub fn edit(&mut self, change: Change, index: usize, value: i64) -> Result<(), AllocError>
        requires there { HasHeldAt index self.old }
        requires room { makes_more change ≡ true
            → count_in (held_at self.old index) < greatest_count }
        ensures ok { OnOk result (self.new ≡ slice_set self.old index
            (datum.Held (edited change value (held_at self.old index)))) }
        ensures err { OnErr result (self.new ≡ self.old) }
    {
        match &mut self.data[index] {
            Datum::Held(held) => held.edit(change, value),
            _ => Ok(()),
        }
    }

    /// Removes the first value of the queue at an index, if there is one.
    pub fn pop(&mut self, index: usize)
        requires { HasHeldAt index self.old }
        ensures { self.new ≡ slice_set self.old index
            (datum.Held (without_first (held_at self.old index))) }
    {
        if let Datum::Held(held) = &mut self.data[index] {
            held.pop();
        }
    }

    /// States that each number of the variables, bags and queues is a number of the language. Does
    /// nothing.
    pub fn holds_numbers(&self)
        ensures { HoldsNumbers self.now }
    {
        for datum in self.data.as_slice() {
            datum.holds_numbers();
        }
    }
}

impl Clone for Variables {
    ghost is_clone = { λ v w. w ≡ v };

    fn clone(&self) -> Result<Self, AllocError> {
        Ok(Variables {
            data: self.data.clone()?,
        })
    }
}

impl PartialEq for Variables {
    ghost eq = { same_variables };

    ghost laws = { partial_equiv_from_equiv (decided same_variables same_variables-decides) };

    fn eq(&self, other: &Self) -> bool {
        self.data == other.data
    }
}

impl Eq for Variables {
    ghost laws = { decided same_variables same_variables-decides };
}

/// A state of an atomic model: its phase, by number, and its variables.
#[derive(Drop, PartialEq, Eq)]
pub struct State {
    /// The index of the phase.
    pub phase: u32,
    /// What the variables, flags, bags and queues hold, in the order of their declaration.
    pub variables: Variables,
}

impl State {
    /// States that each number of the state is a number of the language. Does nothing.
    pub fn holds_numbers(&self)
        ensures { HoldsNumbers self.now.variables }
    {
        self.variables.holds_numbers();
    }
}

impl Clone for State {
    ghost is_clone = { λ s t. t ≡ s };

    fn clone(&self) -> Result<Self, AllocError> {
        Ok(State {
            phase: self.phase,
            variables: self.variables.clone()?,
        })
    }
}

/// The result of a rule: the state after it, what it sent by port, and the phase of its last
/// `goto`, if one ran.
#[derive(Drop, PartialEq, Eq)]
pub struct Effect {
    /// The state after the rule.
    pub state: State,
    /// What the rule sent.
    pub sent: Sent,
    /// The index of the phase of the last `goto` that ran, if one did.
    pub goto: Option<u32>,
}

impl Clone for Effect {
    ghost is_clone = { λ e f. f ≡ e };

    fn clone(&self) -> Result<Self, AllocError> {
        Ok(Effect {
            state: self.state.clone()?,
            sent: self.sent.clone()?,
            goto: self.goto,
        })
    }
}
