//! What a program may use.

ghost use Rattle.std.specs.Prelude.{◌≡◌};
ghost use Rattle.dv_code.specs.Shape.{AreSmall, shape_of};

use dv_bag::Discipline;
use std::marker::Model;
use std::sync::Arc;

/// What a slot of a state may hold.
#[derive(Clone, Copy, PartialEq, Eq)]
pub enum Slot {
    /// A number in a range.
    Ranged {
        /// The least number of the range.
        low: i64,
        /// The greatest number of the range.
        high: i64,
    },
    /// A truth value.
    Flagged,
    /// A collection.
    Holding {
        /// Whether it is a bag or a queue.
        discipline: Discipline,
        /// The most values that it may have, each copy counted.
        capacity: u64,
    },
}

/// What a program is for.
#[derive(Clone, Copy, PartialEq, Eq)]
pub enum ProgramSort {
    /// An output rule.
    Output,
    /// An internal rule.
    Internal,
    /// An external rule.
    External,
    /// A confluent rule.
    Confluent,
    /// The hold of a phase, in ticks.
    Hold,
}

/// What the programs of an atomic model may use: the slots of its states, and how many input ports,
/// output ports and phases it has. The capacity of a collection is from 1 to `GREATEST_COUNT`.
#[derive(Drop)]
pub struct Tables {
    slots: Vec<Slot>,
    inputs: u32,
    outputs: u32,
    phases: u32,
}

impl Model for Tables {
    ghost use Rattle.dv_code.specs.Shape.{AreSmall, Tables as Meant};

    ghost Value = { Meant };

    ghost view = { λ t. record
        { slots = t.slots.items; inputs = t.inputs; outputs = t.outputs; phases = t.phases } };

    ghost invariant = { λ t. AreSmall t.slots.items };
}

impl Tables {
    /// Tables with these slots, and so many input ports, output ports and phases.
    pub fn new(slots: Vec<Slot>, inputs: u32, outputs: u32, phases: u32) -> Self
        requires { AreSmall slots.items }
        ensures { result
            ≡ record { slots = slots.items; inputs = inputs; outputs = outputs; phases = phases } }
    {
        Tables {
            slots,
            inputs,
            outputs,
            phases,
        }
    }

    /// What each slot may hold.
    #[inline]
    pub fn slots(&self) -> &[Slot]
        ensures slots { result.now ≡ self.now.slots }
        ensures small { AreSmall result.now }
    {
        &self.slots
    }

    /// The number of input ports.
    pub fn inputs(&self) -> u32
        ensures { result ≡ self.now.inputs }
    {
        self.inputs
    }

    /// The number of output ports.
    pub fn outputs(&self) -> u32
        ensures { result ≡ self.now.outputs }
    {
        self.outputs
    }

    /// The number of phases.
    pub fn phases(&self) -> u32
        ensures { result ≡ self.now.phases }
    {
        self.phases
    }
}

/// What a program may use, and what it is for. The programs of a model share its tables.
#[derive(Drop)]
pub struct Shape {
    tables: Arc<Tables>,
    // The number of output ports, which each run needs.
    outputs: u32,
    sort: ProgramSort,
}

impl Model for Shape {
    ghost use Rattle.std.specs.Prelude.{◌≡◌};
    ghost use Rattle.dv_code.specs.Shape.{Shape as Meant, shape_of};

    ghost Value = { Meant };

    ghost view = { λ s. shape_of s.tables.value s.sort };

    ghost invariant = { λ s. s.outputs ≡ s.tables.value.outputs };
}

impl Shape {
    /// The shape of programs of this sort, over these tables.
    pub fn new(tables: Arc<Tables>, sort: ProgramSort) -> Self
        ensures { result ≡ shape_of tables.value sort }
    {
        Shape {
            outputs: tables.outputs(),
            tables,
            sort,
        }
    }

    /// The tables.
    #[inline]
    pub fn tables(&self) -> &Tables
        ensures { shape_of result.now self.now.sort ≡ self.now }
    {
        &self.tables
    }

    /// The number of output ports.
    #[inline]
    pub fn outputs(&self) -> u32
        ensures { result ≡ self.now.outputs }
    {
        self.outputs
    }

    /// What the program is for.
    #[inline]
    pub fn sort(&self) -> ProgramSort
        ensures { result ≡ self.now.sort }
    {
        self.sort
    }
}
