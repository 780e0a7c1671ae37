//! What components emitted.

ghost use Rattle.std.specs.Prelude.{◌≡◌, ◌<◌, ◌++◌, ◌∷◌, [], IfOk, OnErr, OnOk, Some, length, slice_get};
ghost use Rattle.dv_share.specs.Outcomes.{behaviour_in};
ghost use Rattle.dv_share.specs.Share.{AreTables, FitsAt};
ghost use Rattle.dv_share.specs.declared.tables.Member.{Member};

use dv_bag::{Fault, Sent};
use dv_react::{Atomic, Running};
use dv_share::{Indexed, Tables, output};
use std::alloc::{AllocError, Global};
use std::marker::Model;

/// What the components emitted at an instant, or their faults, each with its index. Discarded items
/// stay in their places, so that the next ones are put there without a move.
#[derive(Drop)]
pub struct Emitted {
    // The items, and behind them those that are discarded.
    items: Vec<Indexed<Result<Sent, Fault>>>,
    // How many are not discarded.
    count: usize,
}

impl Model for Emitted {
    ghost use Rattle.std.specs.Prelude.{List, Result, ◌≤◌, length, take};
    ghost use Rattle.dv_bag.specs.Bag.{Counts};
    ghost use Rattle.dv_bag.specs.declared.fault.Fault.{Fault};
    ghost use Rattle.dv_share.specs.declared.index.Indexed.{Indexed};

    ghost Value = { List (Indexed (Result (List Counts) Fault)) };

    ghost view = { λ e. take e.count e.items.items };

    ghost invariant = { λ e. e.count ≤ length e.items.items };
}

impl Emitted {
    /// Nothing yet, with room for so many items.
    ///
    /// # Errors
    ///
    /// No memory for the items.
    pub fn with_room(alloc: Global, room: usize) -> Result<Self, AllocError>
        ensures { IfOk result (λ emitted. emitted ≡ []) }
    {
        Ok(Emitted {
            items: Vec::with_capacity(alloc, room)?,
            count: 0,
        })
    }

    /// The items.
    #[inline(always)]
    pub fn as_slice(&self) -> &[Indexed<Result<Sent, Fault>>]
        ensures { result.now ≡ self.now }
    {
        &self.items[..self.count]
    }

    /// Discards all items.
    #[inline]
    pub fn clear(&mut self)
        ensures { self.new ≡ [] }
    {
        self.count = 0;
    }

    /// Adds what the output function of the component at an index gives, or its fault. `component`
    /// is that component; no other one is needed.
    ///
    /// # Errors
    ///
    /// No memory for what is sent. The items are unchanged.
    #[inline(always)]
    pub fn add<A: Atomic>(
        &mut self,
        alloc: Global,
        tables: &Tables<A>,
        work: &mut A::Work,
        index: u32,
        component: &Running,
    ) -> Result<(), AllocError>
        requires tables { AreTables A.fits tables.now }
        requires index { index < length tables.now.members.items }
        requires fits { (m : Member) → slice_get tables.now.members.items index ≡ Some m
            → FitsAt A.fits tables.now.models.items m.model component.now.state }
        ensures emitted { OnOk result ((m : Member)
            → slice_get tables.now.members.items index ≡ Some m
            → self.new ≡ self.old ++ (record {
              index = index;
              what = (behaviour_in A.behaviour tables.now m).output component.now.state;
            }) ∷ []) }
        ensures err { OnErr result (self.new ≡ self.old) }
    {
        if self.count == self.items.len() {
            self.items.push(Indexed {
                index,
                what: Ok(Sent::empty(alloc, 0)),
            })?;
        }
        let item = &mut self.items[self.count];
        item.index = index;
        output(alloc, tables, work, index, component, &mut item.what)?;
        self.count += 1;
        Ok(())
    }
}
