//! The undo log of components: what they were before they reacted.

ghost use Rattle.std.specs.Prelude.{◌≡◌, ◌<◌, ◌≤◌, ◌↔◌, ◌++◌, [], List, Some, IfOk, IsSome, OnErr, OnOk, option_to_list, length, replicate, slice_get};
ghost use Rattle.dv_bag.specs.Bag.{Counts};
ghost use Rattle.dv_devs.specs.Behaviour.{emission};
ghost use Rattle.dv_react.specs.Components.{IsWaitOfRun, component_of, rank_of};
ghost use Rattle.dv_react.specs.Outcomes.{left_by, outcome_of};
ghost use Rattle.dv_share.specs.Outcomes.{IsOutcomeOf, behaviour_in};
ghost use Rattle.dv_share.specs.Indices.{AreRising, IsNext, indices_of};
ghost use Rattle.dv_share.specs.Share.{AreTables, FitsAt, given_at};
ghost use Rattle.dv_share.specs.declared.tables.Member.{Member};
ghost use Rattle.dv_local.specs.Orders.{AreCounted, in_order};
ghost use Rattle.dv_local.specs.Reacting.{former_of};

use crate::copies::Copies;
use crate::moment::Moment;
use dv_bag::Datum;
use dv_react::{Atomic, Happened, Running};
use dv_share::{Indexed, Tables, Visit};
use std::alloc::{AllocError, Global};
use std::marker::Model;

// So many models have their copies apart. If there are more, the last ones have theirs together.
const MODELS_APART: usize = 256;

/// Components as they were before they reacted, each with its index, the last one last. The copies
/// of each model may be kept apart, so that the memory of a discarded one fits the next one.
#[derive(Drop)]
pub struct Former {
    // The copies: one list of all, or a list for each model.
    copies: Vec<Copies>,
    // Where there are several lists, which of them has each copy, in the order in which they were
    // made.
    order: Vec<usize>,
}

impl Model for Former {
    ghost use Rattle.std.specs.Prelude.{List, ◌<◌, length};
    ghost use Rattle.dv_react.specs.declared.running.Running.{Running};
    ghost use Rattle.dv_share.specs.declared.index.Indexed.{Indexed};
    ghost use Rattle.dv_local.specs.Orders.{AreCounted, in_turn};

    ghost Value = { List (Indexed Running) };

    ghost view = { λ f. in_turn f.order.items f.copies.items };

    ghost invariant = { λ f. (0 < length f.copies.items)
        × (1 < length f.copies.items → AreCounted f.order.items f.copies.items) };
}

// Empty lists of copies, for so many models.
fn no_copies(alloc: Global, models: usize) -> Result<Vec<Copies>, AllocError>
    ensures { IfOk result (λ copies. copies.items ≡ replicate models []) }
{
    let mut copies = Vec::with_capacity(alloc, models)?;
    for _model in 0..models {
        copies.push(Copies::new(alloc))?;
    }
    Ok(copies)
}

// The index of a component's model.
fn model_of<A>(tables: &Tables<A>, index: u32) -> usize
    requires { index < length tables.now.members.items }
{
    tables.members[index as usize].model as usize
}

// Discards the copies of several lists.
fn let_go_all(order: &mut Vec<usize>, copies: &mut Vec<Copies>)
    requires { AreCounted order.old.items copies.old.items }
    ensures none { order.new.items ≡ [] }
    ensures counted { AreCounted order.new.items copies.new.items }
    ensures lists { length copies.new.items ≡ length copies.old.items }
{
    while let Some(list) = order.pop() {
        copies[list].let_go();
    }
}

// Moves out the last copy of several lists.
fn pop_in_order(order: &mut Vec<usize>, copies: &mut Vec<Copies>) -> Option<Indexed<Running>>
    requires { AreCounted order.old.items copies.old.items }
    ensures counted { AreCounted order.new.items copies.new.items }
    ensures lists { length copies.new.items ≡ length copies.old.items }
    ensures items { in_order order.old.items copies.old.items
        ≡ in_order order.new.items copies.new.items ++ option_to_list result }
    ensures some { IsSome result ↔ (0 < length (in_order order.old.items copies.old.items)) }
{
    match order.pop() {
        Some(list) => copies[list].pop(),
        None => None,
    }
}

impl Former {
    /// An empty log for components of so many models, whose copies are kept apart. It has room for
    /// the order of `count` copies; room for a copy is made with it.
    ///
    /// # Errors
    ///
    /// No memory for the lists.
    pub fn with_room(alloc: Global, models: usize, count: usize) -> Result<Self, AllocError>
        ensures { IfOk result (λ former. former ≡ []) }
    {
        Ok(Former {
            copies: no_copies(alloc, models.clamp(1, MODELS_APART))?,
            order: Vec::with_capacity(alloc, count)?,
        })
    }

    /// Discards all copies, but keeps their memory.
    pub fn clear(&mut self)
        ensures { self.new ≡ [] }
    {
        if self.copies.len() == 1 {
            self.copies[0].clear();
        } else {
            let_go_all(&mut self.order, &mut self.copies);
        }
    }

    /// Moves out the last copy.
    pub fn pop(&mut self) -> Option<Indexed<Running>>
        ensures items { self.old ≡ self.new ++ option_to_list result }
        ensures some { IsSome result ↔ (0 < length self.old) }
    {
        if self.copies.len() == 1 {
            self.copies[0].pop()
        } else {
            pop_in_order(&mut self.order, &mut self.copies)
        }
    }

    /// Lets a component react in place, and returns what happened, if anything did; then the
    /// component as it was is the last in the log.
    ///
    /// # Errors
    ///
    /// No memory. The component and the log are unchanged.
    #[inline(always)]
    pub(crate) fn react_logged<A: Atomic>(
        &mut self,
        moment: &Moment<'_, A>,
        work: &mut A::Work,
        component: &mut Running,
        visit: &Visit<'_>,
    ) -> Result<Option<Happened>, AllocError>
        requires tables { AreTables A.fits moment.now.tables.now }
        requires limit { moment.now.instant.now.limit ≡ moment.now.tables.now.limit }
        requires index { visit.now.arrival.now.index < length moment.now.tables.now.members.items }
        requires wait { IsWaitOfRun moment.now.tables.now.limit component.old.wait }
        requires fits { (m : Member)
            → slice_get moment.now.tables.now.members.items visit.now.arrival.now.index ≡ Some m
            → FitsAt A.fits moment.now.tables.now.models.items m.model component.old.state }
        requires comes { (a : A) (bags : List Counts) → A.comes a bags }
        requires rise { AreRising (indices_of moment.now.emitted.now) }
        requires next { IsNext visit.now.arrival.now.index moment.now.emitted.now visit.now.cursor }
        requires given { (m : Member)
            → slice_get moment.now.tables.now.members.items visit.now.arrival.now.index ≡ Some m
            → given_at visit.now.arrival.now.index moment.now.emitted.now
            ≡ emission (behaviour_in A.behaviour moment.now.tables.now m)
            (rank_of moment.now.instant.now)
            (component_of moment.now.tables.now.limit component.old) }
        ensures outcome { IfOk result (λ happened. IsOutcomeOf A.behaviour A.fits
            moment.now.tables.now (rank_of moment.now.instant.now) component.old
            (given_at visit.now.arrival.now.index moment.now.emitted.now) visit.now.arrival.now
            (outcome_of component.new happened)) }
        ensures left { IfOk result (λ happened. component.new
            ≡ left_by component.old (outcome_of component.new happened)) }
        ensures former { IfOk result (λ happened. self.new
            ≡ self.old ++ former_of visit.now.arrival.now.index component.old happened) }
        ensures same { OnErr result (component.new ≡ component.old) }
        ensures none { OnErr result (self.new ≡ self.old) }
    {
        let last = self.copies.len() - 1;
        let list = if last == 0 {
            0
        } else {
            self.order.reserve(1)?;
            model_of(moment.tables, visit.arrival.index).min(last)
        };
        let happened = self.copies[list].react_copied(moment, work, component, visit)?;
        if last > 0 && happened.is_some() {
            self.order.push_reserved(list);
        }
        Ok(happened)
    }
}

/// How many lists the copies of components of so many models need. Where no state has a bag or a
/// queue, the memory of a copy fits each component, so one list has them all.
pub(crate) fn lists_for(running: &[Running], models: usize) -> usize {
    for component in running {
        if has_collection(component.state.variables.as_slice()) {
            return models;
        }
    }
    1
}

// Whether one of these data is a bag or a queue.
fn has_collection(data: &[Datum]) -> bool {
    for datum in data {
        if let Datum::Held(_) = datum {
            return true;
        }
    }
    false
}
