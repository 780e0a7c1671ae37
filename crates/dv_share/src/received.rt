//! What arrives at the components of a share at an instant, by index.

ghost use Rattle.std.specs.Prelude.{◌≡◌, ℕ, ◌++◌, ◌∷◌, ◌<◌, ◌≤◌, List, [], IsPermutation, IsTrue, OnOk, Some};
ghost use Rattle.std.specs.Prelude.{length, map, replicate, slice_get, slice_index_or};
ghost use Rattle.std.specs.List.{All};
ghost use Rattle.std.specs.List.Sorted.{IsNonDecreasing};
ghost use Rattle.dv_conservative.specs.Links.{Delivery as Meant, carried, carried_by};
ghost use Rattle.dv_share.specs.Links.{RiseByPort, deliveries_of, delivery_of, link_of, links_of, pairs_of};
ghost use Rattle.dv_share.specs.Indices.{AreRising, is_in, indices_of};
ghost use Rattle.dv_share.specs.Received.{AreGathered, HasTaken, IsReady, met_of, with_delivery_at, with_index};
ghost use Rattle.dv_share.specs.Rows.{carried_each, rows};
ghost use Rattle.dv_share.specs.Share.{AreAmong, AreReceived, AreTouched, StandByIndex, numbers_of, sent_in};

use crate::index::Indexed;
use crate::link::{Delivery, Link};
use crate::routes::{Routes, links_at};
use crate::run::{ByPort, run_end};
use crate::tables::{Member, distance, searched_index, stands_at};
use crate::tally::Tally;
use dv_bag::sent::Sending;
use dv_bag::{Bags, Fault, Sent};
use std::alloc::{AllocError, Global};
use std::marker::Model;
use std::mem;

// If one of so many components is met, many are.
const DENSE: usize = 8;

/// What arrives at the component at an index. It is met if a value arrives there or the component
/// emitted something.
#[derive(Drop)]
pub(crate) struct Receipt {
    pub indexed: Indexed<Bags>,
    pub is_met: bool,
}

/// What arrives at components at an instant: the bags of those that receive a value or emitted
/// something, in the order of their indices. The memory is used again at the next instant.
#[derive(Drop)]
pub struct Received {
    // By index.
    receipts: Vec<Receipt>,
    // The indices of the receipts that are met.
    indices: Vec<u32>,
    // Room to order them.
    spare: Vec<u32>,
    tally: Tally,
    alloc: Global,
}

impl Model for Received {
    ghost use Rattle.std.specs.Prelude.{length};
    ghost use Rattle.dv_share.specs.Received.{AreMet, ReceivedOf, indexed_at};

    ghost Value = { ReceivedOf };

    ghost view = { λ r. record {
      room = length r.receipts.items;
      items = indexed_at r.receipts.items r.indices.items;
    } };

    ghost invariant = { λ r. AreMet r.receipts.items r.indices.items };
}

impl Received {
    /// No arrivals. It takes no memory yet.
    pub fn new(alloc: Global) -> Self
        ensures { result.items ≡ [] }
    {
        Received {
            receipts: Vec::new(alloc),
            indices: Vec::new(alloc),
            spare: Vec::new(alloc),
            tally: Tally::new(alloc),
            alloc,
        }
    }

    /// How many components receive a value or emitted something.
    #[inline]
    pub fn len(&self) -> usize
        ensures { result ≡ length self.now.items }
    {
        self.indices.len()
    }

    /// What arrives at one of them, counted from 0 in the order of their indices.
    #[inline]
    pub fn at(&self, index: usize) -> &Indexed<Bags>
        requires { index < length self.now.items }
        ensures { slice_get self.now.items index ≡ Some result.now }
    {
        &self.receipts[self.indices[index] as usize].indexed
    }

    /// Sorts deliveries if there are many for one component: then each value goes to the end of its
    /// bag. If there are few, to insert them into the bags as they come costs less.
    ///
    /// # Errors
    ///
    /// No memory to count them.
    pub(crate) fn put_many_in_order(
        &mut self,
        deliveries: &mut Vec<Delivery>,
    ) -> Result<(), AllocError>
        ensures { IsPermutation deliveries.old.items deliveries.new.items }
    {
        if !self.tally.are_few(deliveries)? {
            deliveries.sort_unstable();
        }
        Ok(())
    }

    /// Replaces all arrivals by those of deliveries, with an index also for each component that
    /// emitted something.
    ///
    /// # Errors
    ///
    /// No memory for the bags.
    pub(crate) fn gather(
        &mut self,
        members: &[Member],
        emitted: &[Indexed<Result<Sent, Fault>>],
        deliveries: &[Delivery],
    ) -> Result<(), AllocError>
        requires numbers { AreRising (numbers_of members.now) }
        requires emitted { StandByIndex (length members.now) emitted.now }
        ensures received { OnOk result
            (AreReceived members.now (deliveries_of deliveries.now) self.new.items) }
        ensures among { OnOk result (AreAmong (indices_of emitted.now) (indices_of self.new.items)) }
        ensures touched { OnOk result (AreTouched (indices_of emitted.now) self.new.items) }
    {
        self.clear();
        self.make_room(members)?;
        self.meet_all(members, emitted)?;
        self.deliver_all(members, deliveries)?;
        self.put_in_order()?;
        Ok(())
    }

    /// Replaces all arrivals by those of what links carry of what was emitted, with an index also
    /// for each component that emitted something. What links carry goes into the bags as it comes,
    /// so this is for few values of each component.
    ///
    /// # Errors
    ///
    /// No memory for the bags.
    pub(crate) fn gather_inside(
        &mut self,
        members: &[Member],
        links: &Routes,
        emitted: &[Indexed<Result<Sent, Fault>>],
    ) -> Result<(), AllocError>
        requires numbers { AreRising (numbers_of members.now) }
        requires emitted { StandByIndex (length members.now) emitted.now }
        ensures received { OnOk result (AreReceived members.now
            (carried links.now (sent_in members.now emitted.now)) self.new.items) }
        ensures among { OnOk result (AreAmong (indices_of emitted.now) (indices_of self.new.items)) }
        ensures touched { OnOk result (AreTouched (indices_of emitted.now) self.new.items) }
    {
        // For the prover alone.
        links.are_in_order();
        self.clear();
        self.make_room(members)?;
        self.meet_all(members, emitted)?;
        self.deliver_emitted(members, links, emitted)?;
        self.put_in_order()?;
        Ok(())
    }

    /// Replaces all arrivals by those of deliveries from outside, of what links carry of what was
    /// emitted, and of deliveries from other processes. There is an index also for each component
    /// that emitted something. What links carry goes into the bags as it comes, so this is for few
    /// values of each component.
    ///
    /// # Errors
    ///
    /// No memory for the bags.
    pub(crate) fn gather_along(
        &mut self,
        members: &[Member],
        links: &Routes,
        emitted: &[Indexed<Result<Sent, Fault>>],
        entered: &[Delivery],
        deliveries: &[Delivery],
    ) -> Result<(), AllocError>
        requires numbers { AreRising (numbers_of members.now) }
        requires emitted { StandByIndex (length members.now) emitted.now }
        ensures received { OnOk result (AreReceived members.now (deliveries_of entered.now
            ++ (carried links.now (sent_in members.now emitted.now)
            ++ deliveries_of deliveries.now)) self.new.items) }
        ensures among { OnOk result (AreAmong (indices_of emitted.now) (indices_of self.new.items)) }
        ensures touched { OnOk result (AreTouched (indices_of emitted.now) self.new.items) }
    {
        // For the prover alone.
        links.are_in_order();
        self.clear();
        self.make_room(members)?;
        self.meet_all(members, emitted)?;
        self.deliver_all(members, entered)?;
        self.deliver_emitted(members, links, emitted)?;
        self.deliver_all(members, deliveries)?;
        self.put_in_order()?;
        Ok(())
    }

    // Discards all arrivals. The bags stay until their index is met again.
    #[inline(always)]
    fn clear(&mut self)
        ensures { self.new.items ≡ [] }
    {
        while let Some(index) = self.indices.pop() {
            self.receipts[index as usize].is_met = false;
        }
    }

    // Makes a receipt for each component of a share.
    #[inline(always)]
    fn make_room(&mut self, members: &[Member]) -> Result<(), AllocError>
        requires numbers { AreRising (numbers_of members.now) }
        ensures room { OnOk result (length members.now ≤ self.new.room) }
        ensures items { self.new.items ≡ self.old.items }
    {
        while self.receipts.len() < members.len() {
            let index = index_as_number(members, self.receipts.len());
            let what = Bags::empty(self.alloc, 0);
            self.receipts.push(Receipt {
                indexed: Indexed { index, what },
                is_met: false,
            })?;
        }
        Ok(())
    }

    // Meets each component that emitted something.
    #[inline(always)]
    fn meet_all(
        &mut self,
        members: &[Member],
        emitted: &[Indexed<Result<Sent, Fault>>],
    ) -> Result<(), AllocError>
        requires emitted { StandByIndex (length members.now) emitted.now }
        requires room { length members.now ≤ self.old.room }
        ensures room { self.new.room ≡ self.old.room }
        ensures gathered { OnOk result ((ds : List Meant)
            → AreGathered members.now ds self.old.items
            → AreGathered members.now ds self.new.items) }
        ensures among { OnOk result (AreAmong (indices_of emitted.now) (indices_of self.new.items)) }
        ensures touched { OnOk result (AreTouched (indices_of emitted.now) self.old.items
            → AreTouched (indices_of emitted.now) self.new.items) }
    {
        for emission in emitted {
            let inputs = members[emission.index as usize].inputs;
            self.meet(emission.index, inputs)?;
        }
        Ok(())
    }

    // Meets a component with so many input ports, if it is not met yet. This is called for each
    // delivery, and mostly it is.
    #[inline(always)]
    fn meet(&mut self, index: u32, inputs: u32) -> Result<(), AllocError>
        requires { index < self.old.room }
        ensures room { self.new.room ≡ self.old.room }
        ensures met { OnOk result (self.new.items ≡ with_index index inputs self.old.items) }
    {
        if self.receipts[index as usize].is_met {
            return Ok(());
        }
        self.indices.push(index)?;
        let receipt = &mut self.receipts[index as usize];
        receipt.is_met = true;
        put_none(self.alloc, inputs as usize, &mut receipt.indexed.what);
        Ok(())
    }

    // Puts deliveries into the bags, one after the other.
    fn deliver_all(&mut self, members: &[Member], deliveries: &[Delivery]) -> Result<(), AllocError>
        requires numbers { AreRising (numbers_of members.now) }
        requires room { length members.now ≤ self.old.room }
        requires gathered { (ds : List Meant) × AreGathered members.now ds self.old.items }
        ensures room { OnOk result (self.new.room ≡ self.old.room) }
        ensures gathered { OnOk result ((ds : List Meant)
            → AreGathered members.now ds self.old.items
            → AreGathered members.now (ds ++ deliveries_of deliveries.now) self.new.items) }
        ensures among { OnOk result (AreAmong (indices_of self.old.items)
            (indices_of self.new.items)) }
        ensures touched { OnOk result ((ps : List ℕ) → AreTouched ps self.old.items
            → AreTouched ps self.new.items) }
    {
        for delivery in deliveries {
            self.deliver(members, delivery)?;
        }
        Ok(())
    }

    // Puts what links carry of what was emitted into the bags.
    #[inline(always)]
    fn deliver_emitted(
        &mut self,
        members: &[Member],
        links: &Routes,
        emitted: &[Indexed<Result<Sent, Fault>>],
    ) -> Result<(), AllocError>
        requires numbers { AreRising (numbers_of members.now) }
        requires emitted { StandByIndex (length members.now) emitted.now }
        requires ready { IsReady members.now self.old }
        ensures { OnOk result (HasTaken members.now (rows members.now links.now emitted.now)
            self.old self.new) }
    {
        if links.is_empty() {
            return Ok(());
        }
        self.deliver_rows(members, links, emitted)
    }

    // Puts what links carry of what was emitted into the bags, emission by emission.
    #[inline(never)]
    fn deliver_rows(
        &mut self,
        members: &[Member],
        links: &Routes,
        emitted: &[Indexed<Result<Sent, Fault>>],
    ) -> Result<(), AllocError>
        requires numbers { AreRising (numbers_of members.now) }
        requires emitted { StandByIndex (length members.now) emitted.now }
        requires ready { IsReady members.now self.old }
        ensures { OnOk result (HasTaken members.now (rows members.now links.now emitted.now)
            self.old self.new) }
    {
        for emission in emitted {
            if let Ok(sent) = &emission.what {
                let number = members[emission.index as usize].number;
                self.deliver_row(members, links.of_component(number), sent)?;
            }
        }
        Ok(())
    }

    // Puts what the links of a component carry of what it sends into the bags. Only the links from
    // ports at which it sends are looked at.
    #[inline]
    fn deliver_row(
        &mut self,
        members: &[Member],
        links: &[Link],
        sent: &Sent,
    ) -> Result<(), AllocError>
        requires numbers { AreRising (numbers_of members.now) }
        requires rise { RiseByPort (links_of links.now) }
        requires ready { IsReady members.now self.old }
        ensures { OnOk result (HasTaken members.now
            (carried (links_of links.now) (λ k. sent.now)) self.old self.new) }
    {
        if links.is_empty() {
            return Ok(());
        }
        let sendings = sent.as_slice();
        // Mostly one value is sent.
        if sendings.len() == 1 {
            let only = sendings[0];
            return self.deliver_one(members, links_at(links, only.port), only);
        }
        let mut start = 0;
        while start < sendings.len() {
            let port = sendings[start].port;
            let end = run_end::<ByPort, _>(sendings, start, port);
            self.deliver_port(members, links_at(links, port), &sendings[start..end])?;
            start = end;
        }
        Ok(())
    }

    // Puts what the links from one port carry of what is sent there into the bags.
    #[inline(never)]
    fn deliver_port(
        &mut self,
        members: &[Member],
        links: &[Link],
        sendings: &[Sending],
    ) -> Result<(), AllocError>
        requires numbers { AreRising (numbers_of members.now) }
        requires ready { IsReady members.now self.old }
        ensures { OnOk result (HasTaken members.now
            (carried_each (links_of links.now) (pairs_of sendings.now)) self.old self.new) }
    {
        if sendings.len() == 1 {
            return self.deliver_one(members, links, sendings[0]);
        }
        for link in links {
            self.deliver_sendings(members, link, sendings)?;
        }
        Ok(())
    }

    // Puts what the links from one port carry of one value into the bags.
    #[inline(always)]
    fn deliver_one(
        &mut self,
        members: &[Member],
        links: &[Link],
        sending: Sending,
    ) -> Result<(), AllocError>
        requires numbers { AreRising (numbers_of members.now) }
        requires ready { IsReady members.now self.old }
        ensures { OnOk result (HasTaken members.now
            (carried_each (links_of links.now) ((sending.value, sending.copies) ∷ []))
            self.old self.new) }
    {
        for link in links {
            self.deliver(members, &link.delivery(sending.value, sending.copies))?;
        }
        Ok(())
    }

    // Puts what a link carries of what is sent at its port into the bags.
    #[inline(never)]
    fn deliver_sendings(
        &mut self,
        members: &[Member],
        link: &Link,
        sendings: &[Sending],
    ) -> Result<(), AllocError>
        requires numbers { AreRising (numbers_of members.now) }
        requires ready { IsReady members.now self.old }
        ensures { OnOk result (HasTaken members.now
            (carried_by (link_of link.now) (pairs_of sendings.now)) self.old self.new) }
    {
        for sending in sendings {
            self.deliver(members, &link.delivery(sending.value, sending.copies))?;
        }
        Ok(())
    }

    // Puts a delivery into its bag. One without copies, or for no port of these components, brings
    // nothing.
    #[inline(always)]
    fn deliver(&mut self, members: &[Member], delivery: &Delivery) -> Result<(), AllocError>
        requires numbers { AreRising (numbers_of members.now) }
        requires room { length members.now ≤ self.old.room }
        requires gathered { (ds : List Meant) × AreGathered members.now ds self.old.items }
        ensures room { self.new.room ≡ self.old.room }
        ensures gathered { OnOk result ((ds : List Meant)
            → AreGathered members.now ds self.old.items
            → AreGathered members.now (ds ++ delivery_of delivery.now ∷ []) self.new.items) }
        ensures among { OnOk result (AreAmong (indices_of self.old.items)
            (indices_of self.new.items)) }
        ensures touched { OnOk result ((ps : List ℕ) → AreTouched ps self.old.items
            → AreTouched ps self.new.items) }
    {
        if delivery.copies == 0 {
            return Ok(());
        }
        let near = distance(members, delivery.component);
        if stands_at(members, near, delivery.component) {
            return self.deliver_at(members, near, delivery);
        }
        self.deliver_far(members, *delivery)
    }

    // Puts a delivery with copies into its bag, if the component is not where it is mostly.
    #[inline(never)]
    fn deliver_far(&mut self, members: &[Member], delivery: Delivery) -> Result<(), AllocError>
        requires numbers { AreRising (numbers_of members.now) }
        requires room { length members.now ≤ self.old.room }
        requires gathered { (ds : List Meant) × AreGathered members.now ds self.old.items }
        requires some { 0 < delivery.copies }
        ensures room { self.new.room ≡ self.old.room }
        ensures gathered { OnOk result ((ds : List Meant)
            → AreGathered members.now ds self.old.items
            → AreGathered members.now (ds ++ delivery_of delivery ∷ []) self.new.items) }
        ensures among { OnOk result (AreAmong (indices_of self.old.items)
            (indices_of self.new.items)) }
        ensures touched { OnOk result ((ps : List ℕ) → AreTouched ps self.old.items
            → AreTouched ps self.new.items) }
    {
        match searched_index(members, delivery.component) {
            Some(index) => self.deliver_at(members, index, &delivery),
            None => Ok(()),
        }
    }

    // Puts a delivery with copies into its bag at the index of its component. One for no port brings
    // nothing.
    #[inline(always)]
    fn deliver_at(
        &mut self,
        members: &[Member],
        index: usize,
        delivery: &Delivery,
    ) -> Result<(), AllocError>
        requires numbers { AreRising (numbers_of members.now) }
        requires room { length members.now ≤ self.old.room }
        requires gathered { (ds : List Meant) × AreGathered members.now ds self.old.items }
        requires some { 0 < delivery.now.copies }
        requires within { index < length members.now }
        requires here { (d : Member)
            → (slice_index_or members.now index d).number ≡ delivery.now.component }
        ensures room { self.new.room ≡ self.old.room }
        ensures gathered { OnOk result ((ds : List Meant)
            → AreGathered members.now ds self.old.items
            → AreGathered members.now (ds ++ delivery_of delivery.now ∷ []) self.new.items) }
        ensures among { OnOk result (AreAmong (indices_of self.old.items)
            (indices_of self.new.items)) }
        ensures touched { OnOk result ((ps : List ℕ) → AreTouched ps self.old.items
            → AreTouched ps self.new.items) }
    {
        let inputs = members[index].inputs;
        if delivery.port >= inputs {
            return Ok(());
        }
        let index = index_as_number(members, index);
        self.meet(index, inputs)?;
        self.put(index, delivery)
    }

    // Puts a delivery into the bags of an index that is met.
    #[inline]
    fn put(&mut self, index: u32, delivery: &Delivery) -> Result<(), AllocError>
        requires met { IsTrue (is_in index (indices_of self.old.items)) }
        requires ports { All (λ x. x.index ≡ index → delivery.now.port < length x.what)
            self.old.items }
        ensures room { self.new.room ≡ self.old.room }
        ensures put { OnOk result (self.new.items
            ≡ map (with_delivery_at index (delivery_of delivery.now)) self.old.items) }
    {
        delivery.put(&mut self.receipts[index as usize].indexed.what)
    }

    // Whether a walk over all receipts takes less time than to sort the indices: many are met.
    fn is_walk_faster(&self) -> bool {
        self.indices.len() >= self.receipts.len() / DENSE
    }

    // Puts the indices in order.
    //
    // # Errors
    //
    // No memory for a second list. The order is unchanged.
    #[inline(always)]
    fn put_in_order(&mut self) -> Result<(), AllocError>
        ensures rise { OnOk result (AreRising (indices_of self.new.items)) }
        ensures same { OnOk result (IsPermutation self.old.items self.new.items) }
    {
        if are_in_order(&self.indices) {
            return Ok(());
        }
        if !self.is_walk_faster() {
            self.indices.sort_unstable();
            return Ok(());
        }
        put_met(&mut self.spare, &self.receipts)?;
        mem::swap(&mut self.indices, &mut self.spare);
        Ok(())
    }
}

// Whether no index is before a smaller one.
#[inline]
fn are_in_order(indices: &[u32]) -> bool
    ensures { IsTrue result → IsNonDecreasing indices.now }
{
    for index in 1..indices.len() {
        if indices[index] < indices[index - 1] {
            return false;
        }
    }
    true
}

// Replaces `indices` by those of the receipts that are met, in the order of the receipts.
#[inline]
fn put_met(indices: &mut Vec<u32>, receipts: &[Receipt]) -> Result<(), AllocError>
    ensures { OnOk result (indices.new.items ≡ met_of receipts.now) }
{
    indices.clear();
    for receipt in receipts {
        if receipt.is_met {
            indices.push(receipt.indexed.index)?;
        }
    }
    Ok(())
}

// An index as a number of 32 bits. None is too great: no component's number is less than its index.
#[inline]
fn index_as_number(members: &[Member], index: usize) -> u32
    requires numbers { AreRising (numbers_of members.now) }
    requires within { index < length members.now }
    ensures { result ≡ index }
{
    let greatest = members[index].number;
    u32::try_from(index).unwrap_or(greatest)
}

// Replaces bags by empty ones for so many ports.
#[inline(always)]
fn put_none(alloc: Global, ports: usize, bags: &mut Bags)
    ensures { bags.new ≡ replicate ports [] }
{
    if !is_blank(bags, ports) {
        put_empty(alloc, ports, bags);
    }
}

// Replaces bags, whatever they are, by empty ones for so many ports.
#[inline(never)]
fn put_empty(alloc: Global, ports: usize, bags: &mut Bags)
    ensures { bags.new ≡ replicate ports [] }
{
    *bags = Bags::empty(alloc, ports);
}

// Whether there are bags for so many ports, all of them empty.
#[inline(always)]
fn is_blank(bags: &Bags, ports: usize) -> bool
    ensures { IsTrue result → bags.now ≡ replicate ports [] }
{
    bags.len() == ports && bags.is_empty()
}
