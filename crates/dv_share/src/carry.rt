//! What links carry.

ghost use Rattle.std.specs.Prelude.{◌≡◌, ◌++◌, IfOk, length, reverse};
ghost use Rattle.dv_conservative.specs.Links.{carried, carried_by};
ghost use Rattle.dv_conservative.specs.Events.{in_order};
ghost use Rattle.dv_share.specs.Links.{RiseByPort, deliveries_of, delivery_of, link_of, links_of, pairs_of};
ghost use Rattle.dv_share.specs.Indices.{AreRising};
ghost use Rattle.dv_share.specs.Rows.{AreSorted, carried_each, joined_before, rows};
ghost use Rattle.dv_share.specs.Share.{StandByIndex, numbers_of, sent_in};

use crate::index::Indexed;
use crate::link::{Delivery, Link};
use crate::routes::{Entrances, Routes, links_at};
use crate::run::{ByPort, run_end};
use crate::tables::Member;
use dv_bag::sent::Sending;
use dv_bag::{Bag, Bags, Fault, Sent};
use std::alloc::{AllocError, Global};

/// Appends what links carry of what was emitted.
///
/// # Errors
///
/// No memory for the deliveries.
#[inline(always)]
pub fn carry_emitted(
    deliveries: &mut Vec<Delivery>,
    members: &[Member],
    links: &Routes,
    emitted: &[Indexed<Result<Sent, Fault>>],
) -> Result<(), AllocError>
    requires numbers { AreRising (numbers_of members.now) }
    requires emitted { StandByIndex (length members.now) emitted.now }
    ensures { IfOk result (λ _. deliveries_of deliveries.new.items
        ≡ deliveries_of deliveries.old.items
        ++ carried links.now (sent_in members.now emitted.now)) }
{
    if links.is_empty() {
        return Ok(());
    }
    // For the prover alone.
    links.are_in_order();
    carry_rows(deliveries, members, links, emitted)
}

// `carry_emitted`, emission by emission.
fn carry_rows(
    deliveries: &mut Vec<Delivery>,
    members: &[Member],
    links: &Routes,
    emitted: &[Indexed<Result<Sent, Fault>>],
) -> Result<(), AllocError>
    requires emitted { StandByIndex (length members.now) emitted.now }
    ensures { IfOk result (λ _. deliveries_of deliveries.new.items
        ≡ deliveries_of deliveries.old.items ++ rows members.now links.now emitted.now) }
{
    for emission in emitted {
        if let Ok(sent) = &emission.what {
            let number = members[emission.index as usize].number;
            carry_row(deliveries, links.of_component(number), sent)?;
        }
    }
    Ok(())
}

// Appends what the links of a component carry of what it sends. Only the links from ports at which
// it sends are looked at.
fn carry_row(deliveries: &mut Vec<Delivery>, links: &[Link], sent: &Sent) -> Result<(), AllocError>
    requires { RiseByPort (links_of links.now) }
    ensures { IfOk result (λ _. deliveries_of deliveries.new.items
        ≡ deliveries_of deliveries.old.items ++ carried (links_of links.now) (λ k. sent.now)) }
{
    if links.is_empty() {
        return Ok(());
    }
    let sendings = sent.as_slice();
    let mut start = 0;
    while start < sendings.len() {
        let port = sendings[start].port;
        let end = run_end::<ByPort, _>(sendings, start, port);
        carry_port(deliveries, links_at(links, port), &sendings[start..end])?;
        start = end;
    }
    Ok(())
}

// Appends what the links from one port carry of what is sent there.
fn carry_port(
    deliveries: &mut Vec<Delivery>,
    links: &[Link],
    sendings: &[Sending],
) -> Result<(), AllocError>
    ensures { IfOk result (λ _. deliveries_of deliveries.new.items
        ≡ deliveries_of deliveries.old.items
        ++ carried_each (links_of links.now) (pairs_of sendings.now)) }
{
    for link in links {
        carry_sendings(deliveries, link, sendings)?;
    }
    Ok(())
}

// Appends what a link carries of what is sent at its port.
fn carry_sendings(
    deliveries: &mut Vec<Delivery>,
    link: &Link,
    sendings: &[Sending],
) -> Result<(), AllocError>
    ensures { IfOk result (λ _. deliveries_of deliveries.new.items
        ≡ deliveries_of deliveries.old.items
        ++ carried_by (link_of link.now) (pairs_of sendings.now)) }
{
    for sending in sendings {
        deliveries.push(link.delivery(sending.value, sending.copies))?;
    }
    Ok(())
}

/// Appends what entry links carry of what comes from outside. Only the links from input ports of
/// the root with values are looked at.
///
/// # Errors
///
/// No memory for the deliveries.
pub fn carry_outside(
    deliveries: &mut Vec<Delivery>,
    links: &Entrances,
    outside: &Bags,
) -> Result<(), AllocError>
    ensures { IfOk result (λ _. deliveries_of deliveries.new.items
        ≡ deliveries_of deliveries.old.items ++ carried links.now (λ k. outside.now)) }
{
    let links = links.as_slice();
    for held in outside.held() {
        carry_held(deliveries, links_at(links, held.port), &held.bag)?;
    }
    Ok(())
}

// Appends what the links from one port carry of its bag.
fn carry_held(deliveries: &mut Vec<Delivery>, links: &[Link], bag: &Bag) -> Result<(), AllocError>
    ensures { IfOk result (λ _. deliveries_of deliveries.new.items
        ≡ deliveries_of deliveries.old.items ++ carried_each (links_of links.now) bag.now) }
{
    for link in links {
        carry_bag(deliveries, link, bag)?;
    }
    Ok(())
}

// Appends what a link carries of a bag.
fn carry_bag(deliveries: &mut Vec<Delivery>, link: &Link, bag: &Bag) -> Result<(), AllocError>
    ensures { IfOk result (λ _. deliveries_of deliveries.new.items
        ≡ deliveries_of deliveries.old.items ++ carried_by (link_of link.now) bag.now) }
{
    for pair in bag.pairs() {
        deliveries.push(link.delivery(pair.0, pair.1))?;
    }
    Ok(())
}

/// What links to another process carry of what was emitted, in the order of components, ports and
/// values. Deliveries of one value for one port are united; none is without copies.
///
/// # Errors
///
/// No memory for the deliveries.
pub fn away(
    alloc: Global,
    members: &[Member],
    links: &Routes,
    emitted: &[Indexed<Result<Sent, Fault>>],
) -> Result<Vec<Delivery>, AllocError>
    requires numbers { AreRising (numbers_of members.now) }
    requires emitted { StandByIndex (length members.now) emitted.now }
    ensures { IfOk result (λ ds. deliveries_of ds.items
        ≡ in_order (carried links.now (sent_in members.now emitted.now))) }
{
    let mut deliveries = Vec::new(alloc);
    carry_emitted(&mut deliveries, members, links, emitted)?;
    deliveries.sort_unstable();
    unite(alloc, &deliveries)
}

// Unites sorted deliveries of one value for one port. It goes from the last to the first, and then
// reverses the list.
fn unite(alloc: Global, sorted: &[Delivery]) -> Result<Vec<Delivery>, AllocError>
    requires { AreSorted sorted.now }
    ensures { IfOk result (λ ds. deliveries_of ds.items ≡ in_order (deliveries_of sorted.now)) }
{
    let mut united = Vec::with_capacity(alloc, sorted.len())?;
    let mut index = sorted.len();
    while index > 0 {
        index -= 1;
        let delivery = &sorted[index];
        if delivery.copies > 0 {
            put_before(&mut united, delivery)?;
        }
    }
    united.reverse();
    Ok(united)
}

// Adds a delivery in front of a list that is kept in reverse order.
fn put_before(united: &mut Vec<Delivery>, delivery: &Delivery) -> Result<(), AllocError>
    ensures { IfOk result (λ _. reverse (deliveries_of united.new.items)
        ≡ joined_before (delivery_of delivery.now) (reverse (deliveries_of united.old.items))) }
{
    match united.pop() {
        None => united.push(*delivery)?,
        Some(mut next) => {
            if next.is_with(delivery) {
                next.copies = delivery.copies.saturating_add(next.copies);
                united.push(next)?;
            } else {
                united.push(next)?;
                united.push(*delivery)?;
            }
        }
    }
    Ok(())
}
