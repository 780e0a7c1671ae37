//! Links in the order of the ports that they lead from.

ghost use Rattle.std.specs.Prelude.{◌≡◌, ℕ, ◌-◌, ◌<◌, ◌≤◌, [], IfOk, IsTrue, OnOk, drop, filter, length, nat_eq, slice_index_or, take};
ghost use Rattle.std.specs.List.Sorted.{IsNonDecreasingBy};
ghost use Rattle.dv_share.specs.Links.{RiseByPort, RiseBySource, leads_from, links_of};
ghost use Rattle.dv_share.specs.Rows.{AreStarts};

use crate::link::Link;
use crate::run::{ByPort, run_of};
use crate::tally::Tally;
use std::alloc::{AllocError, Global};
use std::marker::Model;

/// Links in the order of the components that they lead from, and those of one component in the
/// order of its ports.
#[derive(Drop)]
pub struct Routes {
    links: Vec<Link>,
    // Where the links of each component begin; the last item is where those of the last one end.
    starts: Vec<usize>,
    // How many links lead to one component at most.
    most: u32,
}

impl Model for Routes {
    ghost use Rattle.std.specs.Prelude.{List};
    ghost use Rattle.dv_conservative.specs.Links.{Link as Meant};
    ghost use Rattle.dv_share.specs.Links.{RiseBySource, links_of};
    ghost use Rattle.dv_share.specs.Rows.{AreStarts};

    ghost Value = { List Meant };

    ghost view = { λ r. links_of r.links.items };

    ghost invariant = { λ r. RiseBySource (links_of r.links.items)
        × AreStarts r.links.items r.starts.items };
}

impl Routes {
    /// Takes links that are in order.
    ///
    /// # Errors
    ///
    /// No memory for the starts of the components' links.
    pub fn new(alloc: Global, links: Vec<Link>) -> Result<Self, AllocError>
        requires { RiseBySource (links_of links.items) }
        ensures { IfOk result (λ routes. routes ≡ links_of links.items) }
    {
        let starts = starts_of(alloc, &links)?;
        let most = most_to_one(alloc, &links)?;
        Ok(Routes {
            links,
            starts,
            most,
        })
    }

    /// How many links lead to one component at most. This is for choices of speed alone.
    #[inline]
    pub(crate) fn most_to_one(&self) -> u32 {
        self.most
    }

    /// Whether there is no link.
    #[inline]
    pub(crate) fn is_empty(&self) -> bool
        ensures { IsTrue result → self.now ≡ [] }
    {
        self.links.is_empty()
    }

    /// For the prover alone: the links are in order.
    pub fn are_in_order(&self)
        ensures { RiseBySource self.now }
    {
        let _ = &self.links;
    }

    /// The links that lead from a component, in the order of its ports.
    #[inline]
    pub fn of_component(&self, component: u32) -> &[Link]
        ensures links { links_of result.now ≡ filter (leads_from component) self.now }
        ensures rise { RiseByPort (links_of result.now) }
    {
        let (first, end) = span_of(&self.links, &self.starts, component);
        &self.links[first..end]
    }
}

// Where the links of a component begin and end.
#[inline]
fn span_of(links: &[Link], starts: &[usize], component: u32) -> (usize, usize)
    requires { AreStarts links.now starts.now }
    ensures order { result.0 ≤ result.1 }
    ensures within { result.1 ≤ length links.now }
    ensures part { take (result.1 - result.0) (drop result.0 links.now)
        ≡ filter (λ (l : Link). nat_eq l.from component) links.now }
{
    let at = component as usize;
    if at + 1 < starts.len() {
        (starts[at], starts[at + 1])
    } else {
        (0, 0)
    }
}

// Where the links of each component begin, up to the last one with links, and where those end.
fn starts_of(alloc: Global, links: &[Link]) -> Result<Vec<usize>, AllocError>
    requires { IsNonDecreasingBy (λ (l : Link). l.from) links.now }
    ensures { IfOk result (λ starts. AreStarts links.now starts.items) }
{
    let mut starts = Vec::new(alloc);
    for (index, link) in links.iter().enumerate() {
        begin_up_to(&mut starts, link.from as usize, index)?;
    }
    starts.push(links.len())?;
    Ok(starts)
}

// How many links lead to one component at most.
fn most_to_one(alloc: Global, links: &[Link]) -> Result<u32, AllocError> {
    let mut tally = Tally::new(alloc);
    let mut most = 0;
    for link in links {
        most = most.max(tally.raise(link.to)?);
    }
    Ok(most)
}

// Gives each component up to this one a start, if it has none yet: the index.
fn begin_up_to(starts: &mut Vec<usize>, component: usize, index: usize) -> Result<(), AllocError>
    ensures grown { OnOk result (component < length starts.new.items) }
    ensures kept { OnOk result (length starts.old.items ≤ length starts.new.items) }
    ensures same { OnOk result ((c : ℕ) → c < length starts.old.items
        → slice_index_or starts.new.items c 0 ≡ slice_index_or starts.old.items c 0) }
    ensures begun { OnOk result ((c : ℕ) → length starts.old.items ≤ c
        → c < length starts.new.items
        → (c ≤ component) × (slice_index_or starts.new.items c 0 ≡ index)) }
{
    while starts.len() <= component {
        starts.push(index)?;
    }
    Ok(())
}

/// Links from the outside in the order of its ports.
#[derive(Drop)]
pub struct Entrances {
    links: Vec<Link>,
}

impl Model for Entrances {
    ghost use Rattle.std.specs.Prelude.{List};
    ghost use Rattle.dv_conservative.specs.Links.{Link as Meant};
    ghost use Rattle.dv_share.specs.Links.{RiseByPort, links_of};

    ghost Value = { List Meant };

    ghost view = { λ e. links_of e.links.items };

    ghost invariant = { λ e. RiseByPort (links_of e.links.items) };
}

impl Entrances {
    /// Takes links that are in order.
    pub fn new(links: Vec<Link>) -> Self
        requires { RiseByPort (links_of links.items) }
        ensures { result ≡ links_of links.items }
    {
        Entrances { links }
    }

    /// All links, in the order of the ports that they lead from.
    pub fn as_slice(&self) -> &[Link]
        ensures links { links_of result.now ≡ self.now }
        ensures rise { RiseByPort (links_of result.now) }
    {
        self.links.as_slice()
    }
}

/// The links that lead from a port, of links in the order of their ports.
#[inline]
pub fn links_at(links: &[Link], port: usize) -> &[Link]
    requires { RiseByPort (links_of links.now) }
    ensures { links_of result.now ≡ filter (λ l. nat_eq l.from_port port) (links_of links.now) }
{
    run_of::<ByPort, Link>(links, port)
}
