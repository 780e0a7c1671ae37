//! Sets of links.

ghost use Rattle.std.specs.Prelude.{◌≡◌, not, IfOk, OnOk};
ghost use Rattle.dv_check.specs.LinkSets.{end_key_of, has_link, key_of, no_link, with_link};

use dv_syntax::{End, Link};
use std::alloc::{AllocError, Global};
use std::collections::HashSet;

/// An end of a link by the numbers of its names.
#[derive(Clone, Copy, PartialEq, Eq, Hash)]
pub struct EndKey {
    /// The number of the part's name; none for the model itself.
    pub part: Option<u32>,
    /// The number of the port's name.
    pub port: u32,
}

/// A link by the numbers of its names.
#[derive(Clone, Copy, PartialEq, Eq, Hash)]
pub struct LinkKey {
    /// Where the link begins.
    pub from: EndKey,
    /// Where the link ends.
    pub to: EndKey,
}

impl LinkKey {
    fn of(link: &Link) -> Self
        ensures { result ≡ key_of link.now }
    {
        LinkKey {
            from: EndKey::of(&link.from),
            to: EndKey::of(&link.to),
        }
    }
}

impl EndKey {
    fn of(end: &End) -> Self
        ensures { result ≡ end_key_of end.now }
    {
        let part = match end.part {
            Some(name) => Some(name.number),
            None => None,
        };
        EndKey {
            part,
            port: end.port.number,
        }
    }
}

/// A set of links. Links with the same names are equal.
#[derive(Drop)]
pub struct LinkSet {
    keys: HashSet<LinkKey>,
}

#[tactic(auto, unfolding(crate::specs::LinkSets::has_link, crate::specs::LinkSets::no_link, crate::specs::LinkSets::with_link))]
impl LinkSet {
    /// The empty set.
    pub fn new(alloc: Global) -> Self
        ensures { has_link result ≡ no_link }
    {
        LinkSet {
            keys: HashSet::new(alloc),
        }
    }

    /// Adds a link, and returns whether it is new.
    pub fn insert(&mut self, link: &Link) -> Result<bool, AllocError>
        ensures new { IfOk result (λ is_new. is_new ≡ not (has_link self.old link.now)) }
        ensures added { OnOk result (has_link self.new ≡ with_link (has_link self.old) link.now) }
    {
        let is_new = self.keys.insert(LinkKey::of(link))?;
        Ok(is_new)
    }
}
