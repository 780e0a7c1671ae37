//! Bags by port.

ghost use Rattle.std.specs.List.{list_all};
ghost use Rattle.std.specs.Prelude.{◌≡◌, ◌<◌, ◌≤◌, ℕ, [], insert, length, nat_eq, nat_le, replicate, slice_set, unwrap_or};
ghost use Rattle.std.specs.Prelude.{IfErr, IfOk, IsTrue, OnErr, OnOk};
ghost use Rattle.std.specs.Option.{option_copied};
ghost use Rattle.smallvec.specs.SmallVec.{small_vec_len};
ghost use Rattle.dv_bag.specs.Arrivals.{AreFew};
ghost use Rattle.dv_bag.specs.Bag.{bag_at, size, size_of_all, union, with_copies};
ghost use Rattle.dv_bag.specs.Bags.{AreWithin, GoesInAt, RiseFrom, StandsAt, by_port};
ghost use Rattle.dv_bag.specs.Limits.{greatest_count};

use crate::GREATEST_COUNT;
use crate::bag::Bag;
use crate::put::put;
use smallvec::SmallVec;
use std::alloc::{AllocError, Global};
use std::default::MadeWith;
use std::marker::Model;

/// The bag of one port.
#[derive(Drop)]
pub struct PortBag {
    /// The index of the port.
    pub port: usize,
    /// The values at the port.
    pub bag: Bag,
}

impl MadeWith<Global> for PortBag {
    fn made_with(alloc: Global) -> Self {
        PortBag {
            port: 0,
            bag: Bag::new(alloc),
        }
    }
}

impl Clone for PortBag {
    ghost is_clone = { λ b c. c ≡ b };

    fn clone(&self) -> Result<Self, AllocError> {
        Ok(PortBag {
            port: self.port,
            bag: self.bag.clone()?,
        })
    }
}

/// A bag for each port. Empty bags take neither memory nor time, and up to two bags with values are
/// stored inline.
#[derive(Drop)]
pub struct Bags {
    ports: usize,
    held: SmallVec<PortBag, 2>,
}

impl Model for Bags {
    ghost use Rattle.std.specs.Prelude.{List};
    ghost use Rattle.dv_bag.specs.Bag.{Counts};
    ghost use Rattle.dv_bag.specs.Bags.{AreWithin, RiseFrom, by_port};

    ghost Value = { List Counts };

    ghost view = { λ b. by_port b.ports b.held.items };

    ghost invariant = { λ b. AreWithin b.ports b.held.items × RiseFrom 0 b.held.items };
}

impl Bags {
    /// An empty bag for each of `ports` ports. It takes no memory.
    pub fn empty(alloc: Global, ports: usize) -> Self
        ensures { result ≡ replicate ports [] }
    {
        Bags {
            ports,
            held: SmallVec::new(alloc),
        }
    }

    /// The number of ports.
    pub fn len(&self) -> usize
        ensures { result ≡ length self.now }
    {
        self.ports
    }

    /// Whether all bags are empty.
    pub fn is_empty(&self) -> bool
        ensures none { IsTrue result → (port : ℕ) → bag_at self.now port ≡ [] }
        ensures size { result ≡ nat_eq (size_of_all self.now) 0 }
    {
        self.held.is_empty()
    }

    /// Whether there are at most `GREATEST_COUNT` values at each port.
    pub fn are_few(&self) -> bool
        ensures sizes { result ≡ list_all (λ b. nat_le (size b) greatest_count) self.now }
        ensures few { IsTrue result → AreFew self.now }
    {
        all_few(self.held.as_slice())
    }

    /// The bag of a port, if it has values.
    #[inline]
    pub fn get(&self, port: usize) -> Option<&Bag>
        ensures { unwrap_or (option_copied result) [] ≡ bag_at self.now port }
    {
        match search(self.held.as_slice(), port) {
            Ok(index) => Some(&self.held[index].bag),
            Err(_) => None,
        }
    }

    /// The bags with values, in the order of their ports. All other bags are empty.
    pub fn held(&self) -> &[PortBag]
        ensures all { by_port (length self.now) result.now ≡ self.now }
        ensures within { AreWithin (length self.now) result.now }
        ensures order { RiseFrom 0 result.now }
    {
        self.held.as_slice()
    }

    /// Adds a copy of a value at a port.
    ///
    /// # Errors
    ///
    /// No memory for a value that the bag lacks. All bags are as before.
    pub fn insert(&mut self, port: usize, value: i64) -> Result<(), AllocError>
        requires { port < length self.old }
        ensures ok { OnOk result
            (self.new ≡ slice_set self.old port (with_copies value 1 (bag_at self.old port))) }
        ensures err { OnErr result (self.new ≡ self.old) }
    {
        self.insert_copies(port, value, 1)
    }

    /// Adds `copies` copies of a value at a port. Zero copies change nothing.
    ///
    /// # Errors
    ///
    /// No memory for a value that the bag lacks. All bags are as before.
    #[inline]
    pub fn insert_copies(&mut self, port: usize, value: i64, copies: u64) -> Result<(), AllocError>
        requires { port < length self.old }
        ensures ok { OnOk result
            (self.new ≡ slice_set self.old port (with_copies value copies (bag_at self.old port))) }
        ensures err { OnErr result (self.new ≡ self.old) }
    {
        if copies == 0 {
            return Ok(());
        }
        match search(self.held.as_slice(), port) {
            Ok(index) => self.held[index].bag.insert_copies(value, copies),
            Err(index) => {
                put_copies(&mut self.held, index, port, value, copies)?;
                Ok(())
            }
        }
    }

    /// Adds the values of a bag at a port.
    ///
    /// # Errors
    ///
    /// No memory for as many more values as the other bag has. All bags are as before.
    pub fn union_at(&mut self, port: usize, values: &Bag) -> Result<(), AllocError>
        requires { port < length self.old }
        ensures ok { OnOk result
            (self.new ≡ slice_set self.old port (union (bag_at self.old port) values.now)) }
        ensures err { OnErr result (self.new ≡ self.old) }
    {
        if values.is_empty() {
            return Ok(());
        }
        match search(self.held.as_slice(), port) {
            Ok(index) => self.held[index].bag.union(values),
            Err(index) => {
                let mut bag = Bag::new(*self.held.allocator());
                bag.union(values)?;
                Ok(self.held.insert(index, PortBag { port, bag })?)
            }
        }
    }
}

// Inserts the bag of a port that has none yet, with copies of a value. It is not inlined, so that
// `insert_copies` is short for a port that has one.
#[inline(never)]
fn put_copies(
    held: &mut SmallVec<PortBag, 2>,
    index: usize,
    port: usize,
    value: i64,
    copies: u64,
) -> Result<(), AllocError>
    requires index { index ≤ small_vec_len held.old }
    requires some { 0 < copies }
    ensures ok { OnOk result (held.new.items ≡ insert held.old.items index
        (record { port = port; bag = with_copies value copies [] })) }
    ensures err { OnErr result (held.new ≡ held.old) }
{
    let bag = Bag::of_copies(*held.allocator(), value, copies);
    put(held, index, PortBag { port, bag })
}

// Whether each bag has at most `GREATEST_COUNT` values.
fn all_few(held: &[PortBag]) -> bool
    ensures { result ≡ list_all (λ h. nat_le (size h.bag) greatest_count) held.now }
{
    held.iter().all(|held| held.bag.size() <= GREATEST_COUNT)
}

// The index of the bag of a port, or the index at which it goes in. Usually that is the last one or
// the end.
#[inline]
fn search(held: &[PortBag], port: usize) -> Result<usize, usize>
    requires { RiseFrom 0 held.now }
    ensures found { IfOk result (λ index. StandsAt port index held.now) }
    ensures absent { IfErr result (λ index. GoesInAt port index held.now) }
{
    let [.., last] = held else {
        return Err(0);
    };
    if last.port == port {
        Ok(held.len() - 1)
    } else if last.port < port {
        Err(held.len())
    } else {
        search_all(held, port)
    }
}

// The index of the bag of a port, or the index at which it goes in, by binary search.
#[inline(never)]
fn search_all(held: &[PortBag], port: usize) -> Result<usize, usize>
    requires { RiseFrom 0 held.now }
    ensures found { IfOk result (λ index. StandsAt port index held.now) }
    ensures absent { IfErr result (λ index. GoesInAt port index held.now) }
{
    held.binary_search_by_key(&port, |held| held.port)
}

impl Clone for Bags {
    ghost is_clone = { λ b c. c ≡ b };

    fn clone(&self) -> Result<Self, AllocError> {
        Ok(Bags {
            ports: self.ports,
            held: self.held.clone()?,
        })
    }
}
