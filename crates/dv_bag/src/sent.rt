//! What a component sends.

ghost use Rattle.std.specs.Cmp.{decided, partial_equiv_from_equiv};
ghost use Rattle.std.specs.Prelude.{◌≡◌, ◌<◌, ◌≤◌, ◌==◌, ℕ, ℤ, [], length, nat_eq, replicate, slice_set, IfOk, IfErr, OnOk, OnErr};
ghost use Rattle.std.specs.List.{AllWithin};
ghost use Rattle.dv_bag.specs.Bag.{bag_at, size_of_all, with_copies};
ghost use Rattle.dv_bag.specs.Same.{same_bags, same_bags-decides};
ghost use Rattle.dv_bag.specs.Sent.{AreInOrder, AreWithin, HasCopiesAt, IsIndexOf, RiseFrom, by_port, pairs_at, sending_cmp};

use crate::bag::Bag;
use crate::put::put;
use smallvec::SmallVec;
use std::alloc::{AllocError, Global};
use std::cmp::Ordering;
use std::default::MadeWith;
use std::marker::Model;

/// Copies of a value that are sent at a port.
#[derive(Clone, Copy, PartialEq, Eq)]
pub struct Sending {
    /// The index of the output port.
    pub port: usize,
    /// The value.
    pub value: i64,
    /// How many copies of it are sent.
    pub copies: u64,
}

impl Sending {
    // Its order beside a value at a port: by port and then by value.
    fn cmp_to(&self, port: usize, value: i64) -> Ordering
        ensures { result ≡ sending_cmp self.now.port self.now.value port value }
    {
        self.port.cmp(&port).then(self.value.cmp(&value))
    }
}

impl MadeWith<Global> for Sending {
    fn made_with(_alloc: Global) -> Self {
        Sending {
            port: 0,
            value: 0,
            copies: 0,
        }
    }
}

/// What a component sent at one instant: a bag for each of its output ports, as one list by port
/// and then by value. So a port has each value once, and a slice of the list is its bag. Copies of
/// one value are stored inline.
#[derive(Drop)]
pub struct Sent {
    ports: usize,
    sendings: SmallVec<Sending, 1>,
    // The number of values, each copy counted. It is asked for before each value that is sent.
    total: u64,
}

impl Model for Sent {
    ghost use Rattle.std.specs.Prelude.{◌≡◌, List};
    ghost use Rattle.dv_bag.specs.Bag.{Counts, size_of_all};
    ghost use Rattle.dv_bag.specs.Sent.{AreInOrder, AreWithin, by_port};

    ghost Value = { List Counts };

    ghost view = { λ s. by_port s.ports s.sendings.items };

    ghost invariant = { λ s. AreWithin s.ports s.sendings.items × AreInOrder s.sendings.items
        × (s.total ≡ size_of_all (by_port s.ports s.sendings.items)) };
}

impl Sent {
    /// Nothing sent at any of `ports` ports. It takes no memory.
    pub fn empty(alloc: Global, ports: usize) -> Self
        ensures { result ≡ replicate ports [] }
    {
        Sent {
            ports,
            sendings: SmallVec::new(alloc),
            total: 0,
        }
    }

    /// One value sent at one of `ports` ports. It takes no memory.
    #[inline]
    pub fn of_one(alloc: Global, ports: usize, port: usize, value: i64) -> Self
        requires { port < ports }
        ensures { result ≡ slice_set (replicate ports []) port (with_copies value 1 []) }
    {
        let sending = Sending {
            port,
            value,
            copies: 1,
        };
        Sent {
            ports,
            sendings: SmallVec::from_buf(alloc, [sending]),
            total: 1,
        }
    }

    /// The number of ports.
    pub fn len(&self) -> usize
        ensures { result ≡ length self.now }
    {
        self.ports
    }

    /// Whether nothing was sent at any port.
    pub fn is_empty(&self) -> bool
        ensures { result ≡ nat_eq (size_of_all self.now) 0 }
    {
        self.sendings.is_empty()
    }

    /// The number of values at all ports, each copy counted. It saturates at 2^64-1.
    pub fn total(&self) -> u64
        ensures { result ≡ size_of_all self.now }
    {
        self.total
    }

    /// All that was sent, by port and then by value, with at least one copy of each. The elements
    /// of a port are its bag.
    pub fn as_slice(&self) -> &[Sending]
        ensures all { by_port (length self.now) result.now ≡ self.now }
        ensures bags { (port : ℕ) → pairs_at port result.now ≡ bag_at self.now port }
        ensures within { AreWithin (length self.now) result.now }
        ensures order { RiseFrom 0 result.now }
    {
        self.sendings.as_slice()
    }

    /// Adds a copy of a value at a port.
    ///
    /// # Errors
    ///
    /// No memory for a value that the port lacks. Everything is as before.
    pub fn insert(&mut self, port: usize, value: i64) -> Result<(), AllocError>
        requires { port < length self.old }
        ensures ok { OnOk result
            (self.new ≡ slice_set self.old port (with_copies value 1 (bag_at self.old port))) }
        ensures err { OnErr result (self.new ≡ self.old) }
    {
        match search(self.sendings.as_slice(), port, value) {
            Ok(index) => {
                let copies = self.sendings[index].copies.saturating_add(1);
                self.sendings[index] = Sending {
                    port,
                    value,
                    copies,
                };
                self.total = self.total.saturating_add(1);
                Ok(())
            }
            Err(index) => {
                let sending = Sending {
                    port,
                    value,
                    copies: 1,
                };
                put(&mut self.sendings, index, sending)?;
                self.total = self.total.saturating_add(1);
                Ok(())
            }
        }
    }

    /// What was sent at a port: nothing at a port past the last.
    ///
    /// # Errors
    ///
    /// No memory for a bag of more than one value.
    pub fn bag(&self, port: usize) -> Result<Bag, AllocError>
        ensures { IfOk result (λ bag. bag ≡ bag_at self.now port) }
    {
        let mut bag = Bag::new(*self.sendings.allocator());
        let sendings = self.sendings.as_slice();
        let (first, end) = indices_of(sendings, port);
        for sending in &sendings[first..end] {
            bag.insert_copies(sending.value, sending.copies)?;
        }
        Ok(bag)
    }
}

// Where the elements of a port begin and end, by two binary searches.
fn indices_of(sendings: &[Sending], port: usize) -> (usize, usize)
    requires { AreInOrder sendings.now }
    ensures order { result.0 ≤ result.1 }
    ensures within { result.1 ≤ length sendings.now }
    ensures before { AllWithin (λ s. s.port < port) sendings.now 0 result.0 }
    ensures there { AllWithin (λ s. s.port ≡ port) sendings.now result.0 result.1 }
    ensures behind { AllWithin (λ s. port < s.port) sendings.now result.1 (length sendings.now) }
{
    let first = sendings.partition_point(|sending| sending.port < port);
    let end = sendings.partition_point(|sending| sending.port <= port);
    (first, end)
}

// The index of the copies of a value at a port, or the index at which they go in. Usually that is
// the last one or the end.
#[inline]
fn search(sendings: &[Sending], port: usize, value: i64) -> Result<usize, usize>
    requires { AreInOrder sendings.now }
    ensures found { IfOk result (λ index. HasCopiesAt port value index sendings.now) }
    ensures absent { IfErr result (λ index. IsIndexOf port value index sendings.now) }
{
    let [.., last] = sendings else {
        return Err(0);
    };
    match last.cmp_to(port, value) {
        Ordering::Less => Err(sendings.len()),
        Ordering::Equal => Ok(sendings.len() - 1),
        Ordering::Greater => search_all(sendings, port, value),
    }
}

// The index of the copies of a value at a port, or the index at which they go in, by binary search.
fn search_all(sendings: &[Sending], port: usize, value: i64) -> Result<usize, usize>
    requires { AreInOrder sendings.now }
    ensures found { IfOk result (λ index. HasCopiesAt port value index sendings.now) }
    ensures absent { IfErr result (λ index. IsIndexOf port value index sendings.now) }
{
    sendings.binary_search_by(|sending| sending.cmp_to(port, value))
}

impl Clone for Sent {
    ghost is_clone = { λ s t. t ≡ s };

    fn clone(&self) -> Result<Self, AllocError> {
        Ok(Sent {
            ports: self.ports,
            sendings: self.sendings.clone()?,
            total: self.total,
        })
    }
}

impl PartialEq for Sent {
    ghost eq = { same_bags };

    ghost laws = { partial_equiv_from_equiv (decided same_bags same_bags-decides) };

    fn eq(&self, other: &Self) -> bool {
        self.ports == other.ports && self.sendings == other.sendings
    }
}

impl Eq for Sent {
    ghost laws = { decided same_bags same_bags-decides };
}
