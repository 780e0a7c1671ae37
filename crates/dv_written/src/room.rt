//! A room that grows, with texts in it one after the other.

ghost use Rattle.std.specs.Prelude.{◌≡◌, ◌≤◌, ◌++◌, ℕ, List, [], if◌then◌else◌, length, take, IfSome, OnOk, OnErr};
ghost use Rattle.dv_written.specs.Rooms.{IsPut};

use std::alloc::{AllocError, Global};
use std::marker::Model;

/// A text that can be put into a slice of bytes.
pub trait Text {
    /// Its bytes.
    ghost bytes: { Self → List ℕ };

    /// Puts the text at the start of a slice. Returns the index after its last byte, or `None` if
    /// the slice is too short. In that case the bytes of the slice mean nothing.
    fn put(&self, to: &mut [u8]) -> Option<usize>
        ensures size { length to.new ≡ length to.old }
        ensures text { IfSome result (λ end. IsPut to.old 0 to.new end (bytes self.now)) };
}

/// Puts bytes into a slice, from an index on. Returns the index after the last byte, or `None` if
/// there is not enough room.
#[inline]
pub fn put_bytes(to: &mut [u8], at: usize, bytes: &[u8]) -> Option<usize>
    requires { at ≤ length to.old }
    ensures size { length to.new ≡ length to.old }
    ensures text { IfSome result (λ end. IsPut to.old at to.new end bytes.now) }
{
    put_few_bytes(to, at, bytes)
}

/// Puts bytes as `put_bytes` does. It is for bytes of which the number is known where it is called.
#[inline(always)]
pub fn put_few_bytes(to: &mut [u8], at: usize, bytes: &[u8]) -> Option<usize>
    requires { at ≤ length to.old }
    ensures size { length to.new ≡ length to.old }
    ensures text { IfSome result (λ end. IsPut to.old at to.new end bytes.now) }
{
    if to.len() - at < bytes.len() {
        return None;
    }
    to[at..at + bytes.len()].copy_from_slice(bytes);
    Some(at + bytes.len())
}

/// Bytes that are text already.
#[derive(Drop)]
pub struct Ready<'l> {
    /// The bytes.
    pub text: &'l [u8],
}

impl<'l> Text for Ready<'l> {
    ghost bytes = { λ r. r.text.now };

    #[inline]
    fn put(&self, to: &mut [u8]) -> Option<usize> {
        put_bytes(to, 0, self.text)
    }
}

/// Texts, one after the other, in a room that grows. A contract reads their bytes.
#[derive(Drop)]
pub struct Room {
    bytes: Vec<u8>,
    at: usize,
}

impl Model for Room {
    ghost use Rattle.std.specs.Prelude.{ℕ, List, take, length, ◌≤◌};

    ghost Value = { List ℕ };

    ghost view = { λ r. take r.at r.bytes.items };

    ghost invariant = { λ r. r.at ≤ length r.bytes.items };
}

// How often a room is doubled at most. After as many doublings any text would fit.
const DOUBLINGS: u32 = 64;

impl Room {
    /// An empty room. It takes no memory.
    pub fn new(alloc: Global) -> Self
        ensures { result ≡ [] }
    {
        Room {
            bytes: Vec::new(alloc),
            at: 0,
        }
    }

    /// An empty room with memory for so many bytes. If there is no memory for them, it has none.
    pub fn with_room(alloc: Global, bytes: usize) -> Self
        ensures { result ≡ [] }
    {
        Room {
            bytes: Vec::with_capacity(alloc, bytes).unwrap_or(Vec::new(alloc)),
            at: 0,
        }
    }

    /// The number of bytes that were put into it.
    pub fn len(&self) -> usize
        ensures { result ≡ length self.now }
    {
        self.at
    }

    /// The bytes that were put into it.
    pub fn as_bytes(&self) -> &[u8]
        ensures { result.now ≡ self.now }
    {
        &self.bytes[..self.at]
    }

    /// Removes all bytes. The memory is kept.
    pub fn clear(&mut self)
        ensures { self.new ≡ [] }
    {
        self.at = 0;
    }

    /// Keeps the first `mark` bytes, or all if there are fewer.
    pub fn cut(&mut self, mark: usize)
        ensures { self.new ≡ take mark self.old }
    {
        if mark < self.at {
            self.at = mark;
        }
    }

    // Doubles the memory, or takes the first memory.
    fn grow(&mut self) -> Result<(), AllocError>
        ensures { self.new ≡ self.old }
    {
        let length = self.bytes.len();
        self.bytes
            .resize(length.saturating_add(length.max(4096)), 0)
    }

    /// Appends a text.
    ///
    /// # Errors
    ///
    /// No memory for it. The room has the same bytes as before.
    #[inline(always)]
    pub fn append<T: Text>(&mut self, text: &T) -> Result<(), AllocError>
        ensures ok { OnOk result (self.new ≡ self.old ++ T.bytes text.now) }
        ensures err { OnErr result (self.new ≡ self.old) }
    {
        for _doubling in 0..DOUBLINGS {
            if self.try_append(text) {
                return Ok(());
            }
            self.grow()?;
        }
        Err(AllocError)
    }

    /// Appends many bytes. Unlike for a text, the memory behind them is not filled with zeros first.
    ///
    /// # Errors
    ///
    /// No memory for them. The room has the same bytes as before.
    pub fn append_bytes(&mut self, bytes: &[u8]) -> Result<(), AllocError>
        ensures ok { OnOk result (self.new ≡ self.old ++ bytes.now) }
        ensures err { OnErr result (self.new ≡ self.old) }
    {
        self.bytes.truncate(self.at);
        self.bytes.extend_from_slice(bytes)?;
        self.at = self.bytes.len();
        Ok(())
    }

    // Appends a text if there is enough memory already.
    #[inline(always)]
    fn try_append<T: Text>(&mut self, text: &T) -> bool
        ensures { self.new
            ≡ (if result then self.old ++ T.bytes text.now else self.old) }
    {
        match put_after(self.bytes.as_mut_slice(), self.at, text) {
            Some(end) => {
                self.at = end;
                true
            }
            None => false,
        }
    }
}

// Puts a text after the first `at` bytes of a slice, which stay.
#[inline(always)]
fn put_after<T: Text>(to: &mut [u8], at: usize, text: &T) -> Option<usize>
    requires { at ≤ length to.old }
    ensures size { length to.new ≡ length to.old }
    ensures before { take at to.new ≡ take at to.old }
    ensures text { IfSome result (λ end. IsPut to.old at to.new end (T.bytes text.now)) }
{
    let end = text.put(&mut to[at..])?;
    Some(at + end)
}
