//! Stacks.

ghost use Rattle.std.specs.Prelude.{◌≡◌, ◌<◌, List, [], ◌∷◌, length, IfSome, OnErr, OnOk};

use std::alloc::{AllocError, Global};
use std::marker::Model;

/// A stack.
#[derive(Drop)]
pub(crate) struct Stack<T> {
    /// The values, from the lowest to the one on top.
    pub(crate) values: Vec<T>,
}

impl<T> Model for Stack<T> {
    ghost use Rattle.std.specs.Prelude.{List, reverse};

    ghost Value = { List T };

    ghost view = { λ s. reverse s.values.items };
}

impl<T> Stack<T> {
    /// An empty stack. It takes no memory yet.
    pub(crate) fn new(alloc: Global) -> Self
        ensures { result ≡ [] }
    {
        Stack {
            values: Vec::new(alloc),
        }
    }
}

impl<T: Drop> Stack<T> {
    /// Removes all values, and keeps the memory.
    pub(crate) fn clear(&mut self)
        ensures { self.new ≡ [] }
    {
        self.values.clear();
    }

    /// Pushes a value.
    ///
    /// # Errors
    ///
    /// No memory for one more. The stack is unchanged.
    #[inline(always)]
    pub(crate) fn push(&mut self, value: T) -> Result<(), AllocError>
        ensures ok { OnOk result (self.new ≡ value ∷ self.old) }
        ensures err { OnErr result (self.new ≡ self.old) }
    {
        Ok(self.values.push(value)?)
    }

    /// Pops the value on top. There has to be one.
    #[inline]
    pub(crate) fn pop(&mut self) -> T
        requires { 0 < length self.old }
        ensures { self.old ≡ result ∷ self.new }
    {
        match self.values.pop() {
            Some(value) => value,
            None => unreachable!(),
        }
    }
}

impl<T: Copy> Stack<T> {
    /// The value on top, if there is one. It stays there.
    #[tactic(auto, using(crate::proofs::Tops::on_top))]
    #[inline]
    pub(crate) fn top(&self) -> Option<T>
        ensures { IfSome result (λ top. (below : List T) × (self.now ≡ top ∷ below)) }
    {
        match self.values.last() {
            Some(top) => Some(*top),
            None => None,
        }
    }
}
