//! Stacks of types, each kept once and known by a number.

ghost use Rattle.std.specs.Prelude.{◌≡◌, ◌≢◌, ◌↔◌, ℕ, ◌<◌, List, [], ◌∷◌, length, IsTrue, MatchOption, IfOk, OnOk};
ghost use Rattle.dv_bag.specs.declared.value.ValueType.{ValueType};
ghost use Rattle.dv_valid.specs.declared.stacks.Stack.TheVariants.{On};
ghost use Rattle.dv_valid.specs.Stacks.{Keeps, link, types_at, with_link};

use dv_bag::value::ValueType;
use std::alloc::{AllocError, Global};
use std::marker::Model;

/// A stack of types.
#[derive(Clone, Copy)]
pub enum Stack {
    /// No type.
    Empty,
    /// A type on top of the stack with a number.
    On { top: ValueType, below: usize },
}

/// A stack, and the numbers of the stacks with one more type, as far as they were made.
#[derive(Clone, Copy)]
pub struct Node {
    /// The stack.
    pub stack: Stack,
    /// The number of the stack with a number on top of this one, if it was made.
    pub with_number: Option<usize>,
    /// The number of the stack with a truth value on top of this one, if it was made.
    pub with_truth: Option<usize>,
}

/// Stacks of types by number, as a tree: each node adds a type to its parent, so a stack takes the
/// memory of one node. Equal stacks have one number.
#[derive(Drop)]
pub struct TypeStacks {
    nodes: Vec<Node>,
}

impl Model for TypeStacks {
    ghost use Rattle.dv_valid.specs.Stacks.{IsTrie, Stacks, stacks_of};

    ghost Value = { Stacks };

    ghost view = { λ s. stacks_of s.nodes.items };

    ghost invariant = { λ s. IsTrie s.nodes.items };
}

impl Stack {
    /// The number of the stack below this type, if this type is on top.
    fn below(self, top: ValueType) -> Option<usize>
        ensures { MatchOption result ((below : ℕ) → self ≢ On top below)
            (λ below. self ≡ On top below) }
    {
        match self {
            Stack::On { top: found, below } if found == top => Some(below),
            _ => None,
        }
    }
}

impl Node {
    /// The number of the stack with this type on top, if it was made.
    fn link(self, top: ValueType) -> Option<usize>
        ensures { result ≡ link top self }
    {
        match top {
            ValueType::Number => self.with_number,
            ValueType::Truth => self.with_truth,
        }
    }

    /// The node with the number of the stack that has this type on top.
    fn with_link(self, top: ValueType, number: usize) -> Node
        ensures { result ≡ with_link top number self }
    {
        match top {
            ValueType::Number => Node {
                stack: self.stack,
                with_number: Some(number),
                with_truth: self.with_truth,
            },
            ValueType::Truth => Node {
                stack: self.stack,
                with_number: self.with_number,
                with_truth: Some(number),
            },
        }
    }
}

impl TypeStacks {
    /// Only the empty stack.
    ///
    /// # Errors
    ///
    /// No memory for its node.
    pub fn new(alloc: Global) -> Result<Self, AllocError>
        ensures { IfOk result (λ stacks. stacks ≡ [] ∷ []) }
    {
        let empty = Node {
            stack: Stack::Empty,
            with_number: None,
            with_truth: None,
        };
        Ok(TypeStacks {
            nodes: vec![in alloc; empty]?,
        })
    }

    /// The number of the empty stack.
    pub fn empty(&self) -> usize
        ensures within { result < length self.now }
        ensures empty { types_at self.now result ≡ [] }
    {
        let _ = &self.nodes;
        0
    }

    /// The number of the stack below this type, if this type is on top.
    pub fn below(&self, stack: usize, top: ValueType) -> Option<usize>
        requires { stack < length self.now }
        ensures { MatchOption result
            ((below : List ValueType) → types_at self.now stack ≢ top ∷ below)
            (λ below. (below < length self.now)
            × (types_at self.now stack ≡ top ∷ types_at self.now below)) }
    {
        self.nodes[stack].stack.below(top)
    }

    /// The number of the stack with this type on top of another one, which is made if there is none
    /// yet.
    ///
    /// # Errors
    ///
    /// No memory for its node.
    pub fn push(&mut self, top: ValueType, below: usize) -> Result<usize, AllocError>
        requires { below < length self.old }
        ensures kept { OnOk result (Keeps self.old self.new) }
        ensures stack { IfOk result (λ stack. (stack < length self.new)
            × (types_at self.new stack ≡ top ∷ types_at self.old below)) }
    {
        let node = self.nodes[below];
        if let Some(stack) = node.link(top) {
            return Ok(stack);
        }
        let stack = self.nodes.len();
        self.nodes.push(Node {
            stack: Stack::On { top, below },
            with_number: None,
            with_truth: None,
        })?;
        self.nodes[below] = node.with_link(top, stack);
        Ok(stack)
    }

    /// Whether the stacks with two numbers have the same types.
    pub fn is_same(&self, one: usize, other: usize) -> bool
        requires one { one < length self.now }
        requires other { other < length self.now }
        ensures { IsTrue result
            ↔ (types_at self.now one ≡ types_at self.now other) }
    {
        let _ = &self.nodes;
        one == other
    }
}
