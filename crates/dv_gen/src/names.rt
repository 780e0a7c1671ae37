//! The indices of the names of an atomic model.

ghost use Rattle.std.specs.Prelude.{◌≡◌, ◌<◌, ◌≤◌, ◌^◌, length, IfSome};
ghost use Rattle.dv_code.specs.Limits.{deepest_loops};
ghost use Rattle.dv_eval.specs.Scope.{names_of, index_of};
ghost use Rattle.dv_gen.specs.Emission.{HasFewNames, loops_of};
ghost use Rattle.dv_gen.specs.Resolution.{assignment_at, assignment_in, deed_of, discipline_in, domain_at, leaf_at, leaf_by};
ghost use Rattle.dv_gen.specs.Resolution.{leaf_in, leaf_of, index_or_first, slot_index, source_of};

use crate::loops::Loops;
use dv_bag::Discipline;
use dv_code::{Action, Deed, Leaf, Source};
use dv_eval::{Domain, Scope};
use dv_syntax::Command;
use std::marker::Model;

/// The names of an atomic model: so few of each kind that an index has 16 bits.
#[derive(Drop)]
pub struct Names<'a> {
    scope: &'a Scope,
}

impl<'a> Model for Names<'a> {
    ghost use Rattle.dv_eval.specs.Scope.{Scope as Meant};
    ghost use Rattle.dv_gen.specs.Emission.{HasFewNames};

    ghost Value = { Meant };

    ghost view = { λ n. n.scope.now };

    ghost invariant = { λ n. HasFewNames n.scope.now };
}

impl<'a> Names<'a> {
    /// The names of this scope.
    pub fn of(scope: &'a Scope) -> Self
        requires { HasFewNames scope.now }
        ensures { result ≡ scope.now }
    {
        Names { scope }
    }

    /// The index of a variable, a flag, a bag or a queue.
    pub fn slot(&self, name: u32) -> u16
        ensures { result ≡ slot_index self.now name }
    {
        index_or_first(self.scope.variable(name))
    }

    /// The index of an output port.
    pub fn output(&self, name: u32) -> u16
        ensures { result ≡ index_or_first (index_of name self.now.outputs) }
    {
        index_or_first(self.scope.output(name))
    }

    /// The deed of a command: to go to a phase, or to remove the first value of a queue.
    pub fn deed(&self, command: Command, name: u32) -> Deed
        ensures { result ≡ deed_of self.now command name }
    {
        match command {
            Command::Goto => Deed::Go(self.phase(name)),
            Command::Pop => Deed::Pop(self.slot(name)),
        }
    }

    /// Where a collection is read: a bag or a queue of the state, or an input port.
    pub fn source(&self, name: u32) -> Source
        ensures { result ≡ source_of self.now name }
    {
        match self.scope.variable(name) {
            Some(index) => Source::Own(discipline_in(self.scope.domain(index)), index as u16),
            None => Source::Port(index_or_first(self.scope.input(name))),
        }
    }

    /// What a name denotes in these loops: the innermost loop variable of that name, else a
    /// variable or a flag.
    pub fn leaf(&self, name: u32, loops: &Loops) -> Leaf
        requires { length (loops_of loops.now) ≤ deepest_loops }
        ensures { result ≡ leaf_of self.now (loops_of loops.now) name }
    {
        match loops.number(name) {
            Some(number) => Leaf::Item(number),
            None => leaf_in(self.slot(name), self.domain(name)),
        }
    }

    /// The action that assigns a value to a name.
    pub fn assignment(&self, name: u32) -> Action
        ensures { result ≡ assignment_at self.now (index_of name (names_of self.now.variables)) }
    {
        assignment_in(self.slot(name), self.domain(name))
    }

    // The index of a phase.
    fn phase(&self, name: u32) -> u32
        ensures { result ≡ index_or_first (index_of name self.now.phases) }
    {
        self.scope.phase(name).unwrap_or(0)
    }

    // The domain of a variable, a flag, a bag or a queue.
    fn domain(&self, name: u32) -> Option<Domain>
        ensures { result ≡ domain_at self.now (index_of name (names_of self.now.variables)) }
    {
        match self.scope.variable(name) {
            Some(index) => self.scope.domain(index),
            None => None,
        }
    }
}

// An index, or 0 for a name that is not declared.
fn index_or_first(index: Option<usize>) -> u16
    requires { IfSome index (λ index. index < 2 ^ 16) }
    ensures { result ≡ index_or_first index }
{
    match index {
        Some(index) => index as u16,
        None => 0,
    }
}

// The leaf that reads the variable or the flag at an index.
fn leaf_in(index: u16, domain: Option<Domain>) -> Leaf
    ensures { result ≡ leaf_in index domain }
{
    match domain {
        Some(Domain::Number(_)) => Leaf::Variable(index),
        Some(Domain::Flag { .. }) => Leaf::Flag(index),
        Some(Domain::Held { .. }) | None => Leaf::Number(0),
    }
}

// The action that assigns to the variable or the flag at an index.
fn assignment_in(index: u16, domain: Option<Domain>) -> Action
    ensures { result ≡ assignment_in index domain }
{
    match domain {
        Some(Domain::Flag { .. }) => Action::SetFlag(index),
        Some(Domain::Number(_) | Domain::Held { .. }) | None => Action::SetVariable(index),
    }
}

// The discipline of a state variable: that of bags if it holds no collection.
fn discipline_in(domain: Option<Domain>) -> Discipline
    ensures { result ≡ discipline_in domain }
{
    match domain {
        Some(Domain::Held { discipline, .. }) => discipline,
        Some(Domain::Number(_) | Domain::Flag { .. }) | None => Discipline::Bag,
    }
}
