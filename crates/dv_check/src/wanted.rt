//! Which collection can be read where.

ghost use Rattle.std.specs.Prelude.{◌≡◌};
ghost use Rattle.dv_check.specs.Types.{suits, suits_port, wanted_by};

use dv_bag::Discipline;
use dv_syntax::BagCall;

/// What a name must denote where a collection is read.
#[derive(Clone, Copy, PartialEq, Eq)]
pub enum Wanted {
    /// A bag or a queue.
    Values,
    /// A bag.
    Bag,
    /// A queue.
    Queue,
}

impl Wanted {
    /// What a call reads.
    pub fn by(call: BagCall) -> Self
        ensures { result ≡ wanted_by call }
    {
        match call {
            BagCall::Size => Wanted::Values,
            BagCall::Sum | BagCall::Least | BagCall::Most => Wanted::Bag,
            BagCall::Front => Wanted::Queue,
        }
    }

    /// Whether a collection of a discipline is suitable.
    pub fn suits(self, discipline: Discipline) -> bool
        ensures { result ≡ suits self discipline }
    {
        match self {
            Wanted::Values => true,
            Wanted::Bag => discipline == Discipline::Bag,
            Wanted::Queue => discipline == Discipline::Queue,
        }
    }

    /// Whether an input port is suitable: its values are a bag.
    pub fn suits_port(self) -> bool
        ensures { result ≡ suits_port self }
    {
        self.suits(Discipline::Bag)
    }
}
