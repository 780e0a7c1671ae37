//! How collections keep their values, and what changes them.

ghost use Rattle.std.specs.Prelude.{◌≡◌};
ghost use Rattle.dv_bag.specs.Collections.{discipline_of_change, makes_more};

/// How a collection keeps its values.
#[derive(Clone, Copy, PartialEq, Eq)]
pub enum Discipline {
    /// Each value with its number of copies. Loops go over the values in ascending order.
    Bag,
    /// A list: a value is added at the end, and the first one is removed.
    Queue,
}

/// A change of a collection by a value.
#[derive(Clone, Copy, PartialEq, Eq)]
pub enum Change {
    /// Adds a copy to a bag.
    Add,
    /// Removes a copy from a bag, if there is one.
    Drop,
    /// Adds a value at the end of a queue.
    Push,
}

impl Change {
    /// The discipline of the collections that it applies to.
    pub fn discipline(self) -> Discipline
        ensures { result ≡ discipline_of_change self }
    {
        match self {
            Change::Add | Change::Drop => Discipline::Bag,
            Change::Push => Discipline::Queue,
        }
    }

    /// Whether it adds a value.
    pub fn makes_more(self) -> bool
        ensures { result ≡ makes_more self }
    {
        match self {
            Change::Add | Change::Push => true,
            Change::Drop => false,
        }
    }
}
