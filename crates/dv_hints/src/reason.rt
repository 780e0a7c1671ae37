//! What is wrong at an offset of an atomic model, and the search for it.

use crate::around::Around;
use crate::sorts::NameSort;
use crate::taker::Taker;
use crate::wanted::Wanted;
use dv_bag::ValueType;
use dv_lex::RefusalNumber;
use dv_syntax::Name;

/// What is not allowed in the rule or hold where it is written.
#[derive(Clone, Copy)]
pub enum Misplaced {
    /// A change of the state in an output rule, by its word or sign.
    Change(&'static str),
    /// A `send` to a port, outside of output rules.
    Send(Name),
    /// An assignment to the variable of a loop.
    LoopVariable(Name),
    /// `elapsed` outside of external rules.
    Elapsed,
    /// An input port outside of external and confluent rules.
    Input(Name),
}

/// What is wrong at an offset of an atomic model.
#[derive(Clone, Copy)]
pub enum Reason {
    /// A name that is unknown, or of another kind than its place takes.
    Name {
        /// The name.
        name: Name,
        /// The kind of the name; `None` if it is unknown.
        sort: Option<NameSort>,
        /// What its place takes.
        wanted: Wanted,
        /// What encloses it.
        around: Around,
    },
    /// An expression of a wrong type.
    Type {
        /// The type of the value.
        found: ValueType,
        /// What uses the value.
        taker: Taker,
    },
    /// Something that is not allowed in this rule or hold.
    Misplaced {
        /// What is not allowed.
        what: Misplaced,
        /// What encloses it.
        around: Around,
    },
    /// The variable of a loop with the same name as something else.
    LoopVariable {
        /// The variable of the loop.
        variable: Name,
        /// The offset of the other name, in bytes of the text.
        other: u32,
    },
}

/// The search for the reason of one refusal: its number and its offset, and the reason once it is
/// found.
#[derive(Clone, Copy)]
pub struct Search {
    /// The number of the refusal.
    pub number: RefusalNumber,
    /// The offset that the refusal names, in bytes of the text.
    pub offset: u32,
    /// The first reason that was found; `None` before.
    pub found: Option<Reason>,
}

impl Search {
    /// A search that has found nothing yet.
    pub fn new(number: RefusalNumber, offset: u32) -> Self {
        Search {
            number,
            offset,
            found: None,
        }
    }

    /// Keeps a reason for a refusal, if this is the refusal that is searched for, and if none was
    /// kept before.
    pub fn note(&mut self, number: RefusalNumber, offset: u32, reason: Reason) {
        if self.found.is_none() && number == self.number && offset == self.offset {
            self.found = Some(reason);
        }
    }

    /// Notes a name if it is unknown (E7) or of a kind that its place does not take (E8).
    pub fn note_name(
        &mut self,
        name: Name,
        sort: Option<NameSort>,
        wanted: Wanted,
        around: &Around,
    ) {
        let number = match sort {
            None => RefusalNumber::E7,
            Some(sort) if !wanted.suits(sort) => RefusalNumber::E8,
            Some(_) => return,
        };
        let reason = Reason::Name {
            name,
            sort,
            wanted,
            around: *around,
        };
        self.note(number, name.offset, reason);
    }

    /// Notes something that is not allowed where it is (E9).
    pub fn note_misplaced(&mut self, offset: u32, what: Misplaced, around: &Around) {
        let reason = Reason::Misplaced {
            what,
            around: *around,
        };
        self.note(RefusalNumber::E9, offset, reason);
    }
}
