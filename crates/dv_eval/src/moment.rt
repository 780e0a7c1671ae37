//! What an expression can read.

ghost use Rattle.std.specs.Prelude.{◌≡◌};
ghost use Rattle.dv_eval.specs.Contexts.{context_of};
ghost use Rattle.dv_eval.specs.Meaning.{loop_value};

use dv_bag::{Arrivals, State};

/// What a statement can read beside the state: what arrived, and the variables of the enclosing
/// loops with their values, the innermost first.
#[derive(Clone, Copy)]
pub enum Context<'a, 'b> {
    /// Outside of all loops.
    Outermost(&'a Arrivals<'b>),
    /// In a loop.
    Within {
        /// The number of the loop variable's name.
        variable: u32,
        /// Its value.
        value: i64,
        /// The context of the loop.
        outer: &'a Context<'a, 'b>,
    },
}

impl<'b> Context<'_, 'b> {
    /// The value of the innermost loop variable of a name, if there is one.
    pub fn value(&self, name: u32) -> Option<i64>
        ensures { result ≡ loop_value name (context_of self.now).loops }
    {
        match self {
            Context::Outermost(_) => None,
            Context::Within {
                variable,
                value,
                outer,
            } => {
                if *variable == name {
                    Some(*value)
                } else {
                    outer.value(name)
                }
            }
        }
    }

    /// What arrived.
    pub fn arrivals(&self) -> &Arrivals<'b>
        ensures { result.now ≡ (context_of self.now).arrivals }
    {
        match self {
            Context::Outermost(arrivals) => arrivals,
            Context::Within { outer, .. } => outer.arrivals(),
        }
    }
}

/// What an expression can read: a state, what arrived, and the variables of the loops around it.
#[derive(Clone, Copy)]
pub struct Moment<'a, 'b> {
    /// The state whose variables are read.
    pub state: &'a State,
    /// What arrived, and the variables of the loops.
    pub context: &'a Context<'a, 'b>,
}
