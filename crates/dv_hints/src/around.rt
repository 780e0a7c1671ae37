//! The rule or hold, and the loops, that enclose a statement or an expression.

use dv_syntax::{Name, RuleSort};

/// What encloses a statement or an expression of an atomic model: a rule or the hold of a phase,
/// and loops.
#[derive(Clone, Copy)]
pub struct Around {
    /// The kind of the rule; `None` in a hold.
    pub rule: Option<RuleSort>,
    /// The phase of the rule or the hold.
    pub phase: Name,
    /// The variables of the enclosing loops, the outermost first.
    pub loops: [Option<Name>; 3],
}

impl Around {
    /// Directly in a rule of a phase, or without `rule` in its hold.
    pub fn of(rule: Option<RuleSort>, phase: Name) -> Self {
        Around {
            rule,
            phase,
            loops: [None, None, None],
        }
    }

    /// In the block of a loop with this variable that is itself enclosed by `self`.
    pub fn inside(&self, variable: Name) -> Self {
        let loops = match self.loops {
            [None, ..] => [Some(variable), None, None],
            [first, None, _] => [first, Some(variable), None],
            [first, second, _] => [first, second, Some(variable)],
        };
        Around { loops, ..*self }
    }

    /// The variable with this name of the innermost enclosing loop that has it.
    pub fn loop_variable(&self, number: u32) -> Option<Name> {
        for variable in self.loops.iter().rev() {
            if let Some(name) = variable
                && name.number == number
            {
                return Some(*name);
            }
        }
        None
    }

    /// Whether input ports can be read.
    pub fn sees_inputs(&self) -> bool {
        matches!(self.rule, Some(RuleSort::External | RuleSort::Confluent))
    }
}
