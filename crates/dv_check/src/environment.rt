//! What names denote at a place in an atomic model.

ghost use Rattle.std.specs.Prelude.{◌≡◌};
ghost use Rattle.dv_check.specs.Rules.{known_at};

use crate::declarations::{Declarations, NameSort};
use dv_syntax::{Name, RuleSort};

/// What names denote at a place in an atomic model.
#[derive(Clone, Copy)]
pub enum Environment<'a> {
    /// Outside of all loops: in a rule of this sort, or in a hold.
    Model {
        /// What the model declares.
        declarations: &'a Declarations,
        /// The sort of the rule: none in a hold.
        rule: Option<RuleSort>,
    },
    /// In the block of a loop. Its variable hides other meanings of its name.
    Loop {
        /// The variable of the loop.
        variable: Name,
        /// The environment of the loop.
        outer: &'a Environment<'a>,
    },
}

impl<'a> Environment<'a> {
    /// What a name denotes, if it is declared.
    pub fn sort(&self, name: u32) -> Option<NameSort>
        ensures { result ≡ (known_at self.now).sort name }
    {
        match self {
            Environment::Model { declarations, .. } => declarations.sorts.get(name).copied(),
            Environment::Loop { variable, outer } => {
                if variable.number == name {
                    Some(NameSort::LoopVariable)
                } else {
                    outer.sort(name)
                }
            }
        }
    }

    /// The offset at which a name is declared, if it is.
    pub fn offset(&self, name: u32) -> Option<u32>
        ensures { result ≡ (known_at self.now).offset name }
    {
        match self {
            Environment::Model { declarations, .. } => declarations.offsets.get(name).copied(),
            Environment::Loop { variable, outer } => {
                if variable.number == name {
                    Some(variable.offset)
                } else {
                    outer.offset(name)
                }
            }
        }
    }

    /// Whether a phase is declared.
    pub fn has_phase(&self, phase: u32) -> bool
        ensures { result ≡ (known_at self.now).has_phase phase }
    {
        match self {
            Environment::Model { declarations, .. } => declarations.phases.contains(phase),
            Environment::Loop { outer, .. } => outer.has_phase(phase),
        }
    }

    /// The sort of the rule around: none in a hold.
    pub fn rule(&self) -> Option<RuleSort>
        ensures { result ≡ (known_at self.now).rule }
    {
        match self {
            Environment::Model { rule, .. } => *rule,
            Environment::Loop { outer, .. } => outer.rule(),
        }
    }
}
