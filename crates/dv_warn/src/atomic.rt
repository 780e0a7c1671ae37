//! An atomic model, with what is known of it.

use crate::links::PortLinks;
use crate::rules::Surroundings;
use dv_eval::Scope;
use dv_syntax::{Atomic, RuleSort};

/// An atomic model, with its names and the links at its ports.
#[derive(Clone, Copy)]
pub(crate) struct AtomicModel<'a> {
    pub(crate) atomic: &'a Atomic,
    pub(crate) scope: &'a Scope,
    pub(crate) links: &'a PortLinks,
}

impl AtomicModel<'_> {
    /// What the warnings about its phases depend on.
    pub(crate) fn surroundings(self) -> Surroundings {
        Surroundings {
            has_inputs: !self.scope.inputs().is_empty(),
            is_fed: !self.links.fed_inputs().is_empty(),
            has_external_rules: self.has_external_rules(),
        }
    }

    fn has_external_rules(self) -> bool {
        for rule in &self.atomic.rules {
            if rule.sort == RuleSort::External {
                return true;
            }
        }
        false
    }

    /// Whether the phase with this name is the start phase.
    pub(crate) fn starts_in(self, phase: u32) -> bool {
        for start in &self.atomic.starts {
            if start.phase.number == phase {
                return true;
            }
        }
        false
    }
}
