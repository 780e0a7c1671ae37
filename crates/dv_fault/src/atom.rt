//! A component with its atomic model.

use dv_bag::State;
use dv_eval::{Domain, Scope};
use dv_syntax::{Atomic, Hold, Rule, RuleSort};
use dv_tree::Tree;
use std::alloc::Global;

/// A component with its atomic model, and the tree that has the names.
#[derive(Clone, Copy)]
pub(crate) struct Atom<'t> {
    pub(crate) alloc: Global,
    pub(crate) tree: &'t Tree<'t>,
    /// The path of the component, as the numbers of its names.
    pub(crate) path: &'t [u32],
    pub(crate) model: &'t Atomic,
    pub(crate) scope: &'t Scope,
}

impl<'t> Atom<'t> {
    /// The component of this number, if there is one.
    pub(crate) fn of(alloc: Global, tree: &'t Tree<'t>, component: u32) -> Option<Self> {
        let component = component as usize;
        if component >= tree.component_count() {
            return None;
        }
        Some(Atom {
            alloc,
            tree,
            path: tree.path(component),
            model: tree.atomic(component),
            scope: tree.scope(component),
        })
    }

    /// The text of the name of this number.
    pub(crate) fn name(&self, number: u32) -> &'t str {
        self.tree.name(number)
    }

    /// The domain of the state variable with this name, if there is one.
    pub(crate) fn domain(&self, name: u32) -> Option<Domain> {
        let offset = self.scope.variable(name)?;
        self.scope.domain(offset)
    }

    /// The number of the name of a state's phase.
    pub(crate) fn phase_of(&self, state: &State) -> u32 {
        self.scope.phase_name(state.phase).unwrap_or(0)
    }

    /// The rule of a kind for the phase with this name, if there is one.
    pub(crate) fn rule(&self, sort: RuleSort, phase: u32) -> Option<&'t Rule> {
        self.model
            .rules
            .iter()
            .find(|rule| rule.sort == sort && rule.phase.number == phase)
    }

    /// The hold of the phase with this name. Each phase of an accepted model has one.
    pub(crate) fn hold(&self, phase: u32) -> Option<&'t Hold> {
        self.model
            .holds
            .iter()
            .find(|hold| hold.phase.number == phase)
    }
}
