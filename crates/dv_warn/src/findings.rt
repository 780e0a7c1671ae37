//! The list of the warnings found so far.

use crate::warning::{Found, Warning};
use dv_syntax::{Model, Name};
use dv_tree::Tree;
use std::alloc::{AllocError, Global};

/// The warnings found so far about the model of a tree.
#[derive(Drop)]
pub(crate) struct Findings<'t> {
    tree: &'t Tree<'t>,
    found: Vec<Found<'t>>,
}

impl<'t> Findings<'t> {
    /// No warnings yet.
    pub(crate) fn new(alloc: Global, tree: &'t Tree<'t>) -> Self {
        Findings {
            tree,
            found: Vec::new(alloc),
        }
    }

    /// The text of a name.
    pub(crate) fn name(&self, name: Name) -> &'t str {
        self.tree.name(name.number)
    }

    /// The name of an input port, by its index in its model. The model is given by its index in
    /// `Tree::reached`.
    pub(crate) fn input_name(&self, model: usize, port: usize) -> Option<&'t str> {
        let number = match self.tree.reached().get(model)? {
            Model::Atomic(_) => *self.tree.scopes().get(model)?.inputs().get(port)?,
            Model::Coupled(coupled) => coupled.inputs.get(port)?.number,
        };
        Some(self.tree.name(number))
    }

    /// Adds a warning at an offset of the text, in bytes.
    ///
    /// # Errors
    ///
    /// Memory is refused. The warning is not added.
    pub(crate) fn note(&mut self, offset: u32, warning: Warning<'t>) -> Result<(), AllocError> {
        Ok(self.found.push(Found { offset, warning })?)
    }

    /// The warnings in the order of the text. Warnings at one offset keep the order in which they
    /// were added.
    ///
    /// # Errors
    ///
    /// Memory is refused.
    pub(crate) fn in_order(self) -> Result<Vec<Found<'t>>, AllocError> {
        let mut found = self.found;
        found.sort_by_key(|found| found.offset)?;
        Ok(found)
    }
}
