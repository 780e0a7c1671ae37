//! The variables, flags, bags and queues that an atomic model declares.

ghost use Rattle.std.specs.Prelude.{◌≡◌, [], map, IfOk, IsTrue};
ghost use Rattle.dv_eval.specs.NameLists.{variables_in};
ghost use Rattle.dv_eval.specs.Scope.{index_of, names_of, with_variable};

use crate::name_list::{FewNames, index_among};
use crate::scope::Domain;
use arrayvec::ArrayVec;
use dv_syntax::Name;
use indexmap::IndexMap;
use std::alloc::{AllocError, Global};
use std::marker::Model;

/// At most eight variables with their domains. The names are searched from the front.
#[derive(Drop)]
pub struct FewVariables {
    names: FewNames,
    domains: Vec<Domain>,
}

impl Model for FewVariables {
    ghost use Rattle.std.specs.Prelude.{◌≡◌, List, ℕ, length};
    ghost use Rattle.std.specs.List.{zip};
    ghost use Rattle.dv_eval.specs.declared.scope.Domain.{Domain};

    ghost Value = { List (ℕ × Domain) };

    ghost view = { λ v. zip v.names.items v.domains.items };

    ghost invariant = { λ v. length v.domains.items ≡ length v.names.items };
}

impl FewVariables {
    /// No variables.
    pub fn new(alloc: Global) -> Self
        ensures { result ≡ [] }
    {
        FewVariables {
            names: ArrayVec::new(),
            domains: Vec::new(alloc),
        }
    }

    /// Adds a variable if its name is new. Returns whether there was room for it.
    ///
    /// # Errors
    ///
    /// No memory for its domain.
    pub fn declare(&mut self, name: Name, domain: Domain) -> Result<bool, AllocError>
        ensures { IfOk result (λ has_room. IsTrue has_room
            → self.new ≡ with_variable self.old (name, domain)) }
    {
        if self.names.as_slice().contains(&name.number) {
            return Ok(true);
        }
        if self.names.is_full() {
            return Ok(false);
        }
        self.domains.push(domain)?;
        self.names.push(name.number);
        Ok(true)
    }

    // The names by index.
    fn names(&self) -> &[u32]
        ensures { result.now ≡ names_of self.now }
    {
        self.names.as_slice()
    }

    // The domains by index.
    fn domains(&self) -> &[Domain]
        ensures { result.now ≡ map (λ v. v.1) self.now }
    {
        &self.domains
    }
}

/// The variables, flags, bags and queues that a model declares, each name once, with their domains.
/// Most models declare few, and searching a short list is faster than making a table.
#[derive(Drop)]
pub enum VariableList {
    /// At most eight, which are searched from the front.
    Few(FewVariables),
    /// More, in a table.
    Many(IndexMap<u32, Domain>),
}

impl VariableList {
    /// No variables.
    pub fn new(alloc: Global) -> Self
        ensures { variables_in result ≡ [] }
    {
        VariableList::Few(FewVariables::new(alloc))
    }

    /// The index of a name.
    pub fn index_of(&self, name: u32) -> Option<usize>
        ensures { result ≡ index_of name (names_of (variables_in self.now)) }
    {
        match self {
            VariableList::Few(variables) => index_among(variables.names(), name),
            VariableList::Many(variables) => variables.get_index_of(&name),
        }
    }

    /// The names by index.
    pub fn names(&self) -> &[u32]
        ensures { result.now ≡ names_of (variables_in self.now) }
    {
        match self {
            VariableList::Few(variables) => variables.names(),
            VariableList::Many(variables) => variables.keys().as_slice(),
        }
    }

    /// The domains by index.
    pub fn domains(&self) -> &[Domain]
        ensures { result.now ≡ map (λ v. v.1) (variables_in self.now) }
    {
        match self {
            VariableList::Few(variables) => variables.domains(),
            VariableList::Many(variables) => variables.values().as_slice(),
        }
    }
}
