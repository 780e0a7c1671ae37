//! The names that an atomic model declares.

use crate::around::Around;
use crate::sorts::{NameSort, name_of, sort_of};
use dv_syntax::Atomic;
use std::alloc::{AllocError, Global};
use std::collections::{HashMap, HashSet};

/// The first declaration of a name.
#[derive(Clone, Copy)]
pub struct Declared {
    /// The kind of the name.
    pub sort: NameSort,
    /// The offset of the name there, in bytes of the text.
    pub offset: u32,
}

/// The names that an atomic model declares; phases are apart from all others.
#[derive(Drop)]
pub struct Known {
    declared: HashMap<u32, Declared>,
    phases: HashSet<u32>,
}

impl Known {
    /// The names that a model declares.
    ///
    /// # Errors
    ///
    /// No memory for the tables.
    pub fn of(alloc: Global, model: &Atomic) -> Result<Self, AllocError> {
        let mut declared = HashMap::new(alloc);
        for declaration in &model.declarations {
            let name = name_of(declaration);
            if declared.get(&name.number).is_none() {
                let first = Declared {
                    sort: sort_of(declaration),
                    offset: name.offset,
                };
                declared.insert(name.number, first)?;
            }
        }
        Ok(Known {
            declared,
            phases: phases_of(alloc, model)?,
        })
    }

    /// The first declaration of a name that is not a phase.
    pub fn declared(&self, number: u32) -> Option<Declared> {
        self.declared.get(&number).copied()
    }

    /// The kind of a name that is not a phase, in a place that may be enclosed by loops.
    pub fn sort(&self, around: &Around, number: u32) -> Option<NameSort> {
        match around.loop_variable(number) {
            Some(_) => Some(NameSort::LoopVariable),
            None => Some(self.declared(number)?.sort),
        }
    }

    /// Whether the model declares a phase with this name.
    pub fn has_phase(&self, number: u32) -> bool {
        self.phases.contains(&number)
    }
}

/// The numbers of the phases of a model.
fn phases_of(alloc: Global, model: &Atomic) -> Result<HashSet<u32>, AllocError> {
    let mut phases = HashSet::new(alloc);
    for item in &model.phases {
        for phase in &item.names {
            phases.insert(phase.number)?;
        }
    }
    Ok(phases)
}
