//! What passed in this tick by ports that are strings.

use indexmap::IndexSet;
use std::alloc::{AllocError, Global};

/// What passed in this tick by ports that are strings, in the order in which these ports were first
/// used. The texts keep their memory from one tick to the next.
#[derive(Drop)]
pub(crate) struct Marks {
    // The codes of the ports.
    codes: IndexSet<u64>,
    // For each code, at the same index, what passed, with a semicolon between values of different
    // times. Further texts are left from earlier ticks.
    texts: Vec<String>,
}

impl Marks {
    /// Nothing has passed.
    pub(crate) fn new(alloc: Global) -> Self {
        Marks {
            codes: IndexSet::new(alloc),
            texts: Vec::new(alloc),
        }
    }

    pub(crate) fn is_empty(&self) -> bool {
        self.codes.is_empty()
    }

    /// The codes of the ports by which something passed.
    pub(crate) fn codes(&self) -> &IndexSet<u64> {
        &self.codes
    }

    /// Adds values that pass at one time by the port with a code, and returns all that passed there
    /// in this tick.
    pub(crate) fn add<'a>(
        &'a mut self,
        alloc: Global,
        code: u64,
        values: &'a str,
    ) -> Result<&'a str, AllocError> {
        let (index, is_first) = self.codes.insert_full(code)?;
        if index >= self.texts.len() {
            self.texts.push(String::new(alloc))?;
        }
        let Some(text) = self.texts.get_mut(index) else {
            return Ok(values);
        };
        if is_first {
            text.clear();
        }
        let separator = if is_first { "" } else { ";" };
        write!(text, "{separator}{values}")?;
        Ok(text.as_str())
    }

    /// Forgets what passed: the tick is over.
    pub(crate) fn clear(&mut self) {
        self.codes.clear();
    }
}
