//! The table of names.

ghost use Rattle.std.specs.Prelude.{◌≡◌, ◌+◌, ◌^◌, ◌<◌, ◌≤◌, List, [], ℕ, length, slice_get, option_copied, IfOk, OnOk, OnErr, IsTrue, ◌↔◌};
ghost use Rattle.dv_lex.specs.Table.{number_of, with_name};

use indexmap::IndexSet;
use std::alloc::{AllocError, Global};
use std::marker::Model;

/// The names of a model text, each once, in the order of first appearance. The number of a name is
/// its index.
#[derive(Drop)]
pub struct Names {
    texts: IndexSet<String>,
}

impl Model for Names {
    ghost use Rattle.std.specs.Prelude.{List, ℕ, map, string_bytes};

    ghost Value = { List (List ℕ) };

    ghost view = { λ names. map string_bytes names.texts.keys };
}

impl Names {
    /// An empty table.
    pub fn new(alloc: Global) -> Self
        ensures { result ≡ [] }
    {
        Names {
            texts: IndexSet::new(alloc),
        }
    }

    /// The number of names.
    pub fn len(&self) -> usize
        ensures { result ≡ length self.now }
    {
        self.texts.len()
    }

    /// Whether there are no names.
    pub fn is_empty(&self) -> bool
        ensures { IsTrue result ↔ (self.now ≡ []) }
    {
        self.texts.is_empty()
    }

    /// The text of the name with this number.
    pub fn text(&self, number: u32) -> Option<&str>
        ensures { option_copied result ≡ slice_get self.now number }
    {
        match self.texts.get_index(number as usize) {
            Some(text) => Some(text.as_str()),
            None => None,
        }
    }

    /// The number of a name. It is added if it is new.
    ///
    /// # Errors
    ///
    /// No memory for the text of a new name. The table is as before.
    pub fn number(&mut self, alloc: Global, text: &str) -> Result<u32, AllocError>
        requires { length self.old < 2 ^ 32 }
        ensures number { IfOk result (λ n. n ≡ number_of self.new text.now) }
        ensures added { OnOk result (self.new ≡ with_name self.old text.now) }
        ensures grows { length self.new ≤ length self.old + 1 }
        ensures err { OnErr result (self.new ≡ self.old) }
    {
        if let Some(index) = self.texts.get_index_of(text) {
            return Ok(index as u32);
        }
        let (index, _) = self.texts.insert_full(String::from_str(alloc, text)?)?;
        Ok(index as u32)
    }
}
