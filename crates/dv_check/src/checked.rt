//! A model text that breaks no rule.

ghost use Rattle.std.specs.Prelude.{◌≡◌, None};
ghost use Rattle.dv_syntax.specs.Trees.{file_of};
ghost use Rattle.dv_check.specs.Refusals.{refusal_of};
ghost use Rattle.dv_check.specs.Tree.{components_of};
ghost use Rattle.dv_check.specs.Writable.{IsWritable};

use dv_lex::Names;
use dv_syntax::File;

/// A file that breaks no rule, and the texts of its names. The type keeps that the file could be
/// written down.
#[derive(Drop)]
pub struct Checked {
    /// The tree of the text.
    pub file: File,
    /// The texts of the names.
    pub names: Names,
    pub(crate) component_count: u32,
    pub ghost checked: { refusal_of (file_of file) ≡ None },
    pub ghost writable: { ∥ IsWritable (file_of file) ∥₁ },
    pub ghost counted: { component_count ≡ components_of (file_of file) },
}

impl Checked {
    /// The number of components: the atomic models inside the root, each counted as often as it is
    /// a part.
    pub fn components(&self) -> u32
        ensures { result ≡ components_of (file_of self.now.file) }
    {
        self.component_count
    }
}
