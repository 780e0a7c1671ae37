//! The names of one kind that an atomic model declares.

ghost use Rattle.std.specs.Prelude.{◌≡◌, ◌<◌, ℕ, [], length, nat_eq, IfSome};
ghost use Rattle.std.specs.List.{IsDistinct};
ghost use Rattle.dv_eval.specs.NameLists.{names_in};
ghost use Rattle.dv_eval.specs.Scope.{index_of};

use arrayvec::ArrayVec;
use indexmap::IndexSet;

/// A list of names that is searched from the front.
pub type FewNames = ArrayVec<u32, 8>;

/// The names of one kind that a model declares, each once, in order. Most models declare few, and
/// searching a short list is faster than making a table.
#[derive(Drop)]
pub enum NameList {
    /// At most eight names, which are searched from the front.
    Few(FewNames),
    /// More names, in a table.
    Many(IndexSet<u32>),
}

impl NameList {
    /// No names.
    pub fn new() -> Self
        ensures { names_in result ≡ [] }
    {
        NameList::Few(ArrayVec::new())
    }

    /// The names by index.
    pub fn as_slice(&self) -> &[u32]
        ensures { result.now ≡ names_in self.now }
    {
        match self {
            NameList::Few(names) => names.as_slice(),
            NameList::Many(names) => names.as_slice(),
        }
    }

    /// The index of a name.
    pub fn index_of(&self, name: u32) -> Option<usize>
        ensures { result ≡ index_of name (names_in self.now) }
    {
        match self {
            NameList::Few(names) => index_among(names.as_slice(), name),
            NameList::Many(names) => names.get_index_of(&name),
        }
    }

    /// The index of a name. It fits into 32 bits, since names have 32 bits.
    pub fn index_number(&self, name: u32) -> Option<u32>
        ensures { result ≡ index_of name (names_in self.now) }
    {
        match self {
            NameList::Few(names) => few_index_number(names, name),
            NameList::Many(names) => many_index_number(names, name),
        }
    }
}

// The index of a name in a short list.
fn few_index_number(names: &FewNames, name: u32) -> Option<u32>
    ensures { result ≡ index_of name names.now.items }
{
    let names = names.as_slice();
    let index = index_among(names, name)?;
    Some(index as u32)
}

// The index of a name in a table.
fn many_index_number(names: &IndexSet<u32>, name: u32) -> Option<u32>
    ensures { result ≡ index_of name names.now.keys }
{
    let index = names.get_index_of(&name)?;
    Some(index_number(names.as_slice(), index))
}

/// The index of a name in a list that is searched from the front.
pub fn index_among(names: &[u32], name: u32) -> Option<usize>
    ensures found { result ≡ index_of name names.now }
    ensures within { IfSome result (λ index. index < length names.now) }
{
    for (index, other) in names.iter().enumerate() {
        if *other == name {
            return Some(index);
        }
    }
    None
}

// An index as a number of 32 bits: names have 32 bits, and no two are equal.
fn index_number(names: &[u32], index: usize) -> u32
    requires distinct { IsDistinct nat_eq names.now }
    requires within { index < length names.now }
    ensures { result ≡ index }
{
    index as u32
}
