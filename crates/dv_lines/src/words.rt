//! The words of all components of a tree, looked up once.

ghost use Rattle.std.specs.Prelude.{◌≡◌, ◌+◌, ◌++◌, ◌<◌, ◌≤◌, [], ◌∷◌, List, ℕ, length, map, take, drop, slice_get, string_bytes, Some, IfOk, IfSome, OnOk};
ghost use Rattle.dv_eval.specs.Scope.{scope_of};
ghost use Rattle.dv_syntax.specs.Trees.{AtomicModel, file_of};
ghost use Rattle.dv_text.specs.Names.{tree_names, tree_ports};
ghost use Rattle.dv_text.specs.Texts.{names_at};
ghost use Rattle.dv_tree.specs.Instances.{instances};
ghost use Rattle.dv_tree.specs.Paths.{texts_of};
ghost use Rattle.dv_lines.specs.Tables.{AreRows, AreWords, Extends, IsDraft, IsOwn, IsPlace, IsWord, decorated, last_of, own_texts, ports_found, rows_found, scope_names, texts_in, with_ends, words_at};
ghost use Rattle.dv_lines.specs.Words.{IsWithin, own_outputs, own_phases, own_variables, port_at, row_found, word_text};

use crate::pieces::{Word, span_of};
use dv_eval::Scope;
use dv_tree::Tree;
use std::alloc::{AllocError, Global};
use std::marker::Model;

// The word of no port.
static NO_PORT: Word = Word {
    start: 0,
    length: 2,
    head: *b" :              ",
};

/// Where the words of a model begin among all words, and how many there are of each sort, one sort
/// behind the other.
#[derive(Clone, Copy)]
pub struct Place {
    /// The index of the first.
    pub first: usize,
    /// How many phases there are: a word for each, in the order of their declaration. It is ` PHASE
    /// NAME=` with the name of the first state variable, or ` PHASE` if there are no variables.
    pub phases: usize,
    /// How many state variables: ` NAME=` for each, in the order of their declaration.
    pub variables: usize,
    /// How many output ports: ` NAME:` for each, in the order of their declaration.
    pub outputs: usize,
}

/// A component: its path, with a blank on both sides, and where the words of its model are.
#[derive(Clone, Copy)]
pub struct Row {
    /// The path.
    pub path: Word,
    /// The words of its model, which all components of the model share.
    pub place: Place,
}

/// The words of all components of a tree, and of the output ports of its root. Their bytes are in
/// one vector. A contract reads the words of models with their bytes, and the texts
/// of all words.
#[derive(Drop)]
pub struct Words {
    bytes: Vec<u8>,
    words: Vec<Word>,
    rows: Vec<Row>,
    outputs: Vec<Word>,
}

impl Model for Words {
    ghost use Rattle.std.specs.Prelude.{length, map};
    ghost use Rattle.std.specs.List.{All};
    ghost use Rattle.dv_lines.specs.Words.{AllWords, IsWithin, row_words, word_text};

    ghost Value = { AllWords };

    ghost view = { λ w. record {
      bytes = w.bytes.items;
      words = w.words.items;
      rows = map (row_words w.bytes.items w.words.items) w.rows.items;
      ports = map (word_text w.bytes.items) w.outputs.items;
    } };

    ghost invariant = { λ w. All (IsWithin (length w.words.items)) w.rows.items };
}

impl Words {
    /// Looks up the words of a tree.
    ///
    /// # Errors
    ///
    /// No memory for them.
    pub fn of(alloc: Global, tree: &Tree) -> Result<Self, AllocError>
        ensures components { IfOk result (λ words. rows_found words
            ≡ map decorated (tree_names tree.now)) }
        ensures outputs { IfOk result (λ words. ports_found words
            ≡ map (with_ends (58 ∷ [])) (tree_ports tree.now)) }
    {
        let mut draft = Draft {
            bytes: Vec::new(alloc),
            words: Vec::new(alloc),
            known: vec![in alloc; None; tree.file().models.len()]?,
            path: String::new(alloc),
            last: Vec::new(alloc),
        };
        let rows = rows_of(alloc, &mut draft, tree)?;
        let Draft {
            mut bytes,
            words,
            ..
        } = draft;
        let mut outputs = Vec::new(alloc);
        for port in 0..tree.output_count() {
            outputs.push(push_word(&mut bytes, tree.output_name(port), b":")?)?;
        }
        Ok(Words {
            bytes,
            words,
            rows,
            outputs,
        })
    }

    /// The row of a component, or `None` if there is no component of this number.
    #[inline(always)]
    pub fn row(&self, component: u32) -> Option<&Row>
        ensures within { IfSome result (λ row. IsWithin (length self.now.words) row.now) }
        ensures words { row_found self.now.bytes self.now.words result
            ≡ words_at (rows_found self.now) component }
    {
        self.rows.get(component as usize)
    }

    /// The bytes that all words are in.
    #[inline(always)]
    pub fn as_bytes(&self) -> &[u8]
        ensures { result.now ≡ self.now.bytes }
    {
        &self.bytes
    }

    /// The words of a component's phases.
    #[inline(always)]
    pub fn phases(&self, row: &Row) -> &[Word]
        requires { IsWithin (length self.now.words) row.now }
        ensures { result.now ≡ own_phases self.now.words row.now }
    {
        span_of(&self.words, row.place.first, row.place.phases)
    }

    /// The words of a component's state variables.
    #[inline(always)]
    pub fn variables(&self, row: &Row) -> &[Word]
        requires { IsWithin (length self.now.words) row.now }
        ensures { result.now ≡ own_variables self.now.words row.now }
    {
        let place = &row.place;
        span_of(&self.words, place.first + place.phases, place.variables)
    }

    /// The words of a component's output ports.
    #[inline(always)]
    pub fn outputs(&self, row: &Row) -> &[Word]
        requires { IsWithin (length self.now.words) row.now }
        ensures { result.now ≡ own_outputs self.now.words row.now }
    {
        let place = &row.place;
        span_of(
            &self.words,
            place.first + place.phases + place.variables,
            place.outputs,
        )
    }

    /// The word of an output port of the root, with the bytes that it is in.
    pub fn port(&self, port: usize) -> (&[u8], &Word)
        ensures { word_text result.0.now result.1.now ≡ port_at (ports_found self.now) port }
    {
        match self.outputs.get(port) {
            Some(word) => (&self.bytes, word),
            None => (&[], &NO_PORT),
        }
    }
}

// The bytes of a word as a head, if there are at most 16.
fn head_of(word: &[u8]) -> [u8; 16]
    ensures { length word.now ≤ 16 → take (length word.now) result ≡ word.now }
{
    let mut head = [0; 16];
    if word.len() <= 16 {
        head[..word.len()].copy_from_slice(word);
    }
    head
}

// Appends a blank, a name, and `last`.
fn push_name(bytes: &mut Vec<u8>, name: &str, last: &[u8]) -> Result<(), AllocError>
    ensures { OnOk result (bytes.new.items ≡ bytes.old.items ++ with_ends last.now name.now) }
{
    bytes.push(b' ')?;
    bytes.extend_from_slice(name.as_bytes())?;
    bytes.extend_from_slice(last)
}

// Appends a word: a blank, the name, and `last`.
fn push_word(bytes: &mut Vec<u8>, name: &str, last: &[u8]) -> Result<Word, AllocError>
    ensures more { OnOk result (Extends bytes.old.items bytes.new.items) }
    ensures word { IfOk result (λ word. IsWord bytes.new.items word
        (with_ends last.now name.now)) }
{
    let start = bytes.len();
    push_name(bytes, name, last)?;
    let word = &bytes[start..];
    Ok(Word {
        start,
        length: word.len(),
        head: head_of(word),
    })
}

// Appends a word for each name, given by the number of the name in the tree.
fn push_words(
    bytes: &mut Vec<u8>,
    words: &mut Vec<Word>,
    tree: &Tree,
    numbers: &[u32],
    last: &[u8],
) -> Result<(), AllocError>
    ensures more { OnOk result (Extends bytes.old.items bytes.new.items) }
    ensures words { (ts : List (List ℕ)) → AreWords bytes.old.items words.old.items ts
        → OnOk result (AreWords bytes.new.items words.new.items
        (ts ++ map (with_ends last.now) (texts_of tree.now.names numbers.now))) }
{
    for number in numbers {
        words.push(push_word(bytes, tree.name(*number), last)?)?;
    }
    Ok(())
}

// Makes what the words of phases end with: the word of the first variable, or nothing.
fn make_last(last: &mut Vec<u8>, tree: &Tree, variables: &[u32]) -> Result<(), AllocError>
    ensures { OnOk result (last.new.items ≡ last_of (texts_of tree.now.names variables.now)) }
{
    last.clear();
    match variables.first() {
        Some(first) => push_name(last, tree.name(*first), b"="),
        None => Ok(()),
    }
}

// Appends the words of a model, and says where they are. `last` may hold anything.
fn push_model(
    bytes: &mut Vec<u8>,
    words: &mut Vec<Word>,
    last: &mut Vec<u8>,
    tree: &Tree,
    scope: &Scope,
) -> Result<Place, AllocError>
    ensures more { OnOk result (Extends bytes.old.items bytes.new.items) }
    ensures words { (ts : List (List ℕ)) → AreWords bytes.old.items words.old.items ts
        → OnOk result (AreWords bytes.new.items words.new.items
        (ts ++ own_texts (scope_names tree.now.names scope.now))) }
    ensures place { IfOk result (λ place. IsPlace (length words.old.items) place
        (scope_names tree.now.names scope.now)) }
{
    let first = words.len();
    let (phases, variables, outputs) = (scope.phases(), scope.variables(), scope.outputs());
    make_last(last, tree, variables)?;
    push_words(bytes, words, tree, phases, last)?;
    push_words(bytes, words, tree, variables, b"=")?;
    push_words(bytes, words, tree, outputs, b":")?;
    Ok(Place {
        first,
        phases: phases.len(),
        variables: variables.len(),
        outputs: outputs.len(),
    })
}

/// Words while they are laid out.
#[derive(Drop)]
pub struct Draft {
    /// The bytes of all words.
    pub bytes: Vec<u8>,
    /// The words of models.
    pub words: Vec<Word>,
    /// For each model of the text the place of its words, if there are some.
    pub known: Vec<Option<Place>>,
    /// Room for the text of a path.
    pub path: String,
    /// Room for what the words of phases end with.
    pub last: Vec<u8>,
}

// The place of the words of a component's model. They are appended if no component before has this
// model.
fn place_of(draft: &mut Draft, tree: &Tree, component: usize) -> Result<Place, AllocError>
    requires component { component < length (instances (file_of tree.now.file)) }
    requires draft { IsDraft draft.old tree.now }
    ensures more { OnOk result (Extends draft.old.bytes.items draft.new.bytes.items) }
    ensures kept { OnOk result (Extends (texts_in draft.old) (texts_in draft.new)) }
    ensures draft { OnOk result (IsDraft draft.new tree.now) }
    ensures place { IfOk result (λ place. IsOwn (texts_in draft.new) place
        (names_at (tree_names tree.now) component)) }
{
    let (model, scope) = (tree.model_index(component), tree.scope(component));
    if let Some(place) = draft.known[model] {
        return Ok(place);
    }
    let (bytes, words, last) = (&mut draft.bytes, &mut draft.words, &mut draft.last);
    let place = push_model(bytes, words, last, tree, scope)?;
    draft.known[model] = Some(place);
    Ok(place)
}

// Appends the path of a component.
fn push_path(
    bytes: &mut Vec<u8>,
    path: &mut String,
    tree: &Tree,
    component: usize,
) -> Result<Word, AllocError>
    requires { component < length (instances (file_of tree.now.file)) }
    ensures more { OnOk result (Extends bytes.old.items bytes.new.items) }
    ensures word { IfOk result (λ word. IsWord bytes.new.items word
        (with_ends (32 ∷ []) (names_at (tree_names tree.now) component).path)) }
{
    path.clear();
    tree.push_path(path, tree.path(component))?;
    push_word(bytes, path, b" ")
}

// The rows of all components. Their words are appended.
fn rows_of(alloc: Global, draft: &mut Draft, tree: &Tree) -> Result<Vec<Row>, AllocError>
    requires { IsDraft draft.old tree.now }
    ensures draft { OnOk result (IsDraft draft.new tree.now) }
    ensures rows { IfOk result (λ rows. AreRows draft.new.bytes.items (texts_in draft.new)
        rows.items (tree_names tree.now)) }
{
    let mut rows = Vec::with_capacity(alloc, tree.component_count())?;
    for component in 0..tree.component_count() {
        let place = place_of(draft, tree, component)?;
        let path = push_path(&mut draft.bytes, &mut draft.path, tree, component)?;
        rows.push(Row { path, place })?;
    }
    Ok(rows)
}
