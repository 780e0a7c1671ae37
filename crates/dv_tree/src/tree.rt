//! The tree of a checked text.

ghost use Rattle.std.specs.Prelude.{◌≡◌, ◌<◌, ◌≤◌, ◌++◌, ◌∷◌, length, map, slice_get, string_bytes, Some, IfOk, OnOk};
ghost use Rattle.std.specs.Option.{option_copied};
ghost use Rattle.dv_check.specs.Limits.{greatest_components, greatest_names};
ghost use Rattle.dv_eval.specs.Scope.{scope_of};
ghost use Rattle.dv_syntax.specs.Trees.{AtomicModel, atomic_of, file_of, model_of};
ghost use Rattle.dv_tree.specs.Instances.{instances, root_inputs, root_outputs};
ghost use Rattle.dv_tree.specs.Nodes.{components_of_root, root_leaving, root_level, root_received};
ghost use Rattle.dv_tree.specs.Paths.{behind_dots, name_at, texts_of, with_dots};
ghost use Rattle.dv_tree.specs.Reached.{AreReached, borrowed, borrowed_models, text_of_reached};
ghost use Rattle.dv_tree.specs.Routing.{arrives, leaves};
ghost use Rattle.dv_tree.specs.Tables.{levels_of, model_names, root_table, scope_of_model};

use crate::components::{Component, add_components, name_at};
use crate::indices::Indices;
use crate::levels::{Level, level_at, levels};
use crate::reached::Reached;
use crate::routing::{rise, sink};
use crate::tables::{
    self, inputs, numbers, numbers_of_models, outputs, root_inputs, root_outputs, scopes,
};
use dv_bag::{Bags, Sent};
use dv_check::laws::checked_files;
use dv_check::{Checked, GREATEST_DEPTH};
use dv_eval::Scope;
use dv_lex::Names;
use dv_syntax::{Atomic, File, Model as ModelItem};
use smallvec::SmallVec;
use std::alloc::{AllocError, Global};
use std::marker::Model;

/// What is routed at one instant: what each component receives, and what leaves at the root's
/// output ports.
#[derive(Drop)]
pub struct Routed {
    /// What each component receives, in the order of their numbers.
    pub received: Vec<Bags>,
    /// What leaves at the output ports of the root.
    pub leaving: Bags,
}

/// The components of a checked text by number, and the couplings of the models that its root leads
/// to. Nothing is kept of the other models.
#[derive(Drop)]
pub struct Tree<'c> {
    checked: &'c Checked,
    reached: Reached<'c>,
    levels: Vec<Option<Level>>,
    root: Option<usize>,
    scopes: Vec<Scope>,
    components: Vec<Component>,
    inputs: Vec<u32>,
    outputs: Vec<u32>,
}

impl<'c> Model for Tree<'c> {
    ghost use Rattle.std.specs.Prelude.{◌≡◌, map, slice_get, Some};
    ghost use Rattle.dv_syntax.specs.Trees.{file_of};
    ghost use Rattle.dv_tree.specs.Instances.{root_inputs, root_outputs};
    ghost use Rattle.dv_tree.specs.Nodes.{components_of, root_level};
    ghost use Rattle.dv_tree.specs.Reached.{AreReached, borrowed, borrowed_models, text_of_reached};
    ghost use Rattle.dv_tree.specs.Tables.{Source, levels_of, root_table, scopes_of, source_code};

    ghost Value = { Source };

    ghost coded = { source_code };

    ghost view = { λ t. record {
      file = t.checked.now.file;
      names = t.checked.now.names;
      reached = borrowed t.reached.models.items;
    } };

    ghost invariant = { λ t.
        let f = file_of t.checked.now.file in
        let reached = borrowed_models t.reached.models.items in
        let tables = text_of_reached f reached in
        (t.levels.items ≡ levels_of reached)
        × (root_level t.levels.items t.root ≡ root_table tables)
        × (t.scopes.items ≡ scopes_of tables)
        × (t.components.items ≡ components_of tables)
        × (t.inputs.items ≡ root_inputs f)
        × (t.outputs.items ≡ root_outputs f)
        × AreReached f reached
        × (map (slice_get f.models) t.reached.indices.items ≡ map Some reached) };
}

impl<'c> Tree<'c> {
    /// The tree of a checked text.
    ///
    /// # Errors
    ///
    /// No memory for the tables.
    pub fn of(alloc: Global, checked: &'c Checked) -> Result<Self, AllocError>
        ensures { IfOk result (λ t. (t.file ≡ checked.now.file) × (t.names ≡ checked.now.names)) }
    {
        let file = &checked.file;
        let reached = Reached::of(alloc, file)?;
        let models = numbers_of_models(alloc, &reached.models)?;
        let names = Indices::of(alloc, SmallVec::from_vec(models))?;
        let scopes = scopes(alloc, &reached.models)?;
        let levels = tables_of(alloc, &reached.models, &names, &scopes)?;
        let root = names.index_of(file.root.number);
        let components = components_of(alloc, &levels, root)?;
        let coupled = tables::root(file);
        let inputs = numbers(alloc, root_inputs(coupled))?;
        let outputs = numbers(alloc, root_outputs(coupled))?;
        Ok(Tree {
            checked,
            reached,
            levels,
            root,
            scopes,
            components,
            inputs,
            outputs,
        })
    }

    /// The syntax tree of the text.
    pub fn file(&self) -> &File
        ensures { result.now ≡ self.now.file }
    {
        &self.checked.file
    }

    /// The models that the root leads to, in the order of the text. The other tables have the same
    /// indices.
    pub fn reached(&self) -> &[&'c ModelItem]
        ensures { borrowed result.now ≡ self.now.reached }
    {
        &self.reached.models
    }

    /// The tables of the coupled models; an atomic model has none.
    pub fn levels(&self) -> &[Option<Level>]
        ensures { result.now ≡ levels_of (map model_of self.now.reached) }
    {
        &self.levels
    }

    /// The scopes of the models: that of a coupled model has no names.
    pub fn scopes(&self) -> &[Scope]
        ensures { result.now ≡ map scope_of_model (map model_of self.now.reached) }
    {
        &self.scopes
    }

    /// The table of the root, if it is a coupled model.
    pub fn root_level(&self) -> Option<&Level>
        ensures reached { AreReached (file_of self.now.file) (map model_of self.now.reached) }
        ensures value { option_copied result
            ≡ root_table (text_of_reached (file_of self.now.file)
            (map model_of self.now.reached)) }
    {
        root_level(&self.levels, self.root)
    }

    /// The number of components.
    pub fn component_count(&self) -> usize
        ensures value { result ≡ length (instances (file_of self.now.file)) }
        ensures at_most { result ≤ greatest_components }
    {
        // For the prover alone.
        checked_files();
        self.components.len()
    }

    /// The model of a component.
    pub fn atomic(&self, component: usize) -> &Atomic
        requires { component < length (instances (file_of self.now.file)) }
        ensures { slice_get (map (λ i. i.model) (instances (file_of self.now.file))) component
            ≡ Some (atomic_of result.now) }
    {
        let index = self.components[component].model();
        match self.reached.models[index] {
            ModelItem::Atomic(model) => model,
            ModelItem::Coupled(_) => unreachable!(),
        }
    }

    /// The index of a component's model among the models of the text. Components of one model have
    /// one index.
    pub fn model_index(&self, component: usize) -> usize
        requires { component < length (instances (file_of self.now.file)) }
        ensures within { result < length (file_of self.now.file).models }
        ensures model { slice_get (map (λ i. AtomicModel i.model)
            (instances (file_of self.now.file))) component
            ≡ slice_get (file_of self.now.file).models result }
    {
        let index = self.components[component].model();
        self.reached.indices[index]
    }

    /// The scope of a component's model.
    pub fn scope(&self, component: usize) -> &Scope
        requires { component < length (instances (file_of self.now.file)) }
        ensures { slice_get (map (λ i. scope_of i.model)
            (instances (file_of self.now.file))) component ≡ Some result.now }
    {
        let index = self.components[component].model();
        &self.scopes[index]
    }

    /// The names of the parts that lead to a component from below the root, as their numbers.
    pub fn path(&self, component: usize) -> &[u32]
        requires { component < length (instances (file_of self.now.file)) }
        ensures { slice_get (map (λ i. i.path) (instances (file_of self.now.file))) component
            ≡ Some result.now }
    {
        self.components[component].path()
    }

    /// The path of a component as a text: the names of the parts that lead to it, with dots between
    /// them.
    ///
    /// # Errors
    ///
    /// No memory for the text.
    pub fn path_text(&self, alloc: Global, component: usize) -> Result<String, AllocError>
        requires { component < length (instances (file_of self.now.file)) }
        ensures { IfOk result (λ text.
            slice_get (map (λ i. with_dots (texts_of self.now.names i.path))
            (instances (file_of self.now.file))) component ≡ Some (string_bytes text)) }
    {
        let mut text = String::new(alloc);
        self.push_path(&mut text, self.path(component))?;
        Ok(text)
    }

    /// Appends the names of a path to a text, with dots between them.
    ///
    /// # Errors
    ///
    /// No memory for the longer text. It may then end with a beginning of the path.
    pub fn push_path(&self, text: &mut String, path: &[u32]) -> Result<(), AllocError>
        ensures { OnOk result (string_bytes text.new
            ≡ string_bytes text.old ++ with_dots (texts_of self.now.names path.now)) }
    {
        push_path(text, &self.checked.names, path)
    }

    /// The text of the name with a number: empty if there is none.
    pub fn name(&self, number: u32) -> &str
        ensures { result.now ≡ name_at self.now.names number }
    {
        name_at(&self.checked.names, number)
    }

    /// The offset of the root's name, in bytes of the text.
    pub fn root_offset(&self) -> u32
        ensures { result ≡ (file_of self.now.file).root.offset }
    {
        self.checked.file.root.offset
    }

    /// The number of input ports of the root.
    pub fn input_count(&self) -> usize
        ensures value { result ≡ length (root_inputs (file_of self.now.file)) }
        ensures at_most { result ≤ greatest_names }
    {
        // For the prover alone.
        checked_files();
        self.inputs.len()
    }

    /// The names of the root's input ports.
    ///
    /// # Errors
    ///
    /// No memory for the names.
    pub fn input_names(&self, alloc: Global) -> Result<Vec<String>, AllocError>
        ensures names { IfOk result (λ names. map string_bytes names.items
            ≡ texts_of self.now.names (root_inputs (file_of self.now.file))) }
        ensures few { IfOk result (λ names. length names.items ≤ greatest_names) }
    {
        // For the prover alone.
        checked_files();
        texts_of(alloc, &self.inputs, &self.checked.names)
    }

    /// The number of output ports of the root.
    pub fn output_count(&self) -> usize
        ensures { result ≡ length (root_outputs (file_of self.now.file)) }
    {
        self.outputs.len()
    }

    /// The name of an output port of the root.
    pub fn output_name(&self, port: usize) -> &str
        requires { port < length (root_outputs (file_of self.now.file)) }
        ensures { slice_get (texts_of self.now.names (root_outputs (file_of self.now.file))) port
            ≡ Some result.now }
    {
        self.name(self.outputs[port])
    }

    /// What each component receives, and what leaves at the root's output ports, from what each
    /// component sends and what comes to the root's input ports.
    ///
    /// # Errors
    ///
    /// No memory for the values.
    pub fn route(&self, alloc: Global, sent: &[Sent], input: &Bags) -> Result<Routed, AllocError>
        ensures received { IfOk result (λ routed. routed.received.items
            ≡ arrives (file_of self.now.file) sent.now input.now) }
        ensures leaving { IfOk result (λ routed. routed.leaving
            ≡ leaves (file_of self.now.file) sent.now) }
        ensures at_most { IfOk result (λ routed. length routed.leaving ≤ greatest_names) }
    {
        // For the prover alone.
        checked_files();
        route(
            alloc,
            root_level(&self.levels, self.root),
            &self.levels,
            sent,
            input,
        )
    }
}

/// The tables of the coupled models, from the scopes of all.
fn tables_of(
    alloc: Global,
    items: &[&ModelItem],
    models: &Indices,
    scopes: &[Scope],
) -> Result<Vec<Option<Level>>, AllocError>
    requires names { models.now ≡ model_names (borrowed_models items.now) }
    requires scopes { scopes.now ≡ map scope_of_model (borrowed_models items.now) }
    ensures { IfOk result (λ levels. levels.items ≡ levels_of (borrowed_models items.now)) }
{
    let inputs = inputs(alloc, items, scopes)?;
    let outputs = outputs(alloc, items, scopes)?;
    levels(alloc, items, models, &inputs, &outputs)
}

// The table of the root, if it is a coupled model.
fn root_level(levels: &[Option<Level>], root: Option<usize>) -> Option<&Level>
    ensures { option_copied result ≡ root_level levels.now root }
{
    level_at(levels, root?)
}

// The components inside the root.
fn components_of(
    alloc: Global,
    levels: &[Option<Level>],
    root: Option<usize>,
) -> Result<Vec<Component>, AllocError>
    ensures { IfOk result (λ components. components.items
        ≡ components_of_root levels.now (root_level levels.now root)) }
{
    let mut components = Vec::new(alloc);
    if let Some(level) = root_level(levels, root) {
        add_components(alloc, GREATEST_DEPTH, level, levels, &[], &mut components)?;
    }
    Ok(components)
}

// What is received below the root, and what leaves at its output ports.
fn route(
    alloc: Global,
    root: Option<&Level>,
    levels: &[Option<Level>],
    sent: &[Sent],
    input: &Bags,
) -> Result<Routed, AllocError>
    ensures received { IfOk result (λ routed. routed.received.items
        ≡ root_received levels.now (option_copied root.entry) sent.now input.now) }
    ensures leaving { IfOk result (λ routed. routed.leaving
        ≡ root_leaving levels.now (option_copied root.entry) sent.now) }
{
    let mut received = Vec::new(alloc);
    let Some(level) = root else {
        let leaving = Bags::empty(alloc, 0);
        return Ok(Routed { received, leaving });
    };
    let mut kept = Vec::new(alloc);
    rise(GREATEST_DEPTH, level, levels, sent, &mut kept)?;
    let leaving = kept[0].own().clone()?;
    let mut kept = kept.into_iter();
    sink(
        alloc,
        GREATEST_DEPTH,
        level,
        levels,
        input,
        &mut kept,
        &mut received,
    )?;
    Ok(Routed { received, leaving })
}

// Appends the names of a path to a text, with dots between them.
fn push_path(text: &mut String, names: &Names, path: &[u32]) -> Result<(), AllocError>
    ensures { OnOk result (string_bytes text.new
        ≡ string_bytes text.old ++ with_dots (texts_of names.now path.now)) }
{
    match path {
        [first, rest @ ..] => {
            text.push_str(name_at(names, *first))?;
            push_others(text, names, rest)
        }
        [] => Ok(()),
    }
}

// Appends names, each behind a dot.
fn push_others(text: &mut String, names: &Names, numbers: &[u32]) -> Result<(), AllocError>
    ensures { OnOk result (string_bytes text.new
        ≡ string_bytes text.old ++ behind_dots (texts_of names.now numbers.now)) }
{
    for number in numbers {
        push_dotted(text, name_at(names, *number))?;
    }
    Ok(())
}

// Appends a dot and a name.
fn push_dotted(text: &mut String, name: &str) -> Result<(), AllocError>
    ensures { OnOk result (string_bytes text.new ≡ string_bytes text.old ++ 46 ∷ name.now) }
{
    text.push('.')?;
    text.push_str(name)
}

fn texts_of(alloc: Global, numbers: &[u32], names: &Names) -> Result<Vec<String>, AllocError>
    ensures { IfOk result (λ texts. map string_bytes texts.items
        ≡ texts_of names.now numbers.now) }
{
    let mut texts = Vec::with_capacity(alloc, numbers.len())?;
    for number in numbers {
        texts.push(String::from_str(alloc, name_at(names, *number))?)?;
    }
    Ok(texts)
}
