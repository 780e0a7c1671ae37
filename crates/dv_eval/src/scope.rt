//! The names that an atomic model declares.

ghost use Rattle.std.specs.Prelude.{◌≡◌, ℕ, [], length, slice_get, map, option_map, IfOk, IfSome, OnOk, OnSome};
ghost use Rattle.dv_syntax.specs.Trees.{atomic_of, phases_of};
ghost use Rattle.dv_eval.specs.NameLists.{names_in, variables_in};
ghost use Rattle.dv_eval.specs.Scope.{bound_value, inputs_in, names_of, nothing_declared, outputs_in, phases_in, index_of};
ghost use Rattle.dv_eval.specs.Scope.{range_of, scope_of, state_variable_of, state_variables_in, with_name, with_names};
ghost use Rattle.dv_eval.specs.Scope.{with_variable, with_variables};

use crate::name_list::{FewNames, NameList};
use crate::variable_list::{FewVariables, VariableList};
use arrayvec::ArrayVec;
use dv_bag::Discipline;
use dv_syntax::{Atomic, Bound, Declaration, Name, Phases, Variable};
use indexmap::{IndexMap, IndexSet};
use std::alloc::{AllocError, Global};
use std::marker::Model;

/// The range of a variable, and its value at the start.
#[derive(Clone, Copy, PartialEq, Eq)]
pub struct VariableRange {
    /// The least number that the variable may hold.
    pub low: i64,
    /// The greatest number that the variable may hold.
    pub high: i64,
    /// The number that it holds at the start.
    pub start: i64,
}

impl VariableRange {
    /// The range that a `var` item declares.
    pub fn of(variable: &Variable) -> Self
        ensures { result ≡ range_of variable.now }
    {
        VariableRange {
            low: bound_value(&variable.low),
            high: bound_value(&variable.high),
            start: bound_value(&variable.start),
        }
    }
}

fn bound_value(bound: &Bound) -> i64
    ensures { result ≡ bound_value bound.now }
{
    let magnitude = bound.magnitude.value.value();
    match bound.minus {
        Some(_) => -magnitude,
        None => magnitude,
    }
}

/// What a state variable may hold, and its value at the start.
#[derive(Clone, Copy, PartialEq, Eq)]
pub enum Domain {
    /// A number of a range.
    Number(VariableRange),
    /// A truth value.
    Flag {
        /// The truth value at the start.
        start: bool,
    },
    /// A bag or a queue. It is empty at the start.
    Held {
        /// Whether it is a bag or a queue.
        discipline: Discipline,
        /// The most values that it may hold, copies counted.
        capacity: u64,
    },
}

/// The name and the domain of the state variable that a declaration declares, if it declares one.
pub fn state_variable_of(declaration: &Declaration) -> Option<(Name, Domain)>
    ensures { result ≡ state_variable_of declaration.now }
{
    match declaration {
        Declaration::In(_) | Declaration::Out(_) => None,
        Declaration::Var(variable) => {
            Some((variable.name, Domain::Number(VariableRange::of(variable))))
        }
        Declaration::Flag(flag) => Some((flag.name, Domain::Flag { start: flag.start })),
        Declaration::Held(collection) => {
            let domain = Domain::Held {
                discipline: collection.discipline,
                capacity: collection.capacity.value.value() as u64,
            };
            Some((collection.name, domain))
        }
    }
}

/// The names that an atomic model declares, each kind in the order of its declarations. If a name
/// is declared twice, the first declaration counts.
#[derive(Drop)]
pub struct Scope {
    variables: VariableList,
    phases: NameList,
    inputs: NameList,
    outputs: NameList,
}

impl Model for Scope {
    ghost use Rattle.dv_eval.specs.NameLists.{names_in, variables_in};
    ghost use Rattle.dv_eval.specs.Scope as scope;

    ghost Value = { scope.Scope };

    ghost view = { λ e. record {
      variables = variables_in e.variables;
      phases = names_in e.phases;
      inputs = names_in e.inputs;
      outputs = names_in e.outputs;
    } };
}

impl Scope {
    /// A scope without names.
    pub fn new(alloc: Global) -> Self
        ensures { result ≡ nothing_declared }
    {
        Scope {
            variables: VariableList::new(alloc),
            phases: NameList::new(),
            inputs: NameList::new(),
            outputs: NameList::new(),
        }
    }

    /// The names of a model.
    ///
    /// # Errors
    ///
    /// No memory for the names.
    pub fn of(alloc: Global, model: &Atomic) -> Result<Self, AllocError>
        ensures { IfOk result (λ scope. scope ≡ scope_of (atomic_of model.now)) }
    {
        let variables = variables_of(alloc, &model.declarations)?;
        let phases = phase_names(alloc, &model.phases)?;
        let (inputs, outputs) = port_names(alloc, &model.declarations)?;
        Ok(Scope {
            variables,
            phases,
            inputs,
            outputs,
        })
    }

    /// The index of a variable, a flag, a bag or a queue.
    pub fn variable(&self, name: u32) -> Option<usize>
        ensures { result ≡ index_of name (names_of self.now.variables) }
    {
        self.variables.index_of(name)
    }

    /// The index of a phase.
    pub fn phase(&self, name: u32) -> Option<u32>
        ensures { result ≡ index_of name self.now.phases }
    {
        self.phases.index_number(name)
    }

    /// The index of an input port.
    pub fn input(&self, name: u32) -> Option<usize>
        ensures { result ≡ index_of name self.now.inputs }
    {
        self.inputs.index_of(name)
    }

    /// The index of an output port.
    pub fn output(&self, name: u32) -> Option<usize>
        ensures { result ≡ index_of name self.now.outputs }
    {
        self.outputs.index_of(name)
    }

    /// The domain of the variable, flag, bag or queue at an index.
    pub fn domain(&self, index: usize) -> Option<Domain>
        ensures { result ≡ option_map (λ v. v.1) (slice_get self.now.variables index) }
    {
        self.variables.domains().get(index).copied()
    }

    /// The name of the phase at an index.
    pub fn phase_name(&self, index: u32) -> Option<u32>
        ensures { result ≡ slice_get self.now.phases index }
    {
        self.phases.as_slice().get(index as usize).copied()
    }

    /// The names of the variables, flags, bags and queues by index.
    pub fn variables(&self) -> &[u32]
        ensures { result.now ≡ names_of self.now.variables }
    {
        self.variables.names()
    }

    /// The domains of the variables, flags, bags and queues by index.
    pub fn domains(&self) -> &[Domain]
        ensures { result.now ≡ map (λ v. v.1) self.now.variables }
    {
        self.variables.domains()
    }

    /// The names of the phases by index.
    pub fn phases(&self) -> &[u32]
        ensures { result.now ≡ self.now.phases }
    {
        self.phases.as_slice()
    }

    /// The names of the input ports by index.
    pub fn inputs(&self) -> &[u32]
        ensures { result.now ≡ self.now.inputs }
    {
        self.inputs.as_slice()
    }

    /// The names of the output ports by index.
    pub fn outputs(&self) -> &[u32]
        ensures { result.now ≡ self.now.outputs }
    {
        self.outputs.as_slice()
    }

    /// The number of output ports.
    pub fn output_count(&self) -> usize
        ensures { result ≡ length self.now.outputs }
    {
        self.outputs.as_slice().len()
    }
}

fn variables_of(alloc: Global, declarations: &[Declaration]) -> Result<VariableList, AllocError>
    ensures { IfOk result (λ variables. variables_in variables
        ≡ with_variables [] (state_variables_in declarations.now)) }
{
    match few_variables(alloc, declarations)? {
        Some(variables) => Ok(VariableList::Few(variables)),
        None => Ok(VariableList::Many(many_variables(alloc, declarations)?)),
    }
}

// The variables, flags, bags and queues, if they are few.
fn few_variables(
    alloc: Global,
    declarations: &[Declaration],
) -> Result<Option<FewVariables>, AllocError>
    ensures { IfOk result (λ found. IfSome found (λ variables. variables
        ≡ with_variables [] (state_variables_in declarations.now))) }
{
    let mut variables = FewVariables::new(alloc);
    for declaration in declarations {
        if let Some((name, domain)) = state_variable_of(declaration) {
            if !variables.declare(name, domain)? {
                return Ok(None);
            }
        }
    }
    Ok(Some(variables))
}

fn many_variables(
    alloc: Global,
    declarations: &[Declaration],
) -> Result<IndexMap<u32, Domain>, AllocError>
    ensures { IfOk result (λ variables. variables.entries
        ≡ with_variables [] (state_variables_in declarations.now)) }
{
    let mut variables = IndexMap::new(alloc);
    for declaration in declarations {
        if let Some((name, domain)) = state_variable_of(declaration) {
            declare_variable(&mut variables, name, domain)?;
        }
    }
    Ok(variables)
}

// The names of the input ports and of the output ports.
fn port_names(
    alloc: Global,
    declarations: &[Declaration],
) -> Result<(NameList, NameList), AllocError>
    ensures { IfOk result
        (λ names. (names_in names.0 ≡ with_names [] (inputs_in declarations.now))
        × (names_in names.1 ≡ with_names [] (outputs_in declarations.now))) }
{
    let inputs = input_names(alloc, declarations)?;
    let outputs = output_names(alloc, declarations)?;
    Ok((inputs, outputs))
}

fn input_names(alloc: Global, declarations: &[Declaration]) -> Result<NameList, AllocError>
    ensures { IfOk result (λ names. names_in names ≡ with_names [] (inputs_in declarations.now)) }
{
    match few_input_names(declarations) {
        Some(names) => Ok(NameList::Few(names)),
        None => Ok(NameList::Many(many_input_names(alloc, declarations)?)),
    }
}

// The names of the input ports, if they are few.
fn few_input_names(declarations: &[Declaration]) -> Option<FewNames>
    ensures { IfSome result (λ names. names.items ≡ with_names [] (inputs_in declarations.now)) }
{
    let mut names = ArrayVec::new();
    for declaration in declarations {
        if let Declaration::In(port) = declaration {
            declare_among_few(&mut names, port)?;
        }
    }
    Some(names)
}

fn many_input_names(
    alloc: Global,
    declarations: &[Declaration],
) -> Result<IndexSet<u32>, AllocError>
    ensures { IfOk result (λ names. names.keys ≡ with_names [] (inputs_in declarations.now)) }
{
    let mut names = IndexSet::new(alloc);
    for declaration in declarations {
        if let Declaration::In(port) = declaration {
            declare_name(&mut names, port)?;
        }
    }
    Ok(names)
}

fn output_names(alloc: Global, declarations: &[Declaration]) -> Result<NameList, AllocError>
    ensures { IfOk result (λ names. names_in names
        ≡ with_names [] (outputs_in declarations.now)) }
{
    match few_output_names(declarations) {
        Some(names) => Ok(NameList::Few(names)),
        None => Ok(NameList::Many(many_output_names(alloc, declarations)?)),
    }
}

// The names of the output ports, if they are few.
fn few_output_names(declarations: &[Declaration]) -> Option<FewNames>
    ensures { IfSome result (λ names. names.items
        ≡ with_names [] (outputs_in declarations.now)) }
{
    let mut names = ArrayVec::new();
    for declaration in declarations {
        if let Declaration::Out(port) = declaration {
            declare_among_few(&mut names, port)?;
        }
    }
    Some(names)
}

fn many_output_names(
    alloc: Global,
    declarations: &[Declaration],
) -> Result<IndexSet<u32>, AllocError>
    ensures { IfOk result (λ names. names.keys ≡ with_names [] (outputs_in declarations.now)) }
{
    let mut names = IndexSet::new(alloc);
    for declaration in declarations {
        if let Declaration::Out(port) = declaration {
            declare_name(&mut names, port)?;
        }
    }
    Ok(names)
}

fn phase_names(alloc: Global, phases: &[Phases]) -> Result<NameList, AllocError>
    ensures { IfOk result (λ names. names_in names
        ≡ with_names [] (phases_in (map phases_of phases.now))) }
{
    match few_phase_names(phases) {
        Some(names) => Ok(NameList::Few(names)),
        None => Ok(NameList::Many(many_phase_names(alloc, phases)?)),
    }
}

// The names of the phases, if they are few.
fn few_phase_names(phases: &[Phases]) -> Option<FewNames>
    ensures { IfSome result (λ names. names.items
        ≡ with_names [] (phases_in (map phases_of phases.now))) }
{
    let mut names = ArrayVec::new();
    for item in phases {
        declare_all_among_few(&mut names, &item.names)?;
    }
    Some(names)
}

fn many_phase_names(alloc: Global, phases: &[Phases]) -> Result<IndexSet<u32>, AllocError>
    ensures { IfOk result (λ names. names.keys
        ≡ with_names [] (phases_in (map phases_of phases.now))) }
{
    let mut names = IndexSet::new(alloc);
    for item in phases {
        declare_names(&mut names, &item.names)?;
    }
    Ok(names)
}

fn declare_variable(
    variables: &mut IndexMap<u32, Domain>,
    name: Name,
    domain: Domain,
) -> Result<(), AllocError>
    ensures { OnOk result (variables.new.entries
        ≡ with_variable variables.old.entries (name, domain)) }
{
    if !variables.contains_key(&name.number) {
        variables.insert(name.number, domain)?;
    }
    Ok(())
}

fn declare_name(names: &mut IndexSet<u32>, name: &Name) -> Result<(), AllocError>
    ensures { OnOk result (names.new.keys ≡ with_name names.old.keys name.now) }
{
    names.insert(name.number)?;
    Ok(())
}

fn declare_names(names: &mut IndexSet<u32>, declared: &[Name]) -> Result<(), AllocError>
    ensures { OnOk result (names.new.keys ≡ with_names names.old.keys declared.now) }
{
    for name in declared {
        declare_name(names, name)?;
    }
    Ok(())
}

// Adds a name to a short list if it is new: `None` if there is no room.
fn declare_among_few(names: &mut FewNames, name: &Name) -> Option<()>
    ensures { OnSome result (names.new.items ≡ with_name names.old.items name.now) }
{
    if names.as_slice().contains(&name.number) {
        return Some(());
    }
    names.try_push(name.number).ok()
}

fn declare_all_among_few(names: &mut FewNames, declared: &[Name]) -> Option<()>
    ensures { OnSome result (names.new.items ≡ with_names names.old.items declared.now) }
{
    for name in declared {
        declare_among_few(names, name)?;
    }
    Some(())
}
