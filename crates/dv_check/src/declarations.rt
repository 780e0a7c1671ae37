//! The names that an atomic model declares.

ghost use Rattle.std.specs.Prelude.{◌≡◌, map, IfOk};
ghost use Rattle.std.specs.List.{flat_map};
ghost use Rattle.dv_eval.specs.Scope.{phases_in};
ghost use Rattle.dv_syntax.specs.Trees.{atomic_of, hold_of, rule_of, ticks_of};
ghost use Rattle.dv_check.specs.Findings.{with_refusals};
ghost use Rattle.dv_check.specs.Tables.{value_for};
ghost use Rattle.dv_check.specs.Rules.{collection_refusals, declaration_refusals, hold_refusals, is_capacity, is_out_of_range};
ghost use Rattle.dv_check.specs.Rules.{items_refusals, known_by, known_in, phase_refusals, offset_in, rule_refusals, sort_in};
ghost use Rattle.dv_check.specs.Rules.{sort_of, start_refusals, ticks_refusals, variable_refusals};

use crate::directory::Directory;
use crate::environment::Environment;
use crate::expression::check_offset;
use crate::findings::Findings;
use crate::name_set::NameSet;
use crate::names;
use crate::statements::check_statements;
use dv_bag::{Discipline, GREATEST_COUNT, ValueType};
use dv_eval::VariableRange;
use dv_lex::RefusalNumber;
use dv_syntax::{Atomic, Declaration, Hold, Name, Rule, Start, StateCollection, Ticks, Variable};
use std::alloc::{AllocError, Global};

/// What a name denotes at a place in an atomic model.
#[derive(Clone, Copy, PartialEq, Eq)]
pub enum NameSort {
    /// A variable of the state, which holds a number.
    Variable,
    /// A flag of the state.
    Flag,
    /// A bag or a queue of the state.
    Held(Discipline),
    /// An input port.
    Input,
    /// An output port.
    Output,
    /// The variable of a loop around the offset.
    LoopVariable,
}

/// The names that an atomic model declares.
#[derive(Drop)]
pub struct Declarations {
    /// What the name of each port, variable, flag, bag or queue denotes, by its first declaration.
    pub sorts: Directory<NameSort>,
    /// The offset of the first declaration of each name of a port, variable, flag, bag or queue.
    pub offsets: Directory<u32>,
    /// The names of the phases.
    pub phases: NameSet,
}

fn sort_of(declaration: &Declaration) -> NameSort
    ensures { result ≡ sort_of declaration.now }
{
    match declaration {
        Declaration::In(_) => NameSort::Input,
        Declaration::Out(_) => NameSort::Output,
        Declaration::Var(_) => NameSort::Variable,
        Declaration::Flag(_) => NameSort::Flag,
        Declaration::Held(collection) => NameSort::Held(collection.discipline),
    }
}

/// What the names of ports, variables, flags, bags and queues denote.
#[tactic(auto, using(crate::proofs::Firsts::first_of_none))]
pub fn sorts_of(
    alloc: Global,
    declarations: &[Declaration],
) -> Result<Directory<NameSort>, AllocError>
    ensures { IfOk result (λ sorts. value_for sorts ≡ sort_in declarations.now) }
{
    let mut sorts = Directory::with_room(alloc, declarations.len())?;
    for declaration in declarations {
        let name = names::name_of_declaration(declaration);
        sorts.add(name.number, sort_of(declaration))?;
    }
    Ok(sorts)
}

// The offsets of the first declarations of the names of ports, variables, flags, bags and queues.
#[tactic(auto, using(crate::proofs::Firsts::first_of_none))]
fn offsets_of(alloc: Global, declarations: &[Declaration]) -> Result<Directory<u32>, AllocError>
    ensures { IfOk result (λ offsets. value_for offsets ≡ offset_in declarations.now) }
{
    let mut offsets = Directory::with_room(alloc, declarations.len())?;
    for declaration in declarations {
        let name = names::name_of_declaration(declaration);
        offsets.add(name.number, name.offset)?;
    }
    Ok(offsets)
}

impl Declarations {
    /// The names that a model with these phases declares.
    pub fn of(alloc: Global, model: &Atomic, phases: Vec<Name>) -> Result<Self, AllocError>
        requires { phases.items ≡ phases_in (atomic_of model.now).phases }
        ensures { IfOk result (λ d. known_by d ≡ known_in (atomic_of model.now)) }
    {
        Ok(Declarations {
            sorts: sorts_of(alloc, &model.declarations)?,
            offsets: offsets_of(alloc, &model.declarations)?,
            phases: NameSet::of(alloc, phases)?,
        })
    }

    /// Tests the items of a model, one by one.
    pub fn check_items(&self, model: &Atomic, found: &mut Findings)
        ensures { found.new ≡ with_refusals found.old
            (items_refusals (known_by self.now) (atomic_of model.now)) }
    {
        check_declarations(&model.declarations, found);
        self.check_starts(&model.starts, found);
        self.check_holds(&model.holds, found);
        self.check_rules(&model.rules, found);
    }

    fn check_starts(&self, starts: &[Start], found: &mut Findings)
        ensures { found.new ≡ with_refusals found.old
            (flat_map (start_refusals (known_by self.now)) starts.now) }
    {
        for start in starts {
            self.check_phase(&start.phase, found);
        }
    }

    fn check_holds(&self, holds: &[Hold], found: &mut Findings)
        ensures { found.new ≡ with_refusals found.old (flat_map (hold_refusals (known_by self.now))
            (map hold_of holds.now)) }
    {
        for hold in holds {
            self.check_phase(&hold.phase, found);
            self.check_ticks(&hold.ticks, found);
        }
    }

    fn check_rules(&self, rules: &[Rule], found: &mut Findings)
        ensures { found.new ≡ with_refusals found.old (flat_map (rule_refusals (known_by self.now))
            (map rule_of rules.now)) }
    {
        for rule in rules {
            self.check_phase(&rule.phase, found);
            let environment = Environment::Model {
                declarations: self,
                rule: Some(rule.sort),
            };
            check_statements(&environment, &rule.body.statements, found);
        }
    }

    /// Tests the ticks of a hold.
    pub fn check_ticks(&self, ticks: &Ticks, found: &mut Findings)
        ensures { found.new ≡ with_refusals found.old
            (ticks_refusals (known_by self.now) (ticks_of ticks.now)) }
    {
        match ticks {
            Ticks::Forever => {}
            Ticks::After(expression) => {
                let environment = Environment::Model {
                    declarations: self,
                    rule: None,
                };
                check_offset(ValueType::Number, &environment, expression, found);
            }
        }
    }

    /// Tests that a phase is declared.
    pub fn check_phase(&self, phase: &Name, found: &mut Findings)
        ensures { found.new ≡ with_refusals found.old
            (phase_refusals (known_by self.now) phase.now) }
    {
        if !self.phases.contains(phase.number) {
            found.note(RefusalNumber::E7, phase.offset);
        }
    }
}

/// Whether a range is empty, or does not contain the start value.
pub fn is_out_of_range(range: VariableRange) -> bool
    ensures { result ≡ is_out_of_range range }
{
    let VariableRange { low, high, start } = range;
    high < low || start < low || high < start
}

/// Whether a bag or a queue may have this capacity.
pub fn is_capacity(values: u64) -> bool
    ensures { result ≡ is_capacity values }
{
    1 <= values && values <= GREATEST_COUNT
}

fn check_declarations(declarations: &[Declaration], found: &mut Findings)
    ensures { found.new ≡ with_refusals found.old
        (flat_map declaration_refusals declarations.now) }
{
    for declaration in declarations {
        check_declaration(declaration, found);
    }
}

fn check_declaration(declaration: &Declaration, found: &mut Findings)
    ensures { found.new ≡ with_refusals found.old (declaration_refusals declaration.now) }
{
    match declaration {
        Declaration::In(_) | Declaration::Out(_) | Declaration::Flag(_) => {}
        Declaration::Var(variable) => check_variable(variable, found),
        Declaration::Held(collection) => check_capacity(collection, found),
    }
}

fn check_variable(variable: &Variable, found: &mut Findings)
    ensures { found.new ≡ with_refusals found.old (variable_refusals variable.now) }
{
    if is_out_of_range(VariableRange::of(variable)) {
        found.note(RefusalNumber::E11, variable.name.offset);
    }
}

fn check_capacity(collection: &StateCollection, found: &mut Findings)
    ensures { found.new ≡ with_refusals found.old (collection_refusals collection.now) }
{
    let capacity = collection.capacity.value.value() as u64;
    if !is_capacity(capacity) {
        found.note(RefusalNumber::E17, collection.capacity.offset);
    }
}
