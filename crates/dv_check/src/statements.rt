//! The statements of rules.

ghost use Rattle.std.specs.Prelude.{◌≡◌, not};
ghost use Rattle.dv_lex.specs.declared.error.RefusalNumber.TheVariants.{E9};
ghost use Rattle.dv_syntax.specs.Trees.{expression_of, statement_before, Statements, statements_of};
ghost use Rattle.dv_check.specs.Findings.{with_refusals};
ghost use Rattle.dv_check.specs.Names.{refusal_if};
ghost use Rattle.dv_check.specs.Rules.{assignment_refusals, change_refusals, changed_refusals, command_name_refusals, is_output_rule};
ghost use Rattle.dv_check.specs.Rules.{known_at, loop_variable_refusals, phase_refusals, sent_port_refusals, statements_refusals};

use crate::declarations::NameSort;
use crate::environment::Environment;
use crate::expression::{check_held, check_offset, check_value, type_of_name};
use crate::findings::Findings;
use crate::wanted::Wanted;
use dv_bag::{Change, Discipline, ValueType};
use dv_lex::RefusalNumber;
use dv_syntax::laws::trees_keep_blocks;
use dv_syntax::{Command, Expr, Name, RuleSort, Stmt};

/// Tests the statements of a block.
#[cycle(statements)]
pub fn check_statements<'a>(
    environment: &'a Environment<'a>,
    statements: &'a [Stmt],
    found: &mut Findings,
)
    ensures { found.new ≡ with_refusals found.old
        (statements_refusals (known_at environment.now) (statements_of statements.now)) }
{
    for statement in statements {
        check_statement(environment, statement, found);
    }
}

#[cycle(statements)]
fn check_statement<'a>(environment: &'a Environment<'a>, statement: &'a Stmt, found: &mut Findings)
    ensures { (rest : Statements)
        → with_refusals found.new (statements_refusals (known_at environment.now) rest)
        ≡ with_refusals found.old (statements_refusals (known_at environment.now)
        (statement_before statement.now rest)) }
{
    // For the prover alone.
    trees_keep_blocks();
    match statement {
        Stmt::Assign { variable, value } => {
            check_assigned(environment, variable, found);
            let wanted = type_of_name(environment.sort(variable.number));
            check_value(wanted, environment, value, found);
        }
        Stmt::Command {
            command,
            offset,
            name,
        } => {
            deny_in_output(environment, *offset, found);
            check_command_name(*command, environment, name, found);
        }
        Stmt::Send {
            offset,
            port,
            value,
        } => {
            deny_outside_output(environment, *offset, found);
            check_sent_port(environment, port, found);
            check_offset(ValueType::Number, environment, value, found);
        }
        Stmt::If {
            condition,
            then_block,
            ..
        } => {
            check_offset(ValueType::Truth, environment, condition, found);
            check_statements(environment, &then_block.statements, found);
        }
        Stmt::IfElse {
            condition,
            then_block,
            else_block,
            ..
        } => {
            check_offset(ValueType::Truth, environment, condition, found);
            check_statements(environment, &then_block.statements, found);
            check_statements(environment, &else_block.statements, found);
        }
        Stmt::For {
            variable,
            bag,
            block,
            ..
        } => {
            check_loop_variable(environment, variable, found);
            check_held(Wanted::Values, environment, bag, found);
            let inner = Environment::Loop {
                variable: *variable,
                outer: environment,
            };
            check_statements(&inner, &block.statements, found);
        }
        Stmt::Change {
            change,
            offset,
            value,
            collection,
        } => check_change(*change, environment, *offset, value, collection, found),
    }
}

fn check_assigned(environment: &Environment, variable: &Name, found: &mut Findings)
    ensures { found.new ≡ with_refusals found.old
        (assignment_refusals (known_at environment.now).rule
        ((known_at environment.now).sort variable.now.number) variable.now.offset) }
{
    match environment.sort(variable.number) {
        None => found.note(RefusalNumber::E7, variable.offset),
        Some(NameSort::Held(_) | NameSort::Input | NameSort::Output) => {
            found.note(RefusalNumber::E8, variable.offset);
        }
        Some(NameSort::Variable | NameSort::Flag) => {
            deny_in_output(environment, variable.offset, found);
        }
        Some(NameSort::LoopVariable) => found.note(RefusalNumber::E9, variable.offset),
    }
}

// The name of a command: a phase for `goto`, or a queue for `pop`.
fn check_command_name(
    command: Command,
    environment: &Environment,
    name: &Name,
    found: &mut Findings,
)
    ensures { found.new ≡ with_refusals found.old
        (command_name_refusals (known_at environment.now) command name.now) }
{
    match command {
        Command::Goto => check_goto_phase(environment, name, found),
        Command::Pop => check_changed(Discipline::Queue, environment, name, found),
    }
}

fn check_goto_phase(environment: &Environment, phase: &Name, found: &mut Findings)
    ensures { found.new ≡ with_refusals found.old
        (phase_refusals (known_at environment.now) phase.now) }
{
    if !environment.has_phase(phase.number) {
        found.note(RefusalNumber::E7, phase.offset);
    }
}

fn check_sent_port(environment: &Environment, port: &Name, found: &mut Findings)
    ensures { found.new ≡ with_refusals found.old (sent_port_refusals
        ((known_at environment.now).sort port.now.number) port.now.offset) }
{
    match environment.sort(port.number) {
        None => found.note(RefusalNumber::E7, port.offset),
        Some(NameSort::Output) => {}
        Some(_) => found.note(RefusalNumber::E8, port.offset),
    }
}

// The name of a loop's variable must be its own: of two equal names the second in the text is
// refused.
fn check_loop_variable(environment: &Environment, variable: &Name, found: &mut Findings)
    ensures { found.new ≡ with_refusals found.old (loop_variable_refusals
        ((known_at environment.now).offset variable.now.number) variable.now.offset) }
{
    if let Some(declared) = environment.offset(variable.number) {
        found.note(RefusalNumber::E6, declared.max(variable.offset));
    }
}

// A change of a collection by a value.
fn check_change(
    change: Change,
    environment: &Environment,
    offset: u32,
    value: &Expr,
    collection: &Name,
    found: &mut Findings,
)
    ensures { found.new ≡ with_refusals found.old (change_refusals (known_at environment.now)
        change offset (expression_of value.now) collection.now) }
{
    deny_in_output(environment, offset, found);
    check_offset(ValueType::Number, environment, value, found);
    check_changed(change.discipline(), environment, collection, found);
}

// The collection that a statement changes.
fn check_changed(
    discipline: Discipline,
    environment: &Environment,
    name: &Name,
    found: &mut Findings,
)
    ensures { found.new ≡ with_refusals found.old (changed_refusals discipline
        ((known_at environment.now).sort name.now.number) name.now.offset) }
{
    match environment.sort(name.number) {
        None => found.note(RefusalNumber::E7, name.offset),
        Some(NameSort::Held(other)) => {
            if other != discipline {
                found.note(RefusalNumber::E8, name.offset);
            }
        }
        Some(_) => found.note(RefusalNumber::E8, name.offset),
    }
}

// Refuses a statement that changes the state in an output rule.
fn deny_in_output(environment: &Environment, offset: u32, found: &mut Findings)
    ensures { found.new ≡ with_refusals found.old
        (refusal_if (is_output_rule (known_at environment.now).rule) E9 offset) }
{
    if is_output_rule(environment.rule()) {
        found.note(RefusalNumber::E9, offset);
    }
}

// Refuses `send` outside of output rules.
fn deny_outside_output(environment: &Environment, offset: u32, found: &mut Findings)
    ensures { found.new ≡ with_refusals found.old
        (refusal_if (not (is_output_rule (known_at environment.now).rule)) E9 offset) }
{
    if !is_output_rule(environment.rule()) {
        found.note(RefusalNumber::E9, offset);
    }
}

fn is_output_rule(rule: Option<RuleSort>) -> bool
    ensures { result ≡ is_output_rule rule }
{
    rule == Some(RuleSort::Output)
}
