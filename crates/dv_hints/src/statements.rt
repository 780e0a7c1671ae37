//! The search for what is wrong in the statements of rules.

use crate::around::Around;
use crate::expressions::{look_at_held, look_through_assigned, look_through_taken};
use crate::known::Known;
use crate::reason::{Misplaced, Reason, Search};
use crate::sorts::NameSort;
use crate::taker::Taker;
use crate::wanted::Wanted;
use dv_bag::{Change, Discipline};
use dv_lex::RefusalNumber;
use dv_syntax::{Atomic, Command, Name, RuleSort, Stmt, Ticks};

/// Searches the starts, the holds and the rules of a model.
pub fn look_through_model(known: &Known, model: &Atomic, search: &mut Search) {
    for start in &model.starts {
        look_at_phase(known, &Around::of(None, start.phase), start.phase, search);
    }
    for hold in &model.holds {
        let around = Around::of(None, hold.phase);
        look_at_phase(known, &around, hold.phase, search);
        if let Ticks::After(expression) = &hold.ticks {
            look_through_taken(known, &around, Taker::Hold, expression, search);
        }
    }
    for rule in &model.rules {
        let around = Around::of(Some(rule.sort), rule.phase);
        look_at_phase(known, &around, rule.phase, search);
        look_through_statements(known, &around, &rule.body.statements, search);
    }
}

fn look_at_phase(known: &Known, around: &Around, phase: Name, search: &mut Search) {
    if !known.has_phase(phase.number) {
        search.note_name(phase, None, Wanted::Phase, around);
    }
}

#[cycle(statements)]
fn look_through_statements(
    known: &Known,
    around: &Around,
    statements: &[Stmt],
    search: &mut Search,
) {
    for statement in statements {
        look_through_statement(known, around, statement, search);
    }
}

#[cycle(statements)]
fn look_through_statement(known: &Known, around: &Around, statement: &Stmt, search: &mut Search) {
    match statement {
        Stmt::Assign { variable, value } => {
            look_at_assigned(known, around, *variable, search);
            look_through_assigned(known, around, *variable, value, search);
        }
        Stmt::Command {
            command,
            offset,
            name,
        } => look_at_command(known, around, *command, *offset, *name, search),
        Stmt::Send {
            offset,
            port,
            value,
        } => {
            if around.rule != Some(RuleSort::Output) {
                search.note_misplaced(*offset, Misplaced::Send(*port), around);
            }
            let sort = known.sort(around, port.number);
            search.note_name(*port, sort, Wanted::Sender, around);
            look_through_taken(known, around, Taker::Send, value, search);
        }
        Stmt::If {
            condition,
            then_block,
            ..
        } => {
            look_through_taken(known, around, Taker::Condition, condition, search);
            look_through_statements(known, around, &then_block.statements, search);
        }
        Stmt::IfElse {
            condition,
            then_block,
            else_block,
            ..
        } => {
            look_through_taken(known, around, Taker::Condition, condition, search);
            look_through_statements(known, around, &then_block.statements, search);
            look_through_statements(known, around, &else_block.statements, search);
        }
        Stmt::For {
            variable,
            bag,
            block,
            ..
        } => {
            look_at_loop_variable(known, around, *variable, search);
            look_at_held(known, around, Wanted::Values, *bag, search);
            let inner = around.inside(*variable);
            look_through_statements(known, &inner, &block.statements, search);
        }
        Stmt::Change {
            change,
            offset,
            value,
            collection,
        } => {
            deny_in_output(around, *offset, word_of_change(*change), search);
            look_through_taken(known, around, Taker::Change(*change), value, search);
            look_at_changed(known, around, change.discipline(), *collection, search);
        }
    }
}

/// Checks a name to which a value is assigned.
fn look_at_assigned(known: &Known, around: &Around, variable: Name, search: &mut Search) {
    match known.sort(around, variable.number) {
        Some(NameSort::LoopVariable) => {
            search.note_misplaced(variable.offset, Misplaced::LoopVariable(variable), around);
        }
        sort => {
            search.note_name(variable, sort, Wanted::Assigned, around);
            deny_in_output(around, variable.offset, ":=", search);
        }
    }
}

fn look_at_command(
    known: &Known,
    around: &Around,
    command: Command,
    offset: u32,
    name: Name,
    search: &mut Search,
) {
    match command {
        Command::Goto => {
            deny_in_output(around, offset, "goto", search);
            look_at_phase(known, around, name, search);
        }
        Command::Pop => {
            deny_in_output(around, offset, "pop", search);
            look_at_changed(known, around, Discipline::Queue, name, search);
        }
    }
}

/// Checks the name of a collection that is changed.
fn look_at_changed(
    known: &Known,
    around: &Around,
    discipline: Discipline,
    name: Name,
    search: &mut Search,
) {
    let sort = known.sort(around, name.number);
    search.note_name(name, sort, Wanted::Changed(discipline), around);
}

/// Checks the variable of a loop. Of two equal names, the second in the text is refused.
fn look_at_loop_variable(known: &Known, around: &Around, variable: Name, search: &mut Search) {
    if let Some(other) = offset_of_other(known, around, variable) {
        let offset = other.max(variable.offset);
        let reason = Reason::LoopVariable { variable, other };
        search.note(RefusalNumber::E6, offset, reason);
    }
}

/// The offset of an enclosing loop's variable, or of a declaration, with the same name as the
/// variable of a loop.
fn offset_of_other(known: &Known, around: &Around, variable: Name) -> Option<u32> {
    match around.loop_variable(variable.number) {
        Some(outer) => Some(outer.offset),
        None => Some(known.declared(variable.number)?.offset),
    }
}

fn deny_in_output(around: &Around, offset: u32, word: &'static str, search: &mut Search) {
    if around.rule == Some(RuleSort::Output) {
        search.note_misplaced(offset, Misplaced::Change(word), around);
    }
}

fn word_of_change(change: Change) -> &'static str {
    match change {
        Change::Add => "add",
        Change::Drop => "drop",
        Change::Push => "push",
    }
}
