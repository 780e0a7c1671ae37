//! The programs of rules and holds.

ghost use Rattle.std.specs.Prelude.{◌≡◌, IfOk};
ghost use Rattle.dv_code.specs.Shape.{AreSmall};
ghost use Rattle.dv_syntax.specs.Trees.{expression_of, statements_of};
ghost use Rattle.dv_gen.specs.Emission.{IsHoldTicks, IsRuleBody, hold_code, rule_code};
ghost use Rattle.dv_gen.specs.Resolution.{program_sort, tables_of};

use crate::draft::Draft;
use crate::expression::emit_expression;
use crate::laws::generated_programs_are_valid;
use crate::loops::Loops;
use crate::names::Names;
use crate::statement::emit_statements;
use dv_code::{Instruction, ProgramSort, Shape, Tables, Valid};
use dv_syntax::{Expr, RuleSort, Stmt};
use std::alloc::{AllocError, Global};
use std::sync::Arc;

/// The program of a rule with these statements.
///
/// # Errors
///
/// No memory for the program, or more instructions than a program may have.
pub fn rule_program(
    alloc: Global,
    statements: &[Stmt],
    sort: RuleSort,
    names: &Names,
    tables: &Arc<Tables>,
) -> Result<Valid, AllocError>
    requires tables { tables.now.value ≡ tables_of names.now }
    requires small { AreSmall (tables_of names.now).slots }
    requires body { IsRuleBody names.now sort (statements_of statements.now) }
    ensures { IfOk result (λ program. program
        ≡ rule_code names.now sort (statements_of statements.now)) }
{
    // For the prover alone.
    generated_programs_are_valid();
    let mut draft = Draft::new(alloc);
    emit_statements(statements, names, &Loops::Outermost, &mut draft)?;
    draft.push(Instruction::End)?;
    let shape = Shape::new(Arc::try_clone(tables)?, program_sort(sort));
    Ok(Valid::adopt(shape, draft.finish()))
}

/// The program of a hold with these ticks.
///
/// # Errors
///
/// No memory for the program, or more instructions than a program may have.
pub fn hold_program(
    alloc: Global,
    ticks: &Expr,
    names: &Names,
    tables: &Arc<Tables>,
) -> Result<Valid, AllocError>
    requires tables { tables.now.value ≡ tables_of names.now }
    requires small { AreSmall (tables_of names.now).slots }
    requires ticks { IsHoldTicks names.now (expression_of ticks.now) }
    ensures { IfOk result (λ program. program ≡ hold_code names.now (expression_of ticks.now)) }
{
    // For the prover alone.
    generated_programs_are_valid();
    let mut draft = Draft::new(alloc);
    emit_expression(ticks, names, &Loops::Outermost, &mut draft)?;
    draft.push(Instruction::End)?;
    let shape = Shape::new(Arc::try_clone(tables)?, ProgramSort::Hold);
    Ok(Valid::adopt(shape, draft.finish()))
}

fn program_sort(sort: RuleSort) -> ProgramSort
    ensures { result ≡ program_sort sort }
{
    match sort {
        RuleSort::Output => ProgramSort::Output,
        RuleSort::Internal => ProgramSort::Internal,
        RuleSort::External => ProgramSort::External,
        RuleSort::Confluent => ProgramSort::Confluent,
    }
}
