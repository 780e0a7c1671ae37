//! The programs of the texts, and the same with another instruction at an address, for the
//! validator.

ghost use Rattle.dv_gen.specs.ModelCode.{IsCompilable};
ghost use Rattle.dv_syntax.specs.Trees.{atomic_of};

use crate::taken::{Answers, taken};
use dv_bag::Discipline;
use dv_code::{Action, Binary, Deed, Instruction, Leaf, Shape, Source, Tables, Valid};
use dv_syntax::Atomic;
use std::alloc::AllocError;
use std::process::Abort;
use std::sync::Arc;
use std::test::Fail;
use test_samples::{Compiled, atomic_at, checked, compile, model_texts};

fn shape_like(program: &Valid, tables: &Arc<Tables>) -> Result<Shape, AllocError> {
    Ok(Shape::new(Arc::try_clone(tables)?, program.shape().sort()))
}

/// Other instructions for an address: most are those of no program there.
fn others(address: u32, instruction: Instruction) -> [Instruction; 14] {
    [
        turned(instruction),
        Instruction::Push(Leaf::Number(1)),
        Instruction::Push(Leaf::Truth(true)),
        Instruction::Push(Leaf::Item(0)),
        Instruction::Push(Leaf::Size(Source::Own(Discipline::Bag, 0))),
        Instruction::Push(Leaf::Front(0)),
        Instruction::Combine(Binary::Add),
        Instruction::Perform(Action::Send(0)),
        Instruction::Perform(Action::SetVariable(0)),
        Instruction::Do(Deed::Go(0)),
        Instruction::Do(Deed::Pop(0)),
        Instruction::Jump(address.saturating_add(2)),
        Instruction::Next(address.saturating_sub(2)),
        Instruction::End,
    ]
}

/// The instruction with another aim, or another leaf.
fn turned(instruction: Instruction) -> Instruction {
    match instruction {
        Instruction::Push(_) => Instruction::Push(Leaf::Elapsed),
        Instruction::Jump(to) => Instruction::Jump(to.saturating_add(1)),
        Instruction::JumpFalse(to) => Instruction::JumpFalse(to.saturating_add(1)),
        Instruction::FalseKeep(to) => Instruction::TrueKeep(to),
        Instruction::TrueKeep(to) => Instruction::FalseKeep(to.saturating_add(1)),
        Instruction::Loop(source, past) => Instruction::Loop(source, past.saturating_add(1)),
        Instruction::Next(first) => Instruction::Next(first.saturating_add(1)),
        other => other,
    }
}

/// Asks the validator about a program with each other instruction at each address.
fn change_each<R: Abort + AllocGlobal>(
    rt: &R,
    program: &Valid,
    tables: &Arc<Tables>,
    answers: &mut Answers,
) -> Result<(), AllocError> {
    for (address, instruction) in program.code().iter().enumerate() {
        let mut list = program.code().to_vec(rt.alloc())?;
        for other in others(address as u32, *instruction) {
            if let Some(changed) = list.get_mut(address) {
                *changed = other;
            }
            let found = taken(rt, shape_like(program, tables)?, &list)?;
            answers.count(found.is_some());
        }
    }
    Ok(())
}

/// Asks the validator about a program, which it takes, and about changed ones.
fn change_program<R: Abort + AllocGlobal>(
    rt: &R,
    program: &Valid,
    tables: &Arc<Tables>,
    answers: &mut Answers,
) -> Result<(), AllocError> {
    let found = taken(rt, shape_like(program, tables)?, program.code())?;
    assert!(rt; found.is_some());
    change_each(rt, program, tables, answers)
}

fn change_programs<R: Abort + AllocGlobal>(
    rt: &R,
    model: &Compiled,
    answers: &mut Answers,
) -> Result<(), AllocError> {
    for pair in &model.pairs(rt.alloc())? {
        change_program(rt, pair.program, &model.code.tables, answers)?;
    }
    Ok(())
}

/// Asks the validator about the programs of a model.
fn change_model<R: Abort + AllocGlobal>(
    rt: &R,
    model: &Atomic,
    answers: &mut Answers,
) -> Result<(), AllocError>
    requires { IsCompilable (atomic_of model.now) }
{
    let compiled = compile(rt.alloc(), model)?;
    change_programs(rt, &compiled, answers)
}

fn change_text<R: Abort + AllocGlobal>(
    rt: &R,
    text: &str,
    answers: &mut Answers,
) -> Result<(), AllocError> {
    let checked = checked(rt.alloc(), text).expect(rt, text);
    for index in 0..checked.file.models.len() {
        if let Some(model) = atomic_at(&checked, index) {
            change_model(rt, model, answers)?;
        }
    }
    Ok(())
}

#[test]
fn programs_are_taken_and_changed_ones_as_the_definition_says(rt: HostRuntime) -> Result<(), Fail> {
    let mut answers = Answers::none();
    for text in model_texts() {
        change_text(&rt, text, &mut answers)?;
    }
    assert!(rt;
        answers.taken > 1_000 && answers.refused > 1_000,
        "{answers:?}"
    );
    Ok(())
}
