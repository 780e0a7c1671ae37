//! The validator.

ghost use Rattle.std.specs.Prelude.{◌≡◌, ◌↔◌, IfOk, IfSome, IsSome, IsTrue};
ghost use Rattle.dv_code.specs.Shape.{AreSmall};
ghost use Rattle.dv_code.specs.Valid.{IsProgram};

use crate::marks::Marks;
use dv_code::{Instruction, Shape, Valid};
use std::alloc::{AllocError, Global};

/// How many instructions a program has at most, so that each address has a number of 32 bits.
const GREATEST_LENGTH: usize = 0xffff_ffff;

/// The program, if it is valid for its shape: each address has a mark, which says what is on the
/// stack and which loops are around it, and each instruction agrees with the marks of the addresses
/// to which it leads. A list that is not valid is dropped.
///
/// Time and memory are linear in the number of instructions.
///
/// # Errors
///
/// No memory for the marks of the addresses.
pub fn validate(
    alloc: Global,
    shape: Shape,
    code: Vec<Instruction>,
) -> Result<Option<Valid>, AllocError>
    ensures program { IfOk result (λ valid.
        IfSome valid (λ v. v ≡ record { shape = shape; code = code.items })) }
    ensures exact { IfOk result (λ valid.
        IsSome valid ↔ IsProgram (record { shape = shape; code = code.items })) }
{
    if is_program(alloc, &shape, &code)? {
        Ok(Some(Valid::adopt(shape, code)))
    } else {
        Ok(None)
    }
}

/// Whether instructions are a program that is valid for a shape, or no memory for the marks.
fn is_program(alloc: Global, shape: &Shape, code: &[Instruction]) -> Result<bool, AllocError>
    ensures { IfOk result (λ valid.
        IsTrue valid ↔ IsProgram (record { shape = shape.now; code = code.now })) }
{
    // For the prover alone.
    bags_are_small(shape);
    if code.len() > GREATEST_LENGTH {
        return Ok(false);
    }
    match Marks::of(alloc, shape.sort(), code)? {
        None => Ok(false),
        Some(marks) => Ok(marks.fit(shape, code)),
    }
}

/// For the prover alone: no collection of a shape may have more values than the language allows.
fn bags_are_small(shape: &Shape)
    ensures { AreSmall shape.now.slots }
{
    let _ = shape.tables().slots();
}
