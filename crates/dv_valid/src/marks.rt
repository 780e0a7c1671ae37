//! The marks of a program. All instructions but `Next` lead forward, and the mark of an address
//! follows from its instruction and the marks after it. So one pass from the last address to the
//! first finds the only marks that can fit.

ghost use Rattle.std.specs.Prelude.{◌≡◌, ◌≢◌, ℕ, ◌+◌, ◌<◌, ◌≤◌, List, [], ◌∷◌, length, slice_get, true, Some, IfOk, IfSome};
ghost use Rattle.std.specs.Prelude.{MatchOption, OnOk};
ghost use Rattle.dv_bag.specs.declared.value.ValueType.{ValueType};
ghost use Rattle.dv_code.specs.Known.{operand_type, result_type};
ghost use Rattle.dv_code.specs.Shape.{Shape, left_by};
ghost use Rattle.dv_code.specs.Valid.{Body as MeantBody, Mark as Meant, mark};
ghost use Rattle.dv_code.specs.Limits.{deepest_loops};
ghost use Rattle.dv_valid.specs.Nests.{bodies};
ghost use Rattle.dv_valid.specs.Stacks.{Keeps, types_at};
ghost use Rattle.dv_valid.specs.Marks.{AreNumbered, Fit, IsForcedAt, IsFound, IsNumbered, MayBeNumbered, Settles, mark_of};
ghost use Rattle.dv_valid.specs.Marks.{meaning, settling_address, with_top};

use crate::nest::{Body, Nest};
use crate::stacks::TypeStacks;
use dv_bag::value::ValueType;
use dv_code::types::{action_type, leaf_type, operand_type, result_type};
use dv_code::{Binary, Instruction, ProgramSort};
use std::alloc::{AllocError, Global};

/// The mark of an address: what holds there in every run. It has the types on the stack, as the
/// number of a stack of types, and the bodies of loops around the address.
#[derive(Clone, Copy)]
pub struct Mark {
    /// The number of the stack of types.
    pub types: usize,
    /// The bodies of loops around the address.
    pub nest: Nest,
}

/// A mark for each address of a program.
#[derive(Drop)]
pub struct Marks {
    /// The stacks of types, by their numbers.
    pub stacks: TypeStacks,
    /// The mark of each address.
    pub by_address: Vec<Mark>,
}

impl Marks {
    /// The only marks by which a program can be valid; `None` if there are no such marks.
    ///
    /// # Errors
    ///
    /// No memory for the marks, or for their stacks of types.
    pub fn of(
        alloc: Global,
        sort: ProgramSort,
        code: &[Instruction],
    ) -> Result<Option<Marks>, AllocError>
        ensures numbered { IfOk result (λ found. IfSome found AreNumbered) }
        ensures one_each { IfOk result (λ found.
            IfSome found (λ marks. length marks.by_address.items ≡ length code.now)) }
        ensures only { IfOk result (λ found. (shape : Shape) (marks : ℕ → Meant)
            → shape.sort ≡ sort → Fit shape code.now marks
            → MatchOption found ⊥ (λ these. (address : ℕ)
            → address < length code.now → mark_of these address ≡ marks address)) }
    {
        let stacks = TypeStacks::new(alloc)?;
        let outside = Mark {
            types: stacks.empty(),
            nest: Nest::Outside,
        };
        let mut marks = Marks {
            stacks,
            by_address: vec![in alloc; outside; code.len()]?,
        };
        for address in (0..code.len()).rev() {
            if !marks.settle(sort, address, code[address])? {
                return Ok(None);
            }
        }
        Ok(Some(marks))
    }

    /// The mark of an address, if it is one of the program.
    pub fn mark(&self, address: usize) -> Option<Mark>
        ensures { result ≡ slice_get self.now.by_address.items address }
    {
        self.by_address.get(address).copied()
    }

    /// Finds the mark of an address, if those after it are known. Returns whether there is one.
    fn settle(
        &mut self,
        sort: ProgramSort,
        address: usize,
        instruction: Instruction,
    ) -> Result<bool, AllocError>
        requires numbered { AreNumbered self.old }
        requires address { address < length self.old.by_address.items }
        ensures numbered { OnOk result (AreNumbered self.new) }
        ensures one_each { OnOk result
            (length self.new.by_address.items ≡ length self.old.by_address.items) }
        ensures others { OnOk result ((other : ℕ) → other ≢ address
            → mark_of self.new other ≡ mark_of self.old other) }
        ensures only { IfOk result (λ done. (here : Meant)
            → IsForcedAt (left_by sort) self.old address instruction here
            → (done ≡ true) × (mark_of self.new address ≡ here)) }
    {
        let Some(mark) = self.before(sort, address, instruction)? else {
            return Ok(false);
        };
        self.by_address[address] = mark;
        Ok(true)
    }

    /// The mark of an address by those after it, if one fits.
    fn before(
        &mut self,
        sort: ProgramSort,
        address: usize,
        instruction: Instruction,
    ) -> Result<Option<Mark>, AllocError>
        requires numbered { AreNumbered self.old }
        requires address { address < length self.old.by_address.items }
        ensures addresses { OnOk result (self.new.by_address.items ≡ self.old.by_address.items) }
        ensures kept { OnOk result (Keeps self.old.stacks self.new.stacks) }
        ensures numbered { IfOk result (MayBeNumbered self.new.stacks) }
        ensures only { IfOk result (λ found. (here : Meant)
            → IsForcedAt (left_by sort) self.old address instruction here
            → IsFound self.new.stacks here found) }
    {
        if let Instruction::End = instruction {
            let types = left_stack(&mut self.stacks, sort)?;
            return Ok(Some(Mark {
                types,
                nest: Nest::Outside,
            }));
        }
        let next = address + 1;
        match self.mark(settling_address(next, instruction)) {
            None => Ok(None),
            Some(after) => mark_before(&mut self.stacks, next, instruction, after),
        }
    }
}

/// The address whose mark determines that of an instruction; `next` is the one after it.
fn settling_address(next: usize, instruction: Instruction) -> usize
    ensures { result ≡ settling_address next instruction }
{
    match instruction {
        Instruction::Jump(to) => to as usize,
        _ => next,
    }
}

/// The number of the stack of types that a program of this sort leaves.
fn left_stack(stacks: &mut TypeStacks, sort: ProgramSort) -> Result<usize, AllocError>
    ensures kept { OnOk result (Keeps stacks.old stacks.new) }
    ensures stack { IfOk result (λ stack. (stack < length stacks.new)
        × (types_at stacks.new stack ≡ left_by sort)) }
{
    let empty = stacks.empty();
    match sort {
        ProgramSort::Hold => stacks.push(ValueType::Number, empty),
        _ => Ok(empty),
    }
}

/// The mark of an instruction, if one fits, by the mark that determines it. `next` is the address
/// after the instruction.
fn mark_before(
    stacks: &mut TypeStacks,
    next: usize,
    instruction: Instruction,
    after: Mark,
) -> Result<Option<Mark>, AllocError>
    requires { IsNumbered stacks.old after }
    ensures kept { OnOk result (Keeps stacks.old stacks.new) }
    ensures numbered { IfOk result (MayBeNumbered stacks.new) }
    ensures only { IfOk result (λ found. (here : Meant) → length here.nest ≤ deepest_loops
        → Settles next instruction here (meaning stacks.old after)
        → IsFound stacks.new here found) }
{
    match instruction {
        Instruction::Push(leaf) => Ok(without_top(stacks, after, leaf_type(leaf))),
        Instruction::Apply(_) | Instruction::Do(_) | Instruction::Jump(_) => Ok(Some(after)),
        Instruction::Combine(binary) => before_combine(stacks, after, binary),
        Instruction::Perform(action) => Ok(Some(with_top(stacks, after, action_type(action))?)),
        Instruction::JumpFalse(_) | Instruction::FalseKeep(_) | Instruction::TrueKeep(_) => {
            Ok(Some(with_top(stacks, after, ValueType::Truth)?))
        }
        Instruction::Loop(_, _) => Ok(before_loop(stacks, after)),
        Instruction::Next(first) => Ok(before_next(stacks, after, first as usize, next)),
        Instruction::End => Ok(None),
    }
}

/// The mark without the type on top, if that is this type.
pub fn without_top(stacks: &TypeStacks, mark: Mark, top: ValueType) -> Option<Mark>
    requires { IsNumbered stacks.now mark }
    ensures numbered { MayBeNumbered stacks.now result }
    ensures only { (here : Meant) → meaning stacks.now mark ≡ with_top top here
        → IsFound stacks.now here result }
    ensures below { IfSome result (λ below. meaning stacks.now mark
        ≡ with_top top (meaning stacks.now below)) }
{
    let types = stacks.below(mark.types, top)?;
    Some(Mark {
        types,
        nest: mark.nest,
    })
}

/// The mark with one more type on top.
fn with_top(stacks: &mut TypeStacks, mark: Mark, top: ValueType) -> Result<Mark, AllocError>
    requires { IsNumbered stacks.old mark }
    ensures kept { OnOk result (Keeps stacks.old stacks.new) }
    ensures numbered { IfOk result (IsNumbered stacks.new) }
    ensures mark { IfOk result (λ found. meaning stacks.new found
        ≡ with_top top (meaning stacks.old mark)) }
{
    let types = stacks.push(top, mark.types)?;
    Ok(Mark {
        types,
        nest: mark.nest,
    })
}

/// The mark before an operator on two values, if one fits.
fn before_combine(
    stacks: &mut TypeStacks,
    after: Mark,
    binary: Binary,
) -> Result<Option<Mark>, AllocError>
    requires { IsNumbered stacks.old after }
    ensures kept { OnOk result (Keeps stacks.old stacks.new) }
    ensures numbered { IfOk result (MayBeNumbered stacks.new) }
    ensures only { IfOk result (λ found. (below : List ValueType) (here : Meant)
        → here.types ≡ operand_type binary ∷ operand_type binary ∷ below
        → meaning stacks.old after ≡ mark (result_type binary ∷ below) here.nest
        → IsFound stacks.new here found) }
{
    let Some(below) = without_top(stacks, after, result_type(binary)) else {
        return Ok(None);
    };
    let one = with_top(stacks, below, operand_type(binary))?;
    Ok(Some(with_top(stacks, one, operand_type(binary))?))
}

/// The mark before a loop whose body begins with this mark, if it begins one.
fn before_loop(stacks: &TypeStacks, after: Mark) -> Option<Mark>
    ensures numbered { MayBeNumbered stacks.now result }
    ensures only { (body : MeantBody) (here : Meant) → here.types ≡ []
        → (meaning stacks.now after).nest ≡ body ∷ here.nest
        → IsFound stacks.now here result }
{
    let (_, nest) = after.nest.innermost()?;
    Some(Mark {
        types: stacks.empty(),
        nest,
    })
}

/// The mark at the end of a loop's body, if this is the mark past the body and the loop is not too
/// deep.
fn before_next(stacks: &TypeStacks, after: Mark, first: usize, past: usize) -> Option<Mark>
    ensures numbered { MayBeNumbered stacks.now result }
    ensures only { (here : Meant) → length here.nest ≤ deepest_loops
        → here ≡ mark [] (record { first = first; past = past }
        ∷ (meaning stacks.now after).nest)
        → IsFound stacks.now here result }
{
    let nest = after.nest.with_inner(Body { first, past })?;
    Some(Mark {
        types: stacks.empty(),
        nest,
    })
}
