//! Which instructions agree with the marks of a program.

ghost use Rattle.std.specs.Prelude.{◌≡◌, ◌↔◌, ◌+◌, ◌<◌, [], ◌∷◌, length, IsTrue};
ghost use Rattle.dv_code.specs.Shape.{Shape, left_by};
ghost use Rattle.dv_code.specs.Valid.{IsFine, mark};
ghost use Rattle.dv_code.specs.declared.instruction.Instruction.TheVariants.{Push, Apply, Combine, Perform, Jump, JumpFalse};
ghost use Rattle.dv_code.specs.declared.instruction.Instruction.TheVariants.{FalseKeep, TrueKeep, Loop, Next, End};
ghost use Rattle.dv_code.specs.Limits.{deepest_loops};
ghost use Rattle.dv_valid.specs.Nests.{bodies};
ghost use Rattle.dv_valid.specs.Stacks.{types_at};
ghost use Rattle.dv_valid.specs.Marks.{AgreesAt, AreNumbered, ArrivesAt, Fit, IsNumbered, IsMarkAt, mark_of, meaning, with_top};

use crate::known::{is_source, knows_action, knows_deed, knows_leaf, knows_unary};
use crate::marks::{Mark, Marks, without_top};
use crate::nest::{Body, Nest};
use crate::stacks::TypeStacks;
use dv_bag::value::ValueType;
use dv_code::types::{action_type, leaf_type, operand_type, result_type, unary_type};
use dv_code::{Action, Binary, Instruction, Leaf, ProgramSort, Shape, Source, Unary};

impl Marks {
    /// Whether a program is valid by these marks.
    pub fn fit(&self, shape: &Shape, code: &[Instruction]) -> bool
        requires numbered { AreNumbered self.now }
        requires one_each { length self.now.by_address.items ≡ length code.now }
        ensures { IsTrue result ↔ Fit shape.now code.now (mark_of self.now) }
    {
        if !self.arrives(0, self.outside()) {
            return false;
        }
        for (address, instruction) in code.iter().enumerate() {
            if !self.is_fine(shape, address, *instruction) {
                return false;
            }
        }
        true
    }

    /// Whether an instruction agrees with the marks, and its own with its address.
    fn is_fine(&self, shape: &Shape, address: usize, instruction: Instruction) -> bool
        requires numbered { AreNumbered self.now }
        requires address { address < length self.now.by_address.items }
        ensures { IsTrue result ↔ IsFine shape.now (left_by shape.now.sort) deepest_loops
            (length self.now.by_address.items) (mark_of self.now) address instruction }
    {
        let here = self.by_address[address];
        here.nest.contains(address, self.by_address.len())
            && self.agrees(shape, address, here, instruction)
    }

    /// Whether an instruction with this mark agrees with the marks of the addresses to which it
    /// leads.
    fn agrees(&self, shape: &Shape, address: usize, here: Mark, instruction: Instruction) -> bool
        requires { IsMarkAt self.now address here }
        ensures { IsTrue result
            ↔ AgreesAt shape.now self.now address (meaning self.now.stacks here) instruction }
    {
        match instruction {
            Instruction::Push(leaf) => self.push_agrees(shape, address, here, leaf),
            Instruction::Apply(unary) => self.apply_agrees(shape, address, here, unary),
            Instruction::Combine(binary) => self.combine_agrees(address, here, binary),
            Instruction::Perform(action) => self.perform_agrees(shape, address, here, action),
            Instruction::Do(deed) => knows_deed(shape, deed) && self.arrives(address + 1, here),
            Instruction::Jump(to) => self.jump_agrees(address, here, to),
            Instruction::JumpFalse(to) => self.jump_false_agrees(address, here, to),
            Instruction::FalseKeep(to) => self.keep_agrees(address, here, to),
            Instruction::TrueKeep(to) => self.keep_agrees(address, here, to),
            Instruction::Loop(source, past) => self.loop_agrees(shape, address, here, source, past),
            Instruction::Next(first) => self.next_agrees(address, here, first),
            Instruction::End => self.end_agrees(shape, address, here),
        }
    }

    /// Whether a leaf is known, and the next address has its type on top.
    fn push_agrees(&self, shape: &Shape, address: usize, here: Mark, leaf: Leaf) -> bool
        requires { IsMarkAt self.now address here }
        ensures { IsTrue result
            ↔ AgreesAt shape.now self.now address (meaning self.now.stacks here) (Push leaf) }
    {
        knows_leaf(shape, here.nest.depth(), leaf)
            && self.arrives_with(address + 1, leaf_type(leaf), here)
    }

    /// Whether an operator on one value is known, and its type is on top.
    fn apply_agrees(&self, shape: &Shape, address: usize, here: Mark, unary: Unary) -> bool
        requires { IsMarkAt self.now address here }
        ensures { IsTrue result
            ↔ AgreesAt shape.now self.now address (meaning self.now.stacks here) (Apply unary) }
    {
        let Some(_) = without_top(&self.stacks, here, unary_type(unary)) else {
            return false;
        };
        knows_unary(shape, unary) && self.arrives(address + 1, here)
    }

    /// Whether the types of an operator on two values are on top, and the next address has its
    /// result in their place.
    fn combine_agrees(&self, address: usize, here: Mark, binary: Binary) -> bool
        requires { IsMarkAt self.now address here }
        ensures { (shape : Shape) → IsTrue result
            ↔ AgreesAt shape self.now address (meaning self.now.stacks here) (Combine binary) }
    {
        let Some(one) = without_top(&self.stacks, here, operand_type(binary)) else {
            return false;
        };
        let Some(below) = without_top(&self.stacks, one, operand_type(binary)) else {
            return false;
        };
        self.arrives_with(address + 1, result_type(binary), below)
    }

    /// Whether an action is known, and its type is on top.
    fn perform_agrees(&self, shape: &Shape, address: usize, here: Mark, action: Action) -> bool
        requires { IsMarkAt self.now address here }
        ensures { IsTrue result
            ↔ AgreesAt shape.now self.now address (meaning self.now.stacks here) (Perform action) }
    {
        let Some(below) = without_top(&self.stacks, here, action_type(action)) else {
            return false;
        };
        knows_action(shape, action) && self.arrives(address + 1, below)
    }

    /// Whether a jump leads forward, and the address after it is in the same bodies.
    fn jump_agrees(&self, address: usize, here: Mark, to: u32) -> bool
        requires { IsMarkAt self.now address here }
        ensures { (shape : Shape) → IsTrue result
            ↔ AgreesAt shape self.now address (meaning self.now.stacks here) (Jump to) }
    {
        address < to as usize
            && self.arrives(to as usize, here)
            && self.has_nest(address + 1, here.nest)
    }

    /// Whether an address of the program is in these bodies.
    fn has_nest(&self, address: usize, nest: Nest) -> bool
        requires { address < length self.now.by_address.items }
        ensures { IsTrue result ↔ ((mark_of self.now address).nest ≡ bodies nest) }
    {
        self.by_address[address].nest.is_same(nest)
    }

    /// Whether a conditional jump has a truth value on top, and leads forward.
    fn jump_false_agrees(&self, address: usize, here: Mark, to: u32) -> bool
        requires { IsMarkAt self.now address here }
        ensures { (shape : Shape) → IsTrue result
            ↔ AgreesAt shape self.now address (meaning self.now.stacks here) (JumpFalse to) }
    {
        let Some(below) = without_top(&self.stacks, here, ValueType::Truth) else {
            return false;
        };
        address < to as usize
            && self.arrives(address + 1, below)
            && self.arrives(to as usize, below)
    }

    /// Whether a jump that keeps a truth value has one on top, and leads forward.
    fn keep_agrees(&self, address: usize, here: Mark, to: u32) -> bool
        requires { IsMarkAt self.now address here }
        ensures false_keep { (shape : Shape) → IsTrue result
            ↔ AgreesAt shape self.now address (meaning self.now.stacks here) (FalseKeep to) }
        ensures true_keep { (shape : Shape) → IsTrue result
            ↔ AgreesAt shape self.now address (meaning self.now.stacks here) (TrueKeep to) }
    {
        let Some(below) = without_top(&self.stacks, here, ValueType::Truth) else {
            return false;
        };
        address < to as usize && self.arrives(address + 1, below) && self.arrives(to as usize, here)
    }

    /// Whether a loop begins on an empty stack, over a known collection, and the marks of its first
    /// address and of the one past it fit.
    fn loop_agrees(
        &self,
        shape: &Shape,
        address: usize,
        here: Mark,
        source: Source,
        past: u32,
    ) -> bool
        requires { IsMarkAt self.now address here }
        ensures { IsTrue result
            ↔ AgreesAt shape.now self.now address (meaning self.now.stacks here) (Loop source past) }
    {
        let body = Body {
            first: address + 1,
            past: past as usize,
        };
        let Some(nest) = here.nest.with_inner(body) else {
            return false;
        };
        let inside = Mark {
            types: self.stacks.empty(),
            nest,
        };
        self.stacks.is_same(here.types, self.stacks.empty())
            && is_source(shape, source)
            && self.arrives(address + 1, inside)
            && self.arrives(past as usize, here)
    }

    /// Whether the body of the innermost loop ends here, on an empty stack, and the marks of its
    /// first address and of the one past it fit.
    fn next_agrees(&self, address: usize, here: Mark, first: u32) -> bool
        requires { IsMarkAt self.now address here }
        ensures { (shape : Shape) → IsTrue result
            ↔ AgreesAt shape self.now address (meaning self.now.stacks here) (Next first) }
    {
        let Some((body, nest)) = here.nest.innermost() else {
            return false;
        };
        let around = Mark {
            types: self.stacks.empty(),
            nest,
        };
        self.stacks.is_same(here.types, self.stacks.empty())
            && body.first == first as usize
            && body.past == address + 1
            && self.arrives(first as usize, here)
            && self.arrives(address + 1, around)
    }

    /// Whether this is the last address, outside all loops, with the types that the program is to
    /// leave.
    fn end_agrees(&self, shape: &Shape, address: usize, here: Mark) -> bool
        requires { IsMarkAt self.now address here }
        ensures { IsTrue result
            ↔ AgreesAt shape.now self.now address (meaning self.now.stacks here) End }
    {
        are_left(&self.stacks, here.types, shape.sort())
            && here.nest.depth() == 0
            && address + 1 == self.by_address.len()
    }

    /// The mark outside all loops, with an empty stack.
    fn outside(&self) -> Mark
        ensures numbered { IsNumbered self.now.stacks result }
        ensures mark { meaning self.now.stacks result ≡ mark [] [] }
    {
        Mark {
            types: self.stacks.empty(),
            nest: Nest::Outside,
        }
    }

    /// Whether this mark is at an address of the program.
    fn arrives(&self, to: usize, mark: Mark) -> bool
        requires numbered { AreNumbered self.now }
        requires mark { IsNumbered self.now.stacks mark }
        ensures { IsTrue result ↔ ArrivesAt self.now to (meaning self.now.stacks mark) }
    {
        match self.mark(to) {
            None => false,
            Some(found) => is_same(&self.stacks, found, mark),
        }
    }

    /// Whether this mark with one more type on top is at an address of the program.
    fn arrives_with(&self, to: usize, top: ValueType, mark: Mark) -> bool
        requires numbered { AreNumbered self.now }
        requires mark { IsNumbered self.now.stacks mark }
        ensures { IsTrue result
            ↔ ArrivesAt self.now to (with_top top (meaning self.now.stacks mark)) }
    {
        match self.mark(to) {
            None => false,
            Some(found) => is_same_below(&self.stacks, found, top, mark),
        }
    }
}

/// Whether two marks mean the same.
fn is_same(stacks: &TypeStacks, one: Mark, other: Mark) -> bool
    requires one { IsNumbered stacks.now one }
    requires other { IsNumbered stacks.now other }
    ensures { IsTrue result ↔ (meaning stacks.now one ≡ meaning stacks.now other) }
{
    stacks.is_same(one.types, other.types) && one.nest.is_same(other.nest)
}

/// Whether a mark is another one with this type on top.
fn is_same_below(stacks: &TypeStacks, found: Mark, top: ValueType, mark: Mark) -> bool
    requires found { IsNumbered stacks.now found }
    requires mark { IsNumbered stacks.now mark }
    ensures { IsTrue result
        ↔ (meaning stacks.now found ≡ with_top top (meaning stacks.now mark)) }
{
    match without_top(stacks, found, top) {
        None => false,
        Some(below) => is_same(stacks, below, mark),
    }
}

/// Whether a stack has the types that a program of this sort leaves.
fn are_left(stacks: &TypeStacks, types: usize, sort: ProgramSort) -> bool
    requires { types < length stacks.now }
    ensures { IsTrue result ↔ (types_at stacks.now types ≡ left_by sort) }
{
    match sort {
        ProgramSort::Hold => match stacks.below(types, ValueType::Number) {
            None => false,
            Some(below) => stacks.is_same(below, stacks.empty()),
        },
        _ => stacks.is_same(types, stacks.empty()),
    }
}
