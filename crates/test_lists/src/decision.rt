//! A slow decision whether instructions are a program, written from the definition: a mark for each
//! address, by all ways from the first one, and an instruction at each address that agrees with the
//! marks to which it leads.

use dv_bag::{Change, Discipline, ValueType};
use dv_code::{Action, Binary, Deed, Instruction, Leaf, ProgramSort, Shape, Slot, Source, Unary};
use std::alloc::{AllocError, Global};

/// How deep loops may lie in one another.
const DEEPEST_LOOPS: usize = 3;

/// Types, the top last.
type Types = &'static [ValueType];

const NOTHING: Types = &[];

const NUMBER: Types = &[ValueType::Number];

const TRUTH: Types = &[ValueType::Truth];

const NUMBERS: Types = &[ValueType::Number, ValueType::Number];

const TRUTHS: Types = &[ValueType::Truth, ValueType::Truth];

/// A loop's body: its first address, and the address past its end.
#[derive(Clone, Copy, PartialEq, Eq)]
struct Body {
    first: usize,
    past: usize,
}

/// What stands at an address: the types on the stack, the top last, and the bodies around, the
/// innermost last.
#[derive(Drop)]
struct Mark {
    types: Vec<ValueType>,
    nest: Vec<Body>,
}

impl Mark {
    fn of(alloc: Global, types: &[ValueType], nest: &[Body]) -> Result<Self, AllocError> {
        Ok(Mark {
            types: types.to_vec(alloc)?,
            nest: nest.to_vec(alloc)?,
        })
    }

    fn is_same(&self, other: &Mark) -> bool {
        self.types.as_slice() == other.types.as_slice()
            && self.nest.as_slice() == other.nest.as_slice()
    }

    /// The mark with other types in place of these on top, if these are on top.
    fn with_top(&self, alloc: Global, off: Types, on: Types) -> Result<Option<Self>, AllocError> {
        match self.types.as_slice().strip_suffix(off) {
            None => Ok(None),
            Some(below) => {
                let mut mark = Mark::of(alloc, below, &self.nest)?;
                for top in on {
                    mark.types.push(*top)?;
                }
                Ok(Some(mark))
            }
        }
    }
}

/// An address to which an instruction leads, and the mark with which it leads there.
#[derive(Drop)]
struct Way {
    to: usize,
    mark: Mark,
}

/// An address of a program of so many instructions.
#[derive(Clone, Copy)]
struct Case<'a> {
    alloc: Global,
    shape: &'a Shape,
    end: usize,
    address: usize,
    next: usize,
}

/// Whether instructions are a program that is valid for a shape.
pub fn is_valid(alloc: Global, shape: &Shape, code: &[Instruction]) -> Result<bool, AllocError> {
    let mut marks = Vec::new(alloc);
    for _ in code {
        marks.push(None)?;
    }
    settle(&mut marks, 0, Mark::of(alloc, &[], &[])?);
    walk_on(alloc, shape, code, &mut marks)?;
    walk_back(alloc, shape, code, &mut marks)?;
    all_agree(alloc, shape, code, &marks)
}

/// Marks the addresses to which ways lead from the first one. Jumps lead forward.
fn walk_on(
    alloc: Global,
    shape: &Shape,
    code: &[Instruction],
    marks: &mut Vec<Option<Mark>>,
) -> Result<(), AllocError> {
    for (address, instruction) in code.iter().enumerate() {
        let case = Case::new(alloc, shape, code.len(), address);
        if let Some(ways) = case.ways_from(mark_at(marks, address), *instruction)? {
            for way in ways {
                settle(marks, way.to, way.mark);
            }
        }
    }
    Ok(())
}

/// Marks the addresses to which no way leads, by the addresses behind them.
fn walk_back(
    alloc: Global,
    shape: &Shape,
    code: &[Instruction],
    marks: &mut Vec<Option<Mark>>,
) -> Result<(), AllocError> {
    for (address, instruction) in code.iter().enumerate().rev() {
        let case = Case::new(alloc, shape, code.len(), address);
        if let Some(mark) = case.mark_before(marks, *instruction)? {
            settle(marks, address, mark);
        }
    }
    Ok(())
}

/// Whether each address has a mark, and its instruction agrees with the marks where it leads.
fn all_agree(
    alloc: Global,
    shape: &Shape,
    code: &[Instruction],
    marks: &[Option<Mark>],
) -> Result<bool, AllocError> {
    for (address, instruction) in code.iter().enumerate() {
        let case = Case::new(alloc, shape, code.len(), address);
        let Some(ways) = case.ways_from(mark_at(marks, address), *instruction)? else {
            return Ok(false);
        };
        if !arrive(marks, &ways) || !is_beside(marks, case, *instruction) {
            return Ok(false);
        }
    }
    Ok(!code.is_empty())
}

fn mark_at(marks: &[Option<Mark>], address: usize) -> Option<&Mark> {
    marks.get(address)?.as_ref()
}

/// Marks an address of the program, unless it has a mark.
fn settle(marks: &mut [Option<Mark>], address: usize, mark: Mark) {
    if let Some(found) = marks.get_mut(address) {
        if found.is_none() {
            *found = Some(mark);
        }
    }
}

fn arrive(marks: &[Option<Mark>], ways: &[Way]) -> bool {
    for way in ways {
        let is_there = match mark_at(marks, way.to) {
            None => false,
            Some(mark) => mark.is_same(&way.mark),
        };
        if !is_there {
            return false;
        }
    }
    true
}

/// Whether what stands behind a jump lies in the bodies of the jump.
fn is_beside(marks: &[Option<Mark>], case: Case, instruction: Instruction) -> bool {
    if !matches!(instruction, Instruction::Jump(_)) {
        return true;
    }
    match (mark_at(marks, case.address), mark_at(marks, case.next)) {
        (Some(jump), Some(behind)) => jump.nest.as_slice() == behind.nest.as_slice(),
        _ => false,
    }
}

impl<'a> Case<'a> {
    fn new(alloc: Global, shape: &'a Shape, end: usize, address: usize) -> Self {
        Case {
            alloc,
            shape,
            end,
            address,
            next: address.saturating_add(1),
        }
    }

    /// Where an instruction leads with a mark. None, where there is no mark, or it does not agree
    /// with it.
    fn ways_from(
        self,
        mark: Option<&Mark>,
        instruction: Instruction,
    ) -> Result<Option<Vec<Way>>, AllocError> {
        let Some(mark) = mark else {
            return Ok(None);
        };
        if !self.lies_in(&mark.nest) || !knows(self.shape, mark.nest.len(), instruction) {
            return Ok(None);
        }
        match instruction {
            Instruction::Jump(to) => self.jump(mark, to),
            Instruction::JumpFalse(to) => self.decide(mark, to, NOTHING),
            Instruction::FalseKeep(to) | Instruction::TrueKeep(to) => self.decide(mark, to, TRUTH),
            Instruction::Loop(_, past) => self.enter(mark, past),
            Instruction::Next(first) => self.turn(mark, first),
            Instruction::End => self.end(mark),
            straight => {
                let (takes, gives) = taken_and_given(straight);
                match mark.with_top(self.alloc, takes, gives)? {
                    None => Ok(None),
                    Some(mark) => self.one_way(self.next, mark),
                }
            }
        }
    }

    /// Whether the address lies in the innermost body, each body in the next one, and the last in
    /// the program; they are not too many.
    fn lies_in(self, nest: &[Body]) -> bool {
        let mut inner = self.address;
        for body in nest.iter().rev() {
            if inner < body.first || body.past <= inner {
                return false;
            }
            inner = body.past;
        }
        inner < self.end && nest.len() <= DEEPEST_LOOPS
    }

    fn one_way(self, to: usize, mark: Mark) -> Result<Option<Vec<Way>>, AllocError> {
        let mut ways = Vec::new(self.alloc);
        ways.push(Way { to, mark })?;
        Ok(Some(ways))
    }

    fn two_ways(self, mark: Mark, to: u32, there: Mark) -> Result<Option<Vec<Way>>, AllocError> {
        let mut ways = Vec::new(self.alloc);
        ways.push(Way {
            to: self.next,
            mark,
        })?;
        ways.push(Way {
            to: to as usize,
            mark: there,
        })?;
        Ok(Some(ways))
    }

    fn jump(self, mark: &Mark, to: u32) -> Result<Option<Vec<Way>>, AllocError> {
        if to as usize <= self.address {
            return Ok(None);
        }
        let mark = Mark::of(self.alloc, &mark.types, &mark.nest)?;
        self.one_way(to as usize, mark)
    }

    /// The truth value on top goes, or is another one where it jumps.
    fn decide(self, mark: &Mark, to: u32, keeps: Types) -> Result<Option<Vec<Way>>, AllocError> {
        if to as usize <= self.address {
            return Ok(None);
        }
        match (
            mark.with_top(self.alloc, TRUTH, NOTHING)?,
            mark.with_top(self.alloc, TRUTH, keeps)?,
        ) {
            (Some(below), Some(there)) => self.two_ways(below, to, there),
            _ => Ok(None),
        }
    }

    fn enter(self, mark: &Mark, past: u32) -> Result<Option<Vec<Way>>, AllocError> {
        if !mark.types.is_empty() {
            return Ok(None);
        }
        let mut inside = Mark::of(self.alloc, &[], &mark.nest)?;
        inside.nest.push(Body {
            first: self.next,
            past: past as usize,
        })?;
        let behind = Mark::of(self.alloc, &[], &mark.nest)?;
        self.two_ways(inside, past, behind)
    }

    fn turn(self, mark: &Mark, first: u32) -> Result<Option<Vec<Way>>, AllocError> {
        match mark.nest.as_slice() {
            [outer @ .., body]
                if mark.types.is_empty()
                    && body.first == first as usize
                    && body.past == self.next => {
                let behind = Mark::of(self.alloc, &[], outer)?;
                let again = Mark::of(self.alloc, &[], &mark.nest)?;
                self.two_ways(behind, first, again)
            }
            _ => Ok(None),
        }
    }

    fn end(self, mark: &Mark) -> Result<Option<Vec<Way>>, AllocError> {
        let is_end = mark.types.as_slice() == left_by(self.shape.sort())
            && mark.nest.is_empty()
            && self.next == self.end;
        Ok(if is_end {
            Some(Vec::new(self.alloc))
        } else {
            None
        })
    }

    /// The only mark with which an instruction can lead to the marks behind it.
    fn mark_before(
        self,
        marks: &[Option<Mark>],
        instruction: Instruction,
    ) -> Result<Option<Mark>, AllocError> {
        match instruction {
            Instruction::End => { Ok(Some(Mark::of(self.alloc, left_by(self.shape.sort()), &[])?)) }
            Instruction::Jump(to) => match mark_at(marks, to as usize) {
                None => Ok(None),
                Some(mark) => mark.with_top(self.alloc, NOTHING, NOTHING),
            },
            other => match mark_at(marks, self.next) {
                None => Ok(None),
                Some(mark) => self.mark_above(mark, other),
            },
        }
    }

    /// The only mark with which an instruction can lead to the next address.
    fn mark_above(
        self,
        behind: &Mark,
        instruction: Instruction,
    ) -> Result<Option<Mark>, AllocError> {
        match instruction {
            Instruction::JumpFalse(_) | Instruction::FalseKeep(_) | Instruction::TrueKeep(_) => {
                behind.with_top(self.alloc, NOTHING, TRUTH)
            }
            Instruction::Loop(_, _) => match behind.nest.as_slice() {
                [] => Ok(None),
                [outer @ .., _] => Ok(Some(Mark::of(self.alloc, &[], outer)?)),
            },
            Instruction::Next(first) => {
                let mut mark = Mark::of(self.alloc, &[], &behind.nest)?;
                mark.nest.push(Body {
                    first: first as usize,
                    past: self.next,
                })?;
                Ok(Some(mark))
            }
            straight => {
                let (takes, gives) = taken_and_given(straight);
                behind.with_top(self.alloc, gives, takes)
            }
        }
    }
}

/// What a program of a sort leaves on the stack.
fn left_by(sort: ProgramSort) -> Types {
    match sort {
        ProgramSort::Hold => NUMBER,
        _ => NOTHING,
    }
}

/// What an instruction takes from the stack that leads to the next address alone, and what it
/// leaves in its place.
fn taken_and_given(instruction: Instruction) -> (Types, Types) {
    match instruction {
        Instruction::Push(Leaf::Truth(_) | Leaf::Flag(_)) => (NOTHING, TRUTH),
        Instruction::Push(_) => (NOTHING, NUMBER),
        Instruction::Apply(Unary::Not) => (TRUTH, TRUTH),
        Instruction::Apply(_) => (NUMBER, NUMBER),
        Instruction::Combine(Binary::Same | Binary::Different) => (TRUTHS, TRUTH),
        Instruction::Combine(
            Binary::Add | Binary::Subtract | Binary::Multiply | Binary::Divide | Binary::Remainder,
        ) => (NUMBERS, NUMBER),
        Instruction::Combine(_) => (NUMBERS, TRUTH),
        Instruction::Perform(Action::SetFlag(_)) => (TRUTH, NOTHING),
        Instruction::Perform(_) => (NUMBER, NOTHING),
        _ => (NOTHING, NOTHING),
    }
}

/// Whether a program of the shape may do what an instruction does, in so many loops.
fn knows(shape: &Shape, inside: usize, instruction: Instruction) -> bool {
    match instruction {
        Instruction::Push(leaf) => knows_leaf(shape, inside, leaf),
        Instruction::Apply(Unary::Times(source)) => knows_bag(shape, source),
        Instruction::Loop(source, _) => knows_source(shape, source),
        Instruction::Perform(action) => knows_action(shape, action),
        Instruction::Do(deed) => knows_deed(shape, deed),
        _ => true,
    }
}

fn knows_leaf(shape: &Shape, inside: usize, leaf: Leaf) -> bool {
    match leaf {
        Leaf::Number(_) | Leaf::Truth(_) => true,
        Leaf::Variable(address) => matches!(slot(shape, address), Some(Slot::Ranged { .. })),
        Leaf::Flag(address) => matches!(slot(shape, address), Some(Slot::Flagged)),
        Leaf::Item(number) => usize::from(number) < inside,
        Leaf::Elapsed => shape.sort() == ProgramSort::External,
        Leaf::Size(source) => knows_source(shape, source),
        Leaf::Sum(source) | Leaf::Least(source) | Leaf::Most(source) => knows_bag(shape, source),
        Leaf::Front(address) => holds(shape, address, Discipline::Queue),
    }
}

/// Whether a bag may be read there.
fn knows_bag(shape: &Shape, source: Source) -> bool {
    let is_queue = matches!(source, Source::Own(Discipline::Queue, _));
    knows_source(shape, source) && !is_queue
}

/// Whether a bag or a queue may be read there.
fn knows_source(shape: &Shape, source: Source) -> bool {
    match source {
        Source::Own(discipline, address) => holds(shape, address, discipline),
        Source::Port(port) => {
            u32::from(port) < shape.tables().inputs()
                && matches!(shape.sort(), ProgramSort::External | ProgramSort::Confluent)
        }
    }
}

fn knows_action(shape: &Shape, action: Action) -> bool {
    match action {
        Action::SetVariable(address) => {
            matches!(slot(shape, address), Some(Slot::Ranged { .. })) && changes(shape.sort())
        }
        Action::SetFlag(address) => {
            matches!(slot(shape, address), Some(Slot::Flagged)) && changes(shape.sort())
        }
        Action::Change(Change::Add | Change::Drop, address) => {
            holds(shape, address, Discipline::Bag) && changes(shape.sort())
        }
        Action::Change(Change::Push, address) => {
            holds(shape, address, Discipline::Queue) && changes(shape.sort())
        }
        Action::Send(port) => {
            u32::from(port) < shape.tables().outputs() && shape.sort() == ProgramSort::Output
        }
    }
}

fn knows_deed(shape: &Shape, deed: Deed) -> bool {
    let is_known = match deed {
        Deed::Go(phase) => phase < shape.tables().phases(),
        Deed::Pop(address) => holds(shape, address, Discipline::Queue),
    };
    is_known && changes(shape.sort())
}

/// Whether the slot of an address holds a collection of this discipline.
fn holds(shape: &Shape, address: u16, wanted: Discipline) -> bool {
    match slot(shape, address) {
        Some(Slot::Holding { discipline, .. }) => discipline == wanted,
        _ => false,
    }
}

fn changes(sort: ProgramSort) -> bool {
    !matches!(sort, ProgramSort::Output | ProgramSort::Hold)
}

fn slot(shape: &Shape, address: u16) -> Option<Slot> {
    shape.tables().slots().get(usize::from(address)).copied()
}
