//! A program that is being written.

ghost use Rattle.std.specs.Prelude.{◌≡◌, ◌<◌, ◌^◌, [], ◌∷◌, ◌++◌, length, slice_set, OnOk};

use dv_code::Instruction;
use std::alloc::{AllocError, Global};
use std::marker::Model;

/// A program that is being written. It has fewer than 2^32 instructions, so that each address fits
/// into 32 bits.
#[derive(Drop)]
pub struct Draft {
    instructions: Vec<Instruction>,
}

impl Model for Draft {
    ghost use Rattle.std.specs.Prelude.{List, ◌<◌, ◌^◌, length};
    ghost use Rattle.dv_code.specs.declared.instruction.Instruction.{Instruction};

    ghost Value = { List Instruction };

    ghost view = { λ d. d.instructions.items };

    ghost invariant = { λ d. length d.instructions.items < 2 ^ 32 };
}

impl Draft {
    /// A draft without instructions.
    pub fn new(alloc: Global) -> Self
        ensures { result ≡ [] }
    {
        Draft {
            instructions: Vec::new(alloc),
        }
    }

    /// The address of the next instruction.
    pub fn address(&self) -> u32
        ensures { result ≡ length self.now }
    {
        self.instructions.len() as u32
    }

    /// Appends an instruction.
    ///
    /// # Errors
    ///
    /// No memory for the instruction, or the next address does not fit into 32 bits.
    pub fn push(&mut self, instruction: Instruction) -> Result<(), AllocError>
        ensures { OnOk result (self.new ≡ self.old ++ instruction ∷ []) }
    {
        if self.instructions.len() >= u32::MAX as usize {
            return Err(AllocError);
        }
        self.instructions.push(instruction)?;
        Ok(())
    }

    /// Replaces the instruction at an address, such as a jump whose target was not known before.
    pub fn replace(&mut self, address: u32, instruction: Instruction)
        requires { address < length self.old }
        ensures { self.new ≡ slice_set self.old address instruction }
    {
        self.instructions[address as usize] = instruction;
    }

    /// The instructions of the finished program.
    pub fn finish(self) -> Vec<Instruction>
        ensures instructions { result.items ≡ self }
        ensures short { length result.items < 2 ^ 32 }
    {
        self.instructions
    }
}
