//! What the validator accepts, compared with the slow decision.

use crate::decision::is_valid;
use dv_code::{Instruction, Shape, Valid};
use dv_valid::validate;
use std::alloc::AllocError;
use std::process::Abort;

/// How many lists of instructions were taken, and how many were refused.
#[derive(Clone, Copy, Debug, PartialEq, Eq)]
pub struct Answers {
    /// How many lists were taken.
    pub taken: u64,
    /// How many lists were refused.
    pub refused: u64,
}

impl Answers {
    /// No answers yet.
    pub fn none() -> Self {
        Answers {
            taken: 0,
            refused: 0,
        }
    }

    /// Counts an answer.
    pub fn count(&mut self, is_taken: bool) {
        if is_taken {
            self.taken = self.taken.saturating_add(1);
        } else {
            self.refused = self.refused.saturating_add(1);
        }
    }
}

/// The program of a list, if the validator takes it. Fails the test where the slow decision
/// differs, and where the program has other instructions.
pub fn taken<R: Abort + AllocGlobal>(
    rt: &R,
    shape: Shape,
    list: &[Instruction],
) -> Result<Option<Valid>, AllocError> {
    let wanted = is_valid(rt.alloc(), &shape, list)?;
    let found = validate(rt.alloc(), shape, list.to_vec(rt.alloc())?)?;
    assert!(rt; found.is_some() == wanted);
    if let Some(program) = &found {
        assert!(rt; program.code() == list);
    }
    Ok(found)
}
