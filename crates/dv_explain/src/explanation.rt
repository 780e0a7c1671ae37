//! Explanations, found by their codes.

ghost use Rattle.std.specs.Prelude.{◌≡◌, IfOk, option_map};
ghost use Rattle.dv_explain.specs.Codes.{code_found, explained_code, explained_in_any_case, explanation_in};

use crate::words::{faults, input_refusals, partition_refusals, refusals};
use std::alloc::{AllocError, Global};

/// What a refusal or a fault means, and how to avoid it.
#[derive(Clone, Copy)]
pub struct Explanation {
    /// The code of a refusal, such as `E7`, `I2` or `Q3`, or the name of a fault, such as
    /// `overflow`.
    pub code: &'static str,
    /// What is wrong, which token is named, and what helps.
    pub words: &'static str,
    /// A small model that has it, if one can show it.
    pub example: Option<Example>,
}

/// A model with its inputs, and the answer to it.
#[derive(Clone, Copy)]
pub struct Example {
    /// The text of the model.
    pub model: &'static str,
    /// The text of its inputs.
    pub inputs: &'static str,
    /// The last tick of its run.
    pub horizon: u64,
    /// The greatest microstep of a tick in its run.
    pub limit: u32,
    /// The answer to a refused text, such as `E7 line 1`, or else the lines of the trace.
    pub answer: &'static str,
}

/// The explanation of a code, written as in `Explanation::code`; `None` if there is no such code.
pub fn explanation_of(code: &str) -> Option<&'static Explanation>
    ensures { code_found result ≡ explained_code code.now }
{
    find(refusals(), code)
        .or(find(input_refusals(), code))
        .or(find(partition_refusals(), code))
        .or(find(faults(), code))
}

/// As `explanation_of`, for a code that may also be written in small letters, such as `e7`.
///
/// # Errors
///
/// No memory for the code in capitals.
pub fn explanation_in_any_case(
    alloc: Global,
    code: &str,
) -> Result<Option<&'static Explanation>, AllocError>
    ensures { IfOk result (λ found. code_found found ≡ explained_in_any_case code.now) }
{
    let as_written = explanation_of(code);
    if as_written.is_some() {
        return Ok(as_written);
    }
    let capitals = code.to_ascii_uppercase(alloc)?;
    Ok(explanation_of(capitals.as_str()))
}

/// The first of these explanations that has the code.
fn find(explanations: &'static [Explanation], code: &str) -> Option<&'static Explanation>
    ensures { option_map (λ e. e.now) result ≡ explanation_in explanations.now code.now }
{
    explanations
        .iter()
        .find(|explanation| explanation.code == code)
}
