//! The text of an explanation, as the program prints it.

use crate::explanation::{Example, Explanation};
use std::alloc::{AllocError, Global};

/// The code and the words of an explanation, and its example if it has one.
///
/// # Errors
///
/// No memory for the text.
pub fn explanation_text(alloc: Global, explanation: &Explanation) -> Result<String, AllocError> {
    let words = format!(in alloc; "{}: {}\n", explanation.code, explanation.words)?;
    match &explanation.example {
        Some(example) => example_text(alloc, words.as_str(), example),
        None => Ok(words),
    }
}

/// These words with an example after them: the model with its inputs, and the answer.
fn example_text(alloc: Global, words: &str, example: &Example) -> Result<String, AllocError> {
    let mut text = format!(in alloc; "{words}\n")?;
    push_indented(&mut text, example.model)?;
    if !example.inputs.is_empty() {
        text.push_str("\nwith the inputs\n\n")?;
        push_indented(&mut text, example.inputs)?;
    }
    text.push_str("\nis answered\n\n")?;
    push_indented(&mut text, example.answer)?;
    Ok(text)
}

/// Adds lines, each indented by four blanks.
fn push_indented(text: &mut String, lines: &str) -> Result<(), AllocError> {
    for line in lines.lines() {
        write!(text, "    {line}\n")?;
    }
    Ok(())
}
