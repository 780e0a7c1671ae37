//! The cause of one refusal, in words.

use std::alloc::{AllocError, Global};

/// Why a text is refused at one place, and what helps.
#[derive(Drop)]
pub struct Cause {
    /// What is wrong in a few words, without a full stop; empty if no more is known than the code
    /// says.
    pub summary: String,
    /// Sentences that help, each with a line feed at its end; possibly empty.
    pub sentences: String,
}

impl Cause {
    /// A cause with copies of these words.
    ///
    /// # Errors
    ///
    /// No memory for the words.
    pub fn of(alloc: Global, summary: &str, sentences: &str) -> Result<Self, AllocError> {
        Ok(Cause {
            summary: String::from_str(alloc, summary)?,
            sentences: String::from_str(alloc, sentences)?,
        })
    }
}
