//! Why a model text is refused.

ghost use Rattle.std.specs.Prelude.{◌≡◌, ◌≤◌, length, take};
ghost use Rattle.dv_lex.specs.Lexemes.{line_feeds};
ghost use Rattle.dv_lex.specs.Texts.{answer_to};

use std::alloc::{AllocError, AllocFailed};
use std::fmt;

/// The number of a refusal; docs/ERRORS.md says what each one means.
#[derive(Clone, Copy, Debug, PartialEq, Eq)]
pub enum RefusalNumber {
    /// The text is not UTF-8.
    E1,
    /// A character with which no token begins.
    E2,
    /// A number above 2^63 - 1.
    E3,
    /// A token that no file of the grammar has there, or too few tokens.
    E4,
    /// An expression, a block or a loop that is nested too deeply.
    E5,
    /// A name that is declared twice, or a second rule of one sort for one phase.
    E6,
    /// An unknown model, part, port, variable, flag, bag or phase.
    E7,
    /// A wrong type, or a name of another sort than is wanted there.
    E8,
    /// Something that is not allowed there.
    E9,
    /// `phases`, `start` or a phase's `hold` is missing or occurs twice.
    E10,
    /// An empty range, a start value outside its range, or a start hold that faults.
    E11,
    /// An end of a link with the wrong direction.
    E12,
    /// A part that is coupled to itself, or an input of a model that is coupled to its output.
    E13,
    /// A repeated link.
    E14,
    /// A part whose model contains the model of the part itself.
    E15,
    /// The root is atomic.
    E16,
    /// A limit on size is exceeded.
    E17,
}

impl fmt::Display for RefusalNumber {
    ghost use Rattle.std.specs.Prelude.{Some};
    ghost use Rattle.dv_lex.specs.Words.{refusal_word};

    ghost output = { λ number. Some (refusal_word number) };

    fn fmt<W: fmt::Write>(&self, f: &mut fmt::Formatter<W>) -> fmt::Result {
        f.write_str(match self {
            RefusalNumber::E1 => "E1",
            RefusalNumber::E2 => "E2",
            RefusalNumber::E3 => "E3",
            RefusalNumber::E4 => "E4",
            RefusalNumber::E5 => "E5",
            RefusalNumber::E6 => "E6",
            RefusalNumber::E7 => "E7",
            RefusalNumber::E8 => "E8",
            RefusalNumber::E9 => "E9",
            RefusalNumber::E10 => "E10",
            RefusalNumber::E11 => "E11",
            RefusalNumber::E12 => "E12",
            RefusalNumber::E13 => "E13",
            RefusalNumber::E14 => "E14",
            RefusalNumber::E15 => "E15",
            RefusalNumber::E16 => "E16",
            RefusalNumber::E17 => "E17",
        })
    }
}

/// What is wrong with a text, and where. `offset` is that of the token that the refusal names: the
/// number of bytes of the text before it. Of two refusals the one at the lesser offset comes first,
/// and at one offset the one with the lesser number.
#[derive(Clone, Copy, Debug, PartialEq, Eq)]
pub struct Refusal {
    /// The number of the refusal.
    pub number: RefusalNumber,
    /// The offset of the token that is named, in bytes of the text.
    pub offset: u32,
}

/// The answer for a refused text: which refusal, its line, counted from 1, and the offset of the
/// token that it names.
#[derive(Clone, Copy, Debug, PartialEq, Eq)]
pub struct TextError {
    /// The number of the refusal.
    pub number: RefusalNumber,
    /// The number of the line, counted from 1.
    pub line: u64,
    /// The offset of the token that is named, in bytes of the text.
    pub offset: u32,
}

impl fmt::Display for TextError {
    ghost use Rattle.std.specs.Prelude.{Some};
    ghost use Rattle.dv_lex.specs.Words.{error_words};

    ghost output = { λ e. Some (error_words e) };

    fn fmt<W: fmt::Write>(&self, f: &mut fmt::Formatter<W>) -> fmt::Result {
        write!(f, "{} line {}", self.number, self.line)
    }
}

/// The answer to a refusal: its number, its offset, and the line of the offset. An offset past the
/// end of the text is on the last line.
pub fn answer(text: &[u8], refusal: Refusal) -> TextError
    ensures { result ≡ answer_to text.now refusal }
{
    TextError {
        number: refusal.number,
        line: 1 + line_feeds(front(text, refusal.offset as usize)),
        offset: refusal.offset,
    }
}

// The bytes before an offset.
fn front(text: &[u8], offset: usize) -> &[u8]
    ensures { result.now ≡ take offset text.now }
{
    if offset < text.len() {
        &text[..offset]
    } else {
        text
    }
}

fn line_feeds(bytes: &[u8]) -> u64
    ensures count { result ≡ line_feeds bytes.now }
    ensures few { result ≤ length bytes.now }
{
    bytes.iter().filter(|byte| **byte == b'\n').count() as u64
}

/// Why a model text could not be loaded.
#[derive(Clone, Copy, Debug, PartialEq, Eq)]
pub enum LoadError {
    /// The text is refused.
    Refused(Refusal),
    /// An allocation was refused.
    Memory,
}

impl From<Refusal> for LoadError {
    ghost use Rattle.dv_lex.specs.declared.error.LoadError.TheVariants.{Refused};

    ghost from_gives = { λ r e. e ≡ Refused r };

    fn from(refusal: Refusal) -> Self {
        LoadError::Refused(refusal)
    }
}

impl From<AllocError> for LoadError {
    ghost use Rattle.dv_lex.specs.declared.error.LoadError.TheVariants.{Memory};

    ghost from_gives = { λ _ e. e ≡ Memory };

    fn from(_error: AllocError) -> Self {
        LoadError::Memory
    }
}

impl<T: Drop> From<AllocFailed<T>> for LoadError {
    ghost use Rattle.dv_lex.specs.declared.error.LoadError.TheVariants.{Memory};

    ghost from_gives = { λ _ e. e ≡ Memory };

    fn from(_error: AllocFailed<T>) -> Self {
        LoadError::Memory
    }
}
