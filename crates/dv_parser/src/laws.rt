//! Laws of the grammar. Each function states a law in its contract; its body does nothing.

ghost use Rattle.std.specs.Prelude.{◌≡◌, ◌⊎◌, ℕ, List, Some, None};
ghost use Rattle.dv_source.specs.Grammar.{IsFileOf};
ghost use Rattle.dv_syntax.specs.Trees.{FileTree};
ghost use Rattle.dv_parser.specs.Reading.{refusal_of_tokens};

use dv_lex::{Refusal, Token};

/// Tokens are those of at most one file.
pub fn tokens_spell_one_file()
    ensures { (ts : List Token) (f g : FileTree) → IsFileOf ts f → IsFileOf ts g → f ≡ g }
{}

/// Tokens are those of a file or have a refusal, and not both. There is one refusal, since
/// `refusal_of_tokens` is a function.
pub fn tokens_have_one_answer()
    ensures some { (ts : List Token) (end : ℕ) →
        ((f : FileTree) × IsFileOf ts f) ⊎ ((r : Refusal) × (refusal_of_tokens ts end ≡ Some r)) }
    ensures not_both { (ts : List Token) (end : ℕ) (f : FileTree) → IsFileOf ts f
        → refusal_of_tokens ts end ≡ None }
{}
