//! Laws of the tokens and refusals of every text.

ghost use Rattle.std.specs.Prelude.{◌≡◌, ◌≤◌, ◌<◌, ◌⊎◌, ℕ, List, ◌∷◌, ◌++◌, All, bytes_eq, length};
ghost use Rattle.std.specs.List.{IsDistinct};
ghost use Rattle.dv_lex.specs.Numbering.{tokens_of};
ghost use Rattle.dv_lex.specs.Reading.{Located, Reads};
ghost use Rattle.dv_lex.specs.Texts.{IsTokensOf, IsRefused, IsNumbered, IsOffset, IsAscending};
ghost use Rattle.dv_lex.specs.Versions.{IsHeaded, IsOfLaterVersion};

use crate::error::Refusal;
use crate::token::{Keyword, Token, TokenKind};

/// A text has at most one table of names and one list of tokens.
pub fn tokens_are_unique()
    ensures { (text : List ℕ) (names others : List (List ℕ)) (tokens more : List Token) →
        IsTokensOf text names tokens → IsTokensOf text others more → (names ≡ others)
        × (tokens ≡ more) }
{}

/// A text that has tokens is not refused.
pub fn tokens_or_refused()
    ensures { (text : List ℕ) (names : List (List ℕ)) (tokens : List Token) (r : Refusal) →
        IsTokensOf text names tokens → ¬ IsRefused text r }
{}

/// Every text has tokens or is refused.
pub fn a_text_has_tokens_or_a_refusal()
    ensures { (text : List ℕ) →
        ((names : List (List ℕ)) × (tokens : List Token) × IsTokensOf text names tokens)
        ⊎ ((r : Refusal) × IsRefused text r) }
{}

/// A text is refused in at most one way, and at one offset.
pub fn refusals_are_unique()
    ensures { (text : List ℕ) (r other : Refusal) → IsRefused text r → IsRefused text other
        → r ≡ other }
{}

/// The table has each name once.
pub fn names_are_distinct()
    ensures { (text : List ℕ) (names : List (List ℕ)) (tokens : List Token) →
        IsTokensOf text names tokens → IsDistinct bytes_eq names }
{}

/// The number of each name is that of a text in the table.
pub fn names_are_in_the_table()
    ensures { (text : List ℕ) (names : List (List ℕ)) (tokens : List Token) →
        IsTokensOf text names tokens → All (λ token. IsNumbered names token.kind) tokens }
{}

/// An offset counts the bytes before it.
pub fn offsets_count_bytes()
    ensures { (text : List ℕ) (xs : List Located) (offset : ℕ) (rest : List ℕ) →
        Reads 0 text xs offset rest → (before : List ℕ) × (text ≡ before ++ rest)
        × (offset ≡ length before) }
{}

/// Each token has a byte of the text at its offset, and each but the first has a greater offset
/// than the one before.
pub fn tokens_have_offsets()
    ensures in_text { (text : List ℕ) (names : List (List ℕ)) (tokens : List Token) →
        IsTokensOf text names tokens → All (λ token. token.offset < length text) tokens }
    ensures ascending { (text : List ℕ) (names : List (List ℕ)) (tokens : List Token) →
        IsTokensOf text names tokens → IsAscending tokens }
{}

/// A text has no more tokens than bytes.
pub fn tokens_are_no_more_than_bytes()
    ensures { (text : List ℕ) (names : List (List ℕ)) (tokens : List Token) →
        IsTokensOf text names tokens → length tokens ≤ length text }
{}

/// A text that does not begin with the name `version` has the tokens of its lexemes.
pub fn other_texts_keep_their_tokens()
    ensures { (text : List ℕ) (names : List (List ℕ)) (tokens : List Token)
        (t : IsTokensOf text names tokens) → ¬ IsHeaded names (tokens_of names t.lexemes)
        → tokens ≡ tokens_of names t.lexemes }
{}

/// If a text begins with the name `version` and is neither of version 2 nor of version 3, that name
/// is a keyword, at its offset; the other tokens are those of its lexemes.
pub fn later_versions_alone_change_what_follows_a_header()
    ensures { (text : List ℕ) (names : List (List ℕ)) (tokens : List Token)
        (t : IsTokensOf text names tokens) (first : Token) (others : List Token) →
        tokens_of names t.lexemes ≡ first ∷ others → IsHeaded names (first ∷ others) →
        ¬ IsOfLaterVersion others → tokens
        ≡ record { kind = TokenKind.Keyword Keyword.Version; offset = first.offset } ∷ others }
{}

/// A text is refused at one of its offsets, or at its end.
pub fn refusals_have_offsets()
    ensures in_text { (text : List ℕ) (r : Refusal) → IsRefused text r → r.offset ≤ length text }
    ensures small { (text : List ℕ) (r : Refusal) → IsRefused text r → IsOffset r.offset }
{}
