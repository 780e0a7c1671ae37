//! Symbols.

ghost use Rattle.std.specs.Prelude.{◌≡◌, ◌≢◌, MatchOption, [], ◌∷◌};
ghost use Rattle.dv_lex.specs.Lexemes.{symbol_text};

use crate::token::Symbol;

/// The symbol of these two characters.
pub fn double(first: u8, second: u8) -> Option<Symbol>
    ensures { MatchOption result ((s : Symbol) → symbol_text s ≢ first ∷ second ∷ [])
        (λ s. symbol_text s ≡ first ∷ second ∷ []) }
{
    match (first, second) {
        (b':', b'=') => Some(Symbol::Assign),
        (b'-', b'>') => Some(Symbol::Arrow),
        (b'.', b'.') => Some(Symbol::Range),
        (b'!', b'=') => Some(Symbol::Unequal),
        (b'<', b'=') => Some(Symbol::AtMost),
        (b'>', b'=') => Some(Symbol::AtLeast),
        _ => None,
    }
}

/// The symbol of this one character.
pub fn single(first: u8) -> Option<Symbol>
    ensures { MatchOption result ((s : Symbol) → symbol_text s ≢ first ∷ [])
        (λ s. symbol_text s ≡ first ∷ []) }
{
    match first {
        b'{' => Some(Symbol::OpenBrace),
        b'}' => Some(Symbol::CloseBrace),
        b'(' => Some(Symbol::OpenParen),
        b')' => Some(Symbol::CloseParen),
        b';' => Some(Symbol::Semicolon),
        b':' => Some(Symbol::Colon),
        b',' => Some(Symbol::Comma),
        b'.' => Some(Symbol::Dot),
        b'=' => Some(Symbol::Equal),
        b'<' => Some(Symbol::Less),
        b'>' => Some(Symbol::Greater),
        b'+' => Some(Symbol::Plus),
        b'-' => Some(Symbol::Minus),
        b'*' => Some(Symbol::Star),
        b'/' => Some(Symbol::Slash),
        b'%' => Some(Symbol::Percent),
        _ => None,
    }
}
