//! The header of a text, which says the version of the language, and the words of later versions.

ghost use Rattle.std.specs.Prelude.{◌≡◌, ◌≤◌, List, [], ◌++◌, MatchOption, drop, length, map, take};
ghost use Rattle.dv_lex.specs.Versions.{header_words, second_words, text_in, third_words, versioned, with_words, word_written, words_behind, words_of};

use crate::names::Names;
use crate::numeral::Numeral;
use crate::token::{Keyword, Token, TokenKind};

// The keyword of a header with this spelling, if there is one.
fn header_word(text: &str) -> Option<Keyword>
    ensures { result ≡ word_written header_words text.now }
{
    match text {
        "version" => Some(Keyword::Version),
        _ => None,
    }
}

// The keyword of version 2 with this spelling, if there is one.
fn second_word(text: &str) -> Option<Keyword>
    ensures { result ≡ word_written second_words text.now }
{
    match text {
        "queue" => Some(Keyword::Queue),
        "push" => Some(Keyword::Push),
        "pop" => Some(Keyword::Pop),
        "front" => Some(Keyword::Front),
        _ => None,
    }
}

// The keyword of version 3 with this spelling, if there is one.
fn third_word(text: &str) -> Option<Keyword>
    ensures { result ≡ word_written third_words text.now }
{
    match text {
        "const" => Some(Keyword::Const),
        "each" => Some(Keyword::Each),
        "when" => Some(Keyword::When),
        _ => second_word(text),
    }
}

// The keyword with this spelling in the version with this number, if there is one.
fn later_word(version: Numeral, text: &str) -> Option<Keyword>
    ensures { result ≡ word_written (words_of version) text.now }
{
    match version.value() {
        2 => second_word(text),
        3 => third_word(text),
        _ => None,
    }
}

// The text of a name: empty for other tokens.
fn text_of<'a>(names: &'a Names, kind: TokenKind) -> &'a str
    ensures { result.now ≡ text_in names.now kind }
{
    let TokenKind::Name(number) = kind else {
        return "";
    };
    match names.text(number) {
        Some(text) => text,
        None => "",
    }
}

// The token, or if it is a name with the spelling of a word of the version with this number, that
// keyword.
fn with_later_word(names: &Names, version: Numeral, token: Token) -> Token
    ensures { result ≡ with_words names.now (words_of version) token }
{
    match later_word(version, text_of(names, token.kind)) {
        Some(word) => Token {
            kind: TokenKind::Keyword(word),
            offset: token.offset,
        },
        None => token,
    }
}

// The number of a version with words of its own, if the token is that.
fn later_version(kind: TokenKind) -> Option<Numeral>
    ensures { MatchOption result (words_behind kind ≡ []) (λ n. words_behind kind ≡ words_of n) }
{
    match kind {
        TokenKind::Number(version) if matches!(version.value(), 2 | 3) => Some(version),
        _ => None,
    }
}

// Replaces names by keywords of the version with this number, from the third token on.
fn make_later_words(names: &Names, version: Numeral, tokens: &mut Vec<Token>)
    requires { 2 ≤ length tokens.old.items }
    ensures { tokens.new.items ≡ take 2 tokens.old.items
        ++ map (with_words names.now (words_of version)) (drop 2 tokens.old.items) }
{
    for offset in 2..tokens.len() {
        tokens[offset] = with_later_word(names, version, tokens[offset]);
    }
}

/// Replaces the name `version` by its keyword if the tokens begin with it, and behind a header of a
/// later version the names that are words of that version. It takes no memory.
pub fn make_words(names: &Names, tokens: &mut Vec<Token>)
    ensures { tokens.new.items ≡ versioned names.now tokens.old.items }
{
    if tokens.is_empty() {
        return;
    }
    let first = tokens[0];
    let Some(word) = header_word(text_of(names, first.kind)) else {
        return;
    };
    tokens[0] = Token {
        kind: TokenKind::Keyword(word),
        offset: first.offset,
    };
    if tokens.len() < 2 {
        return;
    }
    if let Some(version) = later_version(tokens[1].kind) {
        make_later_words(names, version, tokens);
    }
}
