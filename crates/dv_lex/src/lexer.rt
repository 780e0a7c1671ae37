//! From the bytes of a model text to its tokens.

ghost use Rattle.std.specs.Prelude.{List, [], ◌++◌, ◌≡◌, ◌≢◌, ℕ, ◌∷◌, ◌+◌, ◌-◌, ◌^◌, ◌<◌, ◌≤◌, false, length, encode_utf8, IfErr, IfOk};
ghost use Rattle.std.specs.Prelude.{MatchOption, Some, Err, IsTrue, not, ◌==◌};
ghost use Rattle.std.specs.Char.{is_ascii_digit};
ghost use Rattle.std.specs.List.{list_all, take_while};
ghost use Rattle.std.specs.Str.Parse.{digits_value};
ghost use Rattle.dv_lex.specs.Lexemes.{Lexeme, symbol_text, Spells, IsWord, is_blank, starts_name, continues_name};
ghost use Rattle.dv_lex.specs.Lexemes.{is_name_byte};
ghost use Rattle.dv_lex.specs.Numbering.{kind_of};
ghost use Rattle.dv_lex.specs.Steps.{BeginsWith, SplitsCharacters, SplitsRun, IsLongestSymbol, ReadsToken, IsNoToken, with_lexeme};
ghost use Rattle.dv_lex.specs.Texts.{IsTokensOf, IsRefused, IsRefusedAs, IsReadable, greatest_length};

use crate::error::{LoadError, Refusal, RefusalNumber};
use crate::keywords::keyword;
use crate::names::Names;
use crate::numeral::Numeral;
use crate::symbols::{double, single};
use crate::token::{Symbol, Token, TokenKind, Tokens};
use crate::versions::make_words;
use std::alloc::{AllocError, Global};
use unicode_ident::{is_xid_continue, is_xid_start};

/// The greatest length of a model text, in bytes.
pub const GREATEST_LENGTH: usize = 16_777_216;

/// Whether the character is a blank: a space, a tab, a carriage return or a line feed.
fn is_blank(character: char) -> bool
    ensures { result ≡ is_blank character }
{
    matches!(character, ' ' | '\t' | '\r' | '\n')
}

/// Whether a name may begin with the character.
fn starts_name(character: char) -> bool
    ensures { result ≡ starts_name character }
{
    is_xid_start(character) || character == '_'
}

/// Whether the character may follow the first one in a name.
fn continues_name(character: char) -> bool
    ensures { result ≡ continues_name character }
{
    is_xid_continue(character)
}

/// The number of digits at the front.
fn digits_len(bytes: &[u8]) -> usize
    ensures { result ≡ length (take_while is_ascii_digit bytes.now) }
{
    bytes
        .iter()
        .take_while(|byte| byte.is_ascii_digit())
        .count()
}

/// The number of bytes before the end of the line.
fn line_len(bytes: &[u8]) -> usize
    ensures { result ≡ length (take_while (λ b. not (b == 10)) bytes.now) }
{
    bytes.iter().take_while(|byte| **byte != b'\n').count()
}

/// The first character of the text, and what follows it.
fn split_first(text: &str) -> Option<(char, &str)>
    ensures { MatchOption result (text.now ≡ []) (λ r. text.now ≡ encode_utf8 r.0 ++ r.1.now) }
{
    let mut characters = text.chars();
    let first = characters.next()?;
    Some((first, characters.as_str()))
}

/// The number of bytes at the front that are ASCII characters which may follow the first one in a
/// name.
fn name_bytes_len(bytes: &[u8]) -> usize
    ensures { result ≡ length (take_while is_name_byte bytes.now) }
{
    bytes
        .iter()
        .take_while(|byte| byte.is_ascii_alphanumeric() || **byte == b'_')
        .count()
}

/// Splits off the ASCII characters at the front that may follow the first one in a name.
fn split_name_bytes(text: &str) -> (&str, &str)
    ensures { SplitsRun is_name_byte text.now result.0.now result.1.now }
{
    text.split_at(name_bytes_len(text.as_bytes()))
}

/// Whether there is a first character and it is ASCII.
fn begins_with_ascii(text: &str) -> bool
    ensures { IsTrue result → (b : ℕ) (bytes : List ℕ) → text.now ≡ b ∷ bytes → b < 128 }
{
    match text.as_bytes() {
        [first, ..] => *first < 128,
        [] => true,
    }
}

/// Splits off the characters at the front that may follow the first one in a name. Characters are
/// looked up one by one only if those of ASCII do not end the word.
fn split_word(text: &str) -> (&str, &str)
    ensures { SplitsCharacters continues_name text.now result.0.now result.1.now }
{
    let (word, rest) = split_name_bytes(text);
    if begins_with_ascii(rest) {
        return (word, rest);
    }
    match text.find(|character: char| !continues_name(character)) {
        Some(end) => text.split_at(end),
        None => (text, ""),
    }
}

/// Splits off the digits at the front.
fn split_digits(text: &str) -> (&str, &str)
    ensures { SplitsRun is_ascii_digit text.now result.0.now result.1.now }
{
    text.split_at(digits_len(text.as_bytes()))
}

/// Splits the text before the next line feed.
fn split_line(text: &str) -> (&str, &str)
    ensures { SplitsRun (λ b. not (b == 10)) text.now result.0.now result.1.now }
{
    text.split_at(line_len(text.as_bytes()))
}

/// The value of the digits, if it is at most 2^63 - 1.
fn number(digits: &str) -> Option<Numeral>
    requires some { 0 < length digits.now }
    requires digits { IsTrue (list_all is_ascii_digit digits.now) }
    ensures { MatchOption result (2 ^ 63 ≤ digits_value 10 digits.now)
        (λ n. (n ≡ digits_value 10 digits.now) × (digits_value 10 digits.now < 2 ^ 63)) }
{
    match digits.parse() {
        Ok(value) => Numeral::new(value),
        Err(_) => None,
    }
}

/// The kind of the token of a word. A name is added to the table if it is new.
fn word_kind(alloc: Global, names: &mut Names, word: &str) -> Result<TokenKind, AllocError>
    requires room { length names.old < 2 ^ 32 }
    requires word { IsWord word.now }
    ensures { IfOk result (λ kind. (lexeme : Lexeme) × Spells lexeme word.now
        × (names.new ≡ with_lexeme names.old lexeme) × (kind_of names.new lexeme ≡ Some kind)) }
{
    match keyword(word) {
        Some(keyword) => Ok(TokenKind::Keyword(keyword)),
        None => Ok(TokenKind::Name(names.number(alloc, word)?)),
    }
}

/// The symbol at the front of the text, of two characters if possible, and the rest.
fn symbol(text: &str) -> Option<(Symbol, &str)>
    ensures { MatchOption result ((s : Symbol) (rest : List ℕ) → text.now ≢ symbol_text s ++ rest)
        (λ r. IsLongestSymbol text.now r.0 r.1.now) }
{
    if let [first, second, ..] = text.as_bytes() {
        if let Some(symbol) = double(*first, *second) {
            return Some((symbol, &text[2..]));
        }
    }
    let [first, ..] = text.as_bytes() else {
        return None;
    };
    Some((single(*first)?, &text[1..]))
}

/// A refusal as an error.
fn refused(number: RefusalNumber, offset: u32) -> LoadError
    ensures { result ≡ LoadError.Refused (record { number = number; offset = offset }) }
{
    LoadError::Refused(Refusal { number, offset })
}

/// The number or the symbol at the front of the text, whose first character and offset are given,
/// and the rest. It takes no memory.
///
/// # Errors
///
/// E3 for a number above 2^63 - 1, and E2 if no symbol begins here, at this offset.
fn number_or_symbol(first: char, text: &str, offset: u32) -> Result<(Token, &str), Refusal>
    requires first { BeginsWith first text.now }
    requires no_blank { is_blank first ≡ false }
    requires no_comment { first ≢ 35 }
    requires no_word { starts_name first ≡ false }
    ensures token { (names : List (List ℕ)) → IfOk result (λ r.
        ReadsToken offset text.now names names r.0 r.1.now) }
    ensures refused { IfErr result (λ r. (r.offset ≡ offset) × IsNoToken text.now r.number) }
{
    if first.is_ascii_digit() {
        let (digits, rest) = split_digits(text);
        let Some(value) = number(digits) else {
            return Err(Refusal {
                number: RefusalNumber::E3,
                offset,
            });
        };
        let kind = TokenKind::Number(value);
        return Ok((Token { kind, offset }, rest));
    }
    let Some((symbol, rest)) = symbol(text) else {
        return Err(Refusal {
            number: RefusalNumber::E2,
            offset,
        });
    };
    let kind = TokenKind::Symbol(symbol);
    Ok((Token { kind, offset }, rest))
}

/// The token at the front of the text, whose first character and offset are given, and the rest.
fn token<'a>(
    alloc: Global,
    names: &mut Names,
    first: char,
    text: &'a str,
    offset: u32,
) -> Result<(Token, &'a str), LoadError>
    requires room { length names.old < 2 ^ 32 }
    requires first { BeginsWith first text.now }
    requires no_blank { is_blank first ≡ false }
    requires no_comment { first ≢ 35 }
    ensures token { IfOk result (λ r. ReadsToken offset text.now names.old names.new r.0 r.1.now) }
    ensures refused { (r : Refusal) → result ≡ Err (LoadError.Refused r)
        → (r.offset ≡ offset) × IsNoToken text.now r.number }
{
    if starts_name(first) {
        let (word, rest) = split_word(text);
        let kind = word_kind(alloc, names, word)?;
        return Ok((Token { kind, offset }, rest));
    }
    match number_or_symbol(first, text, offset) {
        Ok(read) => Ok(read),
        Err(refusal) => Err(LoadError::Refused(refusal)),
    }
}

/// The number of bytes of the text before `rest`, which is its end.
fn offset_of(text: &str, rest: &str) -> u32
    requires short { length text.now ≤ greatest_length }
    requires part { length rest.now ≤ length text.now }
    ensures { result ≡ length text.now - length rest.now }
{
    (text.len() - rest.len()) as u32
}

/// The tokens of a text that is not too long.
fn read(alloc: Global, text: &str) -> Result<Tokens, LoadError>
    requires { IsReadable text.now }
    ensures tokens { IfOk result (λ r. IsTokensOf text.now r.names r.tokens.items) }
    ensures refused { (r : Refusal) → result ≡ Err (LoadError.Refused r) → IsRefused text.now r }
{
    let mut names = Names::new(alloc);
    let mut tokens = Vec::new(alloc);
    let mut rest = text;
    while let Some((first, after)) = split_first(rest) {
        if is_blank(first) {
            rest = after;
        } else if first == '#' {
            let (_, after) = split_line(after);
            rest = after;
        } else {
            let offset = offset_of(text, rest);
            let (token, after) = match token(alloc, &mut names, first, rest, offset) {
                Ok(read) => read,
                Err(e) => return Err(e),
            };
            tokens.push(token)?;
            rest = after;
        }
    }
    make_words(&names, &mut tokens);
    Ok(Tokens { names, tokens })
}

/// The tokens of a model text.
///
/// # Errors
/// `Refused` if the text is too long, is not UTF-8, has a character with which no token begins, or
/// a number above 2^63 - 1. The first of these that applies is named, in this order, the last two
/// in reading order. A text that is too long is refused at its first byte, one that is not UTF-8 at
/// the first byte that begins no whole character. `Memory` if an allocation was refused.
pub fn tokens(alloc: Global, text: &[u8]) -> Result<Tokens, LoadError>
    ensures tokens { IfOk result (λ r. IsTokensOf text.now r.names r.tokens.items) }
    ensures refused { (r : Refusal) → result ≡ Err (LoadError.Refused r) → IsRefused text.now r }
    ensures too_long { greatest_length < length text.now
        → result ≡ Err (LoadError.Refused (record { number = RefusalNumber.E17; offset = 0 })) }
    ensures not_text { (offset : ℕ) → IsRefusedAs text.now RefusalNumber.E1 offset
        → result ≡ Err (LoadError.Refused (record { number = RefusalNumber.E1; offset = offset })) }
{
    if text.len() > GREATEST_LENGTH {
        return Err(refused(RefusalNumber::E17, 0));
    }
    match str::from_utf8(text) {
        Ok(text) => read(alloc, text),
        Err(e) => Err(refused(RefusalNumber::E1, e.valid_up_to() as u32)),
    }
}
