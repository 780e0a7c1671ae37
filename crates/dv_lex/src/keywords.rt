//! Keywords.

ghost use Rattle.std.specs.Prelude.{◌≡◌, ◌≢◌, IsTrue, MatchOption, length};
ghost use Rattle.dv_lex.specs.Lexemes.{is_reserved, keyword_text};

use crate::token::Keyword;

/// The reserved word with this spelling, if there is one. Only those of the same length are
/// compared, byte by byte.
#[tactic(auto, using(crate::proofs::KeywordLengths::of_length, crate::proofs::KeywordLengths::of_no_length))]
pub fn keyword(word: &str) -> Option<Keyword>
    ensures { MatchOption result
        ((k : Keyword) → IsTrue (is_reserved k) → word.now ≢ keyword_text k)
        (λ k. (word.now ≡ keyword_text k) × IsTrue (is_reserved k)) }
{
    match word.len() {
        2 => of_two(word),
        3 => of_three(word),
        4 => of_four(word),
        5 => of_five(word),
        6 => of_six(word),
        7 => of_seven(word),
        8 => of_eight(word),
        9 => of_nine(word),
        _ => None,
    }
}

// The reserved word of two bytes with this spelling, if there is one.
fn of_two(word: &str) -> Option<Keyword>
    ensures { MatchOption result ((k : Keyword) → length (keyword_text k) ≡ 2
        → IsTrue (is_reserved k) → word.now ≢ keyword_text k)
        (λ k. (word.now ≡ keyword_text k) × IsTrue (is_reserved k)) }
{
    match word.as_bytes() {
        b"in" => Some(Keyword::In),
        b"if" => Some(Keyword::If),
        b"to" => Some(Keyword::To),
        b"or" => Some(Keyword::Or),
        _ => None,
    }
}

// The reserved word of three bytes with this spelling, if there is one.
fn of_three(word: &str) -> Option<Keyword>
    ensures { MatchOption result ((k : Keyword) → length (keyword_text k) ≡ 3
        → IsTrue (is_reserved k) → word.now ≢ keyword_text k)
        (λ k. (word.now ≡ keyword_text k) × IsTrue (is_reserved k)) }
{
    match word.as_bytes() {
        b"out" => Some(Keyword::Out),
        b"var" => Some(Keyword::Var),
        b"bag" => Some(Keyword::Bag),
        b"for" => Some(Keyword::For),
        b"add" => Some(Keyword::Add),
        b"not" => Some(Keyword::Not),
        b"and" => Some(Keyword::And),
        b"sum" => Some(Keyword::Sum),
        _ => None,
    }
}

// The reserved word of four bytes with this spelling, if there is one.
fn of_four(word: &str) -> Option<Keyword>
    ensures { MatchOption result ((k : Keyword) → length (keyword_text k) ≡ 4
        → IsTrue (is_reserved k) → word.now ≢ keyword_text k)
        (λ k. (word.now ≡ keyword_text k) × IsTrue (is_reserved k)) }
{
    match word.as_bytes() {
        b"root" => Some(Keyword::Root),
        b"flag" => Some(Keyword::Flag),
        b"hold" => Some(Keyword::Hold),
        b"part" => Some(Keyword::Part),
        b"link" => Some(Keyword::Link),
        b"self" => Some(Keyword::Itself),
        b"else" => Some(Keyword::Else),
        b"drop" => Some(Keyword::Drop),
        b"from" => Some(Keyword::From),
        b"send" => Some(Keyword::Send),
        b"goto" => Some(Keyword::Goto),
        b"true" => Some(Keyword::True),
        b"size" => Some(Keyword::Size),
        b"most" => Some(Keyword::Most),
        _ => None,
    }
}

// The reserved word of five bytes with this spelling, if there is one.
fn of_five(word: &str) -> Option<Keyword>
    ensures { MatchOption result ((k : Keyword) → length (keyword_text k) ≡ 5
        → IsTrue (is_reserved k) → word.now ≢ keyword_text k)
        (λ k. (word.now ≡ keyword_text k) × IsTrue (is_reserved k)) }
{
    match word.as_bytes() {
        b"start" => Some(Keyword::Start),
        b"false" => Some(Keyword::False),
        b"least" => Some(Keyword::Least),
        b"times" => Some(Keyword::Times),
        _ => None,
    }
}

// The reserved word of six bytes with this spelling, if there is one.
fn of_six(word: &str) -> Option<Keyword>
    ensures { MatchOption result ((k : Keyword) → length (keyword_text k) ≡ 6
        → IsTrue (is_reserved k) → word.now ≢ keyword_text k)
        (λ k. (word.now ≡ keyword_text k) × IsTrue (is_reserved k)) }
{
    match word.as_bytes() {
        b"atomic" => Some(Keyword::Atomic),
        b"phases" => Some(Keyword::Phases),
        b"output" => Some(Keyword::Output),
        _ => None,
    }
}

// The reserved word of seven bytes with this spelling, if there is one.
fn of_seven(word: &str) -> Option<Keyword>
    ensures { MatchOption result ((k : Keyword) → length (keyword_text k) ≡ 7
        → IsTrue (is_reserved k) → word.now ≢ keyword_text k)
        (λ k. (word.now ≡ keyword_text k) × IsTrue (is_reserved k)) }
{
    match word.as_bytes() {
        b"coupled" => Some(Keyword::Coupled),
        b"forever" => Some(Keyword::Forever),
        b"elapsed" => Some(Keyword::Elapsed),
        _ => None,
    }
}

// The reserved word of eight bytes with this spelling, if there is one.
fn of_eight(word: &str) -> Option<Keyword>
    ensures { MatchOption result ((k : Keyword) → length (keyword_text k) ≡ 8
        → IsTrue (is_reserved k) → word.now ≢ keyword_text k)
        (λ k. (word.now ≡ keyword_text k) × IsTrue (is_reserved k)) }
{
    match word.as_bytes() {
        b"internal" => Some(Keyword::Internal),
        b"external" => Some(Keyword::External),
        _ => None,
    }
}

// The reserved word of nine bytes with this spelling, if there is one.
fn of_nine(word: &str) -> Option<Keyword>
    ensures { MatchOption result ((k : Keyword) → length (keyword_text k) ≡ 9
        → IsTrue (is_reserved k) → word.now ≢ keyword_text k)
        (λ k. (word.now ≡ keyword_text k) × IsTrue (is_reserved k)) }
{
    match word.as_bytes() {
        b"confluent" => Some(Keyword::Confluent),
        _ => None,
    }
}
