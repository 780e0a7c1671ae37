//! Tokens, names and lines, for what no row of a text can show.

use crate::compare::same;
use dv_lex::{LoadError, Names, Numeral, Refusal, RefusalNumber, TextError, answer, tokens};
use std::process::Abort;

fn offsets_of<R: Abort + AllocGlobal>(rt: &R, text: &str) -> String {
    let found = tokens(rt.alloc(), text.as_bytes()).expect(rt, "tokens");
    let mut offsets = String::new(rt.alloc());
    for token in found.tokens.iter() {
        write!(offsets, "{} ", token.offset).expect(rt, "memory");
    }
    offsets
}

#[test]
fn offsets_are_counted_in_bytes(rt: HostRuntime) {
    let offsets = offsets_of(&rt, "\u{8ba1}\u{e9}.\u{e9} # \u{e9}\ne\u{301}:=\u{10400};");
    same!(rt; offsets.as_str(), "0 5 6 14 17 19 23 ");
}

// The three bytes would be half of a surrogate pair.
#[test]
fn half_a_pair_is_no_character(rt: HostRuntime) {
    let refusal = Refusal {
        number: RefusalNumber::E1,
        offset: 4,
    };
    let error = tokens(rt.alloc(), b"a\n\nb\xed\xa0\x80\n").err();
    same!(rt; error, Some(LoadError::Refused(refusal)));
}

#[test]
fn numbers_end_below_two_to_the_63rd(rt: HostRuntime) {
    let greatest = Numeral::new(9_223_372_036_854_775_807).expect(&rt, "the greatest number");
    same!(rt; greatest.value(), i64::MAX);
    same!(rt; Numeral::new(9_223_372_036_854_775_808), None);
}

fn same_line(rt: &impl Abort, offset: u32, line: u64) {
    let number = RefusalNumber::E4;
    let answer = answer(b"a\nb\r\n\nc", Refusal { number, offset });
    let wanted = TextError {
        number,
        line,
        offset,
    };
    assert!(rt; answer == wanted, "offset {offset}");
}

#[test]
fn answers_with_lines(rt: HostRuntime) {
    for (offset, line) in [(0, 1), (1, 1), (2, 2), (5, 3), (6, 4), (7, 4)] {
        same_line(&rt, offset, line);
    }
}

// The number of a name in a table of few names.
fn number_of<R: Abort + AllocGlobal>(rt: &R, names: &mut Names, text: &str) -> u32 {
    assert!(rt; names.len() < 100);
    names.number(rt.alloc(), text).expect(rt, "memory")
}

#[test]
fn numbers_names(rt: HostRuntime) {
    let mut names = Names::new(rt.alloc());
    same!(rt; number_of(&rt, &mut names, "tick"), 0);
    same!(rt; number_of(&rt, &mut names, "tock"), 1);
    same!(rt; number_of(&rt, &mut names, "tick"), 0);
    same!(rt; names.len(), 2);
    same!(rt; names.text(1), Some("tock"));
    same!(rt; names.text(2), None);
}
