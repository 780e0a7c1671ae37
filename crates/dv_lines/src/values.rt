//! Values, state variables, and what was sent, put into a slice of bytes from an index on. Calls
//! return what those of `pieces` do.

ghost use Rattle.std.specs.Prelude.{◌≡◌, ◌≤◌, ◌+◌, ◌<◌, ◌++◌, ◌∷◌, [], if◌then◌else◌, true, drop, length, map, replicate, IfSome};
ghost use Rattle.std.specs.Fmt.{signed_decimal};
ghost use Rattle.std.specs.List.{All};
ghost use Rattle.dv_bag.specs.Bag.{values_of};
ghost use Rattle.dv_bag.specs.Collections.{values_in};
ghost use Rattle.dv_bag.specs.Sent.{RiseFrom, pairs_at};
ghost use Rattle.dv_text.specs.Texts.{datum_text, numbers_text, values_text};
ghost use Rattle.dv_text.specs.Writing.{values_from};
ghost use Rattle.dv_written.specs.Rooms.{IsPut};
ghost use Rattle.dv_lines.specs.Words.{IsWithin, row_words, word_text, variables_words, one_words, sent_words};

use crate::numbers::{put_near_number, put_number};
use crate::pieces::{HEAD, Word, put_byte, put_near_bytes, put_near_word, put_sixteen, put_word};
use crate::words::{Row, Words};
use dv_bag::sent::Sending;
use dv_bag::{Bag, Collection, Datum, Queue, Sent};
use dv_written::put_few_bytes;

// Puts a value, with a comma before it unless it is the first.
#[inline(always)]
fn put_value(to: &mut [u8], at: usize, is_first: bool, value: i64) -> Option<usize>
    requires { at ≤ length to.old }
    ensures size { length to.new ≡ length to.old }
    ensures text { IfSome result (λ end. IsPut to.old at to.new end
        ((if is_first then [] else 44 ∷ []) ++ signed_decimal value)) }
{
    let mut at = at;
    if !is_first {
        at = put_byte(to, at, b',')?;
    }
    put_number(to, at, value)
}

// Puts copies of a value, with a comma before each of them, except before the first of all values.
#[inline(always)]
fn put_copies(to: &mut [u8], at: usize, is_first: bool, value: i64, copies: u64) -> Option<usize>
    requires { at ≤ length to.old }
    ensures size { length to.new ≡ length to.old }
    ensures text { IfSome result (λ end. IsPut to.old at to.new end
        (values_from is_first (replicate copies value))) }
{
    let mut at = at;
    let mut is_first = is_first;
    for _copy in 0..copies {
        at = put_value(to, at, is_first, value)?;
        is_first = false;
    }
    Some(at)
}

/// Puts the values of a bag in ascending order, with commas between them. Each occurs as often as
/// it has copies.
pub fn put_values(to: &mut [u8], at: usize, values: &Bag) -> Option<usize>
    requires { at ≤ length to.old }
    ensures size { length to.new ≡ length to.old }
    ensures text { IfSome result (λ end. IsPut to.old at to.new end (values_text values.now)) }
{
    let mut at = at;
    let mut is_first = true;
    for pair in values.pairs() {
        at = put_copies(to, at, is_first, pair.0, pair.1)?;
        is_first = false;
    }
    Some(at)
}

/// Puts the values of a queue from the first to the last, with commas between them.
pub fn put_queue(to: &mut [u8], at: usize, values: &Queue) -> Option<usize>
    requires { at ≤ length to.old }
    ensures size { length to.new ≡ length to.old }
    ensures text { IfSome result (λ end. IsPut to.old at to.new end (numbers_text values.now)) }
{
    let mut at = at;
    let mut is_first = true;
    for number in 0..values.len() {
        let Some(value) = values.get(number) else {
            unreachable!()
        };
        at = put_value(to, at, is_first, value)?;
        is_first = false;
    }
    Some(at)
}

// Puts the values of a bag or a queue, with commas between them.
fn put_collection(to: &mut [u8], at: usize, held: &Collection) -> Option<usize>
    requires { at ≤ length to.old }
    ensures size { length to.new ≡ length to.old }
    ensures text { IfSome result (λ end. IsPut to.old at to.new end
        (numbers_text (values_in held.now))) }
{
    match held {
        Collection::Bag(bag) => put_values(to, at, bag),
        Collection::Queue(queue) => put_queue(to, at, queue),
    }
}

// Puts a bag or a queue in brackets.
fn put_held(to: &mut [u8], at: usize, held: &Collection) -> Option<usize>
    requires { at ≤ length to.old }
    ensures size { length to.new ≡ length to.old }
    ensures text { IfSome result (λ end. IsPut to.old at to.new end
        (91 ∷ (numbers_text (values_in held.now) ++ (93 ∷ [])))) }
{
    let at = put_byte(to, at, b'[')?;
    let at = put_collection(to, at, held)?;
    put_byte(to, at, b']')
}

// Puts what a state variable holds, where there is room for two bytes: a number, `true` or `false`,
// or a bag or a queue in brackets.
#[inline(always)]
fn put_datum(to: &mut [u8], at: usize, datum: &Datum) -> Option<usize>
    requires { at + 2 ≤ length to.old }
    ensures size { length to.new ≡ length to.old }
    ensures text { IfSome result (λ end. IsPut to.old at to.new end (datum_text datum.now)) }
{
    match datum {
        Datum::Number(number) => put_near_number(to, at, *number),
        Datum::Flag(true) => put_few_bytes(to, at, b"true"),
        Datum::Flag(false) => put_few_bytes(to, at, b"false"),
        Datum::Held(held) => put_held(to, at, held.as_collection()),
    }
}

// Puts a state variable whose word is longer than a head.
#[inline(never)]
fn put_long_variable(
    to: &mut [u8],
    at: usize,
    bytes: &[u8],
    word: &Word,
    datum: &Datum,
) -> Option<usize>
    requires { at + 18 ≤ length to.old }
    ensures size { length to.new ≡ length to.old }
    ensures text { IfSome result (λ end. IsPut to.old at to.new end
        (word_text bytes.now word.now ++ datum_text datum.now)) }
{
    let at = put_near_word(to, at, bytes, word)?;
    if to.len() - at < 2 {
        return None;
    }
    put_datum(to, at, datum)
}

/// Puts a word and what a state variable holds, where there is room for a head and two bytes.
#[inline(always)]
pub fn put_near_variable(
    to: &mut [u8],
    at: usize,
    bytes: &[u8],
    word: &Word,
    datum: &Datum,
) -> Option<usize>
    requires { at + 18 ≤ length to.old }
    ensures size { length to.new ≡ length to.old }
    ensures text { IfSome result (λ end. IsPut to.old at to.new end
        (word_text bytes.now word.now ++ datum_text datum.now)) }
{
    if word.length > HEAD {
        return put_long_variable(to, at, bytes, word, datum);
    }
    put_sixteen(to, at, word.head, word.length);
    put_datum(to, at + word.length, datum)
}

// Puts a word and what a state variable holds.
#[inline(always)]
fn put_variable(to: &mut [u8], at: usize, bytes: &[u8], word: &Word, datum: &Datum) -> Option<usize>
    requires { at ≤ length to.old }
    ensures size { length to.new ≡ length to.old }
    ensures text { IfSome result (λ end. IsPut to.old at to.new end
        (word_text bytes.now word.now ++ datum_text datum.now)) }
{
    if to.len() - at < HEAD + 2 {
        return None;
    }
    put_near_variable(to, at, bytes, word, datum)
}

/// All but the first of some items.
#[inline(always)]
pub fn rest_of<T>(items: &[T]) -> &[T]
    ensures { result.now ≡ drop 1 items.now }
{
    if items.is_empty() {
        return items;
    }
    &items[1..]
}

/// Puts state variables, each after its word.
#[inline(always)]
pub fn put_variables(
    to: &mut [u8],
    at: usize,
    bytes: &[u8],
    words: &[Word],
    values: &[Datum],
) -> Option<usize>
    requires { at ≤ length to.old }
    ensures size { length to.new ≡ length to.old }
    ensures text { IfSome result (λ end. IsPut to.old at to.new end
        (variables_words (map (word_text bytes.now) words.now) values.now)) }
{
    let mut at = at;
    for (index, word) in words.iter().enumerate() {
        let Some(datum) = values.get(index) else {
            return Some(at);
        };
        at = put_variable(to, at, bytes, word, datum)?;
    }
    Some(at)
}

// Puts the values that were sent at a port, which come first in `sendings`.
#[inline(always)]
fn put_sendings(to: &mut [u8], at: usize, sendings: &[Sending], port: usize) -> Option<usize>
    requires at { at ≤ length to.old }
    requires order { RiseFrom port sendings.now }
    requires some { All (λ s. 0 < s.copies) sendings.now }
    ensures size { length to.new ≡ length to.old }
    ensures text { IfSome result (λ end. IsPut to.old at to.new end
        (values_from true (values_of (pairs_at port sendings.now)))) }
{
    let mut at = at;
    let mut is_first = true;
    for sending in sendings {
        if sending.port != port {
            return Some(at);
        }
        at = put_copies(to, at, is_first, sending.value, sending.copies)?;
        is_first = false;
    }
    Some(at)
}

/// Puts what a component sent: ` >`, and each port at which something was sent with its values.
#[inline(always)]
pub fn put_sent(to: &mut [u8], at: usize, all: &Words, row: &Row, sent: &Sent) -> Option<usize>
    requires at { at ≤ length to.old }
    requires within { IsWithin (length all.now.words) row.now }
    ensures size { length to.new ≡ length to.old }
    ensures text { IfSome result (λ end. IsPut to.old at to.new end
        (sent_words (row_words all.now.bytes all.now.words row.now).outputs sent.now)) }
{
    let sendings = sent.as_slice();
    if sendings.is_empty() {
        return Some(at);
    }
    let (bytes, words) = (all.as_bytes(), all.outputs(row));
    if sendings.len() == 1 && sendings[0].copies == 1 {
        return put_one(to, at, bytes, words, sendings[0].port, sendings[0].value);
    }
    put_ports(to, at, bytes, words, sent)
}

// Puts one value that was sent at a port.
#[inline(always)]
fn put_one(
    to: &mut [u8],
    at: usize,
    bytes: &[u8],
    words: &[Word],
    port: usize,
    value: i64,
) -> Option<usize>
    requires { at ≤ length to.old }
    ensures size { length to.new ≡ length to.old }
    ensures text { IfSome result (λ end. IsPut to.old at to.new end
        (one_words (map (word_text bytes.now) words.now) port value)) }
{
    let Some(word) = words.get(port) else {
        return Some(at);
    };
    if to.len() - at < HEAD + 2 {
        return None;
    }
    put_near_bytes(to, at, b" >");
    let at = put_near_word(to, at + 2, bytes, word)?;
    put_number(to, at, value)
}

// Puts each port at which something was sent with its values, after ` >`.
#[inline(never)]
fn put_ports(to: &mut [u8], at: usize, bytes: &[u8], words: &[Word], sent: &Sent) -> Option<usize>
    requires { at ≤ length to.old }
    ensures size { length to.new ≡ length to.old }
    ensures text { IfSome result (λ end. IsPut to.old at to.new end
        (sent_words (map (word_text bytes.now) words.now) sent.now)) }
{
    let mut at = at;
    let mut is_first = true;
    let mut next = 0;
    let sendings = sent.as_slice();
    for (index, sending) in sendings.iter().enumerate() {
        // The first value of a port writes all values of the port.
        if sending.port >= next {
            let Some(word) = words.get(sending.port) else {
                return Some(at);
            };
            at = put_port(
                to,
                at,
                is_first,
                bytes,
                word,
                &sendings[index..],
                sending.port,
            )?;
            is_first = false;
            next = sending.port + 1;
        }
    }
    Some(at)
}

// Puts a port with its values, and ` >` before it if it is the first.
#[inline(always)]
fn put_port(
    to: &mut [u8],
    at: usize,
    is_first: bool,
    bytes: &[u8],
    word: &Word,
    sendings: &[Sending],
    port: usize,
) -> Option<usize>
    requires at { at ≤ length to.old }
    requires order { RiseFrom port sendings.now }
    requires some { All (λ s. 0 < s.copies) sendings.now }
    ensures size { length to.new ≡ length to.old }
    ensures text { IfSome result (λ end. IsPut to.old at to.new end
        ((if is_first then 32 ∷ 62 ∷ [] else []) ++ (word_text bytes.now word.now
        ++ values_from true (values_of (pairs_at port sendings.now))))) }
{
    let mut at = at;
    if is_first {
        at = put_byte(to, at, b' ')?;
        at = put_byte(to, at, b'>')?;
    }
    let at = put_word(to, at, bytes, word)?;
    put_sendings(to, at, sendings, port)
}
