//! Numbers, put into a slice of bytes from an index on. Calls return what those of `pieces` do.

ghost use Rattle.std.specs.Prelude.{◌≡◌, ◌≤◌, ◌<◌, ◌+◌, ◌/◌, ◌%◌, ◌∷◌, [], pos, ◌<ℤ◌, length, IfSome};
ghost use Rattle.std.specs.Fmt.{decimal, signed_decimal};
ghost use Rattle.dv_written.specs.Rooms.{IsPut};
ghost use Rattle.dv_lines.specs.Digits.{last_four};

use crate::pieces::{put_byte, put_near_byte, put_near_bytes};
use dv_written::put_few_bytes;
use itoa::write_digits;

// The digits of all numbers below 100, two for each.
static PAIRS: [u8; 200] =
    *b"00010203040506070809101112131415161718192021222324252627282930313233343536373839\
    40414243444546474849505152535455565758596061626364656667686970717273747576777879\
    8081828384858687888990919293949596979899";

// The number of digits of a number.
#[inline(always)]
fn digit_count(n: u64) -> usize
    ensures { result ≡ length (decimal n) }
{
    let mut left = n;
    let mut count: usize = 0;
    while left >= 10_000 {
        left /= 10_000;
        count += 4;
    }
    count + few_digits(left)
}

// The number of digits of a number below 10,000.
#[inline(always)]
fn few_digits(n: u64) -> usize
    requires { n < 10000 }
    ensures { result ≡ length (decimal n) }
{
    if n < 100 {
        if n < 10 { 1 } else { 2 }
    } else if n < 1000 {
        3
    } else {
        4
    }
}

// Puts the digits of a number of any length, from the last to the first.
#[inline(never)]
fn put_all_digits(to: &mut [u8], at: usize, n: u64) -> Option<usize>
    requires { at ≤ length to.old }
    ensures size { length to.new ≡ length to.old }
    ensures text { IfSome result (λ end. IsPut to.old at to.new end (decimal n)) }
{
    let count = digit_count(n);
    if to.len() - at < count {
        return None;
    }
    write_digits(n, to, at + count);
    Some(at + count)
}

// The two digits of a number below 100.
#[inline(always)]
fn two_digits(n: u64) -> [u8; 2]
    requires { n < 100 }
    ensures { result ≡ (48 + n / 10) ∷ (48 + n % 10) ∷ [] }
{
    let from = n as usize * 2;
    let (tens, ones) = (PAIRS[from], PAIRS[from + 1]);
    [tens, ones]
}

// The last four digits of a number.
#[inline(always)]
fn four_digits(n: u64) -> [u8; 4]
    ensures { result ≡ last_four n }
{
    let four = n % 10_000;
    let (high, low) = (two_digits(four / 100), two_digits(four % 100));
    [high[0], high[1], low[0], low[1]]
}

// Puts two digits.
#[inline(always)]
fn put_pair(to: &mut [u8], at: usize, n: u64) -> Option<usize>
    requires at { at ≤ length to.old }
    requires two { n < 100 }
    ensures size { length to.new ≡ length to.old }
    ensures text { IfSome result (λ end. IsPut to.old at to.new end
        ((48 + n / 10) ∷ (48 + n % 10) ∷ [])) }
{
    let digits = two_digits(n);
    put_few_bytes(to, at, &digits)
}

/// Puts the last four digits of a number.
#[inline(always)]
pub fn put_four(to: &mut [u8], at: usize, n: u64) -> Option<usize>
    requires { at ≤ length to.old }
    ensures size { length to.new ≡ length to.old }
    ensures text { IfSome result (λ end. IsPut to.old at to.new end (last_four n)) }
{
    let digits = four_digits(n);
    put_few_bytes(to, at, &digits)
}

// Puts the digits of a number below 100 where there is room for two.
#[inline(always)]
fn put_near_two(to: &mut [u8], at: usize, n: u64) -> usize
    requires room { at + 2 ≤ length to.old }
    requires few { n < 100 }
    ensures size { length to.new ≡ length to.old }
    ensures text { IsPut to.old at to.new result (decimal n) }
{
    if n < 10 {
        put_near_byte(to, at, b'0' + n as u8);
        return at + 1;
    }
    put_near_bytes(to, at, &two_digits(n));
    at + 2
}

// Puts the digits of a number below 100.
#[inline(always)]
fn put_two(to: &mut [u8], at: usize, n: u64) -> Option<usize>
    requires at { at ≤ length to.old }
    requires few { n < 100 }
    ensures size { length to.new ≡ length to.old }
    ensures text { IfSome result (λ end. IsPut to.old at to.new end (decimal n)) }
{
    if to.len() - at < 2 {
        return None;
    }
    Some(put_near_two(to, at, n))
}

// Puts the digits of a number below 10,000.
#[inline(always)]
fn put_few(to: &mut [u8], at: usize, n: u64) -> Option<usize>
    requires at { at ≤ length to.old }
    requires few { n < 10000 }
    ensures size { length to.new ≡ length to.old }
    ensures text { IfSome result (λ end. IsPut to.old at to.new end (decimal n)) }
{
    if n < 100 {
        return put_two(to, at, n);
    }
    let at = put_two(to, at, n / 100)?;
    put_pair(to, at, n % 100)
}

// Puts the digits of a number, of which there are more than four and mostly at most twelve.
#[inline(never)]
fn put_many(to: &mut [u8], at: usize, n: u64) -> Option<usize>
    requires at { at ≤ length to.old }
    requires many { 10000 ≤ n }
    ensures size { length to.new ≡ length to.old }
    ensures text { IfSome result (λ end. IsPut to.old at to.new end (decimal n)) }
{
    let front = n / 10_000;
    if front < 10_000 {
        let at = put_few(to, at, front)?;
        return put_four(to, at, n);
    }
    if front >= 100_000_000 {
        return put_all_digits(to, at, n);
    }
    let at = put_few(to, at, front / 10_000)?;
    let at = put_four(to, at, front)?;
    put_four(to, at, n)
}

/// Puts the digits of a number.
#[inline(always)]
pub fn put_digits(to: &mut [u8], at: usize, n: u64) -> Option<usize>
    requires { at ≤ length to.old }
    ensures size { length to.new ≡ length to.old }
    ensures text { IfSome result (λ end. IsPut to.old at to.new end (decimal n)) }
{
    if n < 10_000 {
        return put_few(to, at, n);
    }
    put_many(to, at, n)
}

// Puts a number below 0.
#[inline(never)]
fn put_negative(to: &mut [u8], at: usize, n: i64) -> Option<usize>
    requires at { at ≤ length to.old }
    requires below { n <ℤ (pos 0) }
    ensures size { length to.new ≡ length to.old }
    ensures text { IfSome result (λ end. IsPut to.old at to.new end (signed_decimal n)) }
{
    let at = put_byte(to, at, b'-')?;
    put_digits(to, at, n.unsigned_abs())
}

/// Puts a number, with a minus sign if it is below 0.
#[inline(always)]
pub fn put_number(to: &mut [u8], at: usize, n: i64) -> Option<usize>
    requires { at ≤ length to.old }
    ensures size { length to.new ≡ length to.old }
    ensures text { IfSome result (λ end. IsPut to.old at to.new end (signed_decimal n)) }
{
    if n >= 0 {
        return put_digits(to, at, n.unsigned_abs());
    }
    put_negative(to, at, n)
}

/// Puts a number where there is room for two digits, which are enough for most.
#[inline(always)]
pub fn put_near_number(to: &mut [u8], at: usize, n: i64) -> Option<usize>
    requires { at + 2 ≤ length to.old }
    ensures size { length to.new ≡ length to.old }
    ensures text { IfSome result (λ end. IsPut to.old at to.new end (signed_decimal n)) }
{
    if n >= 0 && n < 100 {
        return Some(put_near_two(to, at, n.unsigned_abs()));
    }
    put_number(to, at, n)
}
