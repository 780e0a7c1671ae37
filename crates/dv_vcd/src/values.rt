//! Writes codes and values.

use crate::forms::Form;
use crate::shown::Status;
use dv_trace::Text;

/// Adds texts one after the other.
pub(crate) fn push_all(text: &mut Text, parts: &[&str]) {
    for part in parts {
        text.add(part);
    }
}

/// Adds the code of the variable with a number, in printable characters. Different numbers have
/// different codes.
pub(crate) fn push_code(text: &mut Text, number: u64) {
    let mut rest = number;
    for _digit in 0..10 {
        text.add_char(char::from(b'!' + (rest % 94) as u8));
        rest /= 94;
        if rest == 0 {
            return;
        }
        rest -= 1;
    }
}

// The binary digits of a hexadecimal digit: at the front of a number, where leading zeros are left
// out, and behind other digits.
const FIRST_BITS: [&str; 16] = [
    "0", "1", "10", "11", "100", "101", "110", "111", "1000", "1001", "1010", "1011", "1100",
    "1101", "1110", "1111",
];

const NEXT_BITS: [&str; 16] = [
    "0000", "0001", "0010", "0011", "0100", "0101", "0110", "0111", "1000", "1001", "1010", "1011",
    "1100", "1101", "1110", "1111",
];

// Adds a `b` and a number in binary, without leading zeros. Four digits are added at once, since a
// dump has very many numbers.
fn push_bits(text: &mut Text, number: u64) {
    let digits = number.checked_ilog2().unwrap_or(0) / 4;
    push_all(text, &["b", bits_at(&FIRST_BITS, number, digits)]);
    for index in (0..digits).rev() {
        text.add(bits_at(&NEXT_BITS, number, index));
    }
}

// The text of the hexadecimal digit at an index. The last digit has the index 0.
fn bits_at(table: &[&'static str; 16], number: u64, index: u32) -> &'static str {
    let digit = number.checked_shr(index.saturating_mul(4)).unwrap_or(0) % 16;
    table.get(digit as usize).copied().unwrap_or("")
}

// Adds a line: the parts of a value and its code.
fn push_line(text: &mut Text, parts: &[&str], code: u64) {
    push_all(text, parts);
    push_code(text, code);
    text.add_char('\n');
}

/// Adds a number: as a bit, or in two's complement of 64 bits without leading zeros.
pub(crate) fn push_number(text: &mut Text, form: Form, number: i64, code: u64) {
    match form {
        Form::Wire => push_line(text, &[bit_of(number)], code),
        Form::Integer | Form::Text => {
            push_bits(text, number.cast_unsigned());
            push_line(text, &[" "], code);
        }
    }
}

// A number on a wire. A number that is no bit, which no run has, is shown as unknown.
fn bit_of(number: i64) -> &'static str {
    match number {
        0 => "0",
        1 => "1",
        _ => "x",
    }
}

/// Adds a string, which has to be without blanks.
pub(crate) fn push_string(text: &mut Text, string: &str, code: u64) {
    push_line(text, &["s", string, " "], code);
}

/// Adds the values of a bag or a queue.
pub(crate) fn push_held(text: &mut Text, values: &str, code: u64) {
    push_line(text, &["s[", values, "] "], code);
}

/// Adds that nothing is shown: an unknown bit or number, or a dash, which is never the text of
/// values.
pub(crate) fn push_nothing(text: &mut Text, form: Form, code: u64) {
    let value = match form {
        Form::Wire => "x",
        Form::Integer => "bx ",
        Form::Text => "s- ",
    };
    push_line(text, &[value], code);
}

/// Adds a component's phase or fault. No name of a phase has a colon.
pub(crate) fn push_status(text: &mut Text, status: Status<'_>, code: u64) {
    match status {
        Status::Phase(name) => push_string(text, name, code),
        Status::Fault(fault) => push_line(text, &["sfault:", fault.word(), " "], code),
    }
}
