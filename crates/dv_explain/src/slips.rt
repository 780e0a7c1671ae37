//! Signs and habits of other languages, recognized at the offset of a refusal.

use crate::foreign::{IMPORTS, NO_IMPORT};

/// A slip: how the text before the offset ends, how the text from it on begins, and a sentence.
struct Slip {
    before: &'static str,
    after: &'static str,
    words: &'static str,
}

/// A sentence with a line feed on what is probably meant at an offset, in bytes, at which E2 or E4
/// refuses a text; an empty text if that is not known.
pub fn slip_at(text: &[u8], offset: usize) -> &'static str {
    let (before, after) = text.split_at(offset.min(text.len()));
    if is_decimal(before, after) {
        return "There are no fractions: numbers are whole, so count in smaller units.\n";
    }
    if is_decimal_alone(before, after) {
        return "Numbers are written in decimal digits only.\n";
    }
    if is_unit(before, after) {
        return "Times are whole numbers of ticks, and numbers have no unit.\n";
    }
    if begins_with_digit(before, after) {
        return "A name begins with a letter or `_`.\n";
    }
    if is_hyphen(before, after) {
        return "A name consists of letters, digits and `_`, without `-`.\n";
    }
    if is_list_of_parts(before, after) {
        return "There are no lists of parts: write an item for each, as `part a1: A; part a2: A;`.\n";
    }
    if is_import(before, after) {
        return NO_IMPORT;
    }
    match slips().iter().find(|slip| is_at(slip, before, after)) {
        Some(slip) => slip.words,
        None => "",
    }
}

/// Bytes without the blanks at their end.
fn without_blanks(bytes: &[u8]) -> &[u8] {
    let blanks = bytes.iter().rev().take_while(|byte| is_blank(byte)).count();
    bytes
        .get(..bytes.len().saturating_sub(blanks))
        .unwrap_or(bytes)
}

/// Whether a byte is a blank between tokens.
fn is_blank(byte: &u8) -> bool {
    matches!(byte, b' ' | b'\t' | b'\r' | b'\n')
}

/// Whether a slip is between these two parts of a text.
fn is_at(slip: &Slip, before: &[u8], after: &[u8]) -> bool {
    before.ends_with(slip.before.as_bytes()) && after.starts_with(slip.after.as_bytes())
}

/// The slips that the characters around the offset show. The first one that fits is taken.
fn slips() -> &'static [Slip] {
    &[
        Slip {
            before: "",
            after: "[",
            words: "There are no lists and no indices: a bag holds several numbers, as `bag b 10;`.\n",
        },
        Slip {
            before: "",
            after: "?",
            words: "There is no `? :`: write `if n > 0 { .. } else { .. }`.\n",
        },
        Slip {
            before: "",
            after: "'",
            words: "A model has numbers and truth values, and no texts.\n",
        },
        Slip {
            before: "",
            after: "^",
            words: "There is no power: write `n * n`.\n",
        },
        Slip {
            before: "*",
            after: "*",
            words: "There is no power: write `n * n`.\n",
        },
        Slip {
            before: "",
            after: "--",
            words: "A comment begins with `#`, and a variable is changed by `n := n - 1`.\n",
        },
        Slip {
            before: "<",
            after: ">",
            words: "Unequal is written `!=`.\n",
        },
        Slip {
            before: "",
            after: "&&",
            words: "Conditions are joined by `and`.\n",
        },
        Slip {
            before: "",
            after: "||",
            words: "Alternative conditions are joined by `or`.\n",
        },
        Slip {
            before: "",
            after: "&",
            words: "There are no operations on bits; conditions are joined by `and`.\n",
        },
        Slip {
            before: "",
            after: "|",
            words: "There are no operations on bits; alternative conditions are joined by `or`.\n",
        },
        Slip {
            before: "",
            after: "<<",
            words: "There are no operations on bits: multiply by a power of 2.\n",
        },
        Slip {
            before: "<",
            after: "<",
            words: "There are no operations on bits: multiply by a power of 2.\n",
        },
        Slip {
            before: ">",
            after: ">",
            words: "There are no operations on bits: divide by a power of 2.\n",
        },
        Slip {
            before: "",
            after: "−",
            words: "A minus sign is `-`.\n",
        },
        Slip {
            before: "",
            after: "×",
            words: "`*` multiplies.\n",
        },
        Slip {
            before: "",
            after: "÷",
            words: "`/` divides and drops the remainder.\n",
        },
        Slip {
            before: "",
            after: "≤",
            words: "At most is written `<=`.\n",
        },
        Slip {
            before: "",
            after: "≥",
            words: "At least is written `>=`.\n",
        },
        Slip {
            before: "",
            after: "≠",
            words: "Unequal is written `!=`.\n",
        },
        Slip {
            before: "",
            after: "!=",
            words: "",
        },
        Slip {
            before: "",
            after: "!",
            words: "A condition is negated by `not`.\n",
        },
        Slip {
            before: "/",
            after: "/",
            words: "A comment begins with `#`.\n",
        },
        Slip {
            before: "",
            after: "/",
            words: "A comment begins with `#`; between expressions `/` divides.\n",
        },
        Slip {
            before: "=",
            after: "=",
            words: "`=` compares and `:=` assigns; there is no `==`.\n",
        },
        Slip {
            before: "=",
            after: ">",
            words: "A link is written with `->`, and at least with `>=`.\n",
        },
        Slip {
            before: "",
            after: "=>",
            words: "A link is written with `->`, and at least with `>=`.\n",
        },
        Slip {
            before: "",
            after: "==",
            words: "`=` compares and `:=` assigns; there is no `==`.\n",
        },
        Slip {
            before: "",
            after: "=",
            words: "`:=` assigns, `=` compares, and `:` is written before the model of a part, as `part a: A;`, and before a range, as `var n: 0..9 = 0;`.\n",
        },
        Slip {
            before: "",
            after: "+=",
            words: "A variable is changed by `n := n + 1`.\n",
        },
        Slip {
            before: "",
            after: "-=",
            words: "A variable is changed by `n := n - 1`.\n",
        },
        Slip {
            before: "",
            after: "++",
            words: "A variable is changed by `n := n + 1`.\n",
        },
        Slip {
            before: "",
            after: "<-",
            words: "A link is written with `->`, and leads from left to right.\n",
        },
        Slip {
            before: "",
            after: "→",
            words: "A link is written with `->`.\n",
        },
        Slip {
            before: "",
            after: "\"",
            words: "A model has numbers and truth values, and no texts.\n",
        },
        Slip {
            before: "",
            after: "“",
            words: "A model has numbers and truth values, and no texts.\n",
        },
        Slip {
            before: "",
            after: "”",
            words: "A model has numbers and truth values, and no texts.\n",
        },
    ]
}

/// Whether there is a point between two digits.
fn is_decimal(before: &[u8], after: &[u8]) -> bool {
    match (before.last(), after) {
        (Some(left), [b'.', right, ..]) => left.is_ascii_digit() && right.is_ascii_digit(),
        _ => false,
    }
}

/// Whether a number goes on in a form that is not decimal, as in `0xff`, `1e3` and `1_000`.
fn is_decimal_alone(before: &[u8], after: &[u8]) -> bool {
    match (before.last(), after) {
        (Some(b'0'), [b'x' | b'X' | b'b' | b'o', ..]) => true,
        (Some(left), [b'e' | b'E', right, ..]) => left.is_ascii_digit() && right.is_ascii_digit(),
        (Some(left), [b'_', ..]) => left.is_ascii_digit(),
        _ => false,
    }
}

/// Whether a letter follows a digit, as in `5s`.
fn is_unit(before: &[u8], after: &[u8]) -> bool {
    match (before.last(), after.first()) {
        (Some(left), Some(right)) => left.is_ascii_digit() && right.is_ascii_alphabetic(),
        _ => false,
    }
}

/// Whether a word begins with digits, as `2nd`.
fn begins_with_digit(before: &[u8], after: &[u8]) -> bool {
    let digits = after
        .iter()
        .take_while(|byte| byte.is_ascii_digit())
        .count();
    match (before.last(), after.get(digits)) {
        (Some(left), Some(right)) => {
            digits > 0 && is_blank(left) && (right.is_ascii_alphabetic() || *right == b'_')
        }
        _ => false,
    }
}

/// Whether there is a hyphen between two letters.
fn is_hyphen(before: &[u8], after: &[u8]) -> bool {
    match (before.last(), after) {
        (Some(left), [b'-', right, ..]) => left.is_ascii_alphabetic()
            && right.is_ascii_alphabetic(),
        _ => false,
    }
}

/// Whether a bracket follows the name of a part in its item.
fn is_list_of_parts(before: &[u8], after: &[u8]) -> bool {
    let words = before
        .iter()
        .rev()
        .take_while(|byte| !matches!(byte, b';' | b'{'))
        .count();
    let item = before
        .get(before.len().saturating_sub(words)..)
        .unwrap_or(&[]);
    after.starts_with(b"[") && item.trim_ascii_start().starts_with(b"part ")
}

/// Whether the name of a file follows a word that takes in another file.
fn is_import(before: &[u8], after: &[u8]) -> bool {
    let before = without_blanks(before);
    after.starts_with(b"\"") && IMPORTS.iter().any(|word| before.ends_with(word.as_bytes()))
}

/// Whether an offset is the first on its line but for blanks, and the line is not the first one.
pub fn begins_line(text: &[u8], offset: usize) -> bool {
    let (before, _) = text.split_at(offset.min(text.len()));
    let blanks = before
        .iter()
        .rev()
        .take_while(|byte| matches!(byte, b' ' | b'\t' | b'\r'))
        .count();
    match before.len().checked_sub(blanks.saturating_add(1)) {
        Some(offset) => before.get(offset) == Some(&b'\n'),
        None => false,
    }
}
