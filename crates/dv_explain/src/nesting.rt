//! Which limit on nesting is exceeded.

/// A sentence without a full stop on the limit that the token at an offset, in bytes, exceeds by
/// its nesting.
pub fn nesting_at(text: &[u8], offset: usize) -> &'static str {
    let (_, token) = text.split_at(offset.min(text.len()));
    if begins_with_word(token, b"if") {
        "blocks nest at most 16 deep, including that of the rule"
    } else if begins_with_word(token, b"for") {
        "loops nest at most 3 deep, and blocks at most 16, including that of the rule"
    } else {
        "an expression nests at most 64 deep"
    }
}

/// Whether a text begins with this whole word.
fn begins_with_word(text: &[u8], word: &[u8]) -> bool {
    match text.strip_prefix(word) {
        Some([next, ..]) => !next.is_ascii_alphanumeric() && *next != b'_',
        Some([]) => true,
        None => false,
    }
}
