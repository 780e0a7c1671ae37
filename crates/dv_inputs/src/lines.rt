//! The lines of a text.

ghost use Rattle.std.specs.Prelude.{◌≡◌, ◌∷◌, ◌<◌, ◌≤◌, ◌==◌, length, drop, position};
ghost use Rattle.std.specs.List.{list_all};
ghost use Rattle.dv_inputs.specs.Lines.{is_blank, is_passed_over, lines_of, without_return};

/// Whether the byte is a blank.
pub(crate) fn is_blank(byte: u8) -> bool
    ensures { result ≡ is_blank byte }
{
    byte == b' ' || byte == b'\t'
}

// The offset of the first line feed, if there is one.
fn line_feed(text: &[u8]) -> Option<usize>
    ensures { result ≡ position (λ b. b == 10) text.now }
{
    text.iter().position(|byte| *byte == b'\n')
}

// Whether every byte is a blank.
fn is_blank_line(line: &[u8]) -> bool
    ensures { result ≡ list_all is_blank line.now }
{
    line.iter().all(|byte| is_blank(*byte))
}

/// The bytes from an offset on.
pub(crate) fn bytes_from(bytes: &[u8], offset: usize) -> &[u8]
    requires { offset ≤ length bytes.now }
    ensures { result.now ≡ drop offset bytes.now }
{
    &bytes[offset..]
}

/// The first line of a text that is not empty, and what is behind its line feed.
pub(crate) fn split_line(text: &[u8]) -> (&[u8], &[u8])
    requires { 0 < length text.now }
    ensures lines { lines_of text.now ≡ result.0.now ∷ lines_of result.1.now }
    ensures shorter { length result.1.now < length text.now }
{
    match line_feed(text) {
        Some(end) => (&text[..end], bytes_from(text, end + 1)),
        None => (text, &[]),
    }
}

/// The line without one carriage return at its end, if there is one.
pub(crate) fn without_return(line: &[u8]) -> &[u8]
    ensures { result.now ≡ without_return line.now }
{
    match line {
        [] => line,
        [front @ .., last] => { if *last == b'\r' { front } else { line } }
    }
}

/// Whether the line is empty, begins with `#`, or has only blanks.
pub(crate) fn is_passed_over(line: &[u8]) -> bool
    ensures { result ≡ is_passed_over line.now }
{
    match line {
        [] => true,
        [first, ..] => *first == b'#' || is_blank_line(line),
    }
}
