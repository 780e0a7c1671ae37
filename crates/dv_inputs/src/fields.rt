//! The fields of a line.

ghost use Rattle.std.specs.Prelude.{◌≡◌, [], ◌∷◌, length, not, position, MatchOption, option_map};
ghost use Rattle.std.specs.List.{take_while};
ghost use Rattle.dv_inputs.specs.Lines.{fields_of, is_blank};
ghost use Rattle.dv_inputs.specs.Reading.{three_of};

use crate::lines::{bytes_from, is_blank};

// The number of bytes before the next blank.
fn field_len(bytes: &[u8]) -> usize
    ensures { result ≡ length (take_while (λ b. not (is_blank b)) bytes.now) }
{
    bytes.iter().take_while(|byte| !is_blank(**byte)).count()
}

// The offset of the first field, if there is one.
fn field_offset(line: &[u8]) -> Option<usize>
    ensures { result ≡ position (λ b. not (is_blank b)) line.now }
{
    line.iter().position(|byte| !is_blank(*byte))
}

// The first field of a line, and the rest.
fn split_field(line: &[u8]) -> Option<(&[u8], &[u8])>
    ensures { MatchOption result (fields_of line.now ≡ [])
        (λ r. fields_of line.now ≡ r.0.now ∷ fields_of r.1.now) }
{
    let fields = bytes_from(line, field_offset(line)?);
    Some(fields.split_at(field_len(fields)))
}

/// The fields of a line, if it has three.
pub(crate) fn three_fields(line: &[u8]) -> Option<(&[u8], &[u8], &[u8])>
    ensures { option_map (λ r. (r.0.now, r.1.now, r.2.now)) result ≡ three_of (fields_of line.now) }
{
    let (first, rest) = split_field(line)?;
    let (second, rest) = split_field(rest)?;
    let (third, rest) = split_field(rest)?;
    match split_field(rest) {
        None => Some((first, second, third)),
        Some(_) => None,
    }
}
