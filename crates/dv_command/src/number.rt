//! Numbers in decimal digits.

ghost use Rattle.std.specs.Prelude.{◌≡◌, ◌<◌, ◌^◌};
ghost use Rattle.std.specs.Char.{is_ascii_digit};
ghost use Rattle.std.specs.List.{list_all};
ghost use Rattle.dv_command.specs.Numbers.{is_numeral, number_in};

/// Whether every byte is a decimal digit.
fn all_digits(bytes: &[u8]) -> bool
    ensures { result ≡ list_all is_ascii_digit bytes.now }
{
    bytes.iter().all(|byte| byte.is_ascii_digit())
}

/// Whether the text is one decimal digit or more.
fn is_numeral(text: &str) -> bool
    ensures { result ≡ is_numeral text.now }
{
    !text.is_empty() && all_digits(text.as_bytes())
}

/// The number that the text is in decimal digits; `None` if it is not in this range, or not digits
/// alone.
pub(crate) fn number_in(least: u64, greatest: u64, text: &str) -> Option<u64>
    ensures { result ≡ number_in least greatest text.now }
{
    if !is_numeral(text) {
        return None;
    }
    let Ok(number) = text.parse::<u64>() else {
        return None;
    };
    if least <= number && number <= greatest {
        Some(number)
    } else {
        None
    }
}
