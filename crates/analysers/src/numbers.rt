//! The numbers in the words of analyses.

ghost use Rattle.std.specs.Prelude.{◌≡◌, ◌≤◌};
ghost use Rattle.analysers.specs.Numbers.{hex_number, hex_value, number};

/// The value of hexadecimal digits, of which there are one to eight.
fn hex_number(digits: &[u8]) -> Option<u32>
    ensures { result ≡ hex_number digits.now }
{
    if digits.is_empty() || digits.len() > 8 {
        return None;
    }
    let mut value = 0u32;
    for digit in digits {
        value = value * 16 + (*digit as char).to_digit(16)?;
    }
    Some(value)
}

/// The number that one to eight hexadecimal digits stand for, which may stand behind `0x`.
pub fn hex_value(text: &[u8]) -> Option<u32>
    ensures { result ≡ hex_value text.now }
{
    match text {
        [b'0', b'x', digits @ ..] => hex_number(digits),
        digits => hex_number(digits),
    }
}

/// The number up to a limit that decimal digits stand for, of which there are at least one and at
/// most so many.
pub fn number(most_digits: usize, limit: u32, digits: &[u8]) -> Option<u32>
    requires { most_digits ≤ 3 }
    ensures { result ≡ number most_digits limit digits.now }
{
    if digits.is_empty() || digits.len() > most_digits {
        return None;
    }
    let mut value = 0u32;
    for digit in digits {
        value = value * 10 + (*digit as char).to_digit(10)?;
    }
    if value <= limit { Some(value) } else { None }
}
