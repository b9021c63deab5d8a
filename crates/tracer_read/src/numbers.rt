//! Numbers of scripts.

ghost use Rattle.std.specs.Prelude.{◌≡◌, ◌<◌, ◌≤◌, ◌^◌, IfSome};
ghost use Rattle.tracer_read.specs.Numbers.{is_digit, is_number, digits_value, hex_value, decimal_value, negative_value, number_value};

fn is_digit(byte: u8) -> bool
    ensures { result ≡ is_digit byte }
{
    byte >= b'0' && byte <= b'9'
}

/// Whether a token is a number, be it malformed or not.
pub fn is_number(word: &[u8]) -> bool
    ensures { result ≡ is_number word.now }
{
    match word {
        [] => false,
        [first] => is_digit(*first),
        [first, second, ..] => is_digit(*first) || *first == b'-' && is_digit(*second),
    }
}

/// The value of one to eight hexadecimal digits.
fn hex_value(digits: &[u8]) -> Option<u32>
    ensures { result ≡ hex_value digits.now }
{
    if digits.is_empty() || digits.len() > 8 {
        return None;
    }
    let mut value = 0u32;
    for digit in digits {
        value = value * 16 + (*digit as char).to_digit(16)?;
    }
    Some(value)
}

/// The value of one to ten decimal digits.
fn digits_value(digits: &[u8]) -> Option<u64>
    ensures { result ≡ digits_value 10 10 digits.now }
{
    if digits.is_empty() || digits.len() > 10 {
        return None;
    }
    let mut value = 0u64;
    for digit in digits {
        value = value * 10 + u64::from((*digit as char).to_digit(10)?);
    }
    Some(value)
}

fn decimal_value(digits: &[u8]) -> Option<u32>
    ensures { result ≡ decimal_value digits.now }
{
    let value = digits_value(digits)?;
    if value < 1 << 32 {
        Some(value as u32)
    } else {
        None
    }
}

fn negative_value(digits: &[u8]) -> Option<u32>
    ensures { result ≡ negative_value digits.now }
{
    let value = digits_value(digits)?;
    if value <= 1 << 31 {
        Some((((1 << 32) - value) % (1 << 32)) as u32)
    } else {
        None
    }
}

/// The value of a number; `None` where it is malformed.
pub fn number_value(word: &[u8]) -> Option<u32>
    ensures { result ≡ number_value word.now }
{
    match word {
        [b'0', b'x', digits @ ..] => hex_value(digits),
        [b'-', digits @ ..] => negative_value(digits),
        digits => decimal_value(digits),
    }
}
