//! The numbers that words stand for.

ghost use Rattle.std.specs.Prelude.{◌≡◌, ◌≤◌, IfSome};
ghost use Rattle.cli_words.specs.Numbers.{hex_number, hex_value, decimal_value, number};

/// The value of hexadecimal digits, of which there are one to eight.
fn hex_number(digits: &[u8]) -> Option<u32>
    ensures { result ≡ hex_number digits.now }
{
    if digits.is_empty() || digits.len() > 8 {
        return None;
    }
    let mut value = 0u32;
    for digit in digits {
        value = value * 16 + (*digit as char).to_digit(16)?;
    }
    Some(value)
}

/// The number that a word stands for, in one to eight hexadecimal digits that may stand behind
/// `0x`.
pub fn hex_value(word: &str) -> Option<u32>
    ensures { result ≡ hex_value word.now }
{
    match word.as_bytes() {
        [b'0', b'x', digits @ ..] => hex_number(digits),
        digits => hex_number(digits),
    }
}

/// The number that a word stands for, in one to 13 decimal digits.
fn decimal_value(word: &[u8]) -> Option<u64>
    ensures { result ≡ decimal_value word.now }
{
    if word.is_empty() || word.len() > 13 {
        return None;
    }
    let mut value = 0u64;
    for digit in word {
        value = value * 10 + u64::from((*digit as char).to_digit(10)?);
    }
    Some(value)
}

/// The number from `low` to `high` that a word stands for, in one to 13 decimal digits.
pub fn number(low: u64, high: u64, word: &str) -> Option<u64>
    ensures value { result ≡ number low high word.now }
    ensures least { IfSome result (λ n. low ≤ n) }
    ensures most { IfSome result (λ n. n ≤ high) }
{
    match decimal_value(word.as_bytes()) {
        Some(n) if low <= n && n <= high => Some(n),
        _ => None,
    }
}
