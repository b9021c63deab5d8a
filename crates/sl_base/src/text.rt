//! Numbers as text, with no memory taken.

ghost use Rattle.std.specs.Prelude.{◌≡◌, ◌<◌, false, decimal};
ghost use Rattle.std.specs.Fmt.{digit_glyph};
ghost use Rattle.sl_base.specs.Text.{word_text as text_of_word};

use std::marker::Model;

/// The digits of the greatest u64.
const MOST_DIGITS: usize = 20;

/// A number in decimal digits.
#[derive(Debug, Drop)]
pub struct DecimalText {
    bytes: [u8; MOST_DIGITS],
    start: usize,
}

impl Model for DecimalText {
    ghost use Rattle.std.specs.Prelude.{ℕ, ◌≤◌, List, drop};

    ghost Value = { List ℕ };

    ghost view = { λ text. drop text.start text.bytes };

    ghost invariant = { λ text. text.start ≤ 20 };
}

impl DecimalText {
    pub fn as_bytes(&self) -> &[u8]
        ensures { result.now ≡ self.now }
    {
        &self.bytes[self.start..]
    }
}

/// The number in decimal digits, with no leading zero.
pub fn decimal_text(n: u64) -> DecimalText
    ensures { result ≡ decimal n }
{
    let mut bytes = [0; MOST_DIGITS];
    let start = itoa::write_digits(n, &mut bytes, MOST_DIGITS);
    DecimalText { bytes, start }
}

/// A word of 32 bits as `0x` and eight hexadecimal digits.
#[derive(Debug, Drop)]
pub struct WordText {
    bytes: [u8; 10],
}

impl Model for WordText {
    ghost use Rattle.std.specs.Prelude.{ℕ, List};

    ghost Value = { List ℕ };

    ghost view = { λ text. text.bytes };
}

impl WordText {
    pub fn as_bytes(&self) -> &[u8]
        ensures { result.now ≡ self.now }
    {
        &self.bytes
    }
}

/// The word as `0x` and eight lower-case hexadecimal digits.
pub fn word_text(n: u32) -> WordText
    ensures { result ≡ text_of_word n }
{
    WordText {
        bytes: [
            b'0',
            b'x',
            hexadecimal_digit(n / 0x1000_0000 % 16),
            hexadecimal_digit(n / 0x100_0000 % 16),
            hexadecimal_digit(n / 0x10_0000 % 16),
            hexadecimal_digit(n / 0x1_0000 % 16),
            hexadecimal_digit(n / 0x1000 % 16),
            hexadecimal_digit(n / 0x100 % 16),
            hexadecimal_digit(n / 0x10 % 16),
            hexadecimal_digit(n % 16),
        ],
    }
}

fn hexadecimal_digit(digit: u32) -> u8
    requires { digit < 16 }
    ensures { result ≡ digit_glyph false digit }
{
    let digit = digit as u8;
    if digit < 10 {
        b'0' + digit
    } else {
        b'a' + (digit - 10)
    }
}
