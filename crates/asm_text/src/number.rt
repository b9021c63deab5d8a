//! Numbers.

ghost use Rattle.std.specs.Prelude.{◌≡◌, ◌≤◌, ◌^◌, IfSome};
ghost use Rattle.asm_text.specs.Numbers.{magnitude, number_of, is_offset};

/// No place takes so great a number. All greater ones count as this one.
const TOO_GREAT: u64 = 0x1_0000_0000;

/// A number as it is written.
#[derive(Clone, Copy, Debug, PartialEq, Eq)]
pub struct Number {
    /// Whether `-` stands before it.
    pub is_negative: bool,
    /// The number without its sign, at most 2^32.
    pub magnitude: u64,
}

/// The number that one digit or more stand for.
#[tactic(auto, unfolding(crate::specs::Numbers::magnitude))]
fn magnitude(base: u32, digits: &[u8]) -> Option<u64>
    requires least { 2 ≤ base }
    requires most { base ≤ 36 }
    ensures value { result ≡ magnitude base digits.now }
    ensures capped { IfSome result (λ n. n ≤ 2 ^ 32) }
{
    if digits.is_empty() {
        return None;
    }
    let mut value = 0u64;
    for digit in digits {
        let digit = (*digit as char).to_digit(base)?;
        value = (u64::from(base) * value + u64::from(digit)).min(TOO_GREAT);
    }
    Some(value)
}

/// The number that an operand is: decimal digits, with `-` before or not, or hexadecimal ones
/// behind `0x`.
#[tactic(auto, unfolding(crate::specs::Numbers::number_of))]
pub fn number_of(operand: &[u8]) -> Option<Number>
    ensures value { result ≡ number_of operand.now }
    ensures capped { IfSome result (λ n. n.magnitude ≤ 2 ^ 32) }
{
    match operand {
        [b'0', b'x', digits @ ..] => Some(Number {
            is_negative: false,
            magnitude: magnitude(16, digits)?,
        }),
        [b'-', digits @ ..] => Some(Number {
            is_negative: true,
            magnitude: magnitude(10, digits)?,
        }),
        digits => Some(Number {
            is_negative: false,
            magnitude: magnitude(10, digits)?,
        }),
    }
}

/// Whether a number is an even offset that reaches less than so far, or just so far back.
pub fn is_offset(reach: u64, number: Number) -> bool
    requires { 2 ≤ reach }
    ensures { result ≡ is_offset reach number }
{
    let most = if number.is_negative { reach } else { reach - 2 };
    number.magnitude <= most && number.magnitude % 2 == 0
}
