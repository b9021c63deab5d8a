//! The names of registers.

ghost use Rattle.std.specs.Prelude.{◌≡◌, position};
ghost use Rattle.std.specs.Str.{bytes_eq};
ghost use Rattle.rv_text.specs.Text.{register_name, register_names};
ghost use Rattle.asm_text.specs.Names.{numbered, register_named};

use crate::bytes::is_digit;
use rv_decode::{Bits, Register};

/// The register that `x` and a number below 32 name, without leading zeros.
fn numbered(name: &[u8]) -> Option<Register>
    ensures { result ≡ numbered name.now }
{
    match name {
        [b'x', digit] if is_digit(*digit) => Some(Bits::low(u32::from(*digit - b'0'))),
        [b'x', ten, one] if is_digit(*ten) && is_digit(*one) && *ten != b'0' => {
            let number = 10 * u32::from(*ten - b'0') + u32::from(*one - b'0');
            if number < 32 {
                Some(Bits::low(number))
            } else {
                None
            }
        }
        _ => None,
    }
}

/// The name of a register in the calling convention.
#[tactic(auto, unfolding(rv_text::specs::Text::register_name))]
fn name_of(register: Register) -> &'static str
    ensures { result.now ≡ register_name register }
{
    match register.value() {
        0 => "zero",
        1 => "ra",
        2 => "sp",
        3 => "gp",
        4 => "tp",
        5 => "t0",
        6 => "t1",
        7 => "t2",
        8 => "s0",
        9 => "s1",
        10 => "a0",
        11 => "a1",
        12 => "a2",
        13 => "a3",
        14 => "a4",
        15 => "a5",
        16 => "a6",
        17 => "a7",
        18 => "s2",
        19 => "s3",
        20 => "s4",
        21 => "s5",
        22 => "s6",
        23 => "s7",
        24 => "s8",
        25 => "s9",
        26 => "s10",
        27 => "s11",
        28 => "t3",
        29 => "t4",
        30 => "t5",
        31 => "t6",
        _ => unreachable!(),
    }
}

/// The register that the calling convention names so.
fn conventional(name: &[u8]) -> Option<Register>
    ensures { result ≡ position (λ text. bytes_eq text name.now) register_names }
{
    for number in 0..32 {
        let register = Bits::low(number);
        if name_of(register).as_bytes() == name {
            return Some(register);
        }
    }
    None
}

/// The register that a name stands for.
#[tactic(auto, unfolding(crate::specs::Names::register_named))]
pub fn register_named(name: &[u8]) -> Option<Register>
    ensures { result ≡ register_named name.now }
{
    if name == b"fp".as_slice() {
        return Some(Bits::low(8));
    }
    match conventional(name) {
        Some(register) => Some(register),
        None => numbered(name),
    }
}
