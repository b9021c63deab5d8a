//! The source of a generated program.

ghost use Rattle.std.specs.Prelude.{◌≡◌, IfOk};
ghost use Rattle.workload.specs.Source.{source_text};

use sl_base::{Memory, decimal_text};
use std::alloc::Global;

/// The text up to the seed.
const BEFORE_SEED: &[u8] = b"_start:\n li s0, ";

/// The text between the seed and the number of turns.
const BEFORE_SIZE: &[u8] = b"\n li s1, ";

/// The text behind the number of turns.
const BEHIND_SIZE: &[u8] =
    b"\n la s2, table\nloop:\n li t0, 1664525\n mul s0, s0, t0\n li t0, 1013904223\n add s0, s0, t0\n srli t1, s0, 22\n slli t1, t1, 2\n add t1, t1, s2\n lw t2, 0(t1)\n add t2, t2, s0\nmark:\n sw t2, 0(t1)\n addi s1, s1, -1\n bne s1, zero, loop\n andi a0, s0, 255\n li a7, 93\n ecall\n.data\ntable: .space 4096\n";

/// The source of a program that draws so many random numbers from a seed.
pub fn source_text(alloc: Global, seed: u32, size: u32) -> Result<Vec<u8>, Memory>
    ensures { IfOk result (λ text. text.items ≡ source_text seed size) }
{
    let mut text = Vec::new(alloc);
    text.extend_from_slice(BEFORE_SEED)?;
    text.extend_from_slice(decimal_text(u64::from(seed)).as_bytes())?;
    text.extend_from_slice(BEFORE_SIZE)?;
    text.extend_from_slice(decimal_text(u64::from(size)).as_bytes())?;
    text.extend_from_slice(BEHIND_SIZE)?;
    Ok(text)
}
