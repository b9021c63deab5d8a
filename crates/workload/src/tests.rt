//! The generated program with the numbers that were worked out apart from the machine.

use crate::generate;
use call_log::End;
use std::test::Fail;

/// What the generator draws last, and the table's word at its place with it, after so many turns.
fn drawn(seed: u32, size: u32) -> u32 {
    let mut number = seed;
    for _ in 0..size {
        number = number.wrapping_mul(1_664_525).wrapping_add(1_013_904_223);
    }
    number
}

#[test]
fn runs_are_recorded(rt: HostRuntime) -> Result<(), Fail> {
    // the seed, the turns, the instructions, and x5 to x8, which are t0 to t2 and s0
    let rows: [(u32, u32, u64, [u32; 4]); 2] = [
        (0, 2, 35, [0x3c6e_f35f, 0x11474, 0x4750_2932, 0x4750_2932]),
        (
            4_294_967_295,
            1,
            21,
            [0x3c6e_f35f, 0x113c4, 0x3c55_8d52, 0x3c55_8d52],
        ),
    ];
    for (seed, size, count, registers) in rows {
        assert!(rt; size >= 1 && size <= 1_000_000);
        let rec = generate(rt.alloc(), seed, size)?;
        let last = drawn(seed, size);
        assert_eq!(rt; rec.end, End::Exited(last & 255), "{seed} {size}");
        assert_eq!(rt; rec.last.count, count, "{seed} {size}");
        assert_eq!(rt; rec.last.x[4..8], *registers.as_slice(), "{seed} {size}");
        assert_eq!(rt; rec.calls.len(), 0, "{seed} {size}");
        assert_eq!(rt; rec.checkpoints.len() as u64, (count - 1) / u64::from(size));
    }
    Ok(())
}
