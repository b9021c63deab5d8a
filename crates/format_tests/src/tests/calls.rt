//! Recorded calls beside asked ones, by the rules for what is due.

use call_log::{Ask, CallDiff, CallEntry, first_difference};
use sl_base::{Call, Seq};
use std::alloc::{AllocError, Global};
use std::test::Fail;

/// A recorded call with the arguments of a write of three bytes.
fn recorded(
    alloc: Global,
    number: u32,
    answer: u32,
    bytes: &[u8],
) -> Result<CallEntry, AllocError> {
    Ok(CallEntry {
        call: Call {
            number,
            args: [1, 0x11000, 3, 0, 0, 0],
        },
        result: answer,
        bytes: Seq::from_vec(Vec::from_slice(alloc, bytes)?),
    })
}

/// What a program asks by a call with these arguments.
fn asked(alloc: Global, number: u32, fixed: Option<u32>) -> Result<Ask, AllocError> {
    let give: &[u8] = if number == 64 { b"hi\n" } else { b"" };
    Ok(Ask {
        call: Call {
            number,
            args: [1, 0x11000, 3, 0, 0, 0],
        },
        give: Seq::from_vec(Vec::from_slice(alloc, give)?),
        room: if fixed.is_some() { 0 } else { 3 },
        fixed,
    })
}

#[test]
fn answers_that_differ(rt: HostRuntime) -> Result<(), Fail> {
    let alloc = rt.alloc();
    for (number, fixed, answer, bytes, want) in [
        // Writes: the data are those given, whatever the result.
        (64, None, 3, b"hi\n".as_slice(), None),
        (64, None, 0, b"hi\n", None),
        (64, None, 0xffff_fff7, b"hi\n", None),
        (64, None, 0xffff_f001, b"hi\n", None),
        (64, None, 0xffff_f000, b"hi\n", Some((7, 0xffff_f000, 3))),
        (64, None, 4, b"hi\n", Some((7, 4, 3))),
        (64, None, 3, b"hi", Some((8, 2, 3))),
        (64, None, 0xffff_fff7, b"", Some((8, 0, 3))),
        (64, None, 3, b"hj\n", Some((9, 0x6a, 0x69))),
        (64, None, 3, b"xxx", Some((9, 0x78, 0x68))),
        (64, None, 5, b"j", Some((7, 5, 3))),
        // Reads and random bytes: as many as the result says.
        (63, None, 3, b"any", None),
        (63, None, 1, b"a", None),
        (278, None, 0, b"", None),
        (278, None, 0xffff_fff5, b"", None),
        (63, None, 2, b"any", Some((8, 3, 2))),
        (63, None, 0xffff_fff5, b"a", Some((8, 1, 0))),
        (278, None, 4, b"many", Some((7, 4, 3))),
        // Results that the machine decides.
        (214, Some(0x12000), 0x12000, b"", None),
        (
            214,
            Some(0x12000),
            0x11000,
            b"",
            Some((7, 0x11000, 0x12000)),
        ),
        (80, Some(0xffff_ffda), 0, b"", Some((7, 0, 0xffff_ffda))),
        (63, Some(0xffff_fff2), 0xffff_fff2, b"a", Some((8, 1, 0))),
        (64, Some(0xffff_fff2), 0xffff_fff2, b"", None),
    ] {
        let entry = recorded(alloc, number, answer, bytes)?;
        let mut ask = asked(alloc, number, fixed)?;
        if fixed.is_some() {
            ask.give = Seq::new(alloc);
        }
        let want = want.map(|(field, recorded, due)| CallDiff {
            field,
            recorded,
            due,
        });
        assert!(rt; entry.bytes.len() < 9);
        assert_eq!(rt;
            first_difference(&entry, &ask),
            want,
            "{number} with {answer:#x}"
        );
    }
    Ok(())
}

#[test]
fn the_least_field_is_told(rt: HostRuntime) -> Result<(), Fail> {
    let alloc = rt.alloc();
    let mut ask = asked(alloc, 64, None)?;
    let entry = recorded(alloc, 64, 9, b"")?;
    assert!(rt; entry.bytes.len() < 9);
    for (i, due) in [(5usize, 0), (4, 0), (3, 0), (2, 3), (1, 0x11000), (0, 1)] {
        ask.call.args[i] = 7;
        let want = CallDiff {
            field: i as u32 + 1,
            recorded: due,
            due: 7,
        };
        assert_eq!(rt; first_difference(&entry, &ask), Some(want));
    }
    ask.call.number = 63;
    let want = CallDiff {
        field: 0,
        recorded: 64,
        due: 63,
    };
    assert_eq!(rt; first_difference(&entry, &ask), Some(want));
    Ok(())
}
