//! Each outcome of a tracer in place, with the words and the number of stores worked by hand.

use super::expect_end;
use super::generated::place_of;
use super::in_place::{LeftInPlace, left_in_place};
use std::process::Abort;
use std::test::Fail;
use tracer_lang::TracerEnd;

/// The pages that are dirty before a tracer and after it.
const DIRTY: [u32; 2] = [0xbfffe, 0x12];

/// A script, and what its tracer leaves.
#[derive(Clone, Copy)]
struct Row {
    text: &'static str,
    outcome: TracerEnd,
    words: &'static [u32],
    stores: u32,
}

/// Machine, pages, dirty list and log are as before.
pub fn expect_untouched(rt: &impl Abort, left: &LeftInPlace, text: &str) {
    assert!(rt; left.restored, "{text}");
    assert!(rt; left.emptied, "{text}");
    assert_eq!(rt; left.dirty.as_slice(), DIRTY.as_slice(), "{text}");
}

/// The record is that of the machine and of a row.
fn expect_row(rt: &impl Abort, left: &LeftInPlace, row: &Row) {
    let (record, text) = (&left.record, row.text);
    expect_end(
        rt,
        (record.outcome, record.words.as_slice()),
        (row.outcome, row.words),
        text,
    );
    assert_eq!(rt; left.stores, row.stores, "{text}");
    assert_eq!(rt;
        place_of(record).as_slice(),
        [5, 0, 0x10014].as_slice(),
        "{text}"
    );
}

#[test]
fn outcomes_in_place(rt: HostRuntime) -> Result<(), Fail> {
    let rows = [
        Row {
            text: "(at (addr 0x10014) (store4 0x11004 0xffffffff) (store1 0x11005 0) (store2 \
                   0x11004 0x1234) (emit (load4 0x11004)))",
            outcome: TracerEnd::Done,
            words: &[0xffff_1234],
            stores: 3,
        },
        Row {
            text: "(budget 3) (at (addr 0) (var i 0) (while (< i 4) (emit i) (store4 0x11ffe i) \
                   (set i (+ i 1))))",
            outcome: TracerEnd::OverBudget,
            words: &[0, 1, 2],
            stores: 3,
        },
        Row {
            text: "(def f () (store1 0x11000 1) (return (call f))) (at (addr 0) (emit 8) (emit \
                   (call f)))",
            outcome: TracerEnd::TooDeep,
            words: &[8],
            stores: 32,
        },
        Row {
            text: "(at (addr 0) (store1 0x11000 1) (emit 2) (emit (load4 0xbffffffe)) (emit 3))",
            outcome: TracerEnd::LoadFault(0xbfff_fffe),
            words: &[2],
            stores: 1,
        },
        Row {
            text: "(at (addr 0) (store4 0x11ffd 1) (emit 2) (store4 0x12ffd 3) (emit 4))",
            outcome: TracerEnd::StoreFault(0x1_2ffd),
            words: &[2],
            stores: 1,
        },
        Row {
            text: "(at (addr 0) (var i 0) (while (<u i 4097) (store2 (+ 0x11000 i) i) (set i (+ \
                   i 1))) (emit 7))",
            outcome: TracerEnd::TooManyStores,
            words: &[],
            stores: 4096,
        },
        Row {
            text: "(at (addr 0) (var i 0) (while (<u i 257) (store4 0x11000 i) (emit 7) (set i \
                   (+ i 1))))",
            outcome: TracerEnd::TooManyWords,
            words: &[7; 256],
            stores: 257,
        },
        Row {
            text: "(at (addr 0) (store1 0x11000 1) (emit 2) (emit (sys 64 0)))",
            outcome: TracerEnd::Barred(64),
            words: &[2],
            stores: 1,
        },
        Row {
            text: "(at (addr 0) (store1 0x11000 1) (emit (sys 214 0x13000)) (emit (sys 214 \
                   0x13001)))",
            outcome: TracerEnd::Barred(214),
            words: &[0x13000],
            stores: 1,
        },
        Row {
            text: "(at (addr 0) (store2 0x11fff 1) (store4 0xbfffeffc 2) (stop 9) (emit 3))",
            outcome: TracerEnd::User(9),
            words: &[],
            stores: 2,
        },
    ];
    for row in &rows {
        match left_in_place(rt.alloc(), row.text)? {
            Some(left) => {
                expect_row(&rt, &left, row);
                expect_untouched(&rt, &left, row.text);
            }
            None => assert!(rt; false, "no tracer"),
        }
    }
    Ok(())
}
