//! Scripts that are compiled and run, with the outcome and the number of stores of each worked by
//! hand. Words and outcome are those that the tracer leaves on a copy, and memory is as before.

mod by_hand;
mod generated;
mod in_place;
mod outcomes;
mod running;

use running::{Left, left_by_code, left_on_copy};
use std::alloc::Global;
use std::process::Abort;
use std::test::Fail;
use tracer_lang::{Record, TracerEnd};

/// A tracer's end and words are those that are due.
pub fn expect_end(
    rt: &impl Abort,
    left: (TracerEnd, &[u32]),
    due: (TracerEnd, &[u32]),
    text: &str,
) {
    assert_eq!(rt; left.0, due.0, "{text}");
    assert_eq!(rt; left.1, due.1, "{text}");
}

/// What a compiled tracer left is what its copy left, after so many stores.
fn expect_left(rt: &impl Abort, left: &Left, due: &Record, stores: u32, text: &str) {
    let words = due.words.as_slice();
    expect_end(
        rt,
        (left.outcome, left.words.as_slice()),
        (due.outcome, words),
        text,
    );
    assert_eq!(rt; left.stores, stores, "{text}");
    assert!(rt; left.restored, "{text}");
}

/// The tracer of a script, compiled, ends so, after so many stores, with the words of its copy.
fn expect(
    rt: &impl Abort,
    alloc: Global,
    text: &str,
    outcome: TracerEnd,
    stores: u32,
) -> Result<(), Fail> {
    let due = left_on_copy(alloc, text)?;
    let left = left_by_code(alloc, text)?;
    match (due, left) {
        (Some(due), Some(left)) => {
            assert_eq!(rt; due.outcome, outcome, "{text}");
            expect_left(rt, &left, &due, stores, text);
        }
        _ => assert!(rt; false, "no end: {text}"),
    }
    Ok(())
}

/// Pairs of operands: both signs, the least number by -1, zero, equal ones, shifts by more than 31.
const OPERANDS: [(&str, &str); 9] = [
    ("7", "3"),
    ("0xfffffff6", "3"),
    ("7", "0xfffffffd"),
    ("0x80000000", "0xffffffff"),
    ("5", "0"),
    ("3", "3"),
    ("0x80000000", "0x7fffffff"),
    ("0xf1234567", "36"),
    ("0", "0"),
];

#[test]
fn operators(rt: HostRuntime) -> Result<(), Fail> {
    let operators = [
        "+", "-", "*", "/", "%", "/u", "%u", "&", "|", "^", "<<", ">>", ">>u", "=", "!=", "<",
        "<=", "<u", "<=u",
    ];
    for operator in operators {
        let mut text = String::new(rt.alloc());
        text.push_str("(at (addr 0)")?;
        for (a, b) in OPERANDS {
            let emitted = format!(in rt.alloc(); " (emit ({operator} {a} {b}))")?;
            text.push_str(&emitted)?;
        }
        text.push_str(")")?;
        expect(&rt, rt.alloc(), &text, TracerEnd::Done, 0)?;
    }
    Ok(())
}

#[test]
fn expressions(rt: HostRuntime) -> Result<(), Fail> {
    let rows = [
        ("(at (addr 0) (emit 1))", TracerEnd::Done, 0),
        ("(at (addr 0))", TracerEnd::Done, 0),
        (
            "(at (addr 0) (emit (reg 5)) (emit (reg 6)) (emit (reg 31)) (emit (pc)) (emit (reg 0)))",
            TracerEnd::Done,
            0,
        ),
        (
            "(at (addr 0) (emit 0xffffffff) (emit 0x800) (emit 0x7ff) (emit 0xfffff800) (emit \
             0x12345fff))",
            TracerEnd::Done,
            0,
        ),
        (
            "(at (addr 0) (emit 0x80000000) (emit 0xfffff7ff) (emit 0x7ffff800) (emit 0x7fffffff))",
            TracerEnd::Done,
            0,
        ),
        (
            "(at (addr 0) (emit (not 0)) (emit (not 1)) (emit (not 0xffffffff)))",
            TracerEnd::Done,
            0,
        ),
        (
            "(at (addr 0) (run (+ 1 2)) (emit (- (* 3 4) (- 5 (+ 6 7)))))",
            TracerEnd::Done,
            0,
        ),
    ];
    for (text, outcome, stores) in rows {
        expect(&rt, rt.alloc(), text, outcome, stores)?;
    }
    Ok(())
}

#[test]
fn loads(rt: HostRuntime) -> Result<(), Fail> {
    let rows = [
        (
            "(at (addr 0) (emit (load1 0x11004)) (emit (load2 0x11004)) (emit (load4 0x11004)))",
            TracerEnd::Done,
            0,
        ),
        (
            "(at (addr 0) (emit (load1s 0x11007)) (emit (load2s 0x11006)) (emit (load1s 0x11ffc)))",
            TracerEnd::Done,
            0,
        ),
        (
            "(at (addr 0) (emit (load4 0x11ffe)) (emit (load2 0x11fff)) (emit (load4 0x11ffd)))",
            TracerEnd::Done,
            0,
        ),
        (
            "(at (addr 0) (emit (load4 0xbfffeffc)) (emit (load1 0xbfffefff)) (emit (load2 \
             0xbfffefff)))",
            TracerEnd::LoadFault(0xbfff_efff),
            0,
        ),
        (
            "(at (addr 0) (emit 1) (emit (load4 0xc0000000)))",
            TracerEnd::LoadFault(0xc000_0000),
            0,
        ),
        (
            "(at (addr 0) (emit 1) (emit (load4 0xbffffffe)))",
            TracerEnd::LoadFault(0xbfff_fffe),
            0,
        ),
        (
            "(at (addr 0) (emit 1) (emit (load1 0xd0000000)))",
            TracerEnd::LoadFault(0xd000_0000),
            0,
        ),
        (
            "(at (addr 0) (emit (load1 0xffffffff)))",
            TracerEnd::LoadFault(0xffff_ffff),
            0,
        ),
        (
            "(at (addr 0) (emit (load1 0x10fff)))",
            TracerEnd::LoadFault(0x1_0fff),
            0,
        ),
        (
            "(at (addr 0) (return (load2 5)))",
            TracerEnd::LoadFault(5),
            0,
        ),
    ];
    for (text, outcome, stores) in rows {
        expect(&rt, rt.alloc(), text, outcome, stores)?;
    }
    Ok(())
}

#[test]
fn stores(rt: HostRuntime) -> Result<(), Fail> {
    let rows = [
        (
            "(at (addr 0) (store4 0x11004 0xffffffff) (store1 0x11005 0) (store2 0x11004 \
             0x1234) (emit (load4 0x11004)))",
            TracerEnd::Done,
            3,
        ),
        (
            "(at (addr 0) (store4 0x11ffe 0x01020304) (emit (load4 0x11ffc)) (emit (load4 0x12000)))",
            TracerEnd::Done,
            1,
        ),
        (
            "(at (addr 0) (store1 0x11004 0x1ff) (store1 0x11004 2) (emit (load4 0x11004)))",
            TracerEnd::Done,
            2,
        ),
        (
            "(at (addr 0) (store4 0x11000 5) (store1 0xd0000000 1) (emit 2))",
            TracerEnd::StoreFault(0xd000_0000),
            1,
        ),
        (
            "(at (addr 0) (store4 0x11000 5) (store4 0xe0000000 0) (emit 2))",
            TracerEnd::StoreFault(0xe000_0000),
            1,
        ),
        (
            "(at (addr 0) (store4 0x11000 5) (store1 0x13000 1) (emit 2))",
            TracerEnd::StoreFault(0x1_3000),
            1,
        ),
        (
            "(at (addr 0) (store2 0xbfffefff 1) (emit 2))",
            TracerEnd::StoreFault(0xbfff_efff),
            0,
        ),
        (
            "(at (addr 0) (store4 0xfffffffe 1))",
            TracerEnd::StoreFault(0xffff_fffe),
            0,
        ),
        (
            "(at (addr 0) (var a 0x12000) (store2 (+ a 4) (+ (load4 a) 1)) (emit (load4 (+ a 4))))",
            TracerEnd::Done,
            1,
        ),
    ];
    for (text, outcome, stores) in rows {
        expect(&rt, rt.alloc(), text, outcome, stores)?;
    }
    Ok(())
}

#[test]
fn limits(rt: HostRuntime) -> Result<(), Fail> {
    let rows = [
        (
            "(at (addr 0) (var i 0) (while (<u i 4096) (store1 (+ 0x11000 (& i 0xff)) i) (set \
             i (+ i 1))) (emit 7))",
            TracerEnd::Done,
            4096,
        ),
        (
            "(at (addr 0) (var i 0) (while (<u i 4097) (store1 (+ 0x11000 (& i 0xff)) i) (set \
             i (+ i 1))) (emit 7))",
            TracerEnd::TooManyStores,
            4096,
        ),
        (
            "(at (addr 0) (var i 0) (while (<u i 4096) (store1 (+ 0x11000 (& i 0xff)) i) (set \
             i (+ i 1))) (store1 0x99000 1))",
            TracerEnd::StoreFault(0x9_9000),
            4096,
        ),
        (
            "(at (addr 0) (var i 0) (while (<u i 256) (emit i) (set i (+ i 1))) (stop 9))",
            TracerEnd::User(9),
            0,
        ),
        (
            "(at (addr 0) (var i 0) (while (<u i 257) (emit i) (set i (+ i 1))) (stop 9))",
            TracerEnd::TooManyWords,
            0,
        ),
        (
            "(at (addr 0) (var i 0) (while (<u i 256) (emit i) (set i (+ i 1))) (emit (load1 3)))",
            TracerEnd::LoadFault(3),
            0,
        ),
        (
            "(budget 3) (at (addr 0) (var i 0) (while (< i 3) (emit i) (set i (+ i 1))))",
            TracerEnd::Done,
            0,
        ),
        (
            "(budget 3) (at (addr 0) (var i 0) (while (< i 4) (emit i) (set i (+ i 1))))",
            TracerEnd::OverBudget,
            0,
        ),
        (
            "(budget 1000) (at (addr 0) (while 1))",
            TracerEnd::OverBudget,
            0,
        ),
        (
            "(at (addr 0) (emit 3) (stop 0xabcdef01) (emit 4))",
            TracerEnd::User(0xabcd_ef01),
            0,
        ),
        (
            "(at (addr 0) (emit 3) (return 5) (emit 4))",
            TracerEnd::Done,
            0,
        ),
    ];
    for (text, outcome, stores) in rows {
        expect(&rt, rt.alloc(), text, outcome, stores)?;
    }
    Ok(())
}

#[test]
fn statements(rt: HostRuntime) -> Result<(), Fail> {
    let rows = [
        (
            "(at (addr 0) (if (reg 5) (emit 1) (emit 2)) (if (reg 0) (emit 3) (do (emit 4) \
             (emit 5))) (if 0 (do) (do)))",
            TracerEnd::Done,
            0,
        ),
        (
            "(at (addr 0) (var i 0) (while (< i 5) (var j 0) (while (< j i) (emit (+ (* i 10) \
             j)) (set j (+ j 1))) (set i (+ i 1))))",
            TracerEnd::Done,
            0,
        ),
        (
            "(at (addr 0) (if 0 (var x 5) (do)) (emit x) (set x 7) (emit x))",
            TracerEnd::Done,
            0,
        ),
        (
            "(at (addr 0) (var a 1) (var b 2) (var c 3) (var d 4) (var e 5) (var f 6) (var g \
             7) (var h 8) (var i 9) (var j 10) (var k 11) (var l 12) (var m 13) (var n 14) \
             (var o 15) (var p 16) (set a p) (emit (+ a (+ h (+ n (+ o p))))))",
            TracerEnd::Done,
            0,
        ),
        (
            "(at (addr 0) (var a 1) (if (< a 2) (if (< a 1) (stop 1) (do (set a 9) (stop a))) \
             (stop 3)))",
            TracerEnd::User(9),
            0,
        ),
    ];
    for (text, outcome, stores) in rows {
        expect(&rt, rt.alloc(), text, outcome, stores)?;
    }
    Ok(())
}

#[test]
fn functions(rt: HostRuntime) -> Result<(), Fail> {
    let rows = [
        (
            "(def f (a b) (var c 3) (return (+ (+ a b) c))) (at (addr 0) (emit (call f 1 2)) \
             (emit (call f (call f 1 2) (call f 3 4))))",
            TracerEnd::Done,
            0,
        ),
        (
            "(def f (n) (if (= n 0) (return 1) (do)) (return (* n (call f (- n 1))))) (at \
             (addr 0) (emit (call f 5)) (emit (call f 10)))",
            TracerEnd::Done,
            0,
        ),
        (
            "(def f (n) (if (= n 0) (return 1) (return (+ 1 (call f (- n 1)))))) (at (addr 0) \
             (emit (call f 31)) (emit (call f 32)))",
            TracerEnd::TooDeep,
            0,
        ),
        (
            "(budget 10) (def f () (return (call f))) (at (addr 0) (emit (call f)))",
            TracerEnd::OverBudget,
            0,
        ),
        (
            "(def f () (return (call f))) (at (addr 0) (emit 8) (emit (call f)))",
            TracerEnd::TooDeep,
            0,
        ),
        (
            "(def f () (var x 7) (emit x)) (at (addr 0) (emit (call f)) (run (call f)))",
            TracerEnd::Done,
            0,
        ),
        (
            "(def f () (stop 3)) (at (addr 0) (emit (call f)) (emit 1))",
            TracerEnd::User(3),
            0,
        ),
        (
            "(def f (a) (store4 0x11000 a) (return (load4 0x11000))) (at (addr 0) (emit (+ \
             (call f 5) (call f 6))) (emit (load4 0x11000)))",
            TracerEnd::Done,
            2,
        ),
        (
            "(def f (a b c d e f g h i j k l m n o p) (emit a) (emit b) (emit p) (emit o) \
             (return (- a p))) (at (addr 0) (emit (call f 1 2 3 4 5 6 7 8 9 10 11 12 13 14 15 \
             (call f 21 22 23 24 25 26 27 28 29 30 31 32 33 34 35 36))))",
            TracerEnd::Done,
            0,
        ),
        (
            "(def f (a) (var b 0) (set b (+ b a)) (emit b)) (at (addr 0) (var i 0) (while (< \
             i 4) (run (call f i)) (set i (+ i 1))) (emit i))",
            TracerEnd::Done,
            0,
        ),
        (
            "(def g (a) (return (+ a 1))) (def f (a) (while (< a 9) (set a (call g a))) \
             (return a)) (at (addr 0) (emit (+ 100 (call f 2))))",
            TracerEnd::Done,
            0,
        ),
        (
            "(def f (a) (if a (return (load4 0)) (return 4))) (at (addr 0) (emit (call f 0)) \
             (emit (+ 1 (call f 1))))",
            TracerEnd::LoadFault(0),
            0,
        ),
    ];
    for (text, outcome, stores) in rows {
        expect(&rt, rt.alloc(), text, outcome, stores)?;
    }
    Ok(())
}

#[test]
fn system_calls(rt: HostRuntime) -> Result<(), Fail> {
    let rows = [
        (
            "(at (addr 0) (emit (sys 214 0)) (emit (sys 214 0x12345)) (emit (sys 214 0)) \
             (emit (sys 214 0x13000)) (emit (sys 214 0x15001)) (emit (sys 214 0x11000)) (emit \
             (sys 214 0x10fff)) (emit (sys 214 0x14000)))",
            TracerEnd::Barred(214),
            0,
        ),
        (
            "(at (addr 0) (emit (sys 214 0x13001)))",
            TracerEnd::Barred(214),
            0,
        ),
        ("(at (addr 0) (emit (sys 93 0)))", TracerEnd::Barred(93), 0),
        (
            "(at (addr 0) (emit (sys 0x80000000 5)))",
            TracerEnd::Barred(0x8000_0000),
            0,
        ),
        (
            "(def g (x) (return (+ x (sys 214 0)))) (at (addr 0) (run (sys 214 0x12800)) \
             (emit (call g 1)))",
            TracerEnd::Done,
            0,
        ),
    ];
    for (text, outcome, stores) in rows {
        expect(&rt, rt.alloc(), text, outcome, stores)?;
    }
    Ok(())
}
