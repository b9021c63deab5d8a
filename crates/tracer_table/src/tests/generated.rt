//! Scripts that are drawn from a grammar: a tracer in place leaves what it leaves on a copy.

use super::expect_end;
use super::in_place::left_in_place;
use super::outcomes::expect_untouched;
use super::running::left_on_copy;
use std::alloc::{AllocError, Global};
use std::process::Abort;
use std::test::Fail;
use tracer_lang::Record;

/// What may stand for a capital of a text. Words of scripts have small letters alone.
struct Rule {
    capital: char,
    forms: &'static [&'static str],
    /// The first so many forms are short: they have no statement and no expression in them.
    short: usize,
}

/// A script, of which the rules make many.
const START: &str = "(budget B) (def f (a b) (var i 0) S (return E)) (def g (a) (var b 5) (var i \
                     0) S (return (call f E V))) (at (addr 0) (var a N) (var b N) (var i 0) S S S \
                     S S S)";

/// Statements, expressions, operators, loads, stores, addresses, numbers, variables, hexadecimal
/// and decimal digits, and budgets.
static RULES: [Rule; 11] = [
    Rule {
        capital: 'S',
        forms: &[
            "(emit V)",
            "(set V N)",
            "(W A V)",
            "(W A E)",
            "(W A E)",
            "(W A E)",
            "(emit E)",
            "(emit E)",
            "(set V E)",
            "(run E)",
            "(do S S)",
            "(if E S S)",
            "(if E S (do))",
            "(while (<u i 3) S (set i (+ i 1)))",
            "(do (set i 0) (while (<u i D) S (set i (+ i 1))))",
            "(while (<u i DDD) (emit i) (set i (+ i 1)))",
            "(while (<u i 5000) (W (+ 0x11000 i) i) (set i (+ i 1)))",
            "(while (< V D) (W A E) (set V (+ V 1)))",
            "(return E)",
            "(if (O V E) S (stop E))",
            "(if V S (run (sys D E)))",
            "(run (sys 214 0x13XXX))",
        ],
        short: 3,
    },
    Rule {
        capital: 'E',
        forms: &[
            "N",
            "V",
            "(reg D)",
            "(pc)",
            "(O E E)",
            "(O E E)",
            "(O V E)",
            "(O V N)",
            "(not E)",
            "(L A)",
            "(L A)",
            "(L A)",
            "(L E)",
            "(call f E E)",
            "(call g E)",
            "(sys 214 0x1200D)",
        ],
        short: 4,
    },
    Rule {
        capital: 'O',
        forms: &[
            "+", "-", "*", "/", "%", "/u", "%u", "&", "|", "^", "<<", ">>", ">>u", "=", "!=", "<",
            "<=", "<u", "<=u",
        ],
        short: 19,
    },
    Rule {
        capital: 'L',
        forms: &["load1", "load2", "load4", "load1s", "load2s"],
        short: 5,
    },
    Rule {
        capital: 'W',
        forms: &["store1", "store2", "store4"],
        short: 3,
    },
    Rule {
        capital: 'A',
        forms: &[
            "0x1100X",
            "0x11ffX",
            "0x11ffX",
            "0x1200X",
            "0x12fXX",
            "0x12ffX",
            "0xbfffefXX",
            "(+ 0x11800 (& E 0xff))",
            "(+ 0x11ff0 (& E 0xf))",
            "0x10ffX",
        ],
        short: 7,
    },
    Rule {
        capital: 'N',
        forms: &["D", "DD", "-D", "0x8000000D", "0x7ffffffX", "0xXXXXXXXX"],
        short: 6,
    },
    Rule {
        capital: 'V',
        forms: &["a", "b"],
        short: 2,
    },
    Rule {
        capital: 'X',
        forms: &[
            "0", "1", "2", "3", "4", "5", "6", "7", "8", "9", "a", "b", "c", "d", "e", "f",
        ],
        short: 16,
    },
    Rule {
        capital: 'D',
        forms: &["0", "1", "2", "3", "4", "5", "6", "7", "8", "9"],
        short: 10,
    },
    Rule {
        capital: 'B',
        forms: &["1D", "1D", "3DD", "3DD", "3DD", "3DD", "3DD", "5000"],
        short: 8,
    },
];

/// Numbers from a linear congruence.
#[derive(Clone, Copy)]
struct Random {
    state: u32,
}

impl Random {
    /// One of some forms, or nothing where there is none.
    fn one_of(&mut self, forms: &[&'static str]) -> &'static str {
        self.state = self
            .state
            .wrapping_mul(1_664_525)
            .wrapping_add(1_013_904_223);
        let index = (self.state >> 12) as usize % forms.len().max(1);
        forms.get(index).copied().unwrap_or("")
    }

    /// One of the forms of a rule, or one of the short ones.
    fn form(&mut self, rule: &Rule, short: bool) -> &'static str {
        match rule.forms.get(..rule.short) {
            Some(forms) if short => self.one_of(forms),
            _ => self.one_of(rule.forms),
        }
    }

    /// A text in which a form stands for each capital.
    fn drawn(&mut self, alloc: Global, text: &str, short: bool) -> Result<String, AllocError> {
        let mut made = String::new(alloc);
        for c in text.chars() {
            match RULES.iter().find(|rule| rule.capital == c) {
                Some(rule) => made.push_str(self.form(rule, short))?,
                None => made.push(c)?,
            }
        }
        Ok(made)
    }

    /// A script: at first any forms are drawn, and then short ones, up to the digits.
    fn script(&mut self, alloc: Global) -> Result<String, AllocError> {
        let mut text = String::from_str(alloc, START)?;
        for round in 0..8 {
            text = self.drawn(alloc, text.as_str(), round >= 4)?;
        }
        Ok(text)
    }
}

/// Where a record was left: the count, the tracepoint and the program counter.
pub fn place_of(record: &Record) -> [u64; 3] {
    [record.count, record.point as u64, record.pc as u64]
}

/// Two records are the same.
fn expect_equal(rt: &impl Abort, left: &Record, due: &Record, text: &str) {
    let words = due.words.as_slice();
    expect_end(
        rt,
        (left.outcome, left.words.as_slice()),
        (due.outcome, words),
        text,
    );
    assert_eq!(rt;
        place_of(left).as_slice(),
        place_of(due).as_slice(),
        "{text}"
    );
}

#[test]
fn generated_scripts_in_place(rt: HostRuntime) -> Result<(), Fail> {
    let mut random = Random { state: 1 };
    for _ in 0..240 {
        let text = random.script(rt.alloc())?;
        let due = left_on_copy(rt.alloc(), &text)?;
        let left = left_in_place(rt.alloc(), &text)?;
        match (due, left) {
            (Some(due), Some(left)) => {
                expect_equal(&rt, &left.record, &due, &text);
                expect_untouched(&rt, &left, &text);
            }
            _ => assert!(rt; false, "no script: {text}"),
        }
    }
    Ok(())
}
