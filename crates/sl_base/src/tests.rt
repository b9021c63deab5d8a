//! What no clause says: values from outside, and that calls succeed.

ghost use Rattle.std.specs.Prelude.{◌≡◌, ◌+◌, ◌<◌};

use crate::{Memory, Refused, Seq, Steps, decimal_text, word_text};
use std::alloc::Global;
use std::marker::Brand;
use std::mem::size_of;
use std::sync::ledger::{Blank, Ledger};
use std::test::Fail;

#[test]
fn numbers_as_text(rt: HostRuntime) {
    for (n, want) in [
        (0, "0"),
        (7, "7"),
        (10, "10"),
        (1_099_511_627_776, "1099511627776"),
        (u64::MAX, "18446744073709551615"),
    ] {
        assert_eq!(rt; decimal_text(n).as_bytes(), want.as_bytes());
    }
    for (n, want) in [
        (0, "0x00000000"),
        (0x1234_abcd, "0x1234abcd"),
        (u32::MAX, "0xffffffff"),
    ] {
        assert_eq!(rt; word_text(n).as_bytes(), want.as_bytes());
    }
}

#[test]
fn lists(rt: HostRuntime) -> Result<(), Fail> {
    let alloc = rt.alloc();
    let mut items = Seq::new(alloc);
    assert!(rt; items.is_empty());
    items.push(3u8)?;
    assert!(rt; items.len() == 1 && items.as_slice() == [3].as_slice());
    assert!(rt; items == Seq::from_vec(vec![in alloc; 3]?));
    assert!(rt; items != Seq::from_vec(vec![in alloc; 4]?));
    assert!(rt; items.into_vec().len() == 1);
    Ok(())
}

/// A list of one number, by the errors of std that turn into this crate's.
fn one_number(alloc: Global) -> Result<Vec<u8>, Memory> {
    let mut items = Vec::with_capacity(alloc, 1)?;
    items.push(1)?;
    Ok(items)
}

fn two_numbers(alloc: Global) -> Result<Vec<u8>, Refused<u8>> {
    let mut items = one_number(alloc)?;
    items.extend_from_slice(&[2])?;
    items.push(3)?;
    items.pop().ok_or(Refused::Fault(3))?;
    Ok(items)
}

#[test]
fn refusals(rt: HostRuntime) {
    assert!(rt; two_numbers(rt.alloc()).is_ok_and(|items| items.len() == 2));
}

/// Counts down to 0, a step each.
fn count_down<L: Ledger>(from: u8, steps: &mut Steps<L>)
    ensures { steps.new ≡ steps.old + from }
{
    for _ in 0..from {
        steps.tick();
    }
}

/// The same, on a new ledger.
fn count_down_alone<L: Ledger>(from: u8, blank: Blank) -> u64
    requires name { blank.name ≡ L.name }
    requires parts { blank.parts ≡ L.parts }
    requires some_parts { 0 < blank.parts }
{
    let mut steps = Steps::<L>::new(blank);
    count_down(from, &mut steps);
    size_of::<Steps<L>>() as u64
}

#[test]
fn steps_take_no_bytes(rt: HostRuntime) {
    assert!(rt; count_down_alone::<Brand>(3, Blank::new(1)) == 0);
}
