//! Words that run in a bank.

ghost use Rattle.std.specs.Prelude.{◌≡◌, ◌<◌, ◌^◌, length, true};
ghost use Rattle.sl_model.specs.Marks.{MarksGoOn};
ghost use Rattle.sl_model.specs.Step as next;
ghost use Rattle.rv_machine.specs.Machine.{state_of, WentOn};
ghost use Rattle.undo_bank.specs.Areas.{areas_over};

use super::{one_page, set_word, undo};
use crate::{Bank, BankBus};
use page_frames::Frames;
use rv_machine::{Machine, Outcome, step};
use sl_base::Steps;
use sl_model::{Bus, CODE_START, Layout, RunState};
use std::marker::Brand;
use std::sync::ledger::{Blank, Ledger};
use std::test::Fail;

/// A tracer that was assembled by hand. It logs the word at 0x10004, stores its copy of pc there,
/// and puts the old word out.
const WORDS: [u32; 17] = [
    0x0001_02b7, // lui t0, 0x10
    0x0042_a303, // lw t1, 4(t0)
    0xe000_03b7, // lui t2, 0xe0000
    0x0042_8513, // addi a0, t0, 4
    0x00a3_a223, // sw a0, 4(t2)
    0x0040_0593, // addi a1, zero, 4
    0x00b3_a423, // sw a1, 8(t2)
    0x0063_a623, // sw t1, 12(t2)
    0x0010_0593, // addi a1, zero, 1
    0x00b3_a023, // sw a1, 0(t2)
    0xd000_0637, // lui a2, 0xd0000
    0x0806_2683, // lw a3, 128(a2)
    0x00d2_a223, // sw a3, 4(t0)
    0xf000_0737, // lui a4, 0xf0000
    0x00b7_2023, // sw a1, 0(a4)
    0x0067_2223, // sw t1, 4(a4)
    0x0000_0073, // ecall
];

/// A machine before the first word of a bank.
fn machine() -> Machine {
    Machine {
        pc: CODE_START,
        x: [0; 32],
        brk: 0,
        brk_end: 0,
        next_call: 0,
        status: RunState::Running,
        count: 0,
        layout: Layout {
            brk_start: 0,
            heap_limit: 0,
        },
    }
}

/// One step over a bank and a program's memory. Both come back as the step left them, and the code
/// has as many bytes as before.
fn step_over<L: Ledger>(
    m: &mut Machine,
    bank: &mut Bank,
    frames: &mut Frames,
    steps: &mut Steps<L>,
) -> Outcome
    requires running { m.old.status ≡ RunState.Running }
    requires count { m.old.count < 2 ^ 62 }
    ensures next { let before = areas_over bank.old frames.old.pages in
        WentOn (next.step (state_of m.old before))
        m.old before result m.new (areas_over bank.new frames.new.pages) }
    ensures code { length bank.new.code ≡ length bank.old.code }
    ensures marks { MarksGoOn true
        (areas_over bank.old frames.old.pages) frames.old.dirty
        (areas_over bank.new frames.new.pages) frames.new.dirty }
{
    step(m, &mut BankBus { bank, frames }, steps)
}

/// Runs to a call or a trap, at most a hundred steps.
fn run_on<L: Ledger>(m: &mut Machine, bank: &mut Bank, frames: &mut Frames, blank: Blank) -> Outcome
    requires name { blank.name ≡ L.name }
    requires parts { blank.parts ≡ L.parts }
    requires some_parts { 0 < blank.parts }
{
    let mut steps = Steps::<L>::new(blank);
    let mut outcome = Outcome::Stepped;
    for _ in 0..100 {
        if m.status != RunState::Running || m.count >= 100 {
            break;
        }
        outcome = step_over(m, bank, frames, &mut steps);
        if outcome != Outcome::Stepped {
            break;
        }
    }
    outcome
}

fn run(m: &mut Machine, bank: &mut Bank, frames: &mut Frames) -> Outcome {
    run_on::<Brand>(m, bank, frames, Blank::new(1))
}

#[test]
fn words_run_in_the_bank(rt: HostRuntime) -> Result<(), Fail> {
    let mut bank = Bank::new(rt.alloc(), &WORDS)?;
    let mut frames = one_page(rt.alloc())?;
    set_word(&mut frames, 0x10004, 0x0102_0304);
    let mut copies = [0; 37];
    copies[32] = 0x0001_0abc;
    for _ in 0..2 {
        bank.start(&copies);
        let mut m = machine();
        assert_eq!(rt; run(&mut m, &mut bank, &mut frames), Outcome::Call);
        assert_eq!(rt; (m.pc, m.count), (CODE_START + 64, 16));
        assert_eq!(rt; frames.load(0x10004, 4), Some(0x0001_0abc));
        assert_eq!(rt; frames.next_dirty(None), Some(16));
        assert_eq!(rt; (bank.out_len(), bank.out_word(0)), (1, Some(0x0102_0304)));
        assert_eq!(rt; bank.log_len(), 1);

        undo(&rt, &mut bank, &mut frames);
        assert_eq!(rt; frames.load(0x10004, 4), Some(0x0102_0304));
        assert_eq!(rt; frames.load(0x10000, 4), Some(0x0403_0201));
        assert_eq!(rt; (bank.log_len(), bank.last_log_len()), (0, 1));
    }
    Ok(())
}
