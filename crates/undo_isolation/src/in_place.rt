//! A tracer in place.

ghost use Rattle.std.specs.Prelude.{◌≡◌, ℕ, ◌+◌, ◌-◌, ◌<◌, ◌≤◌, ◌^◌, ◌++◌, List, [], length, take, true};
ghost use Rattle.page_frames.specs.MarkedPages.{IsKept};
ghost use Rattle.rv_machine.specs.Machine.{state_of};
ghost use Rattle.sl_model.specs.Bank.{output_count, output_of};
ghost use Rattle.sl_model.specs.Marks.{MarksGoOn};
ghost use Rattle.sl_model.specs.Pages.{Pages, ArePages};
ghost use Rattle.sl_model.specs.Runs.{EndsAfter};
ghost use Rattle.sl_model.specs.State.{IsState};
ghost use Rattle.sl_model.specs.Undo.{undone, log_count, log_of};
ghost use Rattle.tracer_code.specs.Runs.{IsObserved};
ghost use Rattle.tracer_code.specs.Sound.{IsSound, StandsFor};
ghost use Rattle.tracer_lang.specs.Tree.{ScriptTree};
ghost use Rattle.undo_bank.specs.Areas.{AreAreas, IsMadeFrom, IsProgram, areas_over, bank_pages};
ghost use Rattle.undo_isolation.specs.Ended.{HasEnded};
ghost use Rattle.undo_isolation.specs.InPlace.{RanAt, IsMeant};
ghost use Rattle.undo_isolation.specs.Run.{CameTo};

use crate::room::RecordRoom;
use crate::run::run_to_end;
use crate::start::{copied_words, start_at};
use page_frames::Frames;
use rv_machine::Machine;
use sl_base::Steps;
use sl_model::{MOST_ENTRIES, MOST_OUTPUT_WORDS, RunState};
use std::sync::ledger::Ledger;
use tracer_code::{TracerCode, outcome_of};
use undo_bank::{Bank, BankBus};

/// Runs the tracer of a tracepoint at a machine that runs, over the machine's own memory, and
/// undoes what it did there. The record tells how it ended; machine and memory are as before, with
/// their marks, and the bank is ready for the next tracer. Its last log is as long as the tracer's
/// stores were many.
pub fn run_in_place<L: Ledger>(
    m: &mut Machine,
    f: &mut Frames,
    bank: &mut Bank,
    code: &TracerCode,
    point: u32,
    rec: &mut RecordRoom,
    steps: &mut Steps<L>,
)
    requires sound { IsSound code.now }
    requires made { IsMadeFrom code.now.words bank.old }
    requires running { m.old.status ≡ RunState.Running }
    requires point { point < length code.now.places }
    ensures ran { RanAt code.now point (state_of m.old f.old.pages)
        rec.new bank.new.last_log_len (steps.new - steps.old) }
    ensures meant { (script : ScriptTree) → StandsFor code.now script
        → IsMeant script point (state_of m.old f.old.pages) rec.new bank.new.last_log_len }
    ensures counted { steps.old ≤ steps.new }
    ensures bound { steps.new ≤ steps.old + code.now.most }
    ensures machine { m.new ≡ m.old }
    ensures memory { f.new ≡ f.old }
    ensures made { IsMadeFrom code.now.words bank.new }
    ensures emptied { log_of (bank_pages bank.new) ≡ [] }
{
    let program = *m;
    let marked = f.dirty_len();
    run_tracer(m, f, bank, code, point, steps);
    rec.begin(
        program.count,
        point,
        program.pc,
        outcome_of(m.x[10], m.x[11]),
    );
    read_words(bank, rec);
    undo(bank, f, marked);
    *m = program;
}

/// Runs the tracer of a tracepoint from its start to its end, over a bank and a program's memory.
fn run_tracer<L: Ledger>(
    m: &mut Machine,
    f: &mut Frames,
    bank: &mut Bank,
    code: &TracerCode,
    point: u32,
    steps: &mut Steps<L>,
)
    requires sound { IsSound code.now }
    requires made { IsMadeFrom code.now.words bank.old }
    requires running { m.old.status ≡ RunState.Running }
    requires point { point < length code.now.places }
    ensures observed { IsObserved (state_of m.old f.old.pages) }
    ensures ended { HasEnded code.now point (state_of m.old f.old.pages)
        (state_of m.new (areas_over bank.new f.new.pages)) steps.old steps.new }
    ensures marks { (more : List ℕ) × (f.new.dirty ≡ f.old.dirty ++ more) }
    ensures made { IsMadeFrom code.now.words bank.new }
    ensures areas { AreAreas bank.new }
    ensures pages { IsProgram f.new.pages }
{
    known_machine(*m);
    known(bank, f);
    bank.start(&copied_words(m));
    start_at(m, code.places.as_slice()[point as usize]);
    run_over(m, f, bank, code.most, steps);
}

/// Does instructions over a bank and a program's memory, up to the end of the run and at most so
/// many.
fn run_over<L: Ledger>(
    m: &mut Machine,
    f: &mut Frames,
    bank: &mut Bank,
    most: u64,
    steps: &mut Steps<L>,
)
    requires running { m.old.status ≡ RunState.Running }
    requires count { m.old.count + most ≤ 2 ^ 62 }
    ensures end { let start = state_of m.old (areas_over bank.old f.old.pages) in
        (count : ℕ) → count ≤ most → EndsAfter count start
        → CameTo count start (state_of m.new (areas_over bank.new f.new.pages)) steps.old steps.new }
    ensures marks { MarksGoOn true (areas_over bank.old f.old.pages) f.old.dirty
        (areas_over bank.new f.new.pages) f.new.dirty }
    ensures size { length bank.new.code ≡ length bank.old.code }
    ensures areas { AreAreas bank.new }
    ensures pages { IsKept f.new }
{
    run_to_end(m, &mut BankBus { bank, frames: f }, most, steps);
    known(bank, f);
}

/// Adds the words of a bank's output to a record that has none.
fn read_words(bank: &Bank, rec: &mut RecordRoom)
    requires few { output_count (bank_pages bank.now) ≤ MOST_OUTPUT_WORDS }
    requires none { rec.old.words ≡ [] }
    ensures { rec.new ≡ record rec.old { words = output_of (bank_pages bank.now) } }
{
    for index in 0..bank.out_len() {
        rec.push(bank.out_word(index).unwrap_or(0));
    }
}

/// Undoes what a tracer did to a program's memory, and takes the marks beyond the first `marked`
/// back.
fn undo(bank: &mut Bank, f: &mut Frames, marked: u32)
    requires few { log_count (bank_pages bank.old) ≤ MOST_ENTRIES }
    requires marked { marked ≤ length f.old.dirty }
    ensures pages { f.new.pages ≡ undone (log_of (bank_pages bank.old)) f.old.pages }
    ensures marks { f.new.dirty ≡ take marked f.old.dirty }
    ensures emptied { log_of (bank_pages bank.new) ≡ [] }
    ensures last { bank.new.last_log_len ≡ log_count (bank_pages bank.old) }
    ensures code { bank.new.code ≡ bank.old.code }
    ensures areas { AreAreas bank.new }
{
    bank.undo_into(f);
    f.cut_dirty(marked);
    known(bank, f);
}

/// Tells a proof that the numbers of a machine are in their ranges, and does nothing.
#[inline(always)]
fn known_machine(m: Machine)
    requires { m.status ≡ RunState.Running }
    ensures { (pages : Pages) → ArePages pages → IsState (state_of m pages) }
{}

/// Tells a proof what holds of every bank and of every program's memory, and does nothing.
#[inline(always)]
fn known(bank: &Bank, f: &Frames)
    ensures areas { AreAreas bank.now }
    ensures pages { IsKept f.now }
{
    bank.log_len();
    f.dirty_len();
}
