//! What runs the epochs of a plan.

ghost use Rattle.std.specs.Prelude.{◌≡◌, IfOk};
ghost use Rattle.std.specs.FinMap.{empty};
ghost use Rattle.epoch_run.specs.Standings.{StandsIn};

use crate::plan::Plan;
use page_frames::Frames;
use rv_machine::Machine;
use sl_base::Memory;
use sl_model::{Layout, RunState};
use std::alloc::Global;
use undo_bank::Bank;
use undo_isolation::RecordRoom;

/// The machine and the memory of one worker, which runs one epoch after the other, and what the
/// tracers that fire there run with: a bank of their own, and room for a record.
#[derive(Drop)]
pub struct Worker {
    pub m: Machine,
    pub f: Frames,
    pub bank: Bank,
    pub room: RecordRoom,
    /// The checkpoint in whose recorded state it is, where it is known to be in one.
    pub at: Option<u32>,
}

impl Worker {
    /// A worker that has run nothing yet, and can run the tracers of a plan: its bank is made from
    /// their code. No memory is mapped.
    pub fn new(alloc: Global, plan: &Plan) -> Result<Worker, Memory>
        ensures pages { IfOk result (λ worker. worker.f.pages ≡ empty) }
        ensures count { IfOk result (λ worker. worker.m.count ≡ 0) }
        ensures stands { IfOk result (StandsIn plan.now) }
    {
        let m = Machine {
            pc: 0,
            x: [0; 32],
            brk: 0,
            brk_end: 0,
            next_call: 0,
            status: RunState::Running,
            count: 0,
            layout: Layout {
                brk_start: 0,
                heap_limit: 0,
            },
        };
        let f = Frames::new(alloc)?;
        let bank = Bank::new(alloc, plan.tracers.code().words.as_slice())?;
        let room = RecordRoom::new(alloc)?;
        Ok(Worker {
            m,
            f,
            bank,
            room,
            at: None,
        })
    }

    /// How many entries the last log of its bank had: after an epoch that left records, how many
    /// stores the tracer of the last of them did.
    pub fn last_log_len(&self) -> u32
        ensures { result ≡ self.now.bank.last_log_len }
    {
        self.bank.last_log_len()
    }
}
