//! A program that runs over a world.

ghost use Rattle.std.specs.Prelude.{◌≡◌, ◌+◌, ◌<◌, ◌≤◌, ◌^◌, IfOk, OnOk, true};
ghost use Rattle.outside.specs.World.{HearsAll};
ghost use Rattle.sl_model.specs.Marks.{MarksGoOn};
ghost use Rattle.sl_model.specs.State.{State, register};
ghost use Rattle.replay.specs.Calls.{exited};
ghost use Rattle.sl_model.specs.Step.{Called, step as next};
ghost use Rattle.page_frames.specs.MarkedPages.{IsKept};
ghost use Rattle.call_recorder.specs.Lives.{state_in, ComesSoFar, GoesOn, RanTo, Begins};

use crate::answering::answer;
use call_log::{CallEntry, End};
use outside::World;
use page_frames::Frames;
use replay::{apply, ask, exit};
use rv_machine::{Machine, Outcome, step};
use sl_base::{Memory, Seq, Steps};
use std::alloc::Global;
use std::sync::ledger::Ledger;

/// The most calls that a recording may have.
const MOST_CALLS: u32 = 4_294_967_295;

/// A program that runs, with its calls so far.
#[derive(Drop)]
pub(crate) struct Live {
    pub(crate) machine: Machine,
    pub(crate) memory: Frames,
    pub(crate) calls: Seq<CallEntry>,
}

impl Live {
    /// Does an exit, and tells the end.
    fn leave(&mut self) -> End
        requires { self.old.machine.count < 2 ^ 62 }
        ensures state { state_in self.new ≡ exited (state_in self.old) }
        ensures calls { self.new.calls ≡ self.old.calls }
        ensures memory { self.new.memory ≡ self.old.memory }
        ensures end { result ≡ End.Exited (register (state_in self.old) 10) }
    {
        let code = self.machine.x[10];
        exit(&mut self.machine);
        End::Exited(code)
    }

    /// Does the call at an ECALL, and records it. Tells the end of a run that goes no further.
    #[cold]
    #[inline(never)]
    fn call<W: World>(&mut self, alloc: Global, world: &mut W) -> Result<Option<End>, Memory>
        requires goes { GoesOn self.old }
        requires count { self.old.machine.count < 2 ^ 40 }
        requires stands { next (state_in self.old) ≡ Called }
        ensures kept { OnOk result ((opened : State) (before : W)
            → ComesSoFar opened (HearsAll W.hears before world.old) self.old
            → ComesSoFar opened (HearsAll W.hears before world.new) self.new) }
        ensures went { IfOk result (RanTo (self.old.machine.count + 1) self.new) }
        ensures calls { OnOk result (Begins self.old.calls self.new.calls) }
        ensures from { OnOk result (self.old.machine.count ≤ self.new.machine.count) }
        ensures marks { OnOk result (MarksGoOn true self.old.memory.pages self.old.memory.dirty
            self.new.memory.pages self.new.memory.dirty) }
    {
        let Some(asked) = ask(alloc, &self.machine, &self.memory)? else {
            return Ok(Some(self.leave()));
        };
        let index = self.machine.next_call;
        if index == MOST_CALLS {
            return Ok(Some(End::Stopped));
        }
        let entry = answer(alloc, asked, world)?;
        apply(&entry, &mut self.machine, &mut self.memory)?;
        self.calls.push(entry)?;
        Ok(None)
    }

    /// Does the next instruction. Tells the end of a run that goes no further.
    #[inline(always)]
    fn go_on<W: World, L: Ledger>(
        &mut self,
        alloc: Global,
        world: &mut W,
        steps: &mut Steps<L>,
    ) -> Result<Option<End>, Memory>
        requires goes { GoesOn self.old }
        requires count { self.old.machine.count < 2 ^ 40 }
        ensures kept { OnOk result ((opened : State) (before : W)
            → ComesSoFar opened (HearsAll W.hears before world.old) self.old
            → ComesSoFar opened (HearsAll W.hears before world.new) self.new) }
        ensures went { IfOk result (RanTo (self.old.machine.count + 1) self.new) }
        ensures calls { OnOk result (Begins self.old.calls self.new.calls) }
        ensures from { OnOk result (self.old.machine.count ≤ self.new.machine.count) }
        ensures marks { OnOk result (MarksGoOn true self.old.memory.pages self.old.memory.dirty
            self.new.memory.pages self.new.memory.dirty) }
    {
        match step(&mut self.machine, &mut self.memory, steps) {
            Outcome::Stepped => Ok(None),
            Outcome::Trap(number) => Ok(Some(End::Trapped(number))),
            Outcome::Call => {
                let end = self.call(alloc, world)?;
                Ok(end)
            }
        }
    }

    /// Runs up to a count, or tells the end where the run ends before.
    pub(crate) fn run_to<W: World, L: Ledger>(
        &mut self,
        alloc: Global,
        upto: u64,
        world: &mut W,
        steps: &mut Steps<L>,
    ) -> Result<Option<End>, Memory>
        requires goes { GoesOn self.old }
        requires from { self.old.machine.count ≤ upto }
        requires count { upto ≤ 2 ^ 40 }
        ensures kept { OnOk result ((opened : State) (before : W)
            → ComesSoFar opened (HearsAll W.hears before world.old) self.old
            → ComesSoFar opened (HearsAll W.hears before world.new) self.new) }
        ensures went { IfOk result (RanTo upto self.new) }
        ensures calls { OnOk result (Begins self.old.calls self.new.calls) }
        ensures from { OnOk result (self.old.machine.count ≤ self.new.machine.count) }
        ensures marks { OnOk result (MarksGoOn true self.old.memory.pages self.old.memory.dirty
            self.new.memory.pages self.new.memory.dirty) }
        ensures was { IsKept self.old.memory }
        ensures is { OnOk result (IsKept self.new.memory) }
    {
        let _was = self.memory.dirty_len();
        for _ in self.machine.count..upto {
            let end = self.go_on(alloc, world, steps)?;
            if end.is_some() {
                let _is = self.memory.dirty_len();
                return Ok(end);
            }
        }
        let _is = self.memory.dirty_len();
        Ok(None)
    }
}
