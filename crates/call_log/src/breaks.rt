use crate::entry::End;

/// Where a replay first differs from its recording.
#[derive(Clone, Copy, Debug, PartialEq, Eq)]
pub struct Break {
    /// How many instructions were done before.
    pub count: u64,
    /// What differs there.
    pub kind: BreakKind,
}

/// What differs between a replay and its recording. Calls and checkpoints are named by their
/// indexes in the recording: calls from 0, checkpoints from 1.
#[derive(Clone, Copy, Debug, PartialEq, Eq)]
pub enum BreakKind {
    /// The program makes a call, and the recording has no further one.
    NoCall {
        /// The index that the call would have.
        index: u32,
    },
    /// The program makes another call than the recorded one.
    CallDiffers {
        /// The call's index.
        index: u32,
        /// The least field that differs: 0 the number, 1 to 6 the arguments, 7 the result, 8 the
        /// length of the data, 9 a byte of the data.
        field: u32,
        /// The recorded value.
        recorded: u32,
        /// The value that the program's call needs.
        due: u32,
    },
    /// The program exits or traps before the recorded end.
    EarlyEnd {
        /// The recorded end, in instructions done.
        end: u64,
    },
    /// At the recorded end the program is in another state than the recorded one.
    EndDiffers {
        /// The recorded end.
        recorded: End,
        /// The end of the replay.
        replayed: End,
    },
    /// At the recorded end a recorded call was not made.
    CallsLeft {
        /// The first call that was not made.
        index: u32,
    },
    /// Registers or memory differ at a checkpoint.
    CheckpointDiffers {
        /// The checkpoint's index.
        index: u32,
        /// What differs: 0 the program counter, 1 to 31 a register, 32 the break, 33 the end of the
        /// mapped heap, 34 the index of the next call, 35 a byte of memory, 36 whether a page is
        /// mapped.
        part: u32,
        /// The address of the byte or the page; 0 for the other parts.
        at: u32,
        /// The recorded value.
        recorded: u32,
        /// The value in the replay.
        replayed: u32,
    },
}
