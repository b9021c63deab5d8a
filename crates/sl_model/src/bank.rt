//! Where the areas of a bank lie. A bank is the memory of its own that a compiled tracer runs in,
//! beside the program's: its code, its frames, the log of what it stored over, and its output.

/// The address of the code: the words of the tracers, in as many whole pages as they take.
pub const CODE_START: u32 = 0xC000_0000;

/// The most words of code: 4 MiB of them.
pub const MOST_CODE_WORDS: u32 = 1_048_576;

/// The address of the frames: the copied words, then locals, temporaries and saved values.
pub const FRAMES_START: u32 = 0xD000_0000;

/// The bytes of the frames.
pub const FRAMES_SIZE: u32 = 0x0004_0000;

/// How many words of the machine stand copied at the head of the frames: x0 to x31, pc, both bounds
/// of the heap, the break and the mapped end of the heap.
pub const COPIED_WORDS: u32 = 37;

/// The address of the log: a word with the number of entries, then the entries.
pub const LOG_START: u32 = 0xE000_0000;

/// The bytes of the log, in whole pages.
pub const LOG_SIZE: u32 = 0xD000;

/// The most entries of the log.
pub const MOST_ENTRIES: u32 = 4096;

/// The bytes of an entry of the log: a word each for address, width and old value.
pub const ENTRY_SIZE: u32 = 12;

/// The address of the output: a word with the number of words, then the words.
pub const OUTPUT_START: u32 = 0xF000_0000;

/// The bytes of the output, in whole pages.
pub const OUTPUT_SIZE: u32 = 0x1000;

/// The most words of output.
pub const MOST_OUTPUT_WORDS: u32 = 256;
