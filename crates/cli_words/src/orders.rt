//! The commands, as their words name them.

/// How a trace is made.
#[derive(Debug, Drop)]
pub struct TraceOptions<'a> {
    /// The number of workers, 1 to 16.
    pub workers: u32,
    /// At most so many epochs, 1 to 4,096, or one for each interval between checkpoints.
    pub epochs: Option<u32>,
    /// The words of the analyses, of which there are 1 to 32.
    pub analyses: Vec<&'a str>,
}

/// How a recording is made.
#[derive(Debug, Drop)]
pub struct RecordOptions<'a> {
    /// Where the bytes of a flat image go; `None` for an ELF file.
    pub flat: Option<u32>,
    /// The most instructions, 1 to 2^40.
    pub limit: u64,
    /// The distance between checkpoints in instructions, 1 to 2^40.
    pub every: u64,
    /// The arguments of the program, at most 64. None holds a zero byte, and with a zero byte
    /// behind each they have at most 65,536 bytes.
    pub arguments: Vec<&'a str>,
}

/// A command, with its files' names, numbers and options. Options that were left out have their
/// defaults.
#[derive(Debug, Drop)]
pub enum Order<'a> {
    /// `trace RECORDING SCRIPT`: replays a recording with the tracers of a script.
    Trace {
        recording: &'a str,
        script: &'a str,
        options: TraceOptions<'a>,
    },
    /// `trace RECORDING at HEX`: the same, with register a0 recorded wherever pc is at the address.
    TraceAt {
        recording: &'a str,
        address: u32,
        options: TraceOptions<'a>,
    },
    /// `replay RECORDING`: replays a recording.
    Replay {
        recording: &'a str,
    },
    /// `check RECORDING`: reads a recording and its image.
    Check {
        recording: &'a str,
    },
    /// `record IMAGE OUTPUT`: runs an image and puts its recording.
    Record {
        image: &'a str,
        output: &'a str,
        options: RecordOptions<'a>,
    },
    /// `recut RECORDING OUTPUT`: replays a recording, and puts the same run with checkpoints at
    /// another distance.
    Recut {
        recording: &'a str,
        output: &'a str,
        every: u64,
    },
    /// `asm SOURCE OUTPUT`: assembles a text and puts the ELF file.
    Asm {
        source: &'a str,
        output: &'a str,
    },
    /// `show IMAGE HEX N`: prints 1 to 4,096 instructions of an image from an address on.
    Show {
        image: &'a str,
        address: u32,
        lines: u32,
        flat: Option<u32>,
    },
    /// `gen SEED SIZE`: makes, records and traces a program, of a size from 1 to 1,000,000.
    Gen {
        seed: u32,
        size: u32,
    },
}
