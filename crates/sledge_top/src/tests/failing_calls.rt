//! Calls of the store and of both outputs that fail, as one table.

use super::recorded::{EXITS, store_with};
use super::recordings::{EXITS as EXITS_RECORDING, recording, words};
use super::running::ended;
use outside::{MemorySink, MemoryStore, MemoryWorld, NoGate, Sink, SinkFailed};
use std::alloc::Global;
use std::process::Abort;
use std::test::Fail;
use std::thread::Threads;

/// A sink in memory that takes no more than 16 bytes at a time.
#[derive(Drop)]
struct Narrow(MemorySink);

impl Sink for Narrow {
    ghost use Rattle.std.specs.Prelude.{None};

    ghost written = { λ _. None };

    ghost faults = { λ sink. sink.0.plan.faults };

    fn write(&mut self, piece: &[u8]) -> Result<usize, SinkFailed> {
        self.0.write(&piece[..piece.len().min(16)])
    }
}

/// The calls that fail, by their numbers from 1 with commas between them. `-` is none, and `all`
/// more than any command makes.
fn numbers_of(alloc: Global, text: &str) -> Result<Vec<u32>, Fail> {
    let mut numbers = Vec::new(alloc);
    if text == "all" {
        for number in 1..100 {
            numbers.push(number)?;
        }
    } else if text != "-" {
        for number in text.split(',') {
            numbers.push(number.parse().map_err(|_| "no number")?)?;
        }
    }
    Ok(numbers)
}

/// A recording, a flat image, a source and a script.
fn files(alloc: Global, failing: &[u32]) -> Result<MemoryStore, Fail> {
    let rec = recording(alloc, EXITS_RECORDING)?;
    let image = words(alloc, EXITS)?;
    let script: &[u8] = b"(at (addr 0x10008) (emit (reg 10)))";
    let rows = [
        ("a.rec", rec.as_slice()),
        ("a.bin", image.as_slice()),
        ("a.s", b"nop"),
        ("a.txt", script),
    ];
    store_with(alloc, &rows, failing)
}

/// What came of a command.
#[derive(Drop)]
struct Ending {
    /// What was written to the first output.
    written: Vec<u8>,
    /// Its status, the number of bytes written to the first output, the number of bytes of the
    /// file `b` or `-` where there is none, and what was written to the second output, with `|` for
    /// a line feed.
    text: String,
}

/// How many bytes a file has, or `-` where there is none.
fn size_of(alloc: Global, file: Option<&[u8]>) -> Result<String, Fail> {
    match file {
        Some(bytes) => Ok(format!(in alloc; "{}", bytes.len())?),
        None => Ok(String::from_str(alloc, "-")?),
    }
}

/// The text of an ending.
fn text_of(
    alloc: Global,
    number: u8,
    written: usize,
    put: Option<&[u8]>,
    line: &[u8],
) -> Result<String, Fail> {
    let put = size_of(alloc, put)?;
    let line = String::from_utf8(line.to_vec(alloc)?).map_err(|_| "no text")?;
    let line = line.replace(alloc, "\n", "|")?;
    Ok(format!(in alloc; "{number} {written} {put} [{line}]")?)
}

/// Runs a command while the calls of the store, of the first and of the second output that these
/// words name fail.
fn run<R: Threads + Sync>(
    rt: &R,
    alloc: Global,
    failing: [&str; 3],
    words: &str,
) -> Result<Ending, Fail> {
    let [store, out, err] = failing;
    let mut store = files(alloc, &numbers_of(alloc, store)?)?;
    let mut out = Narrow(MemorySink::new(alloc, 600, numbers_of(alloc, out)?)?);
    let mut err = MemorySink::new(alloc, 100, numbers_of(alloc, err)?)?;
    let mut world = MemoryWorld::new(Vec::new(alloc));
    let number = ended(
        rt, alloc, words, &mut store, &mut world, &mut out, &mut err, &NoGate,
    )?;
    let written = out.0.bytes();
    Ok(Ending {
        text: text_of(alloc, number, written.len(), store.file("b"), err.bytes())?,
        written: written.to_vec(alloc)?,
    })
}

/// The calls of the store, of the first and of the second output that fail, the words of a command,
/// and what comes of it.
const ROWS: &str = "\
- - - trace a.rec at 10008 => 0 129 - []
1 - - trace a.rec at 10008 => 10 0 - [sledge: store fault|]
all - - trace a.rec at 10008 => 10 0 - [sledge: store fault|]
2 - - trace a.rec at 10008 => 0 129 - []
- 1 - trace a.rec at 10008 => 11 0 - [sledge: sink fault|]
- 2 - trace a.rec at 10008 => 11 16 - [sledge: sink fault|]
- 9 - trace a.rec at 10008 => 11 128 - [sledge: sink fault|]
- all - trace a.rec at 10008 => 11 0 - [sledge: sink fault|]
- 10 - trace a.rec at 10008 => 0 129 - []
- - all trace a.rec at 10008 => 0 129 - []
1 - 1 trace a.rec at 10008 => 10 0 - []
1 - 2 trace a.rec at 10008 => 10 0 - [sledge: ]
1 - 3 trace a.rec at 10008 => 10 0 - [sledge: store fault]
all all all trace a.rec at 10008 => 10 0 - []
- - - trace a.rec a.txt => 0 129 - []
1 - - trace a.rec a.txt => 10 0 - [sledge: store fault|]
2 - - trace a.rec a.txt => 10 0 - [sledge: store fault|]
all - - trace a.rec a.txt => 10 0 - [sledge: store fault|]
3 - - trace a.rec a.txt => 0 129 - []
- 1 - trace a.rec a.txt => 11 0 - [sledge: sink fault|]
- 2 - trace a.rec a.txt => 11 16 - [sledge: sink fault|]
- 9 - trace a.rec a.txt => 11 128 - [sledge: sink fault|]
- all - trace a.rec a.txt => 11 0 - [sledge: sink fault|]
- 10 - trace a.rec a.txt => 0 129 - []
- - all trace a.rec a.txt => 0 129 - []
1 - 1 trace a.rec a.txt => 10 0 - []
1 - 2 trace a.rec a.txt => 10 0 - [sledge: ]
1 - 3 trace a.rec a.txt => 10 0 - [sledge: store fault]
all all all trace a.rec a.txt => 10 0 - []
- - - record a.bin b --flat 10000 => 0 29 204 []
1 - - record a.bin b --flat 10000 => 10 0 - [sledge: store fault|]
2 - - record a.bin b --flat 10000 => 10 0 - [sledge: store fault|]
all - - record a.bin b --flat 10000 => 10 0 - [sledge: store fault|]
3 - - record a.bin b --flat 10000 => 0 29 204 []
- 1 - record a.bin b --flat 10000 => 11 0 204 [sledge: sink fault|]
- 2 - record a.bin b --flat 10000 => 11 16 204 [sledge: sink fault|]
- all - record a.bin b --flat 10000 => 11 0 204 [sledge: sink fault|]
- 3 - record a.bin b --flat 10000 => 0 29 204 []
- - all record a.bin b --flat 10000 => 0 29 204 []
1 - 1 record a.bin b --flat 10000 => 10 0 - []
1 - 2 record a.bin b --flat 10000 => 10 0 - [sledge: ]
1 - 3 record a.bin b --flat 10000 => 10 0 - [sledge: store fault]
all all all record a.bin b --flat 10000 => 10 0 - []
- - - recut a.rec b --every 2 => 0 29 356 []
1 - - recut a.rec b --every 2 => 10 0 - [sledge: store fault|]
2 - - recut a.rec b --every 2 => 10 0 - [sledge: store fault|]
all - - recut a.rec b --every 2 => 10 0 - [sledge: store fault|]
3 - - recut a.rec b --every 2 => 0 29 356 []
- 1 - recut a.rec b --every 2 => 11 0 356 [sledge: sink fault|]
- 2 - recut a.rec b --every 2 => 11 16 356 [sledge: sink fault|]
- all - recut a.rec b --every 2 => 11 0 356 [sledge: sink fault|]
- 3 - recut a.rec b --every 2 => 0 29 356 []
- - all recut a.rec b --every 2 => 0 29 356 []
1 - 1 recut a.rec b --every 2 => 10 0 - []
1 - 2 recut a.rec b --every 2 => 10 0 - [sledge: ]
1 - 3 recut a.rec b --every 2 => 10 0 - [sledge: store fault]
all all all recut a.rec b --every 2 => 10 0 - []
- - - asm a.s b => 0 20 228 []
1 - - asm a.s b => 10 0 - [sledge: store fault|]
2 - - asm a.s b => 10 0 - [sledge: store fault|]
all - - asm a.s b => 10 0 - [sledge: store fault|]
3 - - asm a.s b => 0 20 228 []
- 1 - asm a.s b => 11 0 228 [sledge: sink fault|]
- 2 - asm a.s b => 11 16 228 [sledge: sink fault|]
- all - asm a.s b => 11 0 228 [sledge: sink fault|]
- 3 - asm a.s b => 0 20 228 []
- - all asm a.s b => 0 20 228 []
1 - 1 asm a.s b => 10 0 - []
1 - 2 asm a.s b => 10 0 - [sledge: ]
1 - 3 asm a.s b => 10 0 - [sledge: store fault]
all all all asm a.s b => 10 0 - []
- - - gen 0 2 => 0 254 - []
all - - gen 0 2 => 0 254 - []
- 1 - gen 0 2 => 11 0 - [sledge: sink fault|]
- 2 - gen 0 2 => 11 16 - [sledge: sink fault|]
- 16 - gen 0 2 => 11 240 - [sledge: sink fault|]
- all - gen 0 2 => 11 0 - [sledge: sink fault|]
- 17 - gen 0 2 => 0 254 - []
- - all gen 0 2 => 0 254 - []
- 1 1 gen 0 2 => 11 0 - []
- 1 2 gen 0 2 => 11 0 - [sledge: ]
- 1 3 gen 0 2 => 11 0 - [sledge: sink fault]
all all all gen 0 2 => 11 0 - []
";

/// Checks each row, and that the first output has the first bytes of what the command writes where
/// nothing fails.
fn check_all<R: Threads + Sync + Abort>(rt: &R, alloc: Global, rows: &str) -> Result<(), Fail> {
    for row in rows.lines() {
        let (left, text) = row.split_once(" => ").ok_or("no row")?;
        let (store, rest) = left.split_once(' ').ok_or("no store")?;
        let (out, rest) = rest.split_once(' ').ok_or("no output")?;
        let (err, words) = rest.split_once(' ').ok_or("no second output")?;
        let found = run(rt, alloc, [store, out, err], words)?;
        assert_eq!(rt; found.text.as_str(), text, "{row}");
        let whole = run(rt, alloc, ["-", "-", "-"], words)?;
        assert!(rt; whole.written.starts_with(&found.written), "{row}");
    }
    Ok(())
}

#[test]
fn calls_that_fail(rt: HostRuntime) -> Result<(), Fail> {
    check_all(&rt, rt.alloc(), ROWS)
}
