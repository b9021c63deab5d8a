//! Words, and the commands that they name with all their values. The words that name none stand on
//! the page `WORDS.md` of the crate `transcripts`.

use cli_words::read_words;
use std::alloc::Global;
use std::test::Fail;

/// Words with one blank between two, and after `=>` the command that they name.
const ROWS: &str =
    r#"trace a.rec b.sl => Trace { recording: "a.rec", script: "b.sl", options: TraceOptions { workers: 1, epochs: None, analyses: ["all"] } }
trace a.rec at 0x10008 => TraceAt { recording: "a.rec", address: 65544, options: TraceOptions { workers: 1, epochs: None, analyses: ["all"] } }
trace a.rec at FFFFFFFF => TraceAt { recording: "a.rec", address: 4294967295, options: TraceOptions { workers: 1, epochs: None, analyses: ["all"] } }
trace --epochs 4096 a.rec --workers=16 at 0 => TraceAt { recording: "a.rec", address: 0, options: TraceOptions { workers: 16, epochs: Some(4096), analyses: ["all"] } }
trace a.rec b.sl --analyse word=1:2 --analyse=count --epochs 0000000000001 => Trace { recording: "a.rec", script: "b.sl", options: TraceOptions { workers: 1, epochs: Some(1), analyses: ["word=1:2", "count"] } }
trace a.rec ./at => Trace { recording: "a.rec", script: "./at", options: TraceOptions { workers: 1, epochs: None, analyses: ["all"] } }
trace -- a.rec at 1 => TraceAt { recording: "a.rec", address: 1, options: TraceOptions { workers: 1, epochs: None, analyses: ["all"] } }
trace -- --epochs -- => Trace { recording: "--epochs", script: "--", options: TraceOptions { workers: 1, epochs: None, analyses: ["all"] } }
trace - at 0 => TraceAt { recording: "-", address: 0, options: TraceOptions { workers: 1, epochs: None, analyses: ["all"] } }
trace  b.sl => Trace { recording: "", script: "b.sl", options: TraceOptions { workers: 1, epochs: None, analyses: ["all"] } }
replay a.rec => Replay { recording: "a.rec" }
check a.rec => Check { recording: "a.rec" }
record a.elf b.rec => Record { image: "a.elf", output: "b.rec", options: RecordOptions { flat: None, limit: 1000000000, every: 1000000, arguments: [] } }
record a.bin b.rec --flat 10000 --limit 1099511627776 --every=1 => Record { image: "a.bin", output: "b.rec", options: RecordOptions { flat: Some(65536), limit: 1099511627776, every: 1, arguments: [] } }
record a.elf b.rec --arg= --arg=-x --arg y --arg=a=b => Record { image: "a.elf", output: "b.rec", options: RecordOptions { flat: None, limit: 1000000000, every: 1000000, arguments: ["", "-x", "y", "a=b"] } }
recut a.rec b.rec => Recut { recording: "a.rec", output: "b.rec", every: 1000000 }
recut a.rec b.rec --every 7 => Recut { recording: "a.rec", output: "b.rec", every: 7 }
asm a.s b.elf => Asm { source: "a.s", output: "b.elf" }
show a.elf 10000 4096 => Show { image: "a.elf", address: 65536, lines: 4096, flat: None }
show a.bin 0 1 --flat 0 => Show { image: "a.bin", address: 0, lines: 1, flat: Some(0) }
gen 4294967295 1000000 => Gen { seed: 4294967295, size: 1000000 }
gen 0 1 => Gen { seed: 0, size: 1 }
gen 0000000000000 0000000000001 => Gen { seed: 0, size: 1 }
show a.elf 12345678 0000000000001 => Show { image: "a.elf", address: 305419896, lines: 1, flat: None }
replay -- -a.rec => Replay { recording: "-a.rec" }
check - => Check { recording: "-" }
check -- -- => Check { recording: "--" }
record -- -a.elf --b.rec => Record { image: "-a.elf", output: "--b.rec", options: RecordOptions { flat: None, limit: 1000000000, every: 1000000, arguments: [] } }
record --arg  a.elf b.rec => Record { image: "a.elf", output: "b.rec", options: RecordOptions { flat: None, limit: 1000000000, every: 1000000, arguments: [""] } }
trace --analyse a.rec at 0 => Trace { recording: "at", script: "0", options: TraceOptions { workers: 1, epochs: None, analyses: ["a.rec"] } }"#;

/// The words of a text with one blank between two. Two blanks have an empty word between them.
fn words_of(alloc: Global, text: &str) -> Result<Vec<String>, Fail> {
    let mut words = Vec::new(alloc);
    for word in text.split(' ') {
        words.push(String::from_str(alloc, word)?)?;
    }
    Ok(words)
}

#[test]
fn rows(rt: HostRuntime) -> Result<(), Fail> {
    let alloc = rt.alloc();
    for row in ROWS.lines() {
        let (text, want) = row.split_once(" => ").ok_or("no row")?;
        let words = words_of(alloc, text)?;
        let Ok(order) = read_words(alloc, &words) else {
            return Err("no command".into());
        };
        assert_eq!(rt; format!(in alloc; "{order:?}")?.as_str(), want, "{text}");
    }
    Ok(())
}

/// So many times one byte.
fn repeated(alloc: Global, byte: char, count: u32) -> Result<String, Fail> {
    let mut text = String::new(alloc);
    for _ in 0..count {
        text.push(byte)?;
    }
    Ok(text)
}

/// Whether `record` takes so many arguments, which begin with `--arg=` and have this text behind
/// it.
fn takes_arguments(alloc: Global, count: u32, text: &str) -> Result<bool, Fail> {
    let mut words = words_of(alloc, "record a.elf b.rec")?;
    for _ in 0..count {
        words.push(format!(in alloc; "--arg={text}")?)?;
    }
    Ok(read_words(alloc, &words).is_ok())
}

/// Arguments that no page shows: 65,536 bytes of them, each with a zero byte after it, are taken.
#[test]
fn limits(rt: HostRuntime) -> Result<(), Fail> {
    let alloc = rt.alloc();
    assert!(rt; takes_arguments(alloc, 1, repeated(alloc, 'a', 65_535)?.as_str())?);
    assert!(rt; !takes_arguments(alloc, 1, repeated(alloc, 'a', 65_536)?.as_str())?);
    assert!(rt; takes_arguments(alloc, 2, repeated(alloc, 'a', 32_767)?.as_str())?);
    assert!(rt; !takes_arguments(alloc, 2, repeated(alloc, 'a', 32_768)?.as_str())?);
    assert!(rt; !takes_arguments(alloc, 1, "a\0b")?);
    Ok(())
}
