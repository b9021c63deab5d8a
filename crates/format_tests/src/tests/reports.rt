//! Lines and reports that were worked by hand.

use analysers::{Merged, Row, read_kind};
use call_log::End;
use outside::{MemorySink, Sink, SinkFailed};
use report::{Refusal, RunEnd, Status, report_text, write_fault};
use sl_base::Seq;
use std::alloc::Global;
use std::test::Fail;
use tracer_lang::{Record, TracerEnd};

/// Whether a command that ended so ends the program with this number and writes this line.
fn tells(alloc: Global, status: &Status, code: u8, line: &str) -> Result<bool, Fail> {
    let mut err = MemorySink::new(alloc, 200, Vec::new(alloc))?;
    let written = write_fault(&mut err, status).is_ok();
    Ok(written && status.code() == code && err.bytes() == line.as_bytes())
}

/// The same of a refusal.
fn refuses(alloc: Global, why: Refusal, code: u8, line: &str) -> Result<bool, Fail> {
    tells(alloc, &Status::Refused(why), code, line)
}

#[test]
fn endings(rt: HostRuntime) -> Result<(), Fail> {
    let alloc = rt.alloc();
    assert!(rt; tells(alloc, &Status::Ok, 0, "")?);
    assert!(rt; tells(alloc, &Status::StoreFault, 10, "sledge: store fault\n")?);
    assert!(rt; tells(alloc, &Status::SinkFault, 11, "sledge: sink fault\n")?);
    assert!(rt; tells(alloc, &Status::Memory, 12, "sledge: memory\n")?);
    Ok(())
}

/// A name of two lines stands in the line as it was given, byte for byte. All other refusals are on
/// the pages of the crate `transcripts`.
#[test]
fn names_of_two_lines(rt: HostRuntime) -> Result<(), Fail> {
    let alloc = rt.alloc();
    let name = Seq::from_vec("a\nb\u{7f}\u{e4}.rec".as_bytes().to_vec(alloc)?);
    let why = Refusal::Absent { name };
    assert!(rt; refuses(alloc, why, 2, "sledge: absent: a\nb\u{7f}\u{e4}.rec\n")?);
    Ok(())
}

/// A sink that takes one byte at a time.
#[derive(Drop)]
struct NarrowSink {
    sink: MemorySink,
}

impl Sink for NarrowSink {
    ghost use Rattle.std.specs.Prelude.{None};

    ghost written = { λ _. None };

    ghost faults = { λ narrow. narrow.sink.plan.faults };

    fn write(&mut self, piece: &[u8]) -> Result<usize, SinkFailed> {
        self.sink.write(&piece[..1])
    }
}

/// A line comes up to the byte whose write fails, or whole where that is past its end.
#[test]
fn one_byte_at_a_time(rt: HostRuntime) -> Result<(), Fail> {
    let alloc = rt.alloc();
    let rows: [(u32, &[u8]); 7] = [
        (1, b""),
        (2, b"s"),
        (9, b"sledge: "),
        (18, b"sledge: analysis "),
        (19, b"sledge: analysis 2"),
        (27, b"sledge: analysis 2 is none"),
        (28, b"sledge: analysis 2 is none\n"),
    ];
    for (failing, line) in rows {
        let sink = MemorySink::new(alloc, 200, vec![in alloc; failing]?)?;
        let mut err = NarrowSink { sink };
        let status = Status::Refused(Refusal::AnalysisRefused(2));
        let is_whole = write_fault(&mut err, &status).is_ok();
        assert_eq!(rt; is_whole, failing == 28);
        assert_eq!(rt; err.sink.bytes(), line);
    }
    Ok(())
}

/// The report of these rows, for the kinds of some words with a space between two.
fn report_of(
    alloc: Global,
    words: &str,
    rows: Vec<Seq<Row>>,
    last: &RunEnd,
) -> Result<Vec<u8>, Fail> {
    let mut kinds = Vec::new(alloc);
    for word in words.split(' ') {
        kinds.push(read_kind(alloc, word)?.ok_or("no kind")?)?;
    }
    let merged = Merged {
        rows: Seq::from_vec(rows),
    };
    if merged.rows.len() != kinds.len() {
        return Err(Fail::from("rows of other kinds"));
    }
    Ok(report_text(alloc, &merged, &kinds, last)?)
}

#[test]
fn report(rt: HostRuntime) -> Result<(), Fail> {
    let alloc = rt.alloc();
    let mut x = [0; 32];
    x[2] = 0x7fff_ffe0;
    x[31] = 1;
    let last = RunEnd {
        end: End::Exited(5),
        count: 3,
        pc: 0x1000c,
        x,
    };
    let entry = Record {
        count: 2,
        point: 0,
        pc: 0x10008,
        words: Seq::from_vec(vec![in alloc; 5, 0x5d]?),
        outcome: TracerEnd::LoadFault(16),
    };
    let all = vec![in alloc; Row::Of(entry)]?;
    let count = vec![in alloc; Row::Number(u64::MAX)]?;
    let least = vec![in alloc; Row::Word(7)]?;
    let hist = vec![in alloc;
        Row::Bin {
            value: 0x13000,
            count: 1,
        },
        Row::Bin {
            value: u32::MAX,
            count: 10,
        },
    ]?;
    let rows = vec![in alloc;
        Seq::from_vec(all),
        Seq::from_vec(count),
        Seq::new(alloc),
        Seq::from_vec(least),
        Seq::from_vec(hist),
    ]?;
    let text = report_of(alloc, "all count first least=00 hist=0", rows, &last)?;
    let expected = "1,all,2,0,0x00010008,LoadFault 0x00000010,0x00000005 0x0000005d\n\
                    2,count,,,,,18446744073709551615\n\
                    4,least=00,,,,,0x00000007\n\
                    5,hist=0,1,,,,0x00013000\n\
                    5,hist=0,10,,,,0xffffffff\n\
                    end,exited,3,,0x0001000c,,0x00000005\n\
                    regs,x,,,,,x2=0x7fffffe0 x31=0x00000001\n";
    assert_eq!(rt; text.as_slice(), expected.as_bytes());
    Ok(())
}
