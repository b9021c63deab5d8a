//! Programs of a few instructions, replayed to their recorded end.

ghost use Rattle.std.specs.Prelude.{◌≡◌, ◌<◌, IfOk};
ghost use Rattle.std.specs.List.{AllByRecursion};
ghost use Rattle.sl_model.specs.State.{Fits};
ghost use Rattle.elf_image.specs.Loadable.{IsLoadable};
ghost use Rattle.rec_format.specs.Rules.{AreArguments};
ghost use Rattle.rv_machine.specs.Machine.{state_of};
ghost use Rattle.replay.specs.Advance.{IsShort};

use call_log::{BreakKind, CallEntry, End};
use elf_image::{Image, flat_image, read_image};
use page_frames::Frames;
use rec_format::{CheckpointData, Recording};
use replay::{advance_one, end_break, load};
use rv_machine::Machine;
use sl_base::{Call, Memory, Refused, Seq, Steps};
use sl_model::Bus;
use std::alloc::Global;
use std::marker::Brand;
use std::process::Abort;
use std::sync::ledger::{Blank, Ledger};
use std::test::Fail;

/// Where the programs start. Their heap starts a page behind it.
const PLACE: u32 = 0x10000;

/// A recorded call: its number, its arguments, its result and its data.
type Row<'a> = (u32, [u32; 6], u32, &'a [u8]);

/// The machine and the memory of a program.
fn opened(alloc: Global, program: &[u32]) -> Result<(Machine, Frames), Fail>
    ensures { IfOk result (λ p. Fits (state_of p.0 p.1.pages)) }
{
    let mut bytes = Vec::new(alloc);
    for word in program {
        bytes.extend_from_slice(&word.to_le_bytes())?;
    }
    match flat_image(alloc, PLACE, &bytes) {
        Ok(image) => Ok(load(alloc, &image, &[])?),
        Err(_) => Err("no image".into()),
    }
}

/// The recorded calls of some rows.
#[tactic(auto, using(replay::proofs::Calls::short_push))]
fn calls_of(alloc: Global, rows: &[Row<'_>]) -> Result<Seq<CallEntry>, Fail>
    ensures { IfOk result (AllByRecursion IsShort) }
{
    let mut calls = Seq::new(alloc);
    for (number, args, result, data) in rows {
        if data.len() > 65_536 {
            return Err("too many bytes".into());
        }
        let mut bytes = Vec::new(alloc);
        bytes.extend_from_slice(data)?;
        calls.push(CallEntry {
            call: Call {
                number: *number,
                args: *args,
            },
            result: *result,
            bytes: Seq::from_vec(bytes),
        })?;
    }
    Ok(calls)
}

/// A recording with these calls that ended so after these instructions.
fn recording_of(alloc: Global, calls: Seq<CallEntry>, end: End, count: u64) -> Recording
    ensures { result.calls ≡ calls }
{
    Recording {
        kind: 0,
        load_addr: PLACE,
        image: Seq::new(alloc),
        args: Seq::new(alloc),
        calls,
        checkpoints: Seq::new(alloc),
        end,
        last: CheckpointData {
            count,
            pc: 0,
            x: [0; 31],
            brk: 0x11000,
            brk_end: 0x11000,
            next_call: 0,
            pages: Seq::new(alloc),
        },
    }
}

/// The divergence of a replay up to its end and at the end, on a count of its own.
fn break_in<L: Ledger>(
    alloc: Global,
    rec: &Recording,
    m: &mut Machine,
    frames: &mut Frames,
    blank: Blank,
) -> Result<Option<BreakKind>, Memory>
    requires calls { AllByRecursion IsShort rec.now.calls }
    requires fits { Fits (state_of m.old frames.old.pages) }
    requires name { blank.name ≡ L.name }
    requires parts { blank.parts ≡ L.parts }
    requires some_parts { 0 < blank.parts }
{
    let mut steps = Steps::<L>::new(blank);
    for _ in 0..rec.last.count {
        if m.count > 100 || rec.calls.len() > 100 {
            return Ok(None);
        }
        match advance_one(alloc, rec, m, frames, &mut steps) {
            Ok(()) => {}
            Err(Refused::Fault(kind)) => return Ok(Some(kind)),
            Err(Refused::Memory) => return Err(Memory),
        }
    }
    Ok(end_break(rec, m, frames))
}

fn break_of(
    alloc: Global,
    rec: &Recording,
    m: &mut Machine,
    frames: &mut Frames,
) -> Result<Option<BreakKind>, Memory>
    requires calls { AllByRecursion IsShort rec.now.calls }
    requires fits { Fits (state_of m.old frames.old.pages) }
{
    break_in::<Brand>(alloc, rec, m, frames, Blank::new(1))
}

/// Replays a program beside its recorded calls and end, and gives its divergence with the count
/// there.
fn replayed(
    alloc: Global,
    program: &[u32],
    rows: &[Row<'_>],
    end: End,
    count: u64,
) -> Result<(Option<BreakKind>, u64), Fail> {
    let rec = recording_of(alloc, calls_of(alloc, rows)?, end, count);
    let (mut m, mut frames) = opened(alloc, program)?;
    let kind = break_of(alloc, &rec, &mut m, &mut frames)?;
    Ok((kind, m.count))
}

/// Loads 5 into a0 and exits.
const EXITS: [u32; 3] = [0x0050_0513, 0x05d0_0893, 0x73];

/// Loads 5 into a0 and exits all threads.
const EXITS_ALL: [u32; 3] = [0x0050_0513, 0x05e0_0893, 0x73];

/// Loads 5 into a0, and traps at an EBREAK.
const TRAPS: [u32; 2] = [0x0050_0513, 0x0010_0073];

/// Makes call 1.
const CALLS: [u32; 2] = [0x0010_0893, 0x73];

/// The end of a replay that came to another one.
const fn differs(recorded: End, replayed: End) -> Option<BreakKind> {
    Some(BreakKind::EndDiffers { recorded, replayed })
}

#[test]
fn replays(rt: HostRuntime) -> Result<(), Fail> {
    let rows: [(&[u32], End, u64, Option<BreakKind>, u64); 11] = [
        (&EXITS, End::Exited(5), 3, None, 3),
        (&EXITS_ALL, End::Exited(5), 3, None, 3),
        (
            &EXITS,
            End::Exited(6),
            3,
            differs(End::Exited(6), End::Exited(5)),
            3,
        ),
        (
            &EXITS,
            End::Stopped,
            4,
            Some(BreakKind::EarlyEnd { end: 4 }),
            3,
        ),
        (&EXITS, End::Stopped, 2, None, 2),
        (&TRAPS, End::Trapped(3), 1, None, 1),
        (
            &TRAPS,
            End::Trapped(2),
            1,
            differs(End::Trapped(2), End::Trapped(3)),
            1,
        ),
        (
            &TRAPS,
            End::Trapped(3),
            2,
            Some(BreakKind::EarlyEnd { end: 2 }),
            1,
        ),
        (
            &TRAPS,
            End::Trapped(3),
            0,
            differs(End::Trapped(3), End::Stopped),
            0,
        ),
        (&CALLS, End::Stopped, 1, None, 1),
        (
            &CALLS,
            End::Stopped,
            2,
            Some(BreakKind::NoCall { index: 0 }),
            1,
        ),
    ];
    for (program, end, count, kind, done) in rows {
        assert_eq!(rt;
            replayed(rt.alloc(), program, &[], end, count)?,
            (kind, done),
            "{program:?} {end:?}"
        );
    }
    Ok(())
}

/// Makes call a7 with 3 bytes at 0x10100, loads the first of them into a0 and exits.
const fn three_bytes(number: u32) -> [u32; 9] {
    [
        number << 20 | 0x893,
        0x0001_05b7,
        0x1005_8593,
        0x0030_0613,
        0x73,
        0x0005_c503,
        0x05d0_0893,
        0x73,
        0,
    ]
}

/// The arguments of those calls.
const ARGS: [u32; 6] = [0, 0x10100, 3, 0, 0, 0];

/// A recorded call that differs, in this field with these values.
const fn call_differs(field: u32, recorded: u32, due: u32) -> Option<BreakKind> {
    Some(BreakKind::CallDiffers {
        index: 0,
        field,
        recorded,
        due,
    })
}

/// The same arguments with another one.
fn args_with(i: usize, value: u32) -> [u32; 6]
    requires { i < 6 }
{
    let mut args = ARGS;
    args[i] = value;
    args
}

#[test]
fn calls_are_compared(rt: HostRuntime) -> Result<(), Fail> {
    let rows: [(u32, Row<'_>, Option<BreakKind>); 16] = [
        (63, (63, ARGS, 3, b"abc"), None),
        (63, (63, ARGS, 0, b""), None),
        (63, (63, ARGS, 0xffff_fff5, b""), None),
        (63, (64, ARGS, 3, b"abc"), call_differs(0, 64, 63)),
        (63, (63, args_with(0, 1), 3, b"abc"), call_differs(1, 1, 0)),
        (
            63,
            (63, args_with(1, 1), 3, b"abc"),
            call_differs(2, 1, 0x10100),
        ),
        (63, (63, args_with(2, 1), 3, b"abc"), call_differs(3, 1, 3)),
        (63, (63, args_with(3, 1), 3, b"abc"), call_differs(4, 1, 0)),
        (63, (63, args_with(4, 1), 3, b"abc"), call_differs(5, 1, 0)),
        (63, (63, args_with(5, 1), 3, b"abc"), call_differs(6, 1, 0)),
        (63, (63, ARGS, 4, b"abcd"), call_differs(7, 4, 3)),
        (
            63,
            (63, ARGS, 0xffff_f000, b"abc"),
            call_differs(7, 0xffff_f000, 3),
        ),
        (63, (63, ARGS, 3, b"ab"), call_differs(8, 2, 3)),
        (63, (63, ARGS, 2, b"abc"), call_differs(8, 3, 2)),
        (64, (64, ARGS, 3, b"\0\0\0"), None),
        (64, (64, ARGS, 3, b"\0a\0"), call_differs(9, 97, 0)),
    ];
    for (number, row, kind) in rows {
        let program = three_bytes(number);
        let count = if kind.is_some() { 4 } else { 5 };
        assert_eq!(rt;
            replayed(rt.alloc(), &program, &[row], End::Stopped, 5)?,
            (kind, count),
            "{row:?}"
        );
    }
    Ok(())
}

/// Sets a0, and makes a call with it whose other arguments are 0, and exits with the byte at
/// address a1.
const fn one_argument(number: u32, upper: u32) -> [u32; 3] {
    [number << 20 | 0x893, upper << 12 | 0x537, 0x73]
}

#[test]
fn the_machine_decides(rt: HostRuntime) -> Result<(), Fail> {
    // The number, the upper bits of a0, the result that is due.
    let rows: [(u32, u32, u32); 7] = [
        // No such call.
        (1, 0x10, 0xffff_ffda),
        (65, 0x10, 0xffff_ffda),
        // The break: at the start of the heap, above it, below it and above its limit.
        (214, 0x11, 0x11000),
        (214, 0x12, 0x12000),
        (214, 0x10, 0x11000),
        (214, 0xc0000, 0x11000),
        // No bytes are asked for, from no mapped address.
        (64, 0xc0000, 0),
    ];
    for (number, upper, due) in rows {
        let args = [upper << 12, 0, 0, 0, 0, 0];
        let program = one_argument(number, upper);
        assert_eq!(rt;
            replayed(
                rt.alloc(),
                &program,
                &[(number, args, due, b"")],
                End::Stopped,
                3
            )?,
            (None, 3),
            "{number} {upper}"
        );
        assert_eq!(rt;
            replayed(
                rt.alloc(),
                &program,
                &[(number, args, due ^ 1, b"")],
                End::Stopped,
                3
            )?,
            (call_differs(7, due ^ 1, due), 2),
            "{number} {upper}"
        );
    }
    Ok(())
}

/// Makes call a7 with a buffer at a1 and a length of a2, by their upper bits, of which this is the
/// lower part.
const fn buffer_of(upper: u32, length: u32) -> [u32; 4] {
    [0x03f0_0893, upper << 12 | 0x5b7, length << 12 | 0x637, 0x73]
}

#[test]
fn buffers_are_mapped(rt: HostRuntime) -> Result<(), Fail> {
    // The buffer and the length, by their upper bits, and whether the buffer is mapped.
    let rows: [(u32, u32, bool); 6] = [
        (0x10, 1, true),
        (0x10, 2, false),
        (0x0f, 1, false),
        (0x11, 1, false),
        (0xfffff, 0xfffff, false),
        // Of the length only 65,536 bytes count, and the stack has them.
        (0x7ff00, 0xfffff, true),
    ];
    for (upper, length, mapped) in rows {
        let args = [0, upper << 12, length << 12, 0, 0, 0];
        let (due, other) = if mapped {
            (0, 0xffff_fff2)
        } else {
            (0xffff_fff2, 0)
        };
        let program = buffer_of(upper, length);
        assert_eq!(rt;
            replayed(
                rt.alloc(),
                &program,
                &[(63, args, due, b"")],
                End::Stopped,
                4
            )?,
            (None, 4),
            "{upper} {length}"
        );
        let kind = if mapped {
            None
        } else {
            call_differs(7, other, due)
        };
        let count = if mapped { 4 } else { 3 };
        assert_eq!(rt;
            replayed(
                rt.alloc(),
                &program,
                &[(63, args, other, b"")],
                End::Stopped,
                4
            )?,
            (kind, count),
            "{upper} {length}"
        );
    }
    Ok(())
}

/// Moves the break by a page, stores 7 there, moves it down and up again, loads the byte, and exits
/// with it.
const BREAKS: [u32; 14] = [
    0x0d60_0893, // li a7, 214
    0x0001_2537, // lui a0, 0x12
    0x73,
    0x0001_15b7, // lui a1, 0x11
    0x0005_c603, // lbu a2, 0(a1)
    0x0070_0613, // li a2, 7
    0x00c5_8023, // sb a2, 0(a1)
    0x0001_1537, // lui a0, 0x11
    0x73,
    0x0001_2537, // lui a0, 0x12
    0x73,
    0x0005_c503, // lbu a0, 0(a1)
    0x05d0_0893, // li a7, 93
    0x73,
];

#[test]
fn what_calls_leave(rt: HostRuntime) -> Result<(), Fail> {
    let read: Row<'_> = (63, ARGS, 3, b"abc");
    let up: Row<'_> = (214, [0x12000, 0, 0, 0, 0, 0], 0x12000, b"");
    let down: Row<'_> = (214, [0x11000, 0x11000, 7, 0, 0, 0], 0x11000, b"");
    let up_again: Row<'_> = (214, [0x12000, 0x11000, 7, 0, 0, 0], 0x12000, b"");
    let program = three_bytes(63);
    let alloc = rt.alloc();
    assert_eq!(rt;
        replayed(alloc, &program, &[read], End::Exited(97), 8)?,
        (None, 8),
        "as recorded"
    );
    assert_eq!(rt;
        replayed(alloc, &program, &[read, read], End::Exited(97), 8)?,
        (Some(BreakKind::CallsLeft { index: 1 }), 8),
        "a call too many"
    );
    assert_eq!(rt;
        replayed(alloc, &program, &[read, read], End::Exited(98), 8)?,
        (differs(End::Exited(98), End::Exited(97)), 8),
        "the end before the calls"
    );
    assert_eq!(rt;
        replayed(alloc, &BREAKS, &[up, down, up_again], End::Exited(7), 14)?,
        (None, 14),
        "the heap stays mapped"
    );
    assert_eq!(rt;
        replayed(alloc, &BREAKS, &[up, down], End::Exited(7), 14)?,
        (Some(BreakKind::NoCall { index: 2 }), 10),
        "a call is missing"
    );
    let kind = Some(BreakKind::CallDiffers {
        index: 1,
        field: 1,
        recorded: 0x12000,
        due: 0x11000,
    });
    assert_eq!(rt;
        replayed(alloc, &BREAKS, &[up, up], End::Exited(7), 14)?,
        (kind, 8),
        "the second call differs"
    );
    Ok(())
}

/// The word at an address, and what a program finds there.
fn holds(rt: &impl Abort, frames: &Frames, rows: &[(u32, Option<u32>)]) {
    for (addr, word) in rows {
        assert_eq!(rt; frames.load(*addr, 4), *word, "{addr}");
    }
}

#[test]
fn loads_a_program(rt: HostRuntime) -> Result<(), Fail> {
    let alloc = rt.alloc();
    let image = flat_image(alloc, 0x10ffe, &[0x13, 0x05, 0x50, 0x00])?;
    let (m, frames) = load(alloc, &image, &[])?;
    assert_eq!(rt;
        (m.pc, m.x[2], m.count, m.next_call),
        (0x10ffe, 0x7fff_ffe0, 0, 0)
    );
    assert_eq!(rt;
        (m.brk, m.brk_end, m.layout.brk_start),
        (0x12000, 0x12000, 0x12000)
    );
    assert_eq!(rt; m.layout.heap_limit, 0x0101_2000);
    assert_eq!(rt; frames.dirty_len(), 0);
    let rows = [
        (0x10ffe, Some(0x0050_0513)),
        (0x11ffc, Some(0)),
        (0x12000, None),
        (0x0fffc, None),
        (0x7fef_fffc, None),
        (0x7ff0_0000, Some(0)),
        (0x7fff_ffe0, Some(0)),
        (0x7fff_fffc, Some(0)),
        (0x8000_0000, None),
    ];
    holds(&rt, &frames, &rows);
    Ok(())
}

/// An ELF32 file, in words: four bytes at 0x10000 with zeros behind them up to 0x11ffc, and eight
/// bytes from there on.
const TWO_SEGMENTS: [u32; 32] = [
    0x464c457f, 0x00010101, 0x00000000, 0x00000000, 0x00f30002, 0x00000001, 0x00010000, 0x00000034,
    0x00000000, 0x00000000, 0x00200034, 0x00000002, 0x00000000, 0x00000001, 0x00000074, 0x00010000,
    0x00010000, 0x00000004, 0x00001ffc, 0x00000005, 0x00000004, 0x00000001, 0x00000078, 0x00011ffc,
    0x00011ffc, 0x00000008, 0x00000008, 0x00000006, 0x00000004, 0x00500513, 0x04030201, 0x08070605,
];

/// The bytes of some words, the lowest of each first.
fn bytes_of(alloc: Global, words: &[u32]) -> Result<Vec<u8>, Memory> {
    let mut bytes = Vec::new(alloc);
    for word in words {
        bytes.extend_from_slice(&word.to_le_bytes())?;
    }
    Ok(bytes)
}

/// The image of a file, where that is as short as the files of these tests are.
fn image_of(alloc: Global, file: &[u8]) -> Result<Image, Fail>
    ensures { IfOk result IsLoadable }
{
    if file.len() > 1000 {
        return Err("a long file".into());
    }
    Ok(read_image(alloc, file)?)
}

/// The arguments `hi` and the empty one.
fn two_arguments(alloc: Global) -> Result<Vec<Seq<u8>>, Memory>
    ensures { IfOk result (λ args. AreArguments args.items) }
{
    let mut hi = Seq::new(alloc);
    hi.push(b'h')?;
    hi.push(b'i')?;
    let mut args = Vec::new(alloc);
    args.push(hi)?;
    args.push(Seq::new(alloc))?;
    Ok(args)
}

#[test]
fn loads_segments_and_arguments(rt: HostRuntime) -> Result<(), Fail> {
    let alloc = rt.alloc();
    let file = bytes_of(alloc, &TWO_SEGMENTS)?;
    let image = image_of(alloc, file.as_slice())?;
    let args = two_arguments(alloc)?;
    let (m, frames) = load(alloc, &image, args.as_slice())?;
    assert_eq!(rt; (m.pc, m.x[2], m.x[10]), (0x10000, 0x7fff_ffd0, 0));
    assert_eq!(rt; (m.brk, m.layout.heap_limit), (0x13000, 0x0101_3000));
    let rows = [
        (0x10000, Some(0x0050_0513)),
        (0x10004, Some(0)),
        (0x11ff8, Some(0)),
        (0x11ffc, Some(0x0403_0201)),
        (0x12000, Some(0x0807_0605)),
        (0x12004, Some(0)),
        (0x13000, None),
        (0x7fff_ffcc, Some(0)),
        (0x7fff_ffd0, Some(2)),
        (0x7fff_ffd4, Some(0x7fff_fff0)),
        (0x7fff_ffd8, Some(0x7fff_fff3)),
        (0x7fff_ffdc, Some(0)),
        (0x7fff_ffe8, Some(0)),
        (0x7fff_fff0, Some(0x6968)),
        (0x7fff_fff4, Some(0)),
    ];
    holds(&rt, &frames, &rows);
    Ok(())
}
