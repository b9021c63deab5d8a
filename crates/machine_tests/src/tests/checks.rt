//! Checkpoints of small recordings, with answers that were worked by hand.

ghost use Rattle.std.specs.Prelude.{◌≡◌, ℕ, ◌<◌, ◌≤◌, ◌^◌, ◌⊎◌, IsSome, IfOk, length, true};
ghost use Rattle.std.specs.FinMap.{get, len};
ghost use Rattle.rv_machine.specs.Machine.{state_of};
ghost use Rattle.sl_model.specs.State.{IsOpening};
ghost use Rattle.sl_model.specs.Marks.{MarksGoOn};
ghost use Rattle.sl_model.specs.declared.layout.TheConstants.{PROGRAM_PAGES};
ghost use Rattle.page_frames.specs.MarkedPages.{IsKept};
ghost use Rattle.checkpoints.specs.Marked.{IsAllDirty};

use call_log::BreakKind;
use checkpoints::Checkpoints;
use page_frames::Frames;
use rec_format::read_recording;
use rv_machine::{Machine, Outcome, step};
use sl_base::{Memory, Steps};
use sl_model::{Bus, Layout, RunState};
use std::alloc::{AllocError, Global};
use std::marker::Brand;
use std::process::Abort;
use std::sync::ledger::{Blank, Ledger};
use std::test::Fail;

/// A checkpoint, with the number and the byte of each listed page, every byte of it the same.
#[derive(Clone, Copy)]
struct Row<'a> {
    count: u32,
    a0: u32,
    brk_end: u32,
    pages: &'a [(u32, u8)],
}

/// Adds numbers of four bytes.
fn words(out: &mut Vec<u8>, numbers: &[u32]) -> Result<(), AllocError> {
    for n in numbers {
        out.extend_from_slice(&n.to_le_bytes())?;
    }
    Ok(())
}

/// A length as a number of four bytes.
fn count(len: usize) -> u32 {
    u32::try_from(len).unwrap_or(u32::MAX)
}

/// Adds a checkpoint but for its pages. Its last numbers are the break, the heap end, the next call
/// and how many pages it lists.
fn add_numbers(
    out: &mut Vec<u8>,
    count: u32,
    pc: u32,
    x: &[u32; 31],
    last: &[u32; 4],
) -> Result<(), AllocError> {
    words(out, &[count, 0, pc])?;
    words(out, x)?;
    words(out, last)
}

/// Adds a checkpoint at 0x10004, with the next call 3.
fn add(out: &mut Vec<u8>, row: &Row<'_>) -> Result<(), AllocError> {
    let mut x = [0; 31];
    x[1] = 0x7fff_ffe0;
    x[9] = row.a0;
    let last = [0x12000, row.brk_end, 3, count(row.pages.len())];
    add_numbers(out, row.count, 0x10004, &x, &last)?;
    for (number, byte) in row.pages {
        words(out, &[*number])?;
        out.extend_from_slice(&[*byte; 4096])?;
    }
    Ok(())
}

/// Writes bytes from an address on, where it is mapped.
fn write(frames: &mut Frames, address: u32, bytes: &[u8])
    requires { length bytes.now < 2 ^ 32 }
    ensures pages { (page : ℕ)
        → IsSome (get frames.new.pages page) → IsSome (get frames.old.pages page) }
    ensures goes_on { MarksGoOn true
        frames.old.pages frames.old.dirty frames.new.pages frames.new.dirty }
    ensures kept { IsKept frames.new }
{
    if !frames.is_mapped(address, bytes.len() as u32) {
        let _kept = frames.dirty_len();
        return;
    }
    frames.copy_in(address, bytes);
    let _kept = frames.dirty_len();
}

/// Page 16 with some bytes at its start, and another page of zeros.
fn memory(alloc: Global, other: u32, bytes: &[u8]) -> Result<Frames, Memory>
    requires below { other < PROGRAM_PAGES }
    requires short { length bytes.now < 2 ^ 32 }
    ensures pages { IfOk result
        (λ f. (page : ℕ) → IsSome (get f.pages page) → (page ≡ 16) ⊎ (page ≡ other)) }
    ensures few { IfOk result (λ f. len f.pages ≤ 2) }
    ensures dirty { IfOk result (λ f. IsAllDirty f) }
{
    let mut frames = Frames::new(alloc)?;
    frames.map_page(16)?;
    frames.map_page(other)?;
    write(&mut frames, 0x10000, bytes);
    Ok(frames)
}

/// The opening state of a program with a memory of at most two pages, and room for a heap of two
/// pages from page 18 on.
fn opening_with(frames: Frames) -> (Machine, Frames)
    requires pages { (page : ℕ) → IsSome (get frames.pages page) → (page < 18) ⊎ (20 ≤ page) }
    requires few { len frames.pages ≤ 2 }
    ensures opens { IsOpening (state_of result.0 result.1.pages) }
    ensures same { result.1 ≡ frames }
{
    let _kept = frames.dirty_len();
    let mut x = [0; 32];
    x[2] = 0x7fff_ffe0;
    let machine = Machine {
        pc: 0x10000,
        x,
        brk: 0x12000,
        brk_end: 0x12000,
        next_call: 0,
        status: RunState::Running,
        count: 0,
        layout: Layout {
            brk_start: 0x12000,
            heap_limit: 0x14000,
        },
    };
    (machine, frames)
}

/// The opening state of a program with the bytes 1, 2, 3 at its start, and with page 20.
fn opening(alloc: Global) -> Result<(Machine, Frames), Memory>
    ensures opens { IfOk result (λ p. IsOpening (state_of p.0 p.1.pages)) }
    ensures dirty { IfOk result (λ p. IsAllDirty p.1) }
{
    let frames = memory(alloc, 20, &[1, 2, 3])?;
    Ok(opening_with(frames))
}

/// The checkpoints of a recording with these, of which the last is that of the end.
fn kept(alloc: Global, rows: &[Row<'_>], last: &Row<'_>) -> Result<Checkpoints, Fail> {
    let mut bytes = b"SLDGREC1".to_vec(alloc)?;
    words(&mut bytes, &[0, 0x10000, 4, 0x73, 0, 0, count(rows.len())])?;
    for row in rows {
        add(&mut bytes, row)?;
    }
    words(&mut bytes, &[0, 5])?;
    add(&mut bytes, last)?;
    let rec = read_recording(alloc, &bytes)?;
    let (machine, frames) = opening(alloc)?;
    Ok(Checkpoints::new(alloc, rec, machine, frames)?)
}

/// A checkpoint that changes only page 16.
fn plain(count: u32, pages: &[(u32, u8)]) -> Row<'_> {
    Row {
        count,
        a0: 5,
        brk_end: 0x12000,
        pages,
    }
}

/// The state at a checkpoint that lists page 16 with nines. All its pages are dirty.
fn replayed(alloc: Global) -> Result<(Machine, Frames), Memory>
    ensures { IfOk result (λ p. IsAllDirty p.1) }
{
    let (mut machine, mut frames) = opening(alloc)?;
    machine.pc = 0x10004;
    machine.x[10] = 5;
    machine.next_call = 3;
    for i in 0..1024 {
        frames.store(0x10000 + 4 * i, 4, 0x0909_0909);
    }
    let _kept = frames.dirty_len();
    Ok((machine, frames))
}

/// The break at checkpoint `index`, with these values.
fn broke(index: u32, part: u32, at: u32, recorded: u32, replayed: u32) -> Option<BreakKind> {
    Some(BreakKind::CheckpointDiffers {
        index,
        part,
        at,
        recorded,
        replayed,
    })
}

/// Compares a state with a checkpoint behind the opening one.
fn expect(
    rt: &impl Abort,
    checkpoints: &Checkpoints,
    k: u32,
    state: &(Machine, Frames),
    found: Option<BreakKind>,
)
    requires { IsAllDirty state.now.1 }
{
    assert!(rt; 0 < k);
    assert!(rt; k <= checkpoints.segments());
    let told = checkpoints.differs(k, &state.0, &state.1);
    assert!(rt; told == found);
}

/// The first byte of a page that a checkpoint records.
fn expect_byte(rt: &impl Abort, checkpoints: &Checkpoints, k: u32, page: u32, first: u8) {
    assert!(rt; k <= checkpoints.segments());
    assert_eq!(rt; checkpoints.page_at(k, page)[0], first, "{k} {page}");
}

#[test]
fn pages_as_they_are_listed(rt: HostRuntime) -> Result<(), Fail> {
    let rows = [
        plain(1, &[]),
        plain(2, &[(17, 2)]),
        plain(3, &[(16, 9)]),
        plain(4, &[(17, 4)]),
    ];
    let checkpoints = kept(rt.alloc(), &rows, &plain(5, &[]))?;
    assert_eq!(rt; checkpoints.segments(), 5);
    for (k, page, first) in [
        (0, 17, 0),
        (1, 17, 0),
        (2, 17, 2),
        (3, 17, 2),
        (4, 17, 4),
        (5, 17, 4),
        (0, 16, 1),
        (2, 16, 1),
        (3, 16, 9),
        (5, 16, 9),
        (5, 20, 0),
        (5, 0xffff_ffff, 0),
    ] {
        expect_byte(&rt, &checkpoints, k, page, first);
    }
    Ok(())
}

/// The first byte of a page that a checkpoint records, looked for in the lists from there back.
fn byte_listed(checkpoints: &Checkpoints, k: u32, page: u32) -> Option<u8> {
    for back in 0..k {
        let checkpoint = checkpoints.checkpoint(k - back);
        for listing in checkpoint.pages.as_slice() {
            if listing.number == page {
                return listing.bytes.as_slice().first().copied();
            }
        }
    }
    None
}

#[test]
fn pages_that_share_a_bucket(rt: HostRuntime) -> Result<(), Fail> {
    let rows = [
        plain(1, &[(16, 1), (4112, 2), (8208, 3)]),
        plain(2, &[(4112, 4)]),
        plain(3, &[(16, 5), (17, 6)]),
        plain(4, &[(15, 7), (8208, 8)]),
        plain(5, &[(4112, 9), (4113, 10)]),
        plain(6, &[]),
        plain(7, &[(16, 11), (17, 12), (8208, 13)]),
    ];
    let checkpoints = kept(rt.alloc(), &rows, &plain(8, &[(15, 14), (4112, 15)]))?;
    for k in 0..9 {
        for page in [15, 16, 17, 18, 4112, 4113, 8208, 8209] {
            let opened = if page == 16 { 1 } else { 0 };
            let first = byte_listed(&checkpoints, k, page).unwrap_or(opened);
            expect_byte(&rt, &checkpoints, k, page, first);
        }
    }
    Ok(())
}

/// Changes a part of a machine.
fn change(machine: &mut Machine, part: u32, value: u32) {
    match part {
        0 => machine.pc = value,
        1..=31 => machine.x[part as usize] = value,
        32 => machine.brk = value,
        33 => machine.brk_end = value,
        _ => machine.next_call = value,
    }
}

#[test]
fn parts_that_differ(rt: HostRuntime) -> Result<(), Fail> {
    let checkpoints = kept(rt.alloc(), &[plain(2, &[(16, 9)])], &plain(3, &[(16, 8)]))?;
    let mut state = replayed(rt.alloc())?;
    expect(&rt, &checkpoints, 1, &state, None);
    expect(&rt, &checkpoints, 2, &state, broke(2, 35, 0x10000, 8, 9));
    // From the last part to the first, so that a change is told before those that were made already.
    for (part, recorded) in [
        (34, 3),
        (33, 0x12000),
        (32, 0x12000),
        (31, 0),
        (10, 5),
        (2, 0x7fff_ffe0),
        (1, 0),
        (0, 0x10004),
    ] {
        change(&mut state.0, part, 7);
        expect(&rt, &checkpoints, 1, &state, broke(1, part, 0, recorded, 7));
    }
    Ok(())
}

/// Writes a byte, where it is mapped.
fn write_byte(frames: &mut Frames, address: u32, value: u32)
    requires { IsAllDirty frames.old }
    ensures { IsAllDirty frames.new }
{
    frames.store(address, 1, value);
    let _kept = frames.dirty_len();
}

/// Compares a state with a checkpoint, where part 0 stands for no difference.
fn expect_told(
    rt: &impl Abort,
    checkpoints: &Checkpoints,
    k: u32,
    state: &(Machine, Frames),
    told: (u32, u32, u32, u32),
)
    requires { IsAllDirty state.now.1 }
{
    let (part, at, recorded, replayed) = told;
    let found = broke(k, part, at, recorded, replayed);
    expect(
        rt,
        checkpoints,
        k,
        state,
        if part == 0 { None } else { found },
    );
}

#[test]
fn pages_that_differ(rt: HostRuntime) -> Result<(), Fail> {
    let lists = [
        plain(2, &[(16, 9)]),
        plain(3, &[(17, 4)]),
        plain(4, &[(15, 1), (21, 1)]),
    ];
    let checkpoints = kept(rt.alloc(), &lists, &plain(5, &[(14, 1)]))?;
    let mut state = replayed(rt.alloc())?;
    for (address, value, differ) in [
        // Page 17 is missing from 2 on, 15 from 3 on and 14 at the end.
        (
            0x10000,
            9,
            [
                (0, 0, 0, 0),
                (36, 0x11000, 1, 0),
                (36, 0xf000, 1, 0),
                (36, 0xe000, 1, 0),
            ],
        ),
        // A byte of page 20, behind the missing ones.
        (
            0x14fff,
            6,
            [
                (35, 0x14fff, 0, 6),
                (36, 0x11000, 1, 0),
                (36, 0xf000, 1, 0),
                (36, 0xe000, 1, 0),
            ],
        ),
        // A byte of page 16, before page 17.
        (
            0x10005,
            7,
            [
                (35, 0x10005, 9, 7),
                (35, 0x10005, 9, 7),
                (36, 0xf000, 1, 0),
                (36, 0xe000, 1, 0),
            ],
        ),
        // A lower byte of that page.
        (
            0x10004,
            8,
            [
                (35, 0x10004, 9, 8),
                (35, 0x10004, 9, 8),
                (36, 0xf000, 1, 0),
                (36, 0xe000, 1, 0),
            ],
        ),
    ] {
        write_byte(&mut state.1, address, value);
        for (i, told) in differ.iter().enumerate() {
            expect_told(&rt, &checkpoints, i as u32 + 1, &state, *told);
        }
    }
    Ok(())
}

/// The state at a checkpoint that is there, in the place of another one.
fn state_at(
    rt: &impl Abort,
    alloc: Global,
    checkpoints: &Checkpoints,
    k: u32,
) -> Result<(Machine, Frames), Fail> {
    let (mut machine, mut frames) = replayed(alloc)?;
    machine.status = RunState::Exited(1);
    assert!(rt; k <= checkpoints.segments());
    checkpoints.state_at(k, &mut machine, &mut frames)?;
    Ok((machine, frames))
}

/// The byte at an address, where it is mapped.
fn expect_load(rt: &impl Abort, frames: &Frames, address: u32, byte: Option<u32>) {
    assert!(rt; frames.load(address, 1) == byte);
}

/// The bytes at the start of some pages.
fn expect_bytes(rt: &impl Abort, frames: &Frames, bytes: &[(u32, Option<u32>)]) {
    for (page, byte) in bytes {
        assert!(rt; *page < 0x10_0000);
        expect_load(rt, frames, *page * 4096, *byte);
    }
}

/// The mapped end of a machine, and the bytes at the start of some pages.
fn expect_memory(
    rt: &impl Abort,
    state: &(Machine, Frames),
    end: u32,
    bytes: &[(u32, Option<u32>)],
) {
    assert_eq!(rt; state.0.brk_end, end);
    assert_eq!(rt; state.1.dirty_len(), 0);
    expect_bytes(rt, &state.1, bytes);
}

#[test]
fn memories_of_checkpoints(rt: HostRuntime) -> Result<(), Fail> {
    for (brk_end, end, first, second) in [
        (0x12000, 0x12000, None, None),
        (0x13000, 0x13000, Some(6), None),
        (0x13fff, 0x13000, Some(6), None),
        (0x14000, 0x14000, Some(6), Some(0)),
        (0x11fff, 0x12000, None, None),
        (0, 0x12000, None, None),
        (0x14001, 0x14000, Some(6), Some(0)),
        (0xffff_ffff, 0x14000, Some(6), Some(0)),
    ] {
        let row = Row {
            count: 9,
            a0: 7,
            brk_end,
            pages: &[(17, 1), (18, 6)],
        };
        let checkpoints = kept(
            rt.alloc(),
            &[plain(2, &[(16, 9)]), row],
            &plain(11, &[(16, 3)]),
        )?;
        let state = state_at(&rt, rt.alloc(), &checkpoints, 2)?;
        let bytes = [
            (16, Some(9)),
            (17, None),
            (18, first),
            (19, second),
            (20, Some(0)),
        ];
        expect_memory(&rt, &state, end, &bytes);
    }
    Ok(())
}

/// The machine of a checkpoint with a heap of no page, and the bytes at the start of some pages.
fn expect_state(
    rt: &impl Abort,
    alloc: Global,
    checkpoints: &Checkpoints,
    k: u32,
    machine: &Machine,
    bytes: &[(u32, Option<u32>)],
) -> Result<(), Fail> {
    let state = state_at(rt, alloc, checkpoints, k)?;
    assert!(rt; state.0 == *machine);
    expect_memory(rt, &state, 0x12000, bytes);
    Ok(())
}

#[test]
fn machines_of_checkpoints(rt: HostRuntime) -> Result<(), Fail> {
    let alloc = rt.alloc();
    let checkpoints = kept(alloc, &[plain(2, &[(16, 9)])], &plain(3, &[(20, 3)]))?;
    let (opened, _) = opening(alloc)?;
    let bytes = [(16, Some(1)), (20, Some(0)), (17, None)];
    expect_state(&rt, alloc, &checkpoints, 0, &opened, &bytes)?;
    let (mut machine, _) = replayed(alloc)?;
    machine.count = 3;
    let bytes = [(16, Some(9)), (20, Some(3)), (17, None)];
    expect_state(&rt, alloc, &checkpoints, 2, &machine, &bytes)
}

#[test]
fn changes_alone_are_compared(rt: HostRuntime) -> Result<(), Fail> {
    let rows = [plain(1, &[(16, 9)]), plain(2, &[(20, 4)])];
    let checkpoints = kept(rt.alloc(), &rows, &plain(3, &[]))?;
    let (mut machine, mut frames) = replayed(rt.alloc())?;
    assert!(rt; 1 <= checkpoints.segments());
    checkpoints.state_at(1, &mut machine, &mut frames)?;
    write(&mut frames, 0x14000, &[4; 4096]);
    assert_eq!(rt; frames.dirty_len(), 1);
    assert!(rt; frames.is_dirty(20));
    assert!(rt; 2 <= checkpoints.segments());
    assert!(rt; checkpoints.differs(2, &machine, &frames).is_none());
    write(&mut frames, 0x14000, &[1]);
    assert!(rt; checkpoints.differs(2, &machine, &frames) == broke(2, 35, 0x14000, 4, 1));
    Ok(())
}

/// A program that stores into its data, at 0x11005.
static STORING: [u8; 28] = [
    0xb7, 0x12, 0x01, 0x00, // lui t0, 0x11
    0x93, 0x82, 0x02, 0x00, // addi t0, t0, 0
    0x37, 0x03, 0x02, 0x01, // lui t1, 0x1020
    0x13, 0x03, 0x43, 0x30, // addi t1, t1, 0x304
    0xa3, 0xa2, 0x62, 0x00, // sw t1, 5(t0)
    0x93, 0x08, 0xd0, 0x05, // addi a7, zero, 93
    0x73, 0x00, 0x00, 0x00, // ecall
];

/// Its opening state, without a stack: it uses none.
fn opening_with_data(alloc: Global) -> Result<(Machine, Frames), Memory>
    ensures { IfOk result (λ p. IsOpening (state_of p.0 p.1.pages)) }
{
    let frames = memory(alloc, 17, &STORING)?;
    Ok(opening_with(frames))
}

/// Adds its checkpoint after so many instructions, with t0, t1 and a7.
fn add_storing(out: &mut Vec<u8>, count: u32, set: [u32; 3], pages: u32) -> Result<(), AllocError>
    requires { count < 8 }
{
    let mut x = [0; 31];
    x[1] = 0x7fff_ffe0;
    x[4] = set[0];
    x[5] = set[1];
    x[16] = set[2];
    let last = [0x12000, 0x12000, 0, pages];
    add_numbers(out, count, 0x10000 + 4 * count, &x, &last)
}

/// Its recording with a checkpoint after each instruction. The fifth lists the page of the store.
fn storing(alloc: Global) -> Result<Checkpoints, Fail> {
    let mut bytes = b"SLDGREC1".to_vec(alloc)?;
    words(&mut bytes, &[0, 0x10000, 0x1010])?;
    bytes.extend_from_slice(&STORING)?;
    bytes.extend_from_slice(&[0; 0x1010 - 28])?;
    words(&mut bytes, &[0, 0, 6])?;
    add_storing(&mut bytes, 1, [0x11000, 0, 0], 0)?;
    add_storing(&mut bytes, 2, [0x11000, 0, 0], 0)?;
    add_storing(&mut bytes, 3, [0x11000, 0x102_0000, 0], 0)?;
    add_storing(&mut bytes, 4, [0x11000, 0x102_0304, 0], 0)?;
    add_storing(&mut bytes, 5, [0x11000, 0x102_0304, 0], 1)?;
    words(&mut bytes, &[17, 0, 0x0203_0400, 1])?;
    bytes.extend_from_slice(&[0; 4084])?;
    add_storing(&mut bytes, 6, [0x11000, 0x102_0304, 93], 0)?;
    words(&mut bytes, &[0, 0])?;
    add_storing(&mut bytes, 7, [0x11000, 0x102_0304, 93], 0)?;
    let rec = read_recording(alloc, &bytes)?;
    let (machine, frames) = opening_with_data(alloc)?;
    Ok(Checkpoints::new(alloc, rec, machine, frames)?)
}

/// Does an instruction, on a count of its own.
fn step_once<L: Ledger>(m: &mut Machine, f: &mut Frames, blank: Blank) -> Outcome
    requires running { m.old.status ≡ RunState.Running }
    requires count { m.old.count < 2 ^ 62 }
    requires name { blank.name ≡ L.name }
    requires parts { blank.parts ≡ L.parts }
    requires some_parts { 0 < blank.parts }
    ensures goes_on { MarksGoOn true f.old.pages f.old.dirty f.new.pages f.new.dirty }
    ensures kept { IsKept f.new }
{
    let outcome = step(m, f, &mut Steps::<L>::new(blank));
    let _kept = f.dirty_len();
    outcome
}

#[test]
fn the_page_of_a_store_is_compared(rt: HostRuntime) -> Result<(), Fail> {
    let checkpoints = storing(rt.alloc())?;
    let (mut machine, mut frames) = opening_with_data(rt.alloc())?;
    assert_eq!(rt; checkpoints.segments(), 7);
    checkpoints.state_at(4, &mut machine, &mut frames)?;
    assert!(rt; machine.status == RunState::Running);
    assert_eq!(rt; machine.count, 4);
    let outcome = step_once::<Brand>(&mut machine, &mut frames, Blank::new(1));
    assert!(rt; outcome == Outcome::Stepped);
    assert_eq!(rt; frames.dirty_len(), 1);
    assert!(rt; frames.is_dirty(17));
    assert!(rt; checkpoints.differs(5, &machine, &frames).is_none());
    frames.store(0x11000, 1, 1);
    let dirty = frames.dirty_len();
    assert_eq!(rt; dirty, 1);
    assert!(rt; checkpoints.differs(5, &machine, &frames) == broke(5, 35, 0x11000, 0, 1));
    Ok(())
}
