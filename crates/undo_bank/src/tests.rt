ghost use Rattle.std.specs.Prelude.{◌≡◌, ◌<◌, ◌≤◌};
ghost use Rattle.sl_model.specs.Pages.{IsWidth};
ghost use Rattle.sl_model.specs.Undo.{log_count};
ghost use Rattle.undo_bank.specs.Areas.{bank_pages};

use crate::{Bank, BankBus};
use page_frames::Frames;
use sl_base::Memory;
use sl_model::{Bus, MOST_ENTRIES};
use std::alloc::Global;
use std::process::Abort;
use std::test::Fail;

mod running;

/// Sets a word of a program's memory, and leaves no page dirty.
fn set_word(frames: &mut Frames, addr: u32, word: u32) {
    let _ = frames.store(addr, 4, word);
    frames.clear_dirty();
}

/// Page 16 alone, with a word at its start.
fn one_page(alloc: Global) -> Result<Frames, Memory> {
    let mut frames = Frames::new(alloc)?;
    frames.map_page(16)?;
    set_word(&mut frames, 0x10000, 0x0403_0201);
    Ok(frames)
}

/// Stores ones at each address of a table, over a bank and a program's memory, and loads what
/// stands there then, where the table says that all bytes are mapped.
fn store_and_load(rt: &impl Abort, memory: &mut BankBus, width: u8, table: &[(u32, bool)])
    requires { IsWidth width }
{
    let ones = match width {
        1 => 0xff,
        2 => 0xffff,
        _ => 0xffff_ffff,
    };
    for (addr, is_mapped) in table {
        assert_eq!(rt; memory.store(*addr, width, 0xffff_ffff), *is_mapped);
        let loaded = if *is_mapped { Some(ones) } else { None };
        assert_eq!(rt; memory.load(*addr, width), loaded);
    }
}

/// The first and the last bytes of each area and of the page, and bytes beyond them.
const BYTES: [(u32, bool); 14] = [
    (0x0001_0fff, true),
    (0x0001_1000, false),
    (0xbfff_f000, false),
    (0xc000_0000, true),
    (0xc000_0fff, true),
    (0xc000_1000, false),
    (0xd000_0000, true),
    (0xd003_ffff, true),
    (0xd004_0000, false),
    (0xe000_cfff, true),
    (0xe000_d000, false),
    (0xf000_0fff, true),
    (0xf000_1000, false),
    (0xffff_ffff, false),
];

/// The same with two bytes, some of them across an end.
const HALVES: [(u32, bool); 6] = [
    (0xbfff_ffff, false),
    (0xc000_0ffe, true),
    (0xc000_0fff, false),
    (0xdfff_ffff, false),
    (0xe000_0001, true),
    (0xffff_ffff, false),
];

/// And with four.
const QUADS: [(u32, bool); 8] = [
    (0x0001_0ffd, false),
    (0xbfff_fffe, false),
    (0xcfff_fffe, false),
    (0xd003_fffc, true),
    (0xd003_fffd, false),
    (0xe000_cffd, false),
    (0xf000_0ffc, true),
    (0xffff_fffd, false),
];

#[test]
fn areas_begin_and_end(rt: HostRuntime) -> Result<(), Fail> {
    let mut bank = Bank::new(rt.alloc(), &[0x73])?;
    let mut frames = one_page(rt.alloc())?;
    assert_eq!(rt; bank.load(0xc000_0000, 4), Some(0x73));
    let memory = &mut BankBus {
        bank: &mut bank,
        frames: &mut frames,
    };
    store_and_load(&rt, memory, 1, &BYTES);
    store_and_load(&rt, memory, 2, &HALVES);
    store_and_load(&rt, memory, 4, &QUADS);
    assert_eq!(rt; frames.dirty_len(), 1);
    assert_eq!(rt; bank.load(0x0001_0fff, 1), None);
    Ok(())
}

/// Adds an entry to a log that has at most 4,096.
fn push(rt: &impl Abort, bank: &mut Bank, addr: u32, width: u8, old: u32) -> bool
    requires { IsWidth width }
{
    assert!(rt; bank.log_len() <= MOST_ENTRIES);
    bank.push_undo(addr, width, old)
}

/// Puts the entries of a log that has at most 4,096 back.
fn undo(rt: &impl Abort, bank: &mut Bank, frames: &mut Frames) {
    assert!(rt; bank.log_len() <= MOST_ENTRIES);
    bank.undo_into(frames);
}

#[test]
fn puts_back_newest_first(rt: HostRuntime) -> Result<(), Fail> {
    let mut bank = Bank::new(rt.alloc(), &[0x73])?;
    let mut frames = one_page(rt.alloc())?;
    assert!(rt; push(&rt, &mut bank, 0x10000, 4, 0x1111_1111));
    assert!(rt; push(&rt, &mut bank, 0x10003, 2, 0x2222));
    assert!(rt; push(&rt, &mut bank, 0x10000, 1, 0x33));
    assert_eq!(rt; bank.log_len(), 3);
    assert_eq!(rt; bank.load(0xe000_0010, 4), Some(0x10003));

    undo(&rt, &mut bank, &mut frames);
    assert_eq!(rt; frames.load(0x10000, 4), Some(0x1111_1111));
    assert_eq!(rt; frames.load(0x10004, 1), Some(0x22));
    assert_eq!(rt; frames.next_dirty(None), Some(16));
    assert_eq!(rt; (bank.log_len(), bank.last_log_len()), (0, 3));

    undo(&rt, &mut bank, &mut frames);
    assert_eq!(rt; (bank.log_len(), bank.last_log_len()), (0, 0));
    Ok(())
}

/// Sets a word of the bank.
fn set_bank_word(bank: &mut Bank, addr: u32, word: u32) {
    let _ = bank.store(addr, 4, word);
}

/// Writes seven entries of any width into the log.
fn write_log(rt: &impl Abort, bank: &mut Bank, entries: &[(u32, u32); 7]) {
    set_bank_word(bank, 0xe000_0000, 7);
    let mut place = 0xe000_0004;
    for (addr, width) in entries {
        assert!(rt; place < 0xe000_c000);
        set_bank_word(bank, place, *addr);
        set_bank_word(bank, place + 4, *width);
        set_bank_word(bank, place + 8, 0xffff_ffff);
        place += 12;
    }
}

/// Entries by address and width: of a width that is none, with bytes that are not mapped, and of
/// bytes of the bank.
const NO_ENTRIES: [(u32, u32); 7] = [
    (0x10000, 3),
    (0x10000, 0),
    (0x10000, 0x0100_0001),
    (0x10ffe, 4),
    (0x20000, 1),
    (0xc000_0000, 4),
    (0xffff_fffe, 4),
];

#[test]
fn leaves_what_is_no_entry_of_the_program(rt: HostRuntime) -> Result<(), Fail> {
    let mut bank = Bank::new(rt.alloc(), &[0x73])?;
    let mut frames = one_page(rt.alloc())?;
    write_log(&rt, &mut bank, &NO_ENTRIES);
    assert_eq!(rt; bank.log_len(), 7);
    undo(&rt, &mut bank, &mut frames);
    assert_eq!(rt;
        (bank.log_len(), bank.last_log_len(), frames.dirty_len()),
        (0, 7, 0)
    );
    assert_eq!(rt; frames.load(0x10000, 4), Some(0x0403_0201));
    assert_eq!(rt; bank.load(0xc000_0000, 4), Some(0x73));
    Ok(())
}

#[test]
fn the_log_has_4096_entries(rt: HostRuntime) -> Result<(), Fail> {
    let mut bank = Bank::new(rt.alloc(), &[])?;
    let mut frames = one_page(rt.alloc())?;
    for old in 0..4096 {
        assert!(rt; push(&rt, &mut bank, 0x10008, 4, old));
    }
    assert!(rt; !push(&rt, &mut bank, 0x10000, 4, 7));
    assert_eq!(rt; bank.log_len(), 4096);
    assert_eq!(rt; bank.load(0xe000_bff8, 4), Some(0x10008));
    undo(&rt, &mut bank, &mut frames);
    assert_eq!(rt; frames.load(0x10008, 4), Some(0));
    assert_eq!(rt; frames.load(0x10000, 4), Some(0x0403_0201));
    assert_eq!(rt; bank.last_log_len(), 4096);
    Ok(())
}

/// The words at some addresses of a bank, each with what it has to be.
fn has_words(rt: &impl Abort, bank: &Bank, words: &[(u32, u32)]) {
    for (addr, word) in words {
        assert_eq!(rt; bank.load(*addr, 4), Some(*word));
    }
}

#[test]
fn starts_anew(rt: HostRuntime) -> Result<(), Fail> {
    let mut bank = Bank::new(rt.alloc(), &[1, 2])?;
    assert!(rt; push(&rt, &mut bank, 0x10000, 4, 7));
    assert!(rt; bank.store(0xd003_fffc, 4, 7));
    assert!(rt; bank.store(0xf000_0000, 4, 2));
    assert!(rt; bank.store(0xf000_0400, 4, 9));
    assert_eq!(rt; bank.out_len(), 2);
    assert_eq!(rt; (bank.out_word(255), bank.out_word(256)), (Some(9), None));

    let mut copies = [3; 37];
    copies[36] = 0x8765_4321;
    bank.start(&copies);
    assert_eq!(rt;
        (bank.log_len(), bank.out_len(), bank.out_word(255)),
        (0, 0, Some(0))
    );
    let words = [
        (0xc000_0004, 2),
        (0xd000_0000, 3),
        (0xd000_0090, 0x8765_4321),
        (0xd000_0094, 0),
        (0xd003_fffc, 0),
        (0xe000_0004, 0),
        (0xf000_0400, 0),
    ];
    has_words(&rt, &bank, &words);
    Ok(())
}
