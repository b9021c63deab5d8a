//! Pages in memory.

use crate::comparing::run_page;
use outside::MemoryStore;
use std::test::Fail;

/// A program that exits with 5, given in three ways, and a command that prints what is shown.
const RIGHT: &str = "\
Text between.

    file words.txt: 1305
    bytes a.bin: 13055000 9308d005
    73 00
    *3
    bytes b.bin: a.bin[..4] a.bin[4..]
    $ sledge show b.bin 0x10000 3 --flat 10000
    0x00010000 00500513 addi a0, zero, 5
    0x00010004 05d00893 addi a7, zero, 93
    0x00010008 00000073 ecall

    an indented line
    file none.s: nop ,
    $ sledge asm 'none.s' 'a b'
    2> sledge: assembler refused at line 1: Operand
    [13]
";

/// Its second command prints another address and ends with another status.
const WRONG: &str = "\
A source in two lines.
    file a.s:
    nop
    ecall

    $ sledge asm a.s a.elf
    assembled 232 bytes
    $ sledge show a.elf 10000
    0x00010000 00000013 addi zero, zero, 0
";

const DIFFERENCE: &str = "\
WRONG.md, line 8: the page shows
    0x00010000 00000013 addi zero, zero, 0
and the command prints
    2> sledge: usage
    [1]
";

#[test]
fn pages_in_memory(rt: HostRuntime) -> Result<(), Fail> {
    let alloc = rt.alloc();
    let mut folder = MemoryStore::new(Vec::new(alloc), Vec::new(alloc));
    let Ok(right) = run_page(&rt, alloc, &mut folder, "RIGHT.md", RIGHT) else {
        return Err("no page".into());
    };
    assert_eq!(rt; right.report.as_str(), "");
    assert_eq!(rt; (right.commands, right.differing), (2, 0));
    let Ok(wrong) = run_page(&rt, alloc, &mut folder, "WRONG.md", WRONG) else {
        return Err("no page".into());
    };
    assert_eq!(rt; wrong.report.as_str(), DIFFERENCE);
    assert_eq!(rt; (wrong.commands, wrong.differing), (2, 1));
    Ok(())
}
