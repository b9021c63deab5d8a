//! Sources that are too long for a command or for a page. All other refused sources stand on the
//! page `SOURCES.md` of the crate `transcripts`.

use rv_asm::{AsmCause, AsmFault, assemble};
use sl_base::Refused;
use std::alloc::Global;
use std::process::Abort;
use std::test::Fail;

/// A source is refused with this line as too large.
fn check_too_large(rt: &impl Abort, alloc: Global, source: &[u8], line: u32) -> Result<(), Fail> {
    let Err(Refused::Fault(fault)) = assemble(alloc, source) else {
        return Err("no fault".into());
    };
    let want = AsmFault {
        line,
        cause: AsmCause::TooLarge,
    };
    assert_eq!(rt; fault, want);
    Ok(())
}

#[test]
fn too_long(rt: HostRuntime) -> Result<(), Fail> {
    let alloc = rt.alloc();
    let source = vec![in alloc; b'#'; 0x10_0001]?;
    check_too_large(&rt, alloc, &source, 0)?;
    let data = b"nop\n.data\n.space 16777216\n.byte 1";
    check_too_large(&rt, alloc, data, 4)
}
