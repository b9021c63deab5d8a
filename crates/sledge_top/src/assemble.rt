//! The command that assembles a source.

ghost use Rattle.std.specs.Prelude.{◌≡◌, ◌≤◌, IfOk, IfErr, IfSome, IsErrOf};
ghost use Rattle.outside.specs.Faults.{Rose};
ghost use Rattle.sl_base.specs.Refusals.{Gives};
ghost use Rattle.elf_image.specs.Written.{IsWritable};
ghost use Rattle.sledge_top.specs.Assembling.{assembled_line, image_of_source, asm};
ghost use Rattle.sledge_top.specs.Endings.{IsLaterFault};
ghost use Rattle.sledge_top.specs.Views.{done_view, Comes, IsLaterFailure};

use crate::done::{Done, Put};
use crate::failure::Failure;
use crate::store::file_of;
use elf_image::{Image, write_image};
use outside::Store;
use report::Refusal;
use rv_asm::assemble;
use sl_base::{Memory, Refused, decimal_text};
use std::alloc::Global;

/// The most bytes of a source.
const SOURCE_LIMIT: u64 = 1_048_576;

/// The line that tells how many bytes a file has.
fn assembled_line(alloc: Global, count: u64) -> Result<Vec<u8>, Memory>
    ensures { IfOk result (λ text. text.items ≡ assembled_line count) }
{
    let mut out = Vec::new(alloc);
    out.extend_from_slice(b"assembled ")?;
    out.extend_from_slice(decimal_text(count).as_bytes())?;
    out.extend_from_slice(b" bytes\n")?;
    Ok(out)
}

/// The image of a source, or how the command is refused.
fn image_of_source(alloc: Global, source: &[u8]) -> Result<Image, Refused<Refusal>>
    ensures value { Gives (λ image. image) result (image_of_source source.now) }
    ensures writable { IfOk result IsWritable }
    ensures later { IfErr result IsLaterFault }
{
    match assemble(alloc, source) {
        Ok(image) => Ok(image),
        Err(Refused::Fault(fault)) => Err(Refused::Fault(Refusal::AsmRefused(fault))),
        Err(Refused::Memory) => Err(Refused::Memory),
    }
}

/// `asm SOURCE OUTPUT`: the ELF file of the image of a source, and how many bytes it has.
pub fn asm<'a, S: Store>(
    alloc: Global,
    source: &str,
    output: &'a str,
    store: &mut S,
) -> Result<Done<'a>, Failure>
    ensures answer { IfSome (S.told store.old) (λ files.
        Comes done_view result (asm files source.now output.now)) }
    ensures failed { IsErrOf result Failure.StoreFault
        → Rose (S.faults store.old) (S.faults store.new) }
    ensures later { IfErr result IsLaterFailure }
    ensures faults { S.faults store.old ≤ S.faults store.new }
    ensures same { S.told store.new ≡ S.told store.old }
{
    let source = file_of(alloc, store, source, SOURCE_LIMIT)?;
    let image = image_of_source(alloc, &source)?;
    let bytes = write_image(alloc, &image)?;
    let text = assembled_line(alloc, bytes.len() as u64)?;
    let put = Put {
        name: output,
        bytes,
    };
    Ok(Done {
        text,
        put: Some(put),
    })
}
