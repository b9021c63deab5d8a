//! The command that shows an image.

ghost use Rattle.std.specs.Prelude.{◌≡◌, ◌≤◌, ◌<◌, ◌^◌, ◌++◌, [], length, OnOk, IfOk, IfErr, IfSome, IsErrOf};
ghost use Rattle.outside.specs.Faults.{Rose};
ghost use Rattle.sl_base.specs.Refusals.{Gives};
ghost use Rattle.elf_image.specs.Loadable.{IsLoadable};
ghost use Rattle.replay.specs.Opening.{opening};
ghost use Rattle.sledge_top.specs.Show.{word_at, shown, show_line, show_lines, show_text, show};
ghost use Rattle.sledge_top.specs.Files.{image_from, image_or_refusal};
ghost use Rattle.sledge_top.specs.Endings.{IsLaterFault};
ghost use Rattle.sledge_top.specs.Views.{done_view, Comes, IsLaterFailure};

use crate::done::Done;
use crate::failure::Failure;
use crate::store::file_of;
use elf_image::{Image, ImageFault, flat_image, read_image};
use outside::Store;
use page_frames::Frames;
use replay::load;
use report::Refusal;
use rv_decode::decode;
use rv_text::print_instr;
use sl_base::{Memory, Refused, word_text};
use sl_model::{Bus, STACK_END, STACK_START};
use std::alloc::Global;

/// The most bytes of an image.
pub const IMAGE_LIMIT: u64 = 67_108_864;

/// The word at an address of a program's memory, without the stack.
fn word_at(memory: &Frames, address: u32) -> Option<u32>
    ensures { result ≡ word_at memory.now.pages address }
{
    if u64::from(STACK_START) < u64::from(address) + 4 && address < STACK_END {
        None
    } else {
        memory.load(address, 4)
    }
}

/// Adds a word and its instruction, or `-` where a byte of the word is not mapped.
fn push_shown(alloc: Global, out: &mut Vec<u8>, word: Option<u32>) -> Result<(), Memory>
    ensures { OnOk result (out.new.items ≡ out.old.items ++ shown word) }
{
    let Some(word) = word else {
        out.extend_from_slice(b"-")?;
        return Ok(());
    };
    out.extend_from_slice(&word_text(word).as_bytes()[2..])?;
    out.extend_from_slice(b" ")?;
    match decode(word) {
        Some(instr) => out.extend_from_slice(print_instr(alloc, &instr)?.as_bytes())?,
        None => out.extend_from_slice(b"illegal")?,
    }
    Ok(())
}

/// Adds the line of an address.
fn push_line(alloc: Global, out: &mut Vec<u8>, memory: &Frames, address: u32) -> Result<(), Memory>
    ensures { OnOk result (out.new.items ≡ out.old.items ++ show_line memory.now.pages address) }
{
    out.extend_from_slice(word_text(address).as_bytes())?;
    out.extend_from_slice(b" ")?;
    push_shown(alloc, out, word_at(memory, address))?;
    out.push(b'\n')?;
    Ok(())
}

/// Adds the lines of so many words from an address on.
fn push_lines(
    alloc: Global,
    out: &mut Vec<u8>,
    memory: &Frames,
    address: u32,
    lines: u32,
) -> Result<(), Memory>
    ensures { OnOk result (out.new.items
        ≡ out.old.items ++ show_lines memory.now.pages address lines) }
{
    let mut address = address;
    for _ in 0..lines {
        push_line(alloc, out, memory, address)?;
        address = address.wrapping_add(4);
    }
    Ok(())
}

/// The image of a file: an ELF file, or with an address flat bytes.
fn image_from(alloc: Global, flat: Option<u32>, bytes: &[u8]) -> Result<Image, Refused<ImageFault>>
    requires { length bytes.now < 2 ^ 32 }
    ensures value { Gives (λ image. image) result (image_from flat bytes.now) }
    ensures loadable { IfOk result IsLoadable }
{
    match flat {
        Some(address) => flat_image(alloc, address, bytes),
        None => read_image(alloc, bytes),
    }
}

/// The same, or how the command is refused.
pub fn image_or_refusal(
    alloc: Global,
    flat: Option<u32>,
    bytes: &[u8],
) -> Result<Image, Refused<Refusal>>
    requires { length bytes.now < 2 ^ 32 }
    ensures value { Gives (λ image. image) result (image_or_refusal flat bytes.now) }
    ensures loadable { IfOk result IsLoadable }
    ensures later { IfErr result IsLaterFault }
{
    match image_from(alloc, flat, bytes) {
        Ok(image) => Ok(image),
        Err(Refused::Fault(fault)) => Err(Refused::Fault(Refusal::ImageBroken(fault))),
        Err(Refused::Memory) => Err(Refused::Memory),
    }
}

/// The lines of so many words of an image, from an address on.
fn show_text(alloc: Global, image: &Image, address: u32, lines: u32) -> Result<Vec<u8>, Memory>
    requires { IsLoadable image.now }
    ensures { IfOk result (λ text. text.items ≡ show_text image.now address lines) }
{
    let (_, memory) = load(alloc, image, &[])?;
    let mut out = Vec::new(alloc);
    push_lines(alloc, &mut out, &memory, address, lines)?;
    Ok(out)
}

/// `show IMAGE HEX N`: so many words of an image with their instructions, from an address on.
pub fn show<'a, S: Store>(
    alloc: Global,
    name: &str,
    address: u32,
    lines: u32,
    flat: Option<u32>,
    store: &mut S,
) -> Result<Done<'a>, Failure>
    ensures answer { IfSome (S.told store.old) (λ files.
        Comes done_view result (show files name.now address lines flat)) }
    ensures failed { IsErrOf result Failure.StoreFault
        → Rose (S.faults store.old) (S.faults store.new) }
    ensures later { IfErr result IsLaterFailure }
    ensures faults { S.faults store.old ≤ S.faults store.new }
    ensures same { S.told store.new ≡ S.told store.old }
{
    let bytes = file_of(alloc, store, name, IMAGE_LIMIT)?;
    let image = image_or_refusal(alloc, flat, &bytes)?;
    let text = show_text(alloc, &image, address, lines)?;
    Ok(Done { text, put: None })
}
