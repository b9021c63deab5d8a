//! Generates a recording.

ghost use Rattle.std.specs.Prelude.{◌≡◌, ◌≤◌, length, Ok, IfOk};
ghost use Rattle.elf_image.specs.Elf.{IsImage};
ghost use Rattle.elf_image.specs.Written.{IsWritable, written};
ghost use Rattle.rv_asm.specs.Assembly.{assembly};
ghost use Rattle.workload.specs.Source.{source_text};
ghost use Rattle.workload.specs.Generated.{IsGenerated, IsRecordedRun};

use crate::source::source_text;
use call_recorder::{ImageSource, record_run};
use elf_image::{Image, write_image};
use outside::MemoryWorld;
use rec_format::Recording;
use rv_asm::assemble;
use sl_base::{Memory, Refused, Seq};
use std::alloc::Global;

/// The most instructions of a generated run.
const LIMIT: u64 = 1_000_000_000;

/// The kind of an image that is an ELF file.
const ELF: u32 = 1;

/// The image of a generated program.
fn generated_image(alloc: Global, seed: u32, size: u32) -> Result<Image, Memory>
    requires some { 1 ≤ size }
    requires most { size ≤ 1000000 }
    ensures assembled { IfOk result (λ image. assembly (source_text seed size) ≡ Ok image) }
    ensures writable { IfOk result IsWritable }
    ensures small { IfOk result (λ image. length (written image) ≤ 67108864) }
{
    let source = source_text(alloc, seed, size)?;
    match assemble(alloc, &source) {
        Ok(image) => Ok(image),
        Err(Refused::Memory) => Err(Memory),
        Err(Refused::Fault(_)) => unreachable!(),
    }
}

/// The recording of an image's file, with a checkpoint every `size` instructions, over a world that
/// has no replies.
fn recording_of(alloc: Global, image: &Image, size: u32) -> Result<Recording, Memory>
    requires writable { IsWritable image.now }
    requires small { length (written image.now) ≤ 67108864 }
    requires some { 1 ≤ size }
    ensures recorded { IfOk result (IsRecordedRun image.now size) }
    ensures reads { IfOk result (λ rec. IsImage rec.image image.now) }
{
    let source = ImageSource {
        kind: ELF,
        load_addr: 0,
        bytes: Seq::from_vec(write_image(alloc, image)?),
    };
    let args = Seq::new(alloc);
    let mut world = MemoryWorld::new(Vec::new(alloc));
    let every = u64::from(size);
    record_run(alloc, image, source, args, LIMIT, every, &mut world)
}

/// Generates a program that draws `size` random numbers from a seed and adds each to a word of a
/// table, and records its run with a checkpoint every `size` instructions.
///
/// # Errors
///
/// Out of memory.
pub fn generate(alloc: Global, seed: u32, size: u32) -> Result<Recording, Memory>
    requires some { 1 ≤ size }
    requires most { size ≤ 1000000 }
    ensures { IfOk result (IsGenerated seed size) }
{
    let image = generated_image(alloc, seed, size)?;
    recording_of(alloc, &image, size)
}
