//! Reads ELF32 files.

ghost use Rattle.elf_image.specs.Checks.{TellsUnlessMemory};
ghost use Rattle.elf_image.specs.Elf.{IsImage, checks, image_of, reading, first_fault};
ghost use Rattle.elf_image.specs.Loadable.{IsLoadable};
ghost use Rattle.elf_image.specs.Reading.{Gives};
ghost use Rattle.elf_image.specs.declared.image.Image.{Image};
ghost use Rattle.elf_image.specs.declared.fault.ImageFault.{ImageFault};
ghost use Rattle.std.specs.Prelude.{◌≡◌, ℕ, ◌<◌, ◌^◌, List, length, ◌⊎◌, IfOk, Ok, Some};

use crate::fault::ImageFault;
use crate::fields::word;
use crate::header::header;
use crate::image::Image;
use crate::segments::segments;
use crate::symbols::symbols;
use sl_base::Refused;
use std::alloc::Global;

/// Reads the headers of a file, and what they name.
#[tactic(auto, unfolding(crate::specs::Elf::checks))]
fn image(alloc: Global, file: &[u8]) -> Result<Image, Refused<ImageFault>>
    requires { length file.now < 2 ^ 32 }
    ensures told { TellsUnlessMemory result (checks file.now) }
    ensures image { IfOk result (λ image. image ≡ image_of file.now) }
{
    header(file)?;
    let segments = segments(alloc, file)?;
    let symbols = symbols(alloc, file)?;
    Ok(Image {
        entry: word(file, 24),
        segments,
        symbols,
    })
}

/// The image that an ELF32 file is, or its first fault.
///
/// Its segments are those of the program headers of type `PT_LOAD` that take memory, in their
/// order, and its symbols those of the first symbol table that are defined and have a name, no type
/// or that of an object or a function.
///
/// # Errors
///
/// The fault of the first check that the file fails, going through the file header, the program
/// headers and the symbol table, with its place; or want of memory.
pub fn read_image(alloc: Global, bytes: &[u8]) -> Result<Image, Refused<ImageFault>>
    requires { length bytes.now < 2 ^ 32 }

    // What is read is what the file says.
    ensures found { IfOk result (IsImage bytes.now) }

    // What the file says is read, unless memory runs out.
    ensures only { (one : Image) → IsImage bytes.now one → Gives (λ image. image) result (Ok one) }

    // Which fault it is.
    ensures exact { Gives (λ image. image) result (reading bytes.now) }

    // It can be loaded.
    ensures loadable { IfOk result IsLoadable }
{
    image(alloc, bytes)
}

/// A law: each file is an image or has a first fault, and not both, and it is no more than one
/// image.
pub fn image_or_fault()
    ensures one_of_two { (file : List ℕ) → ((image : Image) × IsImage file image)
        ⊎ ((fault : ImageFault) × (first_fault file ≡ Some fault)) }
    ensures not_both { (file : List ℕ) (image : Image) (fault : ImageFault)
        → IsImage file image → first_fault file ≡ Some fault → ⊥ }
    ensures one_image { (file : List ℕ) (a b : Image) → IsImage file a → IsImage file b → a ≡ b }
{}
