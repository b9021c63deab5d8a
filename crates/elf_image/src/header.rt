//! The file header.

ghost use Rattle.elf_image.specs.Checks.{Tells, TellsUnlessMemory, IsSure};
ghost use Rattle.elf_image.specs.Header.{ident_checks, kind_checks, header_checks};
ghost use Rattle.std.specs.Prelude.{◌≡◌, ◌<◌, ◌≤◌, ◌^◌, length};

use crate::check::{Check, all_pass};
use crate::fault::ImageCause::{
    Class, Compressed, FloatAbi, Machine, Magic, SegmentRange, Short, WrongType,
};
use crate::fault::ImageFault;
use crate::fields::{half, word};
use crate::headers::PROGRAM_HEADER_BYTES;
use sl_base::Refused;

/// The bytes of the file header.
pub const FILE_HEADER_BYTES: usize = 52;

/// The type of a file that is executed.
const ET_EXEC: u16 = 2;

/// The machine RISC-V.
const EM_RISCV: u16 = 243;

/// The flag of compressed instructions.
const EF_RISCV_RVC: u32 = 0x1;

/// The flags of the registers in which floats are passed.
const EF_RISCV_FLOAT_ABI: u32 = 0x6;

/// Checks the first 16 bytes.
fn ident(file: &[u8]) -> Result<(), ImageFault>
    requires { 52 ≤ length file.now }
    ensures { Tells result (ident_checks file.now) }
{
    all_pass(&[
        Check::new(file[0] == 0x7f, 0, Magic),
        Check::new(file[1] == b'E', 1, Magic),
        Check::new(file[2] == b'L', 2, Magic),
        Check::new(file[3] == b'F', 3, Magic),
        Check::new(file[4] == 1, 4, Class),
        Check::new(file[5] == 1, 5, Class),
        Check::new(file[6] == 1, 6, Class),
    ])
}

/// Checks what kind of program the file is, and where its program headers lie.
fn kind(file: &[u8]) -> Result<(), ImageFault>
    requires some { 52 ≤ length file.now }
    ensures { Tells result (kind_checks file.now) }
{
    let flags = word(file, 36);
    let phnum = half(file, 44);
    let end = u64::from(word(file, 28)) + u64::from(PROGRAM_HEADER_BYTES) * u64::from(phnum);
    all_pass(&[
        Check::new(half(file, 16) == ET_EXEC, 16, WrongType),
        Check::new(half(file, 18) == EM_RISCV, 18, Machine),
        Check::new(word(file, 20) == 1, 20, Class),
        Check::new(flags & EF_RISCV_RVC == 0, 36, Compressed),
        Check::new(flags & EF_RISCV_FLOAT_ABI == 0, 36, FloatAbi),
        Check::new(
            phnum == 0 || half(file, 42) == PROGRAM_HEADER_BYTES,
            42,
            SegmentRange,
        ),
        Check::new(phnum == 0 || end <= file.len() as u64, 28, Short),
    ])
}

/// Checks the file header.
fn header_passes(file: &[u8]) -> Result<(), ImageFault>
    ensures { Tells result (header_checks file.now) }
{
    all_pass(&[Check::new(file.len() >= FILE_HEADER_BYTES, 0, Short)])?;
    ident(file)?;
    kind(file)
}

/// Checks the file header, and tells the fault as a refusal.
pub fn header(file: &[u8]) -> Result<(), Refused<ImageFault>>
    ensures told { TellsUnlessMemory result (header_checks file.now) }
    ensures sure { IsSure result }
{
    header_passes(file).map_err(Refused::Fault)
}
