//! Reads the segments that a file loads.

ghost use Rattle.elf_image.specs.Checks.{TellsUnlessMemory, IsSure, first_failing};
ghost use Rattle.elf_image.specs.Header.{header_checks};
ghost use Rattle.elf_image.specs.Ranges.{ArePages};
ghost use Rattle.elf_image.specs.Segments.{segment_of, are_few, is_free, range_checks, memory_checks, load_checks, one_header_checks, with_header, program_header, each_header_checks, program_headers, segment_checks, segments};
ghost use Rattle.elf_image.specs.declared.image.Segment.{Segment};
ghost use Rattle.std.specs.Prelude.{◌≡◌, ℕ, ◌+◌, ◌<◌, ◌≤◌, ◌^◌, List, [], ◌∷◌, ◌++◌, length, true, None, IfOk, OnOk};

use crate::check::{Check, ensure};
use crate::fault::ImageCause::{Interp, Overlap, SegmentRange, Short};
use crate::fault::ImageFault;
use crate::fields::{half, word};
use crate::headers::{PROGRAM_HEADER_BYTES, ProgramHeader, program_header};
use crate::image::Segment;
use crate::loaded::Loaded;
use crate::memory::{MEMORY_BYTES, meets_stack, page_count, page_of};
use crate::pages::add_pages;
use sl_base::{Refused, Seq};
use std::alloc::{AllocError, Global};
use std::collections::BTreeSet;

/// The type of a header that loads a segment.
const PT_LOAD: u32 = 1;

/// The type of a header that names an interpreter.
const PT_INTERP: u32 = 3;

/// What a header loads.
fn segment_of(alloc: Global, file: &[u8], header: ProgramHeader) -> Result<Segment, AllocError>
    requires { header.p_offset + header.p_filesz ≤ length file.now }
    ensures { IfOk result (λ segment. segment ≡ segment_of file.now header) }
{
    let offset = header.p_offset as usize;
    let bytes = &file[offset..offset + header.p_filesz as usize];
    Ok(Segment {
        vaddr: header.p_vaddr,
        memsz: header.p_memsz,
        bytes: Seq::from_vec(Vec::from_slice(alloc, bytes)?),
    })
}

/// Checks where the bytes and the memory of a header lie.
fn range(file: &[u8], header: ProgramHeader) -> Result<(), Refused<ImageFault>>
    requires { header.place + 32 < 2 ^ 32 }
    ensures told { TellsUnlessMemory result (range_checks file.now header) }
    ensures sure { IsSure result }
{
    let bytes_end = u64::from(header.p_offset) + u64::from(header.p_filesz);
    let memory_end = u64::from(header.p_vaddr) + u64::from(header.p_memsz);
    ensure(&[
        Check::new(bytes_end <= file.len() as u64, header.place + 4, Short),
        Check::new(
            header.p_filesz <= header.p_memsz,
            header.place + 16,
            SegmentRange,
        ),
        Check::new(memory_end <= MEMORY_BYTES, header.place + 8, SegmentRange),
    ])
}

/// Whether a segment that takes memory shares no byte with those before it, and meets no page of
/// the stack.
fn is_free(loaded: &Loaded, segment: &Segment) -> bool
    requires takes { 0 < segment.now.memsz }
    requires within { segment.now.vaddr + segment.now.memsz < 2 ^ 32 }
    ensures { result ≡ is_free loaded.now segment.now }
{
    let end = segment.vaddr + segment.memsz;
    !loaded.has_byte_in(segment.vaddr, end)
        && !meets_stack(u64::from(segment.vaddr), u64::from(segment.memsz))
}

/// Adds the pages of a segment to those of the segments before it, and tells whether they are few
/// enough.
fn claim_pages(pages: &mut BTreeSet<u32>, segment: &Segment) -> Result<bool, AllocError>
    requires takes { 0 < segment.now.memsz }
    requires within { segment.now.vaddr + segment.now.memsz < 2 ^ 32 }
    ensures few { IfOk result (λ few. (before : List Segment) → ArePages pages.old before
        → few ≡ are_few (before ++ segment.now ∷ [])) }
    ensures added { IfOk result (λ few. few ≡ true → (before : List Segment)
        → ArePages pages.old before → ArePages pages.new (before ++ segment.now ∷ [])) }
{
    let start = u64::from(segment.vaddr);
    let count = page_count(start, u64::from(segment.memsz));
    add_pages(pages, page_of(start), count as u32)
}

/// Checks that the memory of a segment is free and that its pages are few enough, and adds these.
fn claim(
    loaded: &Loaded,
    pages: &mut BTreeSet<u32>,
    segment: &Segment,
    place: u32,
) -> Result<(), Refused<ImageFault>>
    requires takes { 0 < segment.now.memsz }
    requires within { segment.now.vaddr + segment.now.memsz < 2 ^ 32 }
    requires pages { ArePages pages.old loaded.now }
    ensures told { TellsUnlessMemory result (memory_checks loaded.now segment.now place) }
    ensures free { OnOk result (is_free loaded.now segment.now ≡ true) }
    ensures added { OnOk result (ArePages pages.new (loaded.now ++ segment.now ∷ [])) }
{
    ensure(&[Check::new(is_free(loaded, segment), place, Overlap)])?;
    let few = claim_pages(pages, segment)?;
    ensure(&[Check::new(few, place, SegmentRange)])
}

/// Loads the segment of a header behind others.
fn load(
    alloc: Global,
    file: &[u8],
    header: ProgramHeader,
    loaded: &mut Loaded,
    pages: &mut BTreeSet<u32>,
) -> Result<(), Refused<ImageFault>>
    requires takes { 0 < header.p_memsz }
    requires place { header.place + 32 < 2 ^ 32 }
    requires pages { ArePages pages.old loaded.old }
    ensures told { TellsUnlessMemory result (load_checks file.now loaded.old header) }
    ensures added { OnOk result (loaded.new ≡ loaded.old ++ segment_of file.now header ∷ []) }
    ensures pages { OnOk result (ArePages pages.new loaded.new) }
{
    range(file, header)?;
    let segment = segment_of(alloc, file, header)?;
    claim(loaded, pages, &segment, header.place)?;
    loaded.push(segment)?;
    Ok(())
}

/// Reads a header behind those that loaded these segments, and loads its own.
fn one_header(
    alloc: Global,
    file: &[u8],
    place: u32,
    loaded: &mut Loaded,
    pages: &mut BTreeSet<u32>,
) -> Result<(), Refused<ImageFault>>
    requires place { place + 32 ≤ length file.now }
    requires size { length file.now < 2 ^ 32 }
    requires pages { ArePages pages.old loaded.old }
    ensures told { let header = program_header file.now place in
        TellsUnlessMemory result (one_header_checks file.now loaded.old header) }
    ensures added { let header = program_header file.now place in
        OnOk result (loaded.new ≡ with_header file.now loaded.old header) }
    ensures pages { OnOk result (ArePages pages.new loaded.new) }
{
    let header = program_header(file, place);
    ensure(&[Check::new(header.p_type != PT_INTERP, place, Interp)])?;
    if header.p_type == PT_LOAD && header.p_memsz > 0 {
        return load(alloc, file, header, loaded, pages);
    }
    Ok(())
}

/// Reads the program headers, and loads their segments.
fn each_header(alloc: Global, file: &[u8]) -> Result<Loaded, Refused<ImageFault>>
    requires size { length file.now < 2 ^ 32 }
    requires checked { first_failing (header_checks file.now) ≡ None }
    ensures told { TellsUnlessMemory result
        (each_header_checks file.now [] (program_headers file.now)) }
    ensures loaded { IfOk result (λ loaded. loaded ≡ segments file.now) }
{
    let phoff = word(file, 28);
    let phnum = half(file, 44);
    let mut loaded = Loaded::new(alloc);
    let mut pages = BTreeSet::new(alloc);
    for index in 0..phnum {
        let place = phoff + u32::from(PROGRAM_HEADER_BYTES) * u32::from(index);
        one_header(alloc, file, place, &mut loaded, &mut pages)?;
    }
    Ok(loaded)
}

/// The segments that a file loads, at least one.
pub fn segments(alloc: Global, file: &[u8]) -> Result<Seq<Segment>, Refused<ImageFault>>
    requires size { length file.now < 2 ^ 32 }
    requires checked { first_failing (header_checks file.now) ≡ None }
    ensures told { TellsUnlessMemory result (segment_checks file.now) }
    ensures loaded { IfOk result (λ loaded. loaded ≡ segments file.now) }
{
    let segments = each_header(alloc, file)?.into_segments();
    ensure(&[Check::new(segments.len() > 0, 44, SegmentRange)])?;
    Ok(segments)
}
