//! Where a program's memory lies, and how much of it there is.

/// The bytes of a page.
pub const PAGE_SIZE: u32 = 4096;

/// The address at which a program's memory ends: none of its pages goes beyond.
pub const MEMORY_END: u32 = 0xBFFF_F000;

/// The pages of the memory that a program may have: pages from this number on are never a
/// program's.
pub const PROGRAM_PAGES: u32 = 0xBFFFF;

/// The address of the lowest byte of the stack.
pub const STACK_START: u32 = 0x7FF0_0000;

/// The address at which the stack ends.
pub const STACK_END: u32 = 0x8000_0000;

/// The lowest page of the stack.
pub const FIRST_STACK_PAGE: u32 = 0x7FF00;

/// The pages of the stack.
pub const STACK_PAGES: u32 = 256;

/// The most pages of an image and the stack together.
pub const MOST_LOADED_PAGES: u32 = 12_288;

/// The most mapped pages: those of an image, of the stack and of the heap.
pub const MOST_PAGES: u32 = 16_384;

/// The most bytes of the heap.
pub const HEAP_SIZE: u32 = 0x0100_0000;

/// The bounds of the heap, which no step changes.
#[derive(Clone, Copy, Debug, PartialEq, Eq)]
pub struct Layout {
    /// The end of the highest loaded range, rounded up to a page.
    pub brk_start: u32,
    /// The highest break that a program may ask for.
    pub heap_limit: u32,
}
