//! Where a program's memory lies, and which pages a range of it meets.

ghost use Rattle.elf_image.specs.Flat.{page_count, meets_stack};
ghost use Rattle.std.specs.Prelude.{◌≡◌, ◌+◌, ◌/◌, ◌<◌, ◌^◌};

use sl_model::{FIRST_STACK_PAGE, MEMORY_END, MOST_LOADED_PAGES, PAGE_SIZE, STACK_PAGES};

/// The bytes of a program's memory, which starts at address 0.
pub const MEMORY_BYTES: u64 = MEMORY_END as u64;

/// The most pages of an image without the stack.
pub const MOST_IMAGE_PAGES: u64 = (MOST_LOADED_PAGES - STACK_PAGES) as u64;

/// The bytes of a page.
const PAGE_BYTES: u64 = PAGE_SIZE as u64;

/// The lowest page of the stack.
const STACK: u64 = FIRST_STACK_PAGE as u64;

/// The page above the stack.
const ABOVE_STACK: u64 = STACK + STACK_PAGES as u64;

/// How many pages a range that isn't empty meets.
pub fn page_count(start: u64, len: u64) -> u64
    requires some { 0 < len }
    requires fits { start + len < 2 ^ 63 }
    ensures { result ≡ page_count start len }
{
    (start + len - 1) / PAGE_BYTES - start / PAGE_BYTES + 1
}

/// Whether a range that isn't empty meets a page of the stack.
pub fn meets_stack(start: u64, len: u64) -> bool
    requires some { 0 < len }
    requires fits { start + len < 2 ^ 63 }
    ensures { result ≡ meets_stack start len }
{
    start / PAGE_BYTES < ABOVE_STACK && STACK <= (start + len - 1) / PAGE_BYTES
}

/// The page of an address.
pub fn page_of(address: u64) -> u32
    requires { address < 2 ^ 32 }
    ensures { result ≡ address / 4096 }
{
    (address / PAGE_BYTES) as u32
}
