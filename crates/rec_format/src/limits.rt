//! The limits of the format.

/// The most bytes of a recording.
pub const MOST_BYTES: u64 = 268_435_456;

/// The greatest kind of image: 0 is a flat image, 1 an ELF32 file.
pub const HIGHEST_KIND: u32 = 1;

/// The most bytes of an image.
pub const MOST_IMAGE_BYTES: u32 = 67_108_864;

/// The most arguments.
pub const MOST_ARGS: u32 = 64;

/// The most bytes of all arguments together, each with a zero byte after it.
pub const MOST_ARG_BYTES: u64 = 65_536;

/// The most data bytes of a call.
pub const MOST_CALL_BYTES: u32 = 65_536;

/// The most checkpoints before the end.
pub const MOST_CHECKPOINTS: u32 = 4_095;

/// The greatest count of instructions.
pub const MOST_COUNT: u64 = 1_099_511_627_776;

/// The most pages that a checkpoint lists.
pub const MOST_PAGES: u32 = 16_384;

/// The highest page of program memory, which ends below 0xbffff000.
pub const HIGHEST_PAGE: u32 = 0xb_fffe;

/// The bytes of a page.
pub const PAGE_BYTES: u32 = 4_096;

/// The number of the last kind of end, Stopped.
pub const STOPPED: u32 = 2;
