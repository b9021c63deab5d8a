//! The address space in regions, at the start of each of which an area of the bank lies.

use sl_model::{CODE_START, FRAMES_START, LOG_START, OUTPUT_START};

/// The bytes of a region.
pub const REGION: u32 = 0x1000_0000;

/// The number of the region of the code.
pub const CODE: u32 = CODE_START / REGION;

/// The number of the region of the frames.
pub const FRAMES: u32 = FRAMES_START / REGION;

/// The number of the region of the log.
pub const LOG: u32 = LOG_START / REGION;

/// The number of the region of the output.
pub const OUTPUT: u32 = OUTPUT_START / REGION;
