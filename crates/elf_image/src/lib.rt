//! Images of programs: what is loaded where, and which names stand for what.
#![tactic(auto)]

mod check;
mod fault;
mod fields;
mod flat;
mod header;
mod headers;
mod image;
mod layout;
mod loaded;
mod lookup;
mod memory;
mod pages;
mod reading;
mod segments;
mod symbols;
#[cfg(test)]
mod tests;
mod writing;

pub use fault::{ImageCause, ImageFault};
pub use flat::flat_image;
pub use image::{Image, Segment};
pub use lookup::symbol;
pub use reading::{image_or_fault, read_image};
pub use writing::write_image;
