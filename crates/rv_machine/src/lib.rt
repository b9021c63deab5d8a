//! The machine: one step of RV32IM over any bus.
#![tactic(auto)]

mod arithmetic;
mod execute;
mod machine;
mod stepping;
mod stores;
#[cfg(test)]
mod tests;
mod traps;

pub use arithmetic::{
    is_taken, load_value, load_width, mul_div_value, register_value, store_width,
};
pub use machine::{Machine, Outcome};
pub use stepping::step;
pub use stores::store_of;
pub use traps::next_trap;
