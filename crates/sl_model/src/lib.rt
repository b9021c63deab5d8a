//! The machine as definitions: its state, the instruction words and the step of RV32IM, and the bus
//! that a step reads and writes through.
#![tactic(auto)]

mod bank;
mod bits;
mod bus;
mod instr;
mod laws;
mod layout;
pub mod opcodes;
mod run_state;
mod traps;

pub use bank::{
    CODE_START, COPIED_WORDS, ENTRY_SIZE, FRAMES_SIZE, FRAMES_START, LOG_SIZE, LOG_START,
    MOST_CODE_WORDS, MOST_ENTRIES, MOST_OUTPUT_WORDS, OUTPUT_SIZE, OUTPUT_START,
};
pub use bits::Bits;
pub use bus::Bus;
pub use instr::{
    BranchOp, ImmediateOp, Instr, LoadOp, MulDivOp, Register, RegisterOp, ShiftOp, StoreOp,
};
pub use laws::{
    one_meaning, one_word, operations_give_words, steps_keep_the_layout, steps_lead_to_states,
    stores_are_loaded, words_mean,
};
pub use layout::{
    FIRST_STACK_PAGE, HEAP_SIZE, Layout, MEMORY_END, MOST_LOADED_PAGES, MOST_PAGES, PAGE_SIZE,
    PROGRAM_PAGES, STACK_END, STACK_PAGES, STACK_START,
};
pub use run_state::RunState;
pub use traps::{BREAKPOINT, FETCH, ILLEGAL, LOAD_FAULT, MISALIGNED, STORE_FAULT};
