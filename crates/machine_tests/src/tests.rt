//! By what is run or kept.

mod checks;
mod memory;
mod records;
mod replays;
mod texts;
mod words;
