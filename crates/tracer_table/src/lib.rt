//! Tests alone: compiled tracers, run word by word over a bank and in place, beside the same tracers
//! on copies.
#![tactic(auto)]

#[cfg(test)]
mod tests;
