//! Tests alone: the machine's words, its memory, replays, checkpoints and recorded runs.
#![tactic(auto)]

#[cfg(test)]
mod tests;
