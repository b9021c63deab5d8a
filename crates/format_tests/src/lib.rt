//! Tests alone: calls, formats, words, tokens of scripts and reports, and the analyses.
#![tactic(auto)]

#[cfg(test)]
mod tests;
