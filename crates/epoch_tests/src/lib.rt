//! Tests alone: how runs are cut, how epochs are claimed, run and posted, and how posts are merged.
#![tactic(auto)]

#[cfg(test)]
mod tests;
