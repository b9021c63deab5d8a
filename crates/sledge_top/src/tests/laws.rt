//! The laws of the commands, over a world whose replies are given.

use crate::laws::{
    answers_are_outcomes, posts_merge, recordings_are_accepted, same_answer, traces_are_one_run,
    traces_complete,
};
use outside::MemoryWorld;

#[test]
fn over_given_replies() {
    traces_are_one_run::<MemoryWorld>();
    traces_complete::<MemoryWorld>();
    answers_are_outcomes::<MemoryWorld>();
    recordings_are_accepted::<MemoryWorld>();
    same_answer();
    posts_merge();
}
