//! Laws of the schedule: nothing is computed here. A crate above calls one where its proof needs
//! it.

ghost use Rattle.std.specs.Prelude.{ℕ, ◌≤◌, List, length};
ghost use Rattle.epoch_core.specs.declared.event.CoreEvent.{CoreEvent as Event};
ghost use Rattle.epoch_core.specs.declared.post.PostValue.{PostValue as Value};
ghost use Rattle.epoch_core.specs.Posts.{Posted};
ghost use Rattle.epoch_core.specs.Schedule.{start, run_events, trays_of, all_posts, HoldsNone};

/// A law: whatever the events are, where at the end no worker holds an epoch and every epoch was
/// claimed, each epoch has exactly one post, with its value, or skipped below a smaller epoch whose
/// post says that it broke.
pub fn posts_are_whole()
    ensures { (values : List Value) (workers : ℕ) (events : List Event)
        → let ended = run_events values (start workers) events in
        HoldsNone ended → length values ≤ ended.next → Posted values (all_posts (trays_of ended)) }
{}
