//! Laws of comparisons, each the contract of a function that does nothing.

ghost use Rattle.checkpoints.specs.Marked.{ComparesChanges, RecordedHolds};

/// Where each mapped page that is not dirty holds what the checkpoint before records, the first
/// difference in memory is that of the pages that are dirty, listed at the checkpoint, or listed by
/// then and not mapped.
pub fn comparisons_see_changes()
    ensures { ComparesChanges }
{}

/// The state that a checkpoint records holds its pages, whatever is marked.
pub fn recorded_states_hold_recorded()
    ensures { RecordedHolds }
{}
