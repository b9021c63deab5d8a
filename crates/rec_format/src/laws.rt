//! Laws of what a recording records, each the contract of a function that does nothing.

ghost use Rattle.std.specs.Prelude.{ℕ};
ghost use Rattle.sl_model.specs.State.{State, Fits, IsOpening};
ghost use Rattle.rec_format.specs.declared.recording.Recording.{Recording};
ghost use Rattle.rec_format.specs.Recorded.{recorded_state};
ghost use Rattle.rec_format.specs.Rules.{IsRecordingValue};

/// Every state that a checkpoint records fits the layout of the opening state, also one that no run
/// ever had.
pub fn recorded_states_fit()
    ensures { (rec : Recording) (opened : State) (k : ℕ)
        → IsRecordingValue rec → IsOpening opened → Fits (recorded_state rec opened k) }
{}
