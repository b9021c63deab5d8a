//! Laws of epochs, each the contract of a function that does nothing. They hold for every
//! recording, also for one whose checkpoints no run ever had, and for every opening state.

ghost use Rattle.std.specs.Prelude.{◌≡◌, ℕ, List};
ghost use Rattle.sl_model.specs.State.{State, IsOpening};
ghost use Rattle.rec_format.specs.declared.recording.Recording.{Recording};
ghost use Rattle.rec_format.specs.Rules.{IsRecordingValue};
ghost use Rattle.replay.specs.Breaks.{first_break};
ghost use Rattle.rec_format.specs.Recorded.{end_place};
ghost use Rattle.epoch_cut.specs.Places.{IsCutting};
ghost use Rattle.epoch_run.specs.Records.{Tracers, records};
ghost use Rattle.epoch_run.specs.AtScript.{AtEmits};
ghost use Rattle.epoch_run.specs.Epochs.{epoch_break, epoch_records};
ghost use Rattle.epoch_run.specs.EpochLaws.{BreaksJoin, RecordsJoin, StatesJoin, FirstBrokeIsFirst, AllRanAreTheRun, StartsOnTheRun, LeastBreakIsFirst, BreaksWithTheRun, RecordsOfTheRun, ComesToTheEnd};

/// An epoch that is cut in two breaks where its first part does, and else where its second part
/// does. Where the first part does not break, it comes to the state that is recorded there, and its
/// records come first and then those of the second.
pub fn epochs_join()
    ensures breaks { (rec : Recording) (opened : State)
        → IsRecordingValue rec → IsOpening opened → BreaksJoin rec opened }
    ensures records { (rec : Recording) (opened : State) (tracers : Tracers)
        → IsRecordingValue rec → IsOpening opened → RecordsJoin rec opened tracers }
    ensures states { (rec : Recording) (opened : State)
        → IsRecordingValue rec → IsOpening opened → StatesJoin rec opened }
{}

/// The epoch from the opening state to the end is the one run.
pub fn one_epoch_is_the_run()
    ensures breaks { (rec : Recording) (opened : State)
        → first_break rec opened ≡ epoch_break rec opened 0 (end_place rec) }
    ensures records { (rec : Recording) (opened : State) (tracers : Tracers)
        → records rec tracers opened ≡ epoch_records rec opened tracers 0 (end_place rec) }
{}

/// Where no epoch of a cutting breaks before it, an epoch starts at the state that the run has
/// there.
pub fn epochs_start_on_the_run()
    ensures { (rec : Recording) (opened : State) (places : List ℕ)
        → IsRecordingValue rec → IsOpening opened → IsCutting (end_place rec) places
        → StartsOnTheRun rec opened places }
{}

/// The least epoch of a cutting with a break has the first break of the run, and no epoch breaks
/// exactly where the run does not.
pub fn least_break_is_first()
    ensures first { (rec : Recording) (opened : State) (places : List ℕ)
        → IsRecordingValue rec → IsOpening opened → IsCutting (end_place rec) places
        → LeastBreakIsFirst rec opened places }
    ensures none { (rec : Recording) (opened : State) (places : List ℕ)
        → IsRecordingValue rec → IsOpening opened → IsCutting (end_place rec) places
        → BreaksWithTheRun rec opened places }
{}

/// Where no epoch of a cutting breaks, their records in order are those of the run.
pub fn records_are_those_of_the_run()
    ensures { (rec : Recording) (opened : State) (tracers : Tracers) (places : List ℕ)
        → IsRecordingValue rec → IsOpening opened → IsCutting (end_place rec) places
        → RecordsOfTheRun rec opened tracers places }
{}

/// The same by the values of the epochs: the first that broke has the first break of the run; and
/// where all ran, the run does not break, and what they left in order is what the run leaves.
pub fn values_are_the_run()
    ensures broke { (rec : Recording) (opened : State) (tracers : Tracers) (places : List ℕ)
        → IsRecordingValue rec → IsOpening opened → IsCutting (end_place rec) places
        → FirstBrokeIsFirst rec opened tracers places }
    ensures ran { (rec : Recording) (opened : State) (tracers : Tracers) (places : List ℕ)
        → IsRecordingValue rec → IsOpening opened → IsCutting (end_place rec) places
        → AllRanAreTheRun rec opened tracers places }
{}

/// A run that does not break comes to the recorded end, with the count, the program counter and the
/// registers that are recorded there.
pub fn runs_end_as_recorded()
    ensures { (rec : Recording) (opened : State)
        → IsRecordingValue rec → IsOpening opened → ComesToTheEnd rec opened }
{}

/// The script of one tracepoint that emits register a0 at an address leaves one record with that
/// register wherever pc is at the address, and else nothing.
pub fn at_emits()
    ensures { AtEmits }
{}
