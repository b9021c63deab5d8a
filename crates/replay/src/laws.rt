//! Laws of a replay, each the contract of a function that does nothing.

ghost use Rattle.std.specs.Prelude.{◌≡◌, ◌+◌, ◌<◌, ◌^◌, ℕ, List};
ghost use Rattle.std.specs.List.{AllByRecursion};
ghost use Rattle.sl_model.specs.State.{State, IsState, Fits, IsOpening};
ghost use Rattle.elf_image.specs.declared.image.Image.{Image};
ghost use Rattle.elf_image.specs.Loadable.{IsLoadable};
ghost use Rattle.rec_format.specs.Rules.{AreArguments, IsRecordingValue, HasBytes};
ghost use Rattle.rec_format.specs.declared.recording.Recording.{Recording};
ghost use Rattle.replay.specs.Opening.{opening, AreBytes};
ghost use Rattle.replay.specs.Run.{Goes, onward};

/// Every image that can be loaded, with all arguments that a recording may hold, is a program
/// before its first instruction: each number in its range, and memory laid out.
pub fn programs_open()
    ensures { (image : Image) (args : List (List ℕ))
        → IsLoadable image → AreArguments args → AreBytes args → IsOpening (opening image args) }
{}

/// An instruction of a replay leads from a state that fits its layout to a state, below the end of
/// the count and also where it is a call.
pub fn replays_lead_to_states()
    ensures { (rec : Recording) (s t : State)
        → IsRecordingValue rec → AllByRecursion HasBytes rec.calls
        → IsState s → Fits s → s.count + 1 < 2 ^ 64 → onward rec s ≡ Goes t → IsState t }
{}

/// An instruction of a replay leads from a state that fits its layout to one that fits it, also
/// where it is a call.
pub fn replays_keep_the_layout()
    ensures { (rec : Recording) (s t : State)
        → Fits s → onward rec s ≡ Goes t → Fits t }
{}
