//! Laws of what tracers mean.

ghost use Rattle.tracer_lang.specs.Loops.{LoopsUnfold};

/// A loop is its condition, a unit, its body and the loop again: where the condition is 0 it ends,
/// and where no unit is left the tracer does.
pub fn loops_unfold()
    ensures { LoopsUnfold }
{}
