//! Laws of generated programs.

ghost use Rattle.workload.specs.Laws.{EveryProgramAssembles};

/// Every generated source has an image with a symbol `mark`, and its script is read: its tracer
/// fires there and emits t2.
pub fn every_program_assembles()
    ensures { EveryProgramAssembles }
{}
