//! A law of what tracers leave.

ghost use Rattle.tracer_mean.specs.Apart.{RecordsStandApart};

/// What a tracer leaves depends on its own tracepoint, the functions and the budget alone: nothing
/// that another tracer does is seen by it.
pub fn records_stand_apart()
    ensures { RecordsStandApart }
{}
