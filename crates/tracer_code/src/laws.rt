//! Laws of the definitions, each the contract of a function that does nothing.

ghost use Rattle.std.specs.Prelude.{◌≡◌};
ghost use Rattle.tracer_lang.specs.Tree.{ScriptTree};
ghost use Rattle.tracer_lang.specs.declared.record.TracerEnd.{TracerEnd};
ghost use Rattle.tracer_code.specs.declared.code.TracerCode.{TracerCode};
ghost use Rattle.tracer_code.specs.Outcomes.{end_number, end_value, outcome_of};
ghost use Rattle.tracer_code.specs.Sound.{IsSound, StandsFor};

/// Code that stands for a script is sound.
pub fn standing_code_is_sound()
    ensures { (code : TracerCode) (script : ScriptTree) → StandsFor code script → IsSound code }
{}

/// The number and the value of an outcome tell it.
pub fn outcomes_are_told()
    ensures { (end : TracerEnd) → outcome_of (end_number end) (end_value end) ≡ end }
{}
