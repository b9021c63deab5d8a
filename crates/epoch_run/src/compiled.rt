//! A script with the code that its tracers run as.

ghost use Rattle.std.specs.Prelude.{◌≡◌};
ghost use Rattle.tracer_lang.specs.Script.{tree_of};
ghost use Rattle.tracer_code.specs.Sound.{StandsFor};

use std::marker::Model;
use tracer_code::TracerCode;
use tracer_lang::Script;

/// A script, and code that stands for it. Contracts see both.
#[derive(Drop)]
pub struct CompiledScript {
    script: Script,
    code: TracerCode,
}

impl Model for CompiledScript {
    ghost use Rattle.tracer_lang.specs.Script.{tree_of};
    ghost use Rattle.tracer_code.specs.Sound.{StandsFor};
    ghost use Rattle.epoch_run.specs.Compiled.{Compiled, compiled_code};

    ghost Value = { Compiled };

    ghost coded = { compiled_code };

    ghost view = { λ compiled. record { script = compiled.script; code = compiled.code } };

    ghost invariant = { λ compiled. StandsFor compiled.code (tree_of compiled.script) };
}

impl CompiledScript {
    /// A script and code that stands for it.
    pub fn new(script: Script, code: TracerCode) -> CompiledScript
        requires { StandsFor code (tree_of script) }
        ensures script { result.script ≡ script }
        ensures code { result.code ≡ code }
    {
        CompiledScript { script, code }
    }

    /// The code, which stands for the script.
    #[inline(always)]
    pub fn code(&self) -> &TracerCode
        ensures code { result.now ≡ self.now.code }
        ensures stands { StandsFor self.now.code (tree_of self.now.script) }
    {
        &self.code
    }
}
