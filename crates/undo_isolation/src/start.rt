//! The machine at the start of a tracer.

ghost use Rattle.std.specs.Prelude.{◌≡◌, ◌+◌, ◌*◌, ◌<◌, ◌^◌};
ghost use Rattle.sl_model.specs.declared.bank.TheConstants.{CODE_START};
ghost use Rattle.sl_model.specs.Pages.{Pages};
ghost use Rattle.sl_model.specs.Bank.{bank_start, copied_words};
ghost use Rattle.rv_machine.specs.Machine.{state_of};

use rv_machine::Machine;
use sl_model::{CODE_START, RunState};

/// The words of a machine that a tracer reads.
pub(crate) fn copied_words(m: &Machine) -> [u32; 37]
    ensures { (pages : Pages) → result ≡ copied_words (state_of m.now pages) }
{
    let mut words = [0; 37];
    words[..32].copy_from_slice(&m.x);
    words[32] = m.pc;
    words[33] = m.layout.brk_start;
    words[34] = m.layout.heap_limit;
    words[35] = m.brk;
    words[36] = m.brk_end;
    words
}

/// Sets a machine to the start of a tracer, which is a word of the code.
pub(crate) fn start_at(m: &mut Machine, place: u32)
    requires { CODE_START + 4 * place < 2 ^ 32 }
    ensures { (memory pages : Pages)
        → state_of m.new memory ≡ bank_start place memory (state_of m.old pages) }
{
    m.pc = CODE_START + 4 * place;
    m.x = [0; 32];
    m.status = RunState::Running;
    m.count = 0;
}
