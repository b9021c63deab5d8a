//! The store that a machine stands before.

ghost use Rattle.std.specs.Prelude.{◌≡◌};
ghost use Rattle.sl_model.specs.NextStore.{next_store};
ghost use Rattle.rv_machine.specs.Machine.{state_of};

use crate::arithmetic;
use crate::execute::address;
use crate::machine::Machine;
use rv_decode::decode;
use sl_model::{Bus, Instr};

/// The address and the width of the store at pc, also where it will trap. `None` comes exactly
/// where pc is no multiple of 4, a byte there is not mapped, or the word there is no store.
#[tactic(auto, unfolding(sl_model::specs::NextStore::next_store))]
pub fn store_of<B: Bus>(m: &Machine, bus: &B) -> Option<(u32, u8)>
    ensures { result ≡ next_store (state_of m.now (B.pages bus.now)) }
{
    if m.pc % 4 != 0 {
        return None;
    }
    let word = bus.load(m.pc, 4)?;
    let instr = decode(word)?;
    let Instr::Store {
        op,
        rs1,
        offset,
        ..
    } = instr
    else {
        return None;
    };
    Some((address(m, rs1, offset), arithmetic::store_width(op)))
}
