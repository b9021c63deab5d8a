//! What all threads did together.

ghost use Rattle.std.specs.Prelude.{◌≡◌, ◌≤◌, true, All, vec_len, IfOk};
ghost use Rattle.epoch_worker.specs.Work.{HasFinished};

use crate::epochs::Epochs;
use crate::worker::Worked;
use epoch_board::Board;
use sl_base::Memory;

/// Joins all seats and all trays.
pub(crate) fn join_all<P: Epochs>(
    _epochs: &P,
    board: &Board,
    mut all: Vec<Result<Worked, Memory>>,
) -> Result<Worked, Memory>
    requires some { 1 ≤ vec_len all }
    requires each { All
        (λ r. IfOk r (HasFinished (P.values _epochs.now) board.now 1))
        all.items }
    ensures { IfOk result (HasFinished (P.values _epochs.now) board.now (vec_len all)) }
{
    let Some(first) = all.pop() else {
        unreachable!()
    };
    let Worked { mut seat, mut tray } = first?;
    while let Some(next) = all.pop() {
        let Worked {
            seat: other,
            tray: mut posts,
        } = next?;
        board.join(&mut seat, other);
        tray.append(&mut posts)?;
    }
    Ok(Worked { seat, tray })
}
