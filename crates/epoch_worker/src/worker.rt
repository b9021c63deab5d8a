//! What one thread does.

ghost use Rattle.std.specs.Prelude.{◌≡◌, ◌<◌, ◌++◌, true, false, length, Contains, IfOk};
ghost use Rattle.epoch_board.specs.Seats.{new_seat};
ghost use Rattle.epoch_worker.specs.Work.{smaller, IsDueBelow, broken_of, HasFinishedFrom, HasFinished};

use crate::epochs::Epochs;
use epoch_board::{Board, BoardSeat};
use epoch_core::{Post, PostValue};
use outside::Gate;
use sl_base::Memory;
use std::alloc::Global;

/// What a worker has once it was told that no epoch is left.
#[derive(Drop)]
pub struct Worked {
    /// Its seat.
    pub seat: BoardSeat,
    /// The posts of the epochs that it claimed, in order.
    pub tray: Vec<Post>,
}

/// The epoch that a load of the least break gave, where it is smaller than `epoch`.
fn smaller(low: Option<u32>, epoch: u32) -> Option<u32>
    ensures { result ≡ smaller low epoch }
{
    let low = low?;
    if low < epoch { Some(low) } else { None }
}

/// The post of an epoch: skipped, where a smaller epoch is known to have broken, or run.
fn post_of<P: Epochs>(
    alloc: Global,
    epochs: &P,
    worker: &mut P::Worker,
    epoch: u32,
    below: Option<u32>,
) -> Result<Post, Memory>
    requires within { epoch < length (P.values epochs.now) }
    requires stands { P.stands epochs.now worker.old }
    ensures stands { IfOk result (λ post. P.stands epochs.now worker.new) }
    ensures epoch { IfOk result (λ post. post.epoch ≡ epoch) }
    ensures due { IfOk result (IsDueBelow (P.values epochs.now) epoch below) }
{
    match below {
        None => epochs.run(alloc, worker, epoch),
        Some(below) => Ok(Post {
            epoch,
            value: PostValue::Skipped { below },
        }),
    }
}

/// Tells the board of an epoch that broke.
fn tell_break(board: &Board, seat: &mut BoardSeat, post: &Post)
    requires own { seat.old.board ≡ board.now }
    requires claimed { Contains seat.old.claims post.now.epoch }
    ensures { seat.new ≡ record seat.old { breaks = seat.old.breaks ++ broken_of post.now } }
{
    match post.value {
        PostValue::Broke(_) => board.lower(seat, post.epoch),
        PostValue::Ran { .. } | PostValue::Skipped { .. } => {}
    }
}

/// Claims epochs until none is left, and posts each. The gate is told of each claim, with the
/// worker's number, before its epoch is run. After each claim the least known break is read once,
/// and the epoch is skipped where that is a smaller one; of an epoch that broke the board is told
/// before it is posted. The seat may have any share and any past, but not been told yet that no
/// epoch is left.
///
/// # Errors
///
/// Want of memory. The seat is given up, and so the board can't be closed.
pub fn work<P: Epochs, G: Gate>(
    alloc: Global,
    epochs: &P,
    board: &Board,
    mut seat: BoardSeat,
    number: u32,
    gate: &G,
) -> Result<Worked, Memory>
    requires epochs { board.now.epochs ≡ length (P.values epochs.now) }
    requires own { seat.board ≡ board.now }
    requires not_told { seat.told ≡ false }
    ensures added { IfOk result (HasFinishedFrom (P.values epochs.now) seat) }

    // A seat that began with nothing.
    ensures anew { seat ≡ new_seat board.now seat.share false
        → IfOk result (HasFinished (P.values epochs.now) board.now seat.share) }
{
    let mut worker = epochs.start(alloc)?;
    let mut tray = Vec::new(alloc);
    while let Some(epoch) = board.claim(&mut seat) {
        gate.claimed(number, epoch);
        let below = smaller(board.low(&mut seat), epoch);
        let post = post_of(alloc, epochs, &mut worker, epoch, below)?;
        tell_break(board, &mut seat, &post);
        tray.push(post)?;
    }
    Ok(Worked { seat, tray })
}
