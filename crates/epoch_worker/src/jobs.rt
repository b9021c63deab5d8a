//! What each thread begins with.

ghost use Rattle.std.specs.Prelude.{◌≡◌, ◌≤◌, false, All, vec_len, IfOk};
ghost use Rattle.epoch_board.specs.Seats.{new_seat};

use epoch_board::{Board, BoardSeat};
use sl_base::Memory;
use std::alloc::Global;

/// What a worker begins with.
#[derive(Drop)]
pub(crate) struct Job {
    /// Its seat, which has claimed nothing.
    pub(crate) seat: BoardSeat,
    /// Its number, from 0.
    pub(crate) number: u32,
}

/// A job for each seat that can be made of the board.
pub(crate) fn jobs_of(
    alloc: Global,
    board: &Board,
    mut seat: BoardSeat,
    seats: u32,
) -> Result<Vec<Job>, Memory>
    requires some { 1 ≤ seats }
    requires first { seat ≡ new_seat board.now seats false }
    ensures count { IfOk result (λ jobs. vec_len jobs ≡ seats) }
    ensures each { IfOk result (λ jobs.
        All (λ job. job.seat ≡ new_seat board.now 1 false) jobs.items) }
{
    let mut jobs = Vec::new(alloc);
    for number in 1..seats {
        jobs.push(Job {
            seat: board.split(&mut seat),
            number,
        })?;
    }
    jobs.push(Job { seat, number: 0 })?;
    Ok(jobs)
}
