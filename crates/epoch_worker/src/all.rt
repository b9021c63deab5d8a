//! All epochs, by threads.

ghost use Rattle.std.specs.Prelude.{◌≡◌, true, false, All, length, vec_len, IfOk};
ghost use Rattle.epoch_board.specs.Seats.{new_seat};
ghost use Rattle.epoch_core.specs.Posts.{Posted};
ghost use Rattle.epoch_worker.specs.Work.{HasFinished};

use crate::epochs::Epochs;
use crate::jobs::{Job, jobs_of};
use crate::joining::join_all;
use crate::worker::{Worked, work};
use epoch_board::Board;
use epoch_core::Post;
use outside::Gate;
use sl_base::Memory;
use std::alloc::Global;
use std::thread;
use std::thread::Threads;

/// Does each job in a thread of its own, where one can be had.
fn work_in_threads<R: Threads + Sync, P: Epochs, G: Gate>(
    rt: &R,
    alloc: Global,
    epochs: &P,
    board: &Board,
    jobs: Vec<Job>,
    gate: &G,
) -> Result<Vec<Result<Worked, Memory>>, Memory>
    requires epochs { board.now.epochs ≡ length (P.values epochs.now) }
    requires seats { All (λ job. job.seat ≡ new_seat board.now 1 false) jobs.items }
    ensures count { IfOk result (λ all. vec_len all ≡ vec_len jobs) }
    ensures each { IfOk result (λ all. All
        (λ r. IfOk r (HasFinished (P.values epochs.now) board.now 1))
        all.items) }
{
    let all = thread::map_vec(
        rt,
        jobs,
        &|job: Job| -> Result<Worked, Memory>
            requires epochs { board.now.epochs ≡ length (P.values epochs.now) }
            requires seat { job.seat ≡ new_seat board.now 1 false }
            ensures { IfOk result
                (HasFinished (P.values epochs.entry.now) board.entry.now 1) }
        {
            let Job { seat, number } = job;
            work(alloc, epochs, board, seat, number, gate)
        },
    )?;
    Ok(all)
}

/// Runs all epochs by so many workers, and gives their posts: each epoch has one post, with its
/// value, or skipped below a smaller epoch that broke. There is one worker at least, and no more
/// than there are epochs. Each claims epochs in a thread of its own; where none can be had, the
/// workers that there are do the same. The gate is told of each claim before its epoch is run.
///
/// # Errors
///
/// Want of memory. No thread is left.
pub fn run_all<R: Threads + Sync, P: Epochs, G: Gate>(
    rt: &R,
    alloc: Global,
    epochs: &P,
    count: u32,
    workers: u32,
    gate: &G,
) -> Result<Vec<Post>, Memory>
    requires { length (P.values epochs.now) ≡ count }
    ensures { IfOk result (λ posts. Posted (P.values epochs.now) posts.items) }
{
    let seats = workers.min(count).max(1);
    let (board, seat) = Board::new(alloc, count, seats)?;
    let jobs = jobs_of(alloc, &board, seat, seats)?;
    let all = work_in_threads(rt, alloc, epochs, &board, jobs, gate)?;
    let Worked { seat, tray } = join_all(epochs, &board, all)?;
    board.close(seat);
    Ok(tray)
}
