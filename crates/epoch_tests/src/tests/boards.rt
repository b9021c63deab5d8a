//! Threads that share a board, each with a seat of its own.

ghost use Rattle.std.specs.Prelude.{◌≡◌, ℕ, ◌<◌, ◌≤◌, true, false, [], IfOk, All, vec_len};
ghost use Rattle.epoch_board.specs.Seats.{IsSeatOf};
ghost use Rattle.epoch_board.specs.Rule.{times};

use epoch_board::{Board, BoardSeat};
use sl_base::Memory;
use std::alloc::Global;
use std::mem::size_of;
use std::test::Fail;
use std::thread;
use std::thread::Threads;

/// The least epoch that breaks, where there are so many; every seventh from it on breaks too.
const FIRST_BREAK: u32 = 3;

/// A seat that was told that no epoch is left, the epochs that it claimed, and the breaks that it
/// read.
#[derive(Drop)]
struct Done {
    seat: BoardSeat,
    epochs: Vec<u32>,
    lows: Vec<u32>,
}

/// What all threads did, and the least break that the board then names.
#[derive(Drop)]
struct Gathered {
    seat: BoardSeat,
    epochs: Vec<u32>,
    lows: Vec<u32>,
    low: Option<u32>,
}

fn split_all(
    alloc: Global,
    board: &Board,
    mut seat: BoardSeat,
    seats: u32,
) -> Result<Vec<BoardSeat>, Memory>
    requires some { 1 ≤ seats }
    requires first { IsSeatOf board.now seats false [] seat }
    ensures count { IfOk result (λ all. vec_len all ≡ seats) }
    ensures each { IfOk result (λ all. All (IsSeatOf board.now 1 false []) all.items) }
{
    let mut all = Vec::new(alloc);
    for _ in 1..seats {
        all.push(board.split(&mut seat))?;
    }
    all.push(seat)?;
    Ok(all)
}

fn claim_all(
    alloc: Global,
    board: &Board,
    mut seat: BoardSeat,
    breaks: bool,
) -> Result<Done, Memory>
    requires { IsSeatOf board.now 1 false [] seat }
    ensures { IfOk result (λ done. IsSeatOf board.now 1 true done.epochs.items done.seat) }
{
    let mut epochs = Vec::new(alloc);
    let mut lows = Vec::new(alloc);
    while let Some(epoch) = board.claim(&mut seat) {
        epochs.push(epoch)?;
        if let Some(low) = board.low(&mut seat) {
            lows.push(low)?;
        }
        if breaks && epoch % 7 == FIRST_BREAK {
            board.lower(&mut seat, epoch);
        }
    }
    Ok(Done { seat, epochs, lows })
}

fn claim_in_threads<R: Threads + Sync>(
    rt: &R,
    alloc: Global,
    board: &Board,
    seats: Vec<BoardSeat>,
    breaks: bool,
) -> Result<Vec<Result<Done, Memory>>, Memory>
    requires { All (IsSeatOf board.now 1 false []) seats.items }
    ensures count { IfOk result (λ all. vec_len all ≡ vec_len seats) }
    ensures each { IfOk result (λ all. All
        (λ r. IfOk r (λ done. IsSeatOf board.now 1 true done.epochs.items done.seat))
        all.items) }
{
    let all = thread::map_vec(
        rt,
        seats,
        &|seat: BoardSeat| -> Result<Done, Memory>
            requires { IsSeatOf board.now 1 false [] seat }
            ensures { IfOk result
                (λ done. IsSeatOf board.entry.now 1 true done.epochs.items done.seat) }
        { claim_all(alloc, board, seat, breaks) },
    )?;
    Ok(all)
}

fn join_all(board: &Board, mut all: Vec<Result<Done, Memory>>) -> Result<Gathered, Memory>
    requires some { 1 ≤ vec_len all }
    requires each { All
        (λ r. IfOk r (λ done. IsSeatOf board.now 1 true done.epochs.items done.seat))
        all.items }
    ensures { IfOk result
        (λ done. IsSeatOf board.now (vec_len all) true done.epochs.items done.seat) }
{
    let Some(first) = all.pop() else {
        unreachable!()
    };
    let Done {
        mut seat,
        mut epochs,
        mut lows,
    } = first?;
    while let Some(next) = all.pop() {
        let Done {
            seat: other,
            epochs: claimed,
            lows: read,
        } = next?;
        epochs.extend_from_slice(claimed.as_slice())?;
        lows.extend_from_slice(read.as_slice())?;
        board.join(&mut seat, other);
    }
    let low = board.low(&mut seat);
    Ok(Gathered {
        seat,
        epochs,
        lows,
        low,
    })
}

/// What the threads claimed and read, and the least break: each epoch was claimed once.
fn run<R: Threads + Sync>(
    rt: &R,
    alloc: Global,
    epochs: u32,
    seats: u32,
    breaks: bool,
) -> Result<(Vec<u32>, Vec<u32>, Option<u32>), Memory>
    requires { 1 ≤ seats }
    ensures within { IfOk result (λ done. All (λ k. k < epochs) done.0.items) }
    ensures once { IfOk result (λ done. (k : ℕ) → k < epochs → times k done.0.items ≡ 1) }
{
    let (board, seat) = Board::new(alloc, epochs, seats)?;
    let all = split_all(alloc, &board, seat, seats)?;
    let all = claim_in_threads(rt, alloc, &board, all, breaks)?;
    let done = join_all(&board, all)?;
    board.close(done.seat);
    Ok((done.epochs, done.lows, done.low))
}

#[test]
fn threads_claim_each_epoch_once(rt: HostRuntime) -> Result<(), Fail> {
    let rows = [
        (1, 1),
        (1, 4096),
        (2, 1),
        (2, 4096),
        (16, 0),
        (16, 3),
        (16, 4),
        (16, 4096),
    ];
    for (seats, epochs) in rows {
        for breaks in [false, true] {
            assert!(rt; seats >= 1);
            let (claims, lows, low) = run(&rt, rt.alloc(), epochs, seats, breaks)?;
            let mut claimed = vec![in rt.alloc(); 0u32; epochs as usize]?;
            for epoch in claims.iter() {
                let epoch = *epoch as usize;
                assert!(rt; epoch < claimed.len());
                claimed[epoch] = claimed[epoch].wrapping_add(1);
            }
            assert!(rt;
                claimed.iter().all(|times| *times == 1),
                "{seats} seats, {epochs} epochs"
            );
            let broken = breaks && epochs > FIRST_BREAK;
            assert_eq!(rt; low, if broken { Some(FIRST_BREAK) } else { None });
            assert!(rt;
                lows.iter()
                    .all(|low| broken && *low % 7 == FIRST_BREAK && *low < epochs)
            );
        }
    }
    Ok(())
}

fn is_shared_and_sent<T: Sync, U: Send>(_shared: &T, _sent: &U) {}

#[test]
fn threads_may_share_a_board_and_take_a_seat(rt: HostRuntime) -> Result<(), Fail> {
    let (board, seat) = Board::new(rt.alloc(), 1, 1)?;
    is_shared_and_sent(&board, &seat);
    assert_eq!(rt; size_of::<BoardSeat>(), 0);
    Ok(())
}
