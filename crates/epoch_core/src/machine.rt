//! The state of all workers, changed by one event at a time.

ghost use Rattle.std.specs.Prelude.{◌≡◌, Some, map, OnOk, OnErr, IfOk};
ghost use Rattle.epoch_core.specs.Schedule.{start, holds, claim, posted, finished, skip, leave, low_after, trays_of};

use crate::post::{Post, PostValue};
use crate::seat::Seat;
use sl_base::{Memory, Seq};
use std::alloc::Global;
use std::marker::Model;

/// The next number, the least epoch that is known to have broken, and what each worker has.
#[derive(Debug, Drop)]
pub struct CoreMachine {
    next: u64,
    low: Option<u32>,
    seats: Vec<Seat>,
}

impl Model for CoreMachine {
    ghost use Rattle.std.specs.Prelude.{◌+◌, ◌^◌, ◌<◌, ◌≤◌, length, count_by};
    ghost use Rattle.epoch_core.specs.Schedule.{CoreState};

    ghost Value = { CoreState };

    ghost view = { λ m. record { next = m.next; low = m.low; seats = m.seats.items } };

    // Each worker leaves once, so the next number fits.
    ghost invariant = { λ m. (m.next ≤ 2 ^ 32 + count_by (λ seat. seat.has_left) m.seats.items)
        × (length m.seats.items < 2 ^ 32) };
}

impl CoreMachine {
    /// So many workers, none of which has claimed anything.
    pub fn new(alloc: Global, workers: u32) -> Result<CoreMachine, Memory>
        ensures { IfOk result (λ machine. machine ≡ start workers) }
    {
        let mut seats = Vec::new(alloc);
        for _ in 0..workers {
            seats.push(Seat {
                held: None,
                has_left: false,
                tray: Seq::new(alloc),
            })?;
        }
        Ok(CoreMachine {
            next: 0,
            low: None,
            seats,
        })
    }

    /// The epoch that a worker holds; `None` also for a number that no worker has.
    pub fn held(&self, worker: u32) -> Option<u32>
        ensures { result ≡ holds self.now worker }
    {
        self.seats.get(worker as usize)?.held
    }

    /// An idle worker takes the next number, where it is below the epochs.
    pub fn claim(&mut self, epochs: u32, worker: u32)
        ensures { self.new ≡ claim epochs self.old worker }
    {
        let at = worker as usize;
        if self.next < u64::from(epochs) && at < self.seats.len() && self.seats[at].is_idle() {
            self.seats[at].held = Some(self.next as u32);
            self.next += 1;
        }
    }

    /// Puts a post into a worker's tray, and the worker holds no epoch. An `Err` changes nothing.
    fn put(&mut self, worker: u32, post: Post) -> Result<(), Memory>
        ensures ok { OnOk result (self.new ≡ posted self.old worker post) }
        ensures err { OnErr result (self.new ≡ self.old) }
    {
        let at = worker as usize;
        if at < self.seats.len() {
            let seat = &mut self.seats[at];
            seat.tray.push(post)?;
            seat.held = None;
        }
        Ok(())
    }

    /// Takes the post of the epoch that a worker held. An `Err` changes nothing.
    pub fn finish(&mut self, worker: u32, post: Post) -> Result<(), Memory>
        ensures ok { OnOk result (self.new ≡ finished self.old worker post) }
        ensures err { OnErr result (self.new ≡ self.old) }
    {
        let low = low_after(self.low, post.epoch, &post.value);
        self.put(worker, post)?;
        self.low = low;
        Ok(())
    }

    /// A worker posts the epoch that it holds as skipped, where a smaller one is known to have
    /// broken. An `Err` changes nothing.
    pub fn skip(&mut self, worker: u32) -> Result<(), Memory>
        ensures ok { OnOk result (self.new ≡ skip self.old worker) }
        ensures err { OnErr result (self.new ≡ self.old) }
    {
        let Some(epoch) = self.held(worker) else {
            return Ok(());
        };
        let Some(below) = self.low else {
            return Ok(());
        };
        if below < epoch {
            self.put(
                worker,
                Post {
                    epoch,
                    value: PostValue::Skipped { below },
                },
            )?;
        }
        Ok(())
    }

    /// An idle worker draws a number that is no epoch's, and has left.
    pub fn leave(&mut self, epochs: u32, worker: u32)
        ensures { self.new ≡ leave epochs self.old worker }
    {
        let at = worker as usize;
        if self.next >= u64::from(epochs) && at < self.seats.len() && self.seats[at].is_idle() {
            self.seats[at].has_left = true;
            self.next += 1;
        }
    }

    /// The trays, by worker.
    pub fn into_trays(self, alloc: Global) -> Result<Seq<Seq<Post>>, Memory>
        ensures { IfOk result (λ trays. trays ≡ trays_of self) }
    {
        let trays = self.seats.into_iter().map(|seat| seat.tray).collect(alloc)?;
        Ok(Seq::from_vec(trays))
    }
}

/// The least known break, once an epoch came to this value.
fn low_after(low: Option<u32>, epoch: u32, value: &PostValue) -> Option<u32>
    ensures { result ≡ low_after low epoch value.now }
{
    match value {
        PostValue::Broke(_) => Some(low.map_or(epoch, |least| least.min(epoch))),
        PostValue::Ran { .. } | PostValue::Skipped { .. } => low,
    }
}
