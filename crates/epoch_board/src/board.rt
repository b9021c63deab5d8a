//! The board and its seats.

ghost use Rattle.std.specs.Prelude.{◌≡◌, ℕ, ◌+◌, ◌-◌, ◌<◌, ◌≤◌, true, false, [], ◌∷◌, ◌++◌, Some, IfOk, IfSome, IfNone, All, Contains};
ghost use Rattle.epoch_board.specs.Seats.{new_seat, joined, epochs_left};
ghost use Rattle.epoch_board.specs.Rule.{times};
ghost use Rattle.epoch_board.specs.Views.{epoch_of};

use crate::plays::{Claim, Claims, Look, Lower, Merged, Parted};
use crate::view::{NO_EPOCH, Size, View};
use atomic_table::{Seat, Table};
use sl_base::Memory;
use std::alloc::Global;
use std::marker::Model;

/// The word that is the next number.
const NEXT: usize = 0;

/// The word that is the least epoch with a known break.
const LEAST: usize = 1;

/// A board of epochs that seats claim, from 0 on. Threads share it by reference, and each claims
/// with a seat of its own. It is seen as its identity, with its numbers of epochs and seats.
#[derive(Drop)]
pub struct Board {
    table: Table<(), View, Size, Claims, Global>,
    epochs: u32,
}

impl Model for Board {
    ghost use Rattle.std.specs.Prelude.{◌≡◌};
    ghost use Rattle.epoch_board.specs.Seats.{BoardId};

    ghost Value = { BoardId };

    ghost view = { λ b. record {
      table = b.table.shared.table_id;
      epochs = b.table.shared.key.epochs;
      seats = b.table.shared.key.seats;
    } };

    ghost invariant = { λ b.
        (b.table.shared.table_id.words ≡ 2) × (b.table.shared.table_id.slots ≡ 0)
        × (b.epochs ≡ b.table.shared.key.epochs) };
}

/// The right to claim epochs from a board, with what was claimed so far. It has no bytes. It is
/// seen as its board, its share of the seats that can be made, its claims, its breaks, what it read
/// as the least break, and whether it was told that no epoch is left.
#[derive(Drop)]
pub struct BoardSeat {
    seat: Seat<(), View>,
}

impl Model for BoardSeat {
    ghost use Rattle.std.specs.Prelude.{◌≡◌, ◌<◌, []};
    ghost use Rattle.epoch_board.specs.Seats.{SeatState};
    ghost use Rattle.epoch_board.specs.Views.{seat_of};

    ghost Value = { SeatState };

    ghost view = { λ s. seat_of s.seat.table_id s.seat.me.0 };

    ghost invariant = { λ s. (0 < s.seat.me.0.share) × (s.seat.me.1 ≡ []) };
}

impl Board {
    /// A board of this many epochs, and its first seat, from which `seats - 1` more can be split.
    pub fn new(alloc: Global, epochs: u32, seats: u32) -> Result<(Board, BoardSeat), Memory>
        requires { 1 ≤ seats }
        ensures board { IfOk result (λ made. (made.0.epochs ≡ epochs) × (made.0.seats ≡ seats)) }
        ensures seat { IfOk result (λ made. made.1 ≡ new_seat made.0 seats false) }
    {
        let (table, seat) = Table::of_words(alloc, &[0, NO_EPOCH], &Size { epochs, seats })?;
        Ok((Board { table, epochs }, BoardSeat { seat }))
    }

    /// The epoch that a word names; `None` exactly where it is at least the epochs.
    fn epoch_of(&self, word: u64) -> Option<u32>
        ensures { result ≡ epoch_of self.now.epochs word }
    {
        if word < u64::from(self.epochs) {
            Some(word as u32)
        } else {
            None
        }
    }

    /// One more seat of this board, which takes 1 of the seat's share. It has claimed nothing.
    pub fn split(&self, seat: &mut BoardSeat) -> BoardSeat
        requires own { seat.old.board ≡ self.now }
        requires share { 2 ≤ seat.old.share }
        ensures kept { seat.new ≡ record seat.old { share = seat.old.share - 1 } }
        ensures made { result ≡ new_seat self.now 1 seat.old.told }
    {
        let made = self.table.shared.split_seat::<Parted>(&mut seat.seat);
        BoardSeat { seat: made }
    }

    /// Claims the next epoch, which is above each epoch that the seat claimed before. `None`
    /// exactly where the number drawn is at least the epochs; then the seat was told that none is
    /// left.
    pub fn claim(&self, seat: &mut BoardSeat) -> Option<u32>
        requires own { seat.old.board ≡ self.now }
        requires not_told { seat.old.told ≡ false }
        ensures epoch { IfSome result (λ k. k < self.now.epochs) }
        ensures rising { IfSome result (λ k. All (λ c. c < k) seat.old.claims) }
        ensures fewer { IfSome result (λ _. epochs_left seat.new < epochs_left seat.old) }
        ensures claimed { IfSome result
            (λ k. seat.new ≡ record seat.old { claims = seat.old.claims ++ k ∷ [] }) }
        ensures told { IfNone result (seat.new ≡ record seat.old { told = true }) }
    {
        let words = &self.table.shared;
        let drawn = words.fetch_add::<Claim>(&mut seat.seat, NEXT, 1);
        self.epoch_of(drawn)
    }

    /// The least epoch that was said to have broken; `None` exactly where the word that was read
    /// names none.
    pub fn low(&self, seat: &mut BoardSeat) -> Option<u32>
        requires { seat.old.board ≡ self.now }
        ensures epoch { IfSome result (λ k. k < self.now.epochs) }
        ensures seen { seat.new ≡ record seat.old { seen = seat.old.seen ++ result ∷ [] } }
    {
        let words = &self.table.shared;
        let word = words.load::<Look>(&mut seat.seat, LEAST);
        self.epoch_of(word)
    }

    /// Says that an epoch that the seat claimed broke.
    pub fn lower(&self, seat: &mut BoardSeat, k: u32)
        requires own { seat.old.board ≡ self.now }
        requires claimed { Contains seat.old.claims k }
        ensures { seat.new ≡ record seat.old { breaks = seat.old.breaks ++ k ∷ [] } }
    {
        let words = &self.table.shared;
        let epoch = u64::from(k);
        words.fetch_min::<Lower>(&mut seat.seat, LEAST, epoch);
    }

    /// The seat takes in another seat of this board, with its share and all that it did.
    pub fn join(&self, seat: &mut BoardSeat, other: BoardSeat)
        requires own { seat.old.board ≡ self.now }
        requires other { other.board ≡ self.now }
        ensures { seat.new ≡ joined seat.old other }
    {
        let BoardSeat { seat: other } = other;
        self.table.shared.join_seat::<Merged>(&mut seat.seat, other);
    }

    /// Ends the board, with the seat that all others were joined to: no epoch was claimed twice;
    /// where the seat was told, each was claimed; and each epoch that was read as the least break
    /// was said to have broken.
    pub fn close(self, seat: BoardSeat)
        requires own { seat.board ≡ self }
        requires all { seat.share ≡ self.seats }
        ensures within { All (λ k. k < self.epochs) seat.claims }
        ensures once { (k : ℕ) → times k seat.claims ≤ 1 }
        ensures whole { seat.told ≡ true → (k : ℕ) → k < self.epochs → times k seat.claims ≡ 1 }
        ensures read { (k : ℕ) → Contains seat.seen (Some k) → Contains seat.breaks k }
    {
        let BoardSeat { seat } = seat;
        let Board { table, epochs: _ } = self;
        table.close_with(seat).free();
    }
}
