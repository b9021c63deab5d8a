ghost use Rattle.std.specs.Prelude.{◌≡◌};
ghost use Rattle.epoch_core.specs.Schedule.{is_idle};

use crate::post::Post;
use sl_base::Seq;

/// What one worker has.
#[derive(Debug, Drop)]
pub struct Seat {
    /// The epoch that it holds.
    pub held: Option<u32>,
    /// Whether it found that no epoch is left.
    pub has_left: bool,
    /// What it posted, in order.
    pub tray: Seq<Post>,
}

impl Seat {
    /// Whether the worker holds no epoch and has not left.
    pub fn is_idle(&self) -> bool
        ensures { result ≡ is_idle self.now }
    {
        !self.has_left && self.held.is_none()
    }
}
