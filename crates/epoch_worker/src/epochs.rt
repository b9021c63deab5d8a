ghost use Rattle.std.specs.Prelude.{◌≡◌, ◌<◌, ℕ, List, Some, All, length, slice_get, IfOk};

use epoch_core::Post;
use sl_base::Memory;
use std::alloc::Global;

/// Epochs that threads share, each of which runs them with memory of its own. It stands for a list
/// of values, one for each epoch, none of which is `Skipped`.
pub trait Epochs: Sync {
    /// What one worker runs epochs with.
    type Worker: Send + Drop;

    ghost use Rattle.epoch_core.specs.declared.post.PostValue.{PostValue};
    ghost use Rattle.epoch_core.specs.Posts.{IsOwn};

    /// What each epoch comes to, from epoch 0 on.
    ghost values: { Self → List PostValue };

    /// What is known of a worker that runs these epochs.
    ghost stands: { Self → Self.Worker → Type 0 };

    /// The memory of a worker that has run nothing yet.
    fn start(&self, alloc: Global) -> Result<Self::Worker, Memory>
        ensures { IfOk result (stands self.now) };

    /// Runs an epoch, whatever the worker ran before, and gives its post. After an `Err` the worker
    /// is given up.
    fn run(&self, alloc: Global, worker: &mut Self::Worker, epoch: u32) -> Result<Post, Memory>
        requires within { epoch < length (values self.now) }
        requires stands { stands self.now worker.old }
        ensures stands { IfOk result (λ post. stands self.now worker.new) }
        ensures epoch { IfOk result (λ post. post.epoch ≡ epoch) }
        ensures value { IfOk result
            (λ post. slice_get (values self.now) epoch ≡ Some post.value) };

    /// An epoch runs or breaks; it is skipped by a worker alone.
    ghost not_skipped: { (epochs : Self) → All IsOwn (values epochs) };
}
