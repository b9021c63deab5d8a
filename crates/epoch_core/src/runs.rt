ghost use Rattle.std.specs.Prelude.{◌≡◌, ◌<◌, ℕ, List, Some, All, length, slice_get, OnOk, IfOk};

use crate::post::Post;
use sl_base::Memory;
use std::alloc::Global;

/// What runs epochs. It stands for a list of values, one for each epoch, none of which is
/// `Skipped`.
pub trait Runs {
    ghost use Rattle.epoch_core.specs.declared.post.PostValue.{PostValue};
    ghost use Rattle.epoch_core.specs.Posts.{IsOwn};

    /// What each epoch comes to, from epoch 0 on.
    ghost values: { Self → List PostValue };

    /// Runs an epoch and gives its post. After an `Err` the object is given up.
    fn run(&mut self, alloc: Global, epoch: u32) -> Result<Post, Memory>
        requires { epoch < length (values self.old) }
        ensures epoch { IfOk result (λ post. post.epoch ≡ epoch) }
        ensures value { IfOk result (λ post. slice_get (values self.old) epoch ≡ Some post.value) }
        ensures same { OnOk result (values self.new ≡ values self.old) };

    /// An epoch runs or breaks; it is skipped by a worker alone.
    ghost not_skipped: { (runs : Self) → All IsOwn (values runs) };
}
