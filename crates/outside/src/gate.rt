//! A place at which claims of epochs can be held up.

/// Is told of each claim of an epoch, by the worker that made it.
pub trait Gate: Sync {
    /// A worker, by its number, has claimed an epoch.
    fn claimed(&self, worker: u32, epoch: u32);
}

/// A gate that holds nothing up.
#[derive(Clone, Copy, Debug)]
pub struct NoGate;

impl Gate for NoGate {
    fn claimed(&self, _worker: u32, _epoch: u32) {}
}
