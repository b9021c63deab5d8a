/// One action of one worker, which each variant names by its number, from 0.
#[derive(Clone, Copy, Debug, PartialEq, Eq)]
pub enum CoreEvent {
    /// A worker that holds no epoch takes the next one.
    Claim(u32),
    /// A worker posts the epoch that it holds.
    Finish(u32),
    /// A worker posts the epoch that it holds as skipped, since a smaller one is known to have
    /// broken.
    Skip(u32),
    /// A worker that holds no epoch finds that none is left.
    Leave(u32),
}
