use sl_base::Seq;

/// How a tracer's call ended.
#[derive(Clone, Copy, Debug, PartialEq, Eq)]
pub enum TracerEnd {
    /// Its body ended or returned.
    Done,
    /// A turn of a loop or a function's entry needed a unit of the budget, and none was left.
    OverBudget,
    /// A call while 32 calls of functions were open.
    TooDeep,
    /// A load at this address touched a byte that is not mapped.
    LoadFault(u32),
    /// A store at this address touched a byte that is not mapped.
    StoreFault(u32),
    /// A store while 4,096 stores were done.
    TooManyStores,
    /// A word was emitted while 256 words stood.
    TooManyWords,
    /// A system call of this number is not for tracers.
    Barred(u32),
    /// The tracer stopped itself with this value.
    User(u32),
}

/// What a tracer left at one place of a run.
#[derive(Debug, Drop)]
pub struct Record {
    /// How many instructions were done before.
    pub count: u64,
    /// The number of the tracepoint in its script, from 0.
    pub point: u32,
    /// The program counter.
    pub pc: u32,
    /// The emitted words, in order.
    pub words: Seq<u32>,
    /// How the tracer ended.
    pub outcome: TracerEnd,
}
