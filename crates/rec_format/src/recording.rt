use call_log::{CallEntry, End};
use sl_base::Seq;

/// A page of 4,096 bytes as a checkpoint lists it.
#[derive(Debug, Drop)]
pub struct ListedPage {
    /// The page's number: its address divided by 4,096.
    pub number: u32,
    /// The page's bytes at the checkpoint.
    pub bytes: Seq<u8>,
}

/// The state of the machine after some instructions, with the pages that changed since the
/// checkpoint before.
#[derive(Debug, Drop)]
pub struct CheckpointData {
    /// How many instructions were done.
    pub count: u64,
    /// The program counter.
    pub pc: u32,
    /// The registers x1 to x31.
    pub x: [u32; 31],
    /// The break, the end of the heap that the program asked for.
    pub brk: u32,
    /// The end of the mapped heap.
    pub brk_end: u32,
    /// The index of the next call.
    pub next_call: u32,
    /// The listed pages, by rising number.
    pub pages: Seq<ListedPage>,
}

/// A recorded run.
#[derive(Debug, Drop)]
pub struct Recording {
    /// The kind of the image: 0 flat, 1 ELF32.
    pub kind: u32,
    /// The address that a flat image is loaded at; 0 for ELF32.
    pub load_addr: u32,
    /// The image's bytes.
    pub image: Seq<u8>,
    /// The program's arguments, each without its closing zero byte.
    pub args: Seq<Seq<u8>>,
    /// The answered system calls, in order.
    pub calls: Seq<CallEntry>,
    /// The checkpoints before the end, by rising count.
    pub checkpoints: Seq<CheckpointData>,
    /// How the run ended.
    pub end: End,
    /// The checkpoint at the end.
    pub last: CheckpointData,
}
