use sl_base::{Seq, Symbol};

/// A range of memory that is loaded with bytes.
#[derive(Debug, Drop)]
pub struct Segment {
    /// The address of its first byte.
    pub vaddr: u32,
    /// How many bytes of memory it takes. Those past `bytes` are zeros.
    pub memsz: u32,
    /// The bytes at its start.
    pub bytes: Seq<u8>,
}

/// A program as it is loaded.
#[derive(Debug, Drop)]
pub struct Image {
    /// The address of the first instruction.
    pub entry: u32,
    /// What is loaded.
    pub segments: Seq<Segment>,
    /// The program's names, in the order of its symbol table.
    pub symbols: Seq<Symbol>,
}
