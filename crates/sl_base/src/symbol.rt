use crate::seq::Seq;

/// A name in a program, and what it stands for.
#[derive(Debug, PartialEq, Eq, Drop)]
pub struct Symbol {
    /// The name's bytes.
    pub name: Seq<u8>,
    /// The value, mostly an address.
    pub value: u32,
}
