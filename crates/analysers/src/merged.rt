//! What all analyses give.

use crate::row::Row;
use sl_base::Seq;

/// The rows of each analysis over all records, in the order of the analyses.
#[derive(Debug, Drop)]
pub struct Merged {
    pub rows: Seq<Seq<Row>>,
}
