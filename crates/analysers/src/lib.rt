//! Analyses of records: what each kind gives, and how the parts of a run make the whole.
#![tactic(auto)]

mod all_rows;
mod analysis;
mod class;
mod folding;
mod histogram;
mod joining;
mod kind;
mod kind_text;
mod laws;
mod local;
mod merged;
mod numbers;
mod open_records;
mod part;
mod piece_rows;
mod record_words;
mod row;
mod stream;
mod streams;
mod tree;
mod trees;

pub use all_rows::merge_pieces;
pub use analysis::{analyse, push_part};
pub use class::{Class, class_of, tree_of};
pub use folding::{feed_all, fold_records, join_values, push_passing, push_stream};
pub use joining::parts_of;
pub use kind::{Kind, KindOf};
pub use kind_text::read_kind;
pub use laws::{folds_join, kinds_are_plain, streams_go_on, streams_mean, trees_mean};
pub use local::{Local, LocalKind};
pub use merged::Merged;
pub use part::{Bin, Part};
pub use row::Row;
pub use stream::Stream;
pub use streams::{Changes, Open, Rising};
pub use tree::Tree;
pub use trees::TreeKind;
