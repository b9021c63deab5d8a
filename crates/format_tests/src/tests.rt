//! By what is read, written or made of records.

mod analyses;
mod calls;
mod recordings;
mod reports;
mod sources;
mod tokens;
mod words;
