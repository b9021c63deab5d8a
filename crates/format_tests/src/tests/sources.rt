//! Images, and a source that is too long. Words and faults stand on the page `SOURCES.md` of the crate
//! `transcripts`.

mod images;
mod refused;
