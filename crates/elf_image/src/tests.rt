//! Images and files, worked out from the tables of the ELF documents.

mod flat;
mod written;
