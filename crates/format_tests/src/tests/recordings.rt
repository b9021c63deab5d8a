//! Recordings whose bytes and values were worked by hand from the table of the format.

mod accepted;
mod files;
mod fronts;
mod large;
mod values;
