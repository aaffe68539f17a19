// Old identity files (document 02, No. 8): read line by line, and the identities in them written as commands of phase one.
#![tactic(auto)]

mod lines;
mod reading;
mod survey;
mod writing;

pub use reading::{Reading, read};

// The most identities that a file may have, and the most invalid lines that are listed.
pub const MOST_IDENTITIES: usize = 64;

pub const MOST_FAULTS: usize = 64;
