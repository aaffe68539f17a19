// The commands of phase two, as both ends read and write them.
#![tactic(auto)]

mod commands;

pub use commands::{CommandTwo, Named, parse_two, put_line_two, word_two_of};
