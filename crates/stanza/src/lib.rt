// Stanza text (document 01, "Stanza text"): the first stanza of a text read, also in pieces, its arguments and an index among them, and a stanza written.
#![tactic(auto)]

mod arguments;
mod indices;
mod parts;
mod places;
mod reading;
mod writing;

pub use arguments::{argument, count, is_graphic, is_same};
pub use indices::read_index;
pub use parts::{arguments_of, body_of, lines_of};
pub use places::{Continued, Place, read_on};
pub use reading::{Stanza, read};
pub use writing::{copy, join, size, write};

// The longest stanza.
pub const LONGEST: usize = 8192;

// What stands before the arguments, "-> ", and with the LF behind them.
pub(crate) const FRONT: usize = 3;

pub(crate) const AROUND: usize = FRONT + 1;
