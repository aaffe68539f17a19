// The lines that the replay program prints, in an output buffer of which the first `at` bytes are in use. Each function answers the next `at`; a piece that
// does not fit is left out. It writes to no file.
#![tactic(auto)]

mod page;
mod rows;

pub use page::{put, put_decimal, put_number};
pub use rows::{print_number, print_row, print_word};
