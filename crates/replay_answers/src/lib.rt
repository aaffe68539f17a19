// What the replay program answers to a line, and what it prints: the line of an answer, and the tables of a session. It writes to standard output
// where its buffer is full.
#![tactic(auto)]

mod answers;
mod memory;
mod print;
mod returned;
mod show;

pub use answers::{Answer, answer_received, print_answer};
pub use memory::{Lent, Memory};
pub use print::{Output, Page};
pub use show::look;
