// What a line of the replay program's script asks for: its words, and the request that they make. It makes no call.
#![tactic(auto)]

mod commands;
mod failure;
mod lengths;
mod parts;
mod requests;
mod words;

pub use commands::{arguments, command_one, command_two};
pub use failure::Failure;
pub use lengths::Lengths;
pub use parts::{append, front, front_mut, part};
pub use requests::{Look, Opened, Request, SessionCall, read_request};
pub use words::{LONGEST, Line, Words, read_line};
