// The script of the replay program: its lines, its words with their escapes, read and printed, its numbers, its choices of words, and which call a line makes.
// It knows nothing of files and of what the calls do.
#![tactic(auto)]

mod calls;
mod choices;
mod escaping;
mod lines;
mod numbers;
mod unescaping;

pub use calls::{Call, choose_call};
pub use choices::{
    CommandChoice, CommandTwoChoice, EndChoice, KindChoice, ReplyChoice, ScreenChoice,
    choose_command, choose_command_two, choose_end, choose_kind, choose_reply, choose_screen,
};
pub use escaping::escape;
pub use lines::find_lf;
pub use numbers::read_number;
pub use unescaping::unescape;
