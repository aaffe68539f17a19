// The command that a line sends: its word, and the text of its arguments.
use crate::words::Words;
use phase_one::WordOne;
use script::{CommandChoice, CommandTwoChoice};
use session::WordTwo;

// The command of phase one that a word names.
pub fn command_one(name: &[u8]) -> WordOne {
    let command = script::choose_command(name);
    match command {
        Some(CommandChoice::AddRecipient) => WordOne::AddRecipient,
        Some(CommandChoice::AddIdentity) => WordOne::AddIdentity,
        Some(CommandChoice::WrapFileKey) => WordOne::WrapFileKey,
        Some(CommandChoice::RecipientStanza) => WordOne::RecipientStanza,
        Some(CommandChoice::Done) => WordOne::Done,
        None => WordOne::Other,
    }
}

// The command of phase two that a word names.
pub fn command_two(name: &[u8]) -> WordTwo {
    let command = script::choose_command_two(name);
    match command {
        Some(CommandTwoChoice::Msg) => WordTwo::Msg,
        Some(CommandTwoChoice::Confirm) => WordTwo::Confirm,
        Some(CommandTwoChoice::RequestPublic) => WordTwo::RequestPublic,
        Some(CommandTwoChoice::RequestSecret) => WordTwo::RequestSecret,
        Some(CommandTwoChoice::RecipientStanza) => WordTwo::RecipientStanza,
        Some(CommandTwoChoice::FileKey) => WordTwo::FileKey,
        Some(CommandTwoChoice::Error) => WordTwo::Error,
        Some(CommandTwoChoice::Done) => WordTwo::Done,
        None => WordTwo::Other,
    }
}

// The arguments' text of a command; a word that names none stands first in it.
pub fn arguments<'a>(is_other: bool, words: &Words<'a>) -> &'a [u8] {
    if is_other {
        words.joined()
    } else {
        words.get(2)
    }
}
