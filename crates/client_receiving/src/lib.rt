// The client end's receiving: chunks of the plugin's commands in phase two, and its host's replies.
#![tactic(auto)]

mod receiving;
mod replying;
mod stanzas;
mod texts;

pub use receiving::receive;
pub use replying::reply;
