// The plugin end's sending: the commands of phase two.
#![tactic(auto)]

mod sending;

pub use sending::send;
pub use session::Sent;
