// The client end's sending: the commands of phase one.
#![tactic(auto)]

mod sending;

pub use sending::send;
pub use session::Sent;
