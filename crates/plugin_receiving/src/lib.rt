// The plugin end's receiving: the commands of phase one, and the client's responses in phase two.
#![tactic(auto)]

mod commands;
mod phases;
mod receiving;
mod responding;

pub use phases::receive;
