// Phase one, as both ends keep it: its commands, what they come to, whose turn it is, and the phase behind a command.
#![tactic(auto)]

mod commands;
mod steps;
mod turns;

pub use commands::{CommandOne, WordOne, put_line, rest_of, word_of};
pub use steps::{StepOne, step_one, wide};
pub use turns::{phase_received, phase_sent, turn_one};
