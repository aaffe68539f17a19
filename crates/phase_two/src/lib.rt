// Phase two, as both ends keep it: what its commands come to, with their payloads or by lengths alone, whose turn it is and the phase behind them, and what is
// answered at once.
#![tactic(auto)]

mod at_once;
mod entering;
mod steps;
mod turns;

pub use at_once::{answer_at_once, at_once_size, write_at_once};
pub use entering::{enter_two, payload_size};
pub use steps::{StepTwo, step_two};
pub use turns::{phase_received_two, phase_sent_two, turn_two};
