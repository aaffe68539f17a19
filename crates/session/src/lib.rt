// What both phases and both ends share: machines and phases, the kinds with their tables, slots and limits, the session and its opening, and what an end writes
// of a stanza that it judged.
#![tactic(auto)]

mod kinds;
mod marks;
mod opening;
mod output;
mod phases;
mod sessions;
mod words;

pub use kinds::{Kind, Tables, span_of};
pub use marks::Mark;
pub use opening::{Machine, Screen};
pub use output::{
    Composed, Outcome, SHORT_ARGUMENTS, SHORT_LINE, Sent, check_output, compose, front,
    write_judged,
};
pub use phases::{Phase, phase_refused};
pub use sessions::{Opening, Session};
pub use words::WordTwo;
