// Whether the client's output buffer has room for what a text is answered with, and whether what is kept back has room: decided before anything is written.
#![tactic(auto)]

mod fitting;
mod stanzas;

pub use fitting::{has_room, text_has_room};
pub use stanzas::{Step, Taken, answer_to, next_stanza};
