// Tables of entries whose payloads lie in lent buffers and their entries in lent slots: opened, one entry more, and what stands at a number. What both ends of
// a conversation keep.
#![tactic(auto)]

mod copying;
mod slots;
mod tables;

pub use copying::{Body, body_size};
pub use slots::{EMPTY, Entry, Span, entry_at, slots_in};
pub use tables::{Stored, Table, payload};
