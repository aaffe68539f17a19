// The plugin end, for its host: all that it names, by one `use`. It receives phase one and sends phase two.
#![tactic(auto)]

pub use bech32::TextKind;
pub use intake::{Last, Received, finish};
pub use look_up::{entry, find};
pub use phase_one::WordOne;
pub use plugin_receiving::receive;
pub use plugin_sending::{Sent, send};
pub use refusal::{Refusal, number};
pub use responses::Response;
pub use session::{Kind, Mark, Opening, Phase, Session, WordTwo, front};
pub use tables::Entry;
