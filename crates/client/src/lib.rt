// The client end, for its host: all that it names, by one `use`. It sends phase one and receives phase two, and its host replies.
#![tactic(auto)]

pub use awaited::{awaited_label, awaited_labels, awaited_message, awaited_text};
pub use client_receiving::{receive, reply};
pub use client_sending::{Sent, send};
pub use intake::{Last, Received, finish};
pub use look_up::{
    ErrorNamed, awaited_command, count_errors, count_stanzas, error_message, error_named, has_key,
    key_of, stanza_of,
};
pub use phase_one::WordOne;
pub use refusal::{Refusal, number};
pub use responses::Response;
pub use session::{Opening, Phase, Screen, Session, WordTwo, front};
