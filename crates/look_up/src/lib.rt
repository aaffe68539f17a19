// Look-ups of both phases: for a host by kind and number, by file, and of what awaits an answer; and by file for the decision.
#![tactic(auto)]

mod entries;
mod look_up;

pub use entries::{count_before, count_entries, count_file, has_file};
pub use look_up::{
    ErrorNamed, awaited_command, count_errors, count_stanzas, entry, error_message, error_named,
    find, has_key, key_of, number_of, stanza_of,
};
