// Strict base64 (document 01, "Stanza text"): the standard alphabet, no padding, the unused bits of the last character zero;
// and base64 in lines of 64 characters, which a stanza's body is. It knows nothing of stanzas and gives no number but 15:
// that a text is no base64 is an answer of its own, and the caller chooses the number.
#![tactic(auto)]

mod alphabet;
mod decoding;
mod encoding;
mod lines;
mod runs;

pub use alphabet::{characters, ends_well, is_character};
pub use decoding::{decode, measure};
pub use lines::{
    LINE_CHARACTERS, LINE_LENGTH, body_length, decode_lines, encode_lines, full_line, lines_length,
};
pub use runs::run_end;
