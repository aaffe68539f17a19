// Bech32's symbols (document 01, "Recipients and identities"; BIP 173 the checksum): characters and their values, the checksum, 8 bits to 5 and back.
#![tactic(auto)]

mod charset;
mod checksum;
mod regroup;

pub use charset::{
    ALPHABET, CAPITALS, CASE, are_characters, character_run, is_lower, is_upper, lowered, values,
};
pub use checksum::{fold_human, fold_symbols, is_closed};
pub use regroup::{bytes_length, decode, encode, is_whole};
