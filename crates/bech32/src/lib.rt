// Bech32 recipients and identities (document 01, "Recipients and identities"), over the symbols of the crate `symbols`.
#![tactic(auto)]

mod charset;
mod human;
mod parsing;
mod writing;

pub use human::{LONGEST_NAME, Name, is_lowered, name_of};
pub use parsing::{ReadFault, ReadText, holds, judge, mark, read};
pub use writing::write;

// The longest text; how many characters its checksum has, and with the separator before it.
pub(crate) const LONGEST: usize = 1024;

pub(crate) const CHECKSUM: usize = 6;

pub(crate) const TAIL: usize = 1 + CHECKSUM;

// The two kinds of text.
#[derive(Clone, Copy)]
pub enum TextKind {
    Recipient,
    Identity,
}
