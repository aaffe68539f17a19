// The marks of entries: of a recipient or an identity, valid or the reader's number; of a header stanza, what the profile finds; of an error, what it names.
#[derive(Clone, Copy)]
pub struct Mark {}

impl Mark {
    pub const VALID: usize = 0;

    pub const CONFORMING: usize = 0;

    pub const NONCONFORMING: usize = 1;

    pub const UNKNOWN: usize = 2;

    pub const INTERNAL: usize = 0;

    pub const IDENTITY: usize = 1;

    pub const RECIPIENT: usize = 2;

    // The first of a header stanza's: 3 and its file.
    pub const STANZA: usize = 3;

    // File keys, returned stanzas and returned keys have none.
    pub const NONE: usize = 0;
}
