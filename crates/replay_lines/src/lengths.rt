// The lengths of a session's buffers, in the order of a script: R I K H E S F.
use crate::failure::Failure;
use crate::words::Words;

// The lengths of the session's buffers.
#[derive(Clone, Copy)]
pub struct Lengths {
    pub recipients: usize,
    pub identities: usize,
    pub keys: usize,
    pub headers: usize,
    pub errors: usize,
    pub stanzas: usize,
    pub returned: usize,
}

// The last seven words of a line.
pub fn read_lengths(words: &Words) -> Result<Lengths, Failure> {
    let first = words.count.checked_sub(7).ok_or(Failure::BadLine)?;
    Ok(Lengths {
        recipients: words.length(first)?,
        identities: words.length(first + 1)?,
        keys: words.length(first + 2)?,
        headers: words.length(first + 3)?,
        errors: words.length(first + 4)?,
        stanzas: words.length(first + 5)?,
        returned: words.length(first + 6)?,
    })
}
