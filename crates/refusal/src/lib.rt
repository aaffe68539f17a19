// The faults of document 01, "Numbers given back", and of document 02, each under a name of its own, and the number that the papers give it.
// No crate of the library knows a refusal by anything but this enum; 0, no refusal, is no variant of it.
#![tactic(auto)]

ghost use Rattle.std.specs.Prelude.{◌≡◌};
ghost use Rattle.refusal.specs.Number.{number_of};
ghost use Rattle.refusal.specs.Verdict.{verdict_said};

#[derive(Clone, Copy)]
pub enum Refusal {
    // 1: not a stanza
    NotStanza,
    // 2: the stanza has not ended
    Unfinished,
    // 3: more than 8,192 bytes
    TooLong,
    // 4: a known command, or done, with wrong arguments, labels or body
    BadCommand,
    // 5: an index badly written or too large
    BadIndex,
    // 6: an index that names nothing
    NoSuchIndex,
    // 7: a header stanza's index that falls
    FallingIndex,
    // 8: no slot, or the buffer is too short
    NoSpace,
    // 9: a second key for a file
    SecondKey,
    // 10: too many stanzas for a file
    TooManyStanzas,
    // 11: work and error together
    WorkAndError,
    // 12: a response that does not fit
    UnfitResponse,
    // 13: the session is closed or has ended
    SessionOver,
    // 14: a command while a reply is pending, a reply while none is, or a call of the other phase
    OutOfTurn,
    // 15: output longer than the buffer
    ShortOutput,
    // 16: a text that has not the form of a recipient (or identity)
    Malformed,
    // 17: an argument, a name or a length that cannot be written
    Unwritable,
    // 18: neither machine's name
    NoSuchMachine,
    // 19: the plugin end holds the command back
    HeldBack,
    // 20: a recipient whose text is an earlier one's
    Repeated,
    // 21: a recipient's (or identity's) checksum that fails
    BadChecksum,
    // 22: bits left over behind its payload
    LeftoverBits,
}

// The papers' number of a refusal.
pub fn number(r: Refusal) -> u8
    ensures { result ≡ number_of r }
{
    match r {
        Refusal::NotStanza => 1,
        Refusal::Unfinished => 2,
        Refusal::TooLong => 3,
        Refusal::BadCommand => 4,
        Refusal::BadIndex => 5,
        Refusal::NoSuchIndex => 6,
        Refusal::FallingIndex => 7,
        Refusal::NoSpace => 8,
        Refusal::SecondKey => 9,
        Refusal::TooManyStanzas => 10,
        Refusal::WorkAndError => 11,
        Refusal::UnfitResponse => 12,
        Refusal::SessionOver => 13,
        Refusal::OutOfTurn => 14,
        Refusal::ShortOutput => 15,
        Refusal::Malformed => 16,
        Refusal::Unwritable => 17,
        Refusal::NoSuchMachine => 18,
        Refusal::HeldBack => 19,
        Refusal::Repeated => 20,
        Refusal::BadChecksum => 21,
        Refusal::LeftoverBits => 22,
    }
}

// The number of a verdict, 0 where nothing is refused.
pub fn verdict_number(verdict: Result<(), Refusal>) -> u8
    ensures { result ≡ verdict_said verdict }
{
    match verdict {
        Ok(()) => 0,
        Err(r) => number(r),
    }
}
