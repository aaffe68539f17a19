// Which call a line makes, by its first word.
ghost use Rattle.std.specs.Prelude.{◌≡◌};
ghost use Rattle.script.specs.Choice.{place};
ghost use Rattle.script.specs.Call.{call_said, call_words};

use crate::choices::choose;

// The calls.
#[derive(Clone, Copy)]
pub enum Call {
    Stanza,
    Write,
    Index,
    Checksum,
    Recipient,
    Identity,
    WriteRecipient,
    WriteIdentity,
    Profile,
    Judge,
    Open,
    Buffers,
    Send,
    Chunk,
    Reply,
    Awaited,
    Finish,
    Entry,
    Show,
    IdentityFile,
}

// The words of the calls, and what they name.
const CALLS: [(&[u8], Call); 20] = [
    (b"stanza", Call::Stanza),
    (b"write", Call::Write),
    (b"index", Call::Index),
    (b"checksum", Call::Checksum),
    (b"recipient", Call::Recipient),
    (b"identity", Call::Identity),
    (b"write-recipient", Call::WriteRecipient),
    (b"write-identity", Call::WriteIdentity),
    (b"profile", Call::Profile),
    (b"judge", Call::Judge),
    (b"open", Call::Open),
    (b"buffers", Call::Buffers),
    (b"send", Call::Send),
    (b"chunk", Call::Chunk),
    (b"reply", Call::Reply),
    (b"awaited", Call::Awaited),
    (b"finish", Call::Finish),
    (b"entry", Call::Entry),
    (b"show", Call::Show),
    (b"identity-file", Call::IdentityFile),
];

// The call of a first word that has been read, if it is one. Not inlined: bench/ knows it by name.
#[inline(never)]
pub fn choose_call(word: &[u8]) -> Option<Call>
    ensures { call_said result ≡ place word.now call_words }
{
    choose(word, &CALLS)
}
