// The commands of phase one: which word names one, and what its arguments and its body make of it.
ghost use Rattle.std.specs.Prelude.{◌≡◌, ◌&&◌, List, ℕ, eqb};
ghost use Rattle.refusal.specs.Output.{said, answered, filled};
ghost use Rattle.stanza.specs.Arguments.{count_of};
ghost use Rattle.phase_one.specs.Commands.{word_said, word_in, after_space, rest_of, text_command, header_command, command, command_said, word_of, line_sent};

use bech32::TextKind;
use refusal::Refusal;
use session::Machine;

// The words of phase one, compared with a command's first argument and written where an end sends.
const ADD_RECIPIENT: &[u8] = b"add-recipient";

const ADD_IDENTITY: &[u8] = b"add-identity";

const WRAP_FILE_KEY: &[u8] = b"wrap-file-key";

const RECIPIENT_STANZA: &[u8] = b"recipient-stanza";

const DONE: &[u8] = b"done";

// The words of phase one.
#[derive(Clone, Copy)]
pub enum WordOne {
    AddRecipient,
    AddIdentity,
    WrapFileKey,
    RecipientStanza,
    Done,
    Other,
}

// A command of phase one: an entry, for a header stanza with its index; done; or any other, which is ignored. An entry's mark is made when it is kept. One that
// is read wrongly is 4 or 5 instead.
#[derive(Clone, Copy)]
pub enum CommandOne {
    Recipient,
    Identity,
    Key,
    Header(u32),
    Done,
    Other,
}

// Which command of phase one a word names for a machine. A match on the words themselves was tried: it tests byte by byte, and the proof did not close.
#[tactic(auto, using(refusal::proofs::Laws::Same::pointwise_same))]
fn word_in(machine: Machine, word: &[u8]) -> WordOne
    ensures { word_said result ≡ word_in machine word.now }
{
    match machine {
        Machine::RecipientV1 if word == ADD_RECIPIENT => WordOne::AddRecipient,
        _ if word == ADD_IDENTITY => WordOne::AddIdentity,
        Machine::RecipientV1 if word == WRAP_FILE_KEY => WordOne::WrapFileKey,
        Machine::IdentityV1 if word == RECIPIENT_STANZA => WordOne::RecipientStanza,
        _ if word == DONE => WordOne::Done,
        _ => WordOne::Other,
    }
}

// What stands behind the first space of a text.
fn after_space<'a>(text: &'a [u8]) -> &'a [u8]
    ensures { result.now ≡ after_space text.now }
{
    match text.iter().position(|b| *b == b' ') {
        Some(i) => &text[i + 1..],
        None => &[],
    }
}

// The arguments of a header stanza behind its index.
pub fn rest_of<'a>(line: &'a [u8]) -> &'a [u8]
    ensures { result.now ≡ rest_of line.now }
{
    after_space(after_space(line))
}

// A recipient or an identity: one argument, no body.
fn parse_text(kind: TextKind, line: &[u8], body: usize) -> Result<CommandOne, Refusal>
    ensures { (plugin : List ℕ) → command_said plugin line.now body result ≡ text_command kind plugin line.now body }
{
    if stanza::count(line) != 2 {
        return Err(Refusal::BadCommand);
    }
    if body != 0 {
        return Err(Refusal::BadCommand);
    }
    match kind {
        TextKind::Recipient => Ok(CommandOne::Recipient),
        TextKind::Identity => Ok(CommandOne::Identity),
    }
}

// A header stanza: an index, a tag, any more arguments, any body.
fn parse_header(line: &[u8], body: usize) -> Result<CommandOne, Refusal>
    ensures { (plugin : List ℕ) → command_said plugin line.now body result ≡ header_command plugin line.now body }
{
    if stanza::count(line) < 3 {
        return Err(Refusal::BadCommand);
    }
    let text = stanza::argument(line, 1);
    let index = stanza::read_index(text)?;
    Ok(CommandOne::Header(index))
}

// No argument, and a body of n bytes.
fn is_bare(line: &[u8], body: usize, n: usize) -> bool
    ensures { result ≡ (eqb (count_of line.now) 1 && eqb body n) }
{
    stanza::count(line) == 1 && body == n
}

// The command of phase one that a stanza is, by its arguments and how many bytes its body has.
pub(crate) fn parse_one(machine: Machine, line: &[u8], body: usize) -> Result<CommandOne, Refusal>
    ensures { (plugin : List ℕ) → command_said plugin line.now body result ≡ command machine plugin line.now body }
{
    let first = stanza::argument(line, 0);
    let word = word_in(machine, first);
    match word {
        WordOne::AddRecipient => parse_text(TextKind::Recipient, line, body),
        WordOne::AddIdentity => parse_text(TextKind::Identity, line, body),
        WordOne::RecipientStanza => parse_header(line, body),
        WordOne::WrapFileKey => {
            if is_bare(line, body, 16) {
                return Ok(CommandOne::Key);
            }
            Err(Refusal::BadCommand)
        }
        WordOne::Done => {
            if is_bare(line, body, 0) {
                return Ok(CommandOne::Done);
            }
            Err(Refusal::BadCommand)
        }
        WordOne::Other => Ok(CommandOne::Other),
    }
}

// The word of a command.
pub fn word_of(command: Result<CommandOne, Refusal>) -> WordOne
    ensures { (plugin line : List ℕ) (n : ℕ) → word_said result ≡ word_of (command_said plugin line n command) }
{
    match command {
        Ok(CommandOne::Recipient) => WordOne::AddRecipient,
        Ok(CommandOne::Identity) => WordOne::AddIdentity,
        Ok(CommandOne::Key) => WordOne::WrapFileKey,
        Ok(CommandOne::Header(_)) => WordOne::RecipientStanza,
        Ok(CommandOne::Done) => WordOne::Done,
        Ok(CommandOne::Other) => WordOne::Other,
        Err(_) => WordOne::Other,
    }
}

// The arguments' text of a command that is sent, at the front of `out`: how many bytes, or 15 and nothing written. Any other word stands first in
// `arguments`.
pub fn put_line(word: WordOne, arguments: &[u8], out: &mut [u8]) -> Result<usize, Refusal>
    ensures answer { said result ≡ answered (line_sent (word_said word) arguments.now) out.old }
    ensures buffer { out.new ≡ filled (line_sent (word_said word) arguments.now) out.old }
{
    match word {
        WordOne::AddRecipient => stanza::join(ADD_RECIPIENT, arguments, out),
        WordOne::AddIdentity => stanza::join(ADD_IDENTITY, arguments, out),
        WordOne::WrapFileKey => stanza::join(WRAP_FILE_KEY, arguments, out),
        WordOne::RecipientStanza => stanza::join(RECIPIENT_STANZA, arguments, out),
        WordOne::Done => stanza::join(DONE, arguments, out),
        WordOne::Other => stanza::join(arguments, b"", out),
    }
}
