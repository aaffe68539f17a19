// The commands of phase two: which word names one, and what its arguments and its body make of it.
ghost use Rattle.std.specs.Prelude.{◌≡◌, ◌&&◌, leb, eqb};
ghost use Rattle.refusal.specs.Output.{said, answered, filled};
ghost use Rattle.refusal.specs.Pick.{pick};
ghost use Rattle.refusal.specs.Same.{same};
ghost use Rattle.strict_base64.specs.Code.{is_base64};
ghost use Rattle.stanza.specs.Arguments.{count_of, argument_of};
ghost use Rattle.stanza.specs.Index.{read_index};
ghost use Rattle.phase_one.specs.Commands.{is_bare};
ghost use Rattle.conversation.specs.CommandsTwo.{work_word, word_two, are_labels, stanza_at, key_at, error_at, header_at, error_of, error_command, ask, done, bad, word_of, line_sent};
ghost use Rattle.phase_two_commands.specs.Commands.{named_said, command_said, command_of, late_word, name_of};

use bech32::TextKind;
use refusal::Refusal;
use session::{Machine, WordTwo};

// The words of phase two, compared with a command's first argument and written where an end sends.
const MSG: [u8; 3] = *b"msg";

const CONFIRM: [u8; 7] = *b"confirm";

const REQUEST_PUBLIC: [u8; 14] = *b"request-public";

const REQUEST_SECRET: [u8; 14] = *b"request-secret";

const RECIPIENT_STANZA: [u8; 16] = *b"recipient-stanza";

const FILE_KEY: [u8; 8] = *b"file-key";

const ERROR: [u8; 5] = *b"error";

const DONE: [u8; 4] = *b"done";

// What an error names.
const INTERNAL: [u8; 8] = *b"internal";

const IDENTITY: [u8; 8] = *b"identity";

const RECIPIENT: [u8; 9] = *b"recipient";

const STANZA: [u8; 6] = *b"stanza";

// What an error names: nothing, an identity, a recipient, or of a file a header stanza.
#[derive(Clone, Copy)]
pub enum Named {
    Internal,
    Identity(u32),
    Recipient(u32),
    Header(u32, u32),
}

// A command of phase two: msg, confirm or a request; a stanza or a key for a file; an error; done; or any other. One that is read wrongly is 4 or 5 instead.
#[derive(Clone, Copy)]
pub enum CommandTwo {
    Ask(WordTwo),
    Stanza(u32),
    Key(u32),
    Error(Named),
    Done,
    Other,
}

// A machine's word for its work; to the other machine it is any other word.
fn work_word(machine: Machine, word: &[u8]) -> WordTwo
    ensures { result ≡ work_word machine word.now }
{
    match machine {
        Machine::RecipientV1 => {
            if stanza::is_same(word, &RECIPIENT_STANZA) {
                return WordTwo::RecipientStanza;
            }
            WordTwo::Other
        }
        Machine::IdentityV1 => {
            if stanza::is_same(word, &FILE_KEY) {
                return WordTwo::FileKey;
            }
            WordTwo::Other
        }
    }
}

// Which row a word names that asks the user for nothing.
fn late_word(machine: Machine, word: &[u8]) -> WordTwo
    ensures { result ≡ late_word machine word.now }
{
    if stanza::is_same(word, &ERROR) {
        return WordTwo::Error;
    }
    if stanza::is_same(word, &DONE) {
        return WordTwo::Done;
    }
    work_word(machine, word)
}

// Which command of phase two a word names for a machine.
fn word_two(machine: Machine, word: &[u8]) -> WordTwo
    ensures { result ≡ word_two machine word.now }
{
    if stanza::is_same(word, &MSG) {
        return WordTwo::Msg;
    }
    if stanza::is_same(word, &CONFIRM) {
        return WordTwo::Confirm;
    }
    if stanza::is_same(word, &REQUEST_PUBLIC) {
        return WordTwo::RequestPublic;
    }
    if stanza::is_same(word, &REQUEST_SECRET) {
        return WordTwo::RequestSecret;
    }
    late_word(machine, word)
}

// Whether a text is base64.
fn is_base64(text: &[u8]) -> bool
    ensures { result ≡ is_base64 text.now }
{
    strict_base64::measure(text).is_some()
}

// Whether a confirm's arguments are one or two labels.
fn are_labels(line: &[u8]) -> bool
    ensures { result ≡ are_labels line.now }
{
    let first = stanza::argument(line, 1);
    if !is_base64(first) {
        return false;
    }
    let n = stanza::count(line);
    if n == 2 {
        return true;
    }
    if n != 3 {
        return false;
    }
    let second = stanza::argument(line, 2);
    is_base64(second)
}

// Whether an error names a kind, in n arguments.
fn is_kind(line: &[u8], kind: &[u8], n: usize) -> bool
    ensures { result ≡ (same (argument_of line.now 1) kind.now && eqb (count_of line.now) n) }
{
    let first = stanza::argument(line, 1);
    if !stanza::is_same(first, kind) {
        return false;
    }
    stanza::count(line) == n
}

// An identity or a recipient, as an error names it.
fn name_of(kind: TextKind, index: u32) -> Named
    ensures { named_said result ≡ name_of kind index }
{
    match kind {
        TextKind::Recipient => Named::Recipient(index),
        TextKind::Identity => Named::Identity(index),
    }
}

// An error that names an identity or a recipient by its index.
fn error_at(kind: TextKind, line: &[u8]) -> Result<CommandTwo, Refusal>
    ensures { command_said result ≡ error_at (name_of kind) (read_index (argument_of line.now 2)) }
{
    let text = stanza::argument(line, 2);
    let index = stanza::read_index(text)?;
    Ok(CommandTwo::Error(name_of(kind, index)))
}

// An error that names a header stanza by its file and its number.
fn header_at(line: &[u8]) -> Result<CommandTwo, Refusal>
    ensures { command_said result ≡ header_at (read_index (argument_of line.now 2)) (read_index (argument_of line.now 3)) }
{
    let first = stanza::argument(line, 2);
    let second = stanza::argument(line, 3);
    let file = stanza::read_index(first)?;
    let number = stanza::read_index(second)?;
    Ok(CommandTwo::Error(Named::Header(file, number)))
}

// An error that only one machine has.
fn parse_own_error(machine: Machine, line: &[u8]) -> Result<CommandTwo, Refusal>
    ensures { command_said result ≡ error_of machine line.now }
{
    match machine {
        Machine::RecipientV1 => {
            if is_kind(line, &RECIPIENT, 3) {
                return error_at(TextKind::Recipient, line);
            }
            Err(Refusal::BadCommand)
        }
        Machine::IdentityV1 => {
            if is_kind(line, &STANZA, 4) {
                return header_at(line);
            }
            Err(Refusal::BadCommand)
        }
    }
}

// An error, by what it names.
fn parse_error(machine: Machine, line: &[u8]) -> Result<CommandTwo, Refusal>
    ensures { command_said result ≡ error_command machine line.now }
{
    if is_kind(line, &INTERNAL, 2) {
        return Ok(CommandTwo::Error(Named::Internal));
    }
    if is_kind(line, &IDENTITY, 3) {
        return error_at(TextKind::Identity, line);
    }
    parse_own_error(machine, line)
}

// msg or a request: no argument, any body.
fn parse_ask(word: WordTwo, line: &[u8]) -> Result<CommandTwo, Refusal>
    ensures { command_said result ≡ pick (eqb (count_of line.now) 1) (ask word) (bad 4) }
{
    if stanza::count(line) == 1 {
        return Ok(CommandTwo::Ask(word));
    }
    Err(Refusal::BadCommand)
}

// confirm: one or two labels, any body.
fn parse_confirm(line: &[u8]) -> Result<CommandTwo, Refusal>
    ensures { command_said result ≡ pick (are_labels line.now) (ask WordTwo.Confirm) (bad 4) }
{
    if are_labels(line) {
        return Ok(CommandTwo::Ask(WordTwo::Confirm));
    }
    Err(Refusal::BadCommand)
}

// A stanza for a file: an index, a tag, any more arguments, any body.
fn parse_stanza(line: &[u8]) -> Result<CommandTwo, Refusal>
    ensures { command_said result ≡ pick (leb 3 (count_of line.now)) (stanza_at (read_index (argument_of line.now 1))) (bad 4) }
{
    if stanza::count(line) < 3 {
        return Err(Refusal::BadCommand);
    }
    let text = stanza::argument(line, 1);
    let file = stanza::read_index(text)?;
    Ok(CommandTwo::Stanza(file))
}

// A key for a file: an index, and a body of 16 bytes.
fn parse_key(line: &[u8], body: usize) -> Result<CommandTwo, Refusal>
    ensures { command_said result ≡
        pick (eqb (count_of line.now) 2 && eqb body 16) (key_at (read_index (argument_of line.now 1))) (bad 4) }
{
    if stanza::count(line) != 2 {
        return Err(Refusal::BadCommand);
    }
    if body != 16 {
        return Err(Refusal::BadCommand);
    }
    let text = stanza::argument(line, 1);
    let file = stanza::read_index(text)?;
    Ok(CommandTwo::Key(file))
}

// done: no argument, no body.
fn parse_done(line: &[u8], body: usize) -> Result<CommandTwo, Refusal>
    ensures { command_said result ≡ pick (is_bare line.now body 0) done (bad 4) }
{
    if stanza::count(line) != 1 {
        return Err(Refusal::BadCommand);
    }
    if body != 0 {
        return Err(Refusal::BadCommand);
    }
    Ok(CommandTwo::Done)
}

// The command of phase two that a stanza is, by its arguments and how many bytes its body has.
pub fn parse_two(machine: Machine, line: &[u8], body: usize) -> Result<CommandTwo, Refusal>
    ensures { command_said result ≡ command_of machine line.now body }
{
    let first = stanza::argument(line, 0);
    let word = word_two(machine, first);
    match word {
        WordTwo::Msg => parse_ask(word, line),
        WordTwo::Confirm => parse_confirm(line),
        WordTwo::RequestPublic => parse_ask(word, line),
        WordTwo::RequestSecret => parse_ask(word, line),
        WordTwo::RecipientStanza => parse_stanza(line),
        WordTwo::FileKey => parse_key(line, body),
        WordTwo::Error => parse_error(machine, line),
        WordTwo::Other => Ok(CommandTwo::Other),
        WordTwo::Done => parse_done(line, body),
    }
}

// The word of a command.
pub fn word_two_of(command: Result<CommandTwo, Refusal>) -> WordTwo
    ensures { result ≡ word_of (command_said command) }
{
    match command {
        Ok(CommandTwo::Ask(word)) => word,
        Ok(CommandTwo::Stanza(_)) => WordTwo::RecipientStanza,
        Ok(CommandTwo::Key(_)) => WordTwo::FileKey,
        Ok(CommandTwo::Error(_)) => WordTwo::Error,
        Ok(CommandTwo::Done) => WordTwo::Done,
        Ok(CommandTwo::Other) => WordTwo::Other,
        Err(_) => WordTwo::Other,
    }
}

// The arguments' text of a command that is sent, at the front of `out`: how many bytes, or 15 and nothing written. Any other word stands first in
// `arguments`.
pub fn put_line_two(word: WordTwo, arguments: &[u8], out: &mut [u8]) -> Result<usize, Refusal>
    ensures answer { said result ≡ answered (line_sent word arguments.now) out.old }
    ensures buffer { out.new ≡ filled (line_sent word arguments.now) out.old }
{
    match word {
        WordTwo::Msg => stanza::join(&MSG, arguments, out),
        WordTwo::Confirm => stanza::join(&CONFIRM, arguments, out),
        WordTwo::RequestPublic => stanza::join(&REQUEST_PUBLIC, arguments, out),
        WordTwo::RequestSecret => stanza::join(&REQUEST_SECRET, arguments, out),
        WordTwo::RecipientStanza => stanza::join(&RECIPIENT_STANZA, arguments, out),
        WordTwo::FileKey => stanza::join(&FILE_KEY, arguments, out),
        WordTwo::Error => stanza::join(&ERROR, arguments, out),
        WordTwo::Done => stanza::join(&DONE, arguments, out),
        WordTwo::Other => stanza::join(arguments, b"", out),
    }
}
