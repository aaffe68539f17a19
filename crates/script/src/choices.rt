// The choices of words: an end, a screen, a kind, a command of either phase, a reply. Any other word is none.
ghost use Rattle.std.specs.Prelude.{◌≡◌};
ghost use Rattle.script.specs.Choice.{place, chosen, end_said, end_words, screen_said, screen_words, kind_said, kind_words, command_said, command_words, command_two_said, command_two_words, reply_said, reply_words};

// The end that a line opens.
#[derive(Clone, Copy)]
pub enum EndChoice {
    Client,
    Plugin,
}

// What a line says of the client's screen: there is one, there is none, or it is left to the default.
#[derive(Clone, Copy)]
pub enum ScreenChoice {
    Shown,
    Missing,
    Default,
}

// The kind that a line looks up.
#[derive(Clone, Copy)]
pub enum KindChoice {
    Recipient,
    Identity,
}

// The command of phase one that a line sends.
#[derive(Clone, Copy)]
pub enum CommandChoice {
    AddRecipient,
    AddIdentity,
    WrapFileKey,
    RecipientStanza,
    Done,
}

// The command of phase two that a line sends.
#[derive(Clone, Copy)]
pub enum CommandTwoChoice {
    Msg,
    Confirm,
    RequestPublic,
    RequestSecret,
    RecipientStanza,
    FileKey,
    Error,
    Done,
}

// What the client's host replies.
#[derive(Clone, Copy)]
pub enum ReplyChoice {
    Ok,
    Yes,
    No,
    Fail,
    Unsupported,
}

// The words of each choice, and what they name.
const ENDS: [(&[u8], EndChoice); 2] = [
    (b"client", EndChoice::Client),
    (b"plugin", EndChoice::Plugin),
];

const SCREENS: [(&[u8], ScreenChoice); 3] = [
    (b"screen", ScreenChoice::Shown),
    (b"no-screen", ScreenChoice::Missing),
    (b"default", ScreenChoice::Default),
];

const KINDS: [(&[u8], KindChoice); 2] = [
    (b"recipient", KindChoice::Recipient),
    (b"identity", KindChoice::Identity),
];

const COMMANDS: [(&[u8], CommandChoice); 5] = [
    (b"add-recipient", CommandChoice::AddRecipient),
    (b"add-identity", CommandChoice::AddIdentity),
    (b"wrap-file-key", CommandChoice::WrapFileKey),
    (b"recipient-stanza", CommandChoice::RecipientStanza),
    (b"done", CommandChoice::Done),
];

const COMMANDS_TWO: [(&[u8], CommandTwoChoice); 8] = [
    (b"msg", CommandTwoChoice::Msg),
    (b"confirm", CommandTwoChoice::Confirm),
    (b"request-public", CommandTwoChoice::RequestPublic),
    (b"request-secret", CommandTwoChoice::RequestSecret),
    (b"recipient-stanza", CommandTwoChoice::RecipientStanza),
    (b"file-key", CommandTwoChoice::FileKey),
    (b"error", CommandTwoChoice::Error),
    (b"done", CommandTwoChoice::Done),
];

const REPLIES: [(&[u8], ReplyChoice); 5] = [
    (b"ok", ReplyChoice::Ok),
    (b"yes", ReplyChoice::Yes),
    (b"no", ReplyChoice::No),
    (b"fail", ReplyChoice::Fail),
    (b"unsupported", ReplyChoice::Unsupported),
];

// What a word names in a table, if it is one of its words.
pub(crate) fn choose<T: Copy>(word: &[u8], choices: &[(&[u8], T)]) -> Option<T>
    ensures { result ≡ chosen word.now choices.now }
{
    for (name, choice) in choices {
        if word == *name {
            return Some(*choice);
        }
    }
    None
}

// The end that a word names. Neither it nor the five below are inlined: bench/ knows them by name, and leaves them out of what it counts.
#[inline(never)]
pub fn choose_end(word: &[u8]) -> Option<EndChoice>
    ensures { end_said result ≡ place word.now end_words }
{
    choose(word, &ENDS)
}

// What a word says of the screen.
#[inline(never)]
pub fn choose_screen(word: &[u8]) -> Option<ScreenChoice>
    ensures { screen_said result ≡ place word.now screen_words }
{
    choose(word, &SCREENS)
}

// The kind that a word names.
#[inline(never)]
pub fn choose_kind(word: &[u8]) -> Option<KindChoice>
    ensures { kind_said result ≡ place word.now kind_words }
{
    choose(word, &KINDS)
}

// The command of phase one that a word names.
#[inline(never)]
pub fn choose_command(word: &[u8]) -> Option<CommandChoice>
    ensures { command_said result ≡ place word.now command_words }
{
    choose(word, &COMMANDS)
}

// The command of phase two that a word names.
#[inline(never)]
pub fn choose_command_two(word: &[u8]) -> Option<CommandTwoChoice>
    ensures { command_two_said result ≡ place word.now command_two_words }
{
    choose(word, &COMMANDS_TWO)
}

// The reply that a word names.
#[inline(never)]
pub fn choose_reply(word: &[u8]) -> Option<ReplyChoice>
    ensures { reply_said result ≡ place word.now reply_words }
{
    choose(word, &REPLIES)
}
