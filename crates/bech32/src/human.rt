// The human part: what stands before and behind a plugin's name, and the name.
ghost use Rattle.std.specs.Prelude.{◌≡◌, [], ◌++◌, map, ◌+◌, ◌<◌, ◌≤◌, length, drop, MatchOption};
ghost use Rattle.refusal.specs.Run.{all};
ghost use Rattle.refusal.specs.Same.{same};
ghost use Rattle.symbols.specs.Charset.{lower};
ghost use Rattle.bech32.specs.Text.{is_name_byte, is_name, in_case, human_part};
ghost use Rattle.bech32.specs.Calls.{form_of, IsText, IsGiven, given_name};
ghost use Rattle.bech32.specs.Steps.{name_between, name_or};

use crate::TextKind;
use crate::charset::cased;
use symbols::lowered;

// The longest name.
pub const LONGEST_NAME: usize = 32;

// A plugin's name by value: bytes[..length], zeros behind it. No slice: no heap.
#[derive(Clone, Copy)]
pub struct Name {
    pub bytes: [u8; LONGEST_NAME],
    pub length: usize,
}

fn is_name_byte(b: u8) -> bool
    ensures { result ≡ is_name_byte b }
{
    matches!(b, b'a'..=b'z' | b'0'..=b'9' | b'+' | b'-' | b'.' | b'_')
}

fn are_name_bytes(text: &[u8]) -> bool
    ensures { result ≡ all is_name_byte text.now }
{
    text.iter().all(|b| is_name_byte(*b))
}

// Whether a text is a plugin's name in lower case.
pub(crate) fn is_name(text: &[u8]) -> bool
    ensures { result ≡ is_name text.now }
{
    if text.is_empty() || LONGEST_NAME < text.len() {
        return false;
    }
    are_name_bytes(text)
}

// Whether a text in lower case is the word.
pub fn is_lowered(text: &[u8], word: &[u8]) -> bool
    ensures { result ≡ same (map lower text.now) word.now }
{
    text.len() == word.len() && text.iter().zip(word).all(|(b, c)| lowered(*b) == *c)
}

// A text by value; none where it is longer than a name.
fn copied(text: &[u8]) -> Option<Name>
    ensures { MatchOption result (32 < length text.now) (λ n. IsText n text.now) }
{
    let n = text.len();
    if LONGEST_NAME < n {
        return None;
    }
    let mut bytes = [0; LONGEST_NAME];
    bytes[..n].copy_from_slice(text);
    Some(Name {
        bytes: bytes,
        length: n,
    })
}

// A plugin's name by value, from a text that must be one in lower case.
pub fn name_of(text: &[u8]) -> Option<Name>
    ensures { IsGiven result (given_name text.now) }
{
    if !is_name(text) {
        return None;
    }
    copied(text)
}

// The name that a text in lower case is.
fn lower_name(text: &[u8]) -> Option<Name>
    ensures { IsGiven result (given_name (map lower text.now)) }
{
    let mut name = copied(text)?;
    name.bytes.make_ascii_lowercase();
    if !is_name(&name.bytes[..name.length]) {
        return None;
    }
    Some(name)
}

// The name between what stands before and behind it, in lower case.
fn name_between(human: &[u8], front: &[u8], back: &[u8]) -> Option<Name>
    ensures { IsGiven result (name_between front.now back.now (map lower human.now)) }
{
    let (start, rest) = human.split_at_checked(front.len())?;
    let (middle, end) = rest.split_at_checked(rest.len().checked_sub(back.len())?)?;
    if !is_lowered(start, front) || !is_lowered(end, back) {
        return None;
    }
    lower_name(middle)
}

impl TextKind {
    // What stands before a name in the human part, in lower case, and what behind it.
    fn front(self) -> &'static [u8]
        ensures { result.now ≡ (form_of self).front }
    {
        match self {
            TextKind::Recipient => b"age1",
            TextKind::Identity => b"age-plugin-",
        }
    }

    fn back(self) -> &'static [u8]
        ensures { result.now ≡ (form_of self).back }
    {
        match self {
            TextKind::Recipient => b"",
            TextKind::Identity => b"-",
        }
    }
}

// The name in a human part of the kind, in lower case. Not inlined: a line that is refused before it does not pay for it.
#[inline(never)]
pub(crate) fn name_in(kind: TextKind, human: &[u8]) -> Option<Name>
    ensures { IsGiven result (name_or (form_of kind) (map lower human.now)) }
{
    name_between(human, kind.front(), kind.back())
}

// How long the human part of a name of n bytes is.
pub(crate) fn human_length(kind: TextKind, n: usize) -> usize
    requires { n ≤ 32 }
    ensures { result ≡ n + length (human_part (form_of kind) []) }
{
    kind.front().len() + n + kind.back().len()
}

// A word in the kind's case at the front of `out`, which is long enough.
fn put_word(kind: TextKind, word: &[u8], out: &mut [u8])
    requires { length word.now ≤ length out.old }
    ensures { out.new ≡ in_case (form_of kind) word.now ++ drop (length word.now) out.old }
{
    for (i, b) in word.iter().enumerate() {
        out[i] = cased(kind, *b);
    }
}

// Three words, one behind the other.
fn put_words(kind: TextKind, front: &[u8], name: &[u8], back: &[u8], out: &mut [u8])
    requires { length front.now + length name.now + length back.now ≤ length out.old }
    ensures { out.new ≡
        in_case (form_of kind) (front.now ++ name.now ++ back.now) ++ drop
        (length front.now + length name.now + length back.now) out.old }
{
    let a = front.len();
    let b = a + name.len();
    put_word(kind, front, out);
    put_word(kind, name, &mut out[a..]);
    put_word(kind, back, &mut out[b..]);
}

// The human part of a name at the front of `out`, which is long enough.
pub(crate) fn put_human(kind: TextKind, name: &[u8], out: &mut [u8])
    requires { length (human_part (form_of kind) name.now) ≤ length out.old }
    ensures { out.new ≡
        in_case (form_of kind) (human_part (form_of kind) name.now) ++ drop (length (human_part (form_of kind) name.now)) out.old }
{
    put_words(kind, kind.front(), name, kind.back(), out)
}
