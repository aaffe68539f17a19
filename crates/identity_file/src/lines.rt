// A line of an identity file: where it ends, and what it is.
ghost use Rattle.std.specs.Prelude.{◌≡◌, ◌≤◌, length};
ghost use Rattle.identity_file.specs.Kinds.{is_skipped, is_secret_key, kind_of};
ghost use Rattle.identity_file.specs.Steps.{kind_said, line_end, next_line};

use bech32::TextKind;
use refusal::Refusal;

// The longest line, without its LF.
const LONGEST: usize = 1024;

// Where the line ends that begins at `from`: at its LF, or at the text's end.
pub(crate) fn line_end(text: &[u8], from: usize) -> usize
    requires { from ≤ length text.now }
    ensures { result ≡ line_end text.now from }
{
    for i in from..text.len() {
        if text[i] == b'\n' {
            return i;
        }
    }
    text.len()
}

// Where the next line begins behind one that ends there; the text's end where there is none.
pub(crate) fn next_line(text: &[u8], end: usize) -> usize
    ensures { result ≡ next_line text.now end }
{
    let n = text.len();
    if end < n {
        return end + 1;
    }
    n
}

// What a line is: skipped, a secret key, invalid with its refusal, or valid.
#[derive(Clone, Copy)]
pub(crate) enum LineKind {
    Skipped,
    SecretKey,
    Invalid(Refusal),
    Valid,
}

// Whether a line is empty or a comment.
fn is_skipped(line: &[u8]) -> bool
    ensures { result ≡ is_skipped line.now }
{
    line.is_empty() || line[0] == b'#'
}

// Whether a line begins as a secret key of age's own does.
fn is_secret_key(line: &[u8]) -> bool
    ensures { result ≡ is_secret_key line.now }
{
    line.starts_with(b"AGE-SECRET-KEY-1")
}

// What a line is. Its length is looked at first, whatever it holds.
#[tactic(auto, unfolding(crate::specs::Kinds::kind_of))]
pub(crate) fn judge_line(line: &[u8]) -> LineKind
    ensures { kind_said result ≡ kind_of line.now }
{
    if LONGEST < line.len() {
        return LineKind::Invalid(Refusal::Malformed);
    }
    if is_skipped(line) {
        return LineKind::Skipped;
    }
    if is_secret_key(line) {
        return LineKind::SecretKey;
    }
    match bech32::judge(TextKind::Identity, line) {
        Ok(()) => LineKind::Valid,
        Err(r) => LineKind::Invalid(r),
    }
}
