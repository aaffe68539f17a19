// The stanza that waits for the host's reply at the client end, for the host to show: its whole text, its message, and the labels of a confirm. No chunk need
// hold it: it lies at the front of the lent input, until the reply.
#![tactic(auto)]

ghost use Rattle.std.specs.Prelude.{◌≡◌};
ghost use Rattle.refusal.specs.Output.{said, answered, filled};
ghost use Rattle.awaited.specs.Awaited.{awaited_text, line_in, message_in, label_count, label_in};

use refusal::Refusal;
use session::{Session, front};

// Its whole text, a part of the input; empty where nothing waits.
pub fn awaited_text<'a>(session: Session, input: &'a [u8]) -> &'a [u8]
    ensures { result.now ≡ awaited_text session input.now }
{
    let kept = front(input, stanza::LONGEST);
    intake::awaited_in(session.phase, front(kept, session.awaited))
}

// Its message, decoded to the front of `out`: how many bytes, or 15 and nothing written. Empty where nothing waits.
pub fn awaited_message(session: Session, input: &[u8], out: &mut [u8]) -> Result<usize, Refusal>
    ensures answer { said result ≡ answered (message_in (awaited_text session input.now)) out.old }
    ensures buffer { out.new ≡ filled (message_in (awaited_text session input.now)) out.old }
{
    let waiting = awaited_text(session, input);
    let first = stanza::read(waiting);
    match first {
        Ok(s) => stanza::body_of(waiting, s, out),
        Err(_) => Ok(0),
    }
}

// The text of its arguments; empty where nothing waits.
fn line<'a>(session: Session, input: &'a [u8]) -> &'a [u8]
    ensures { result.now ≡ line_in (awaited_text session input.now) }
{
    let waiting = awaited_text(session, input);
    let first = stanza::read(waiting);
    match first {
        Ok(s) => stanza::arguments_of(waiting, s),
        Err(_) => &waiting[..0],
    }
}

// How many labels it has: a confirm has one or two, any other none.
pub fn awaited_labels(session: Session, input: &[u8]) -> usize
    ensures { result ≡ label_count (awaited_text session input.now) }
{
    stanza::count(line(session, input)) - 1
}

// A label by its number, counted from 0, decoded to the front of `out`: how many bytes, or 15 and nothing written. Empty where there is none.
pub fn awaited_label(
    session: Session,
    input: &[u8],
    n: usize,
    out: &mut [u8],
) -> Result<usize, Refusal>
    ensures answer { said result ≡ answered (label_in n (awaited_text session input.now)) out.old }
    ensures buffer { out.new ≡ filled (label_in n (awaited_text session input.now)) out.old }
{
    if awaited_labels(session, input) <= n {
        return Ok(0);
    }
    strict_base64::decode(stanza::argument(line(session, input), n + 1), out)
}
