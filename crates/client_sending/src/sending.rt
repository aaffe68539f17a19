// Phase one sent: a command is put together, judged as the text that it makes, kept, and written. plugin_sending's file is alike, but its words, buffers, rules
// and phases are phase two's: one for both would take each as a closure and require its calls, and no public function requires anything.
ghost use Rattle.std.specs.Prelude.{◌≡◌, ◌≤◌, min, length};
ghost use Rattle.session.specs.Session.{session_of, carried_by};
ghost use Rattle.phase_one.specs.Commands.{word_said, line_sent};
ghost use Rattle.phase_one.specs.PhaseOne.{buffers_of};
ghost use Rattle.conversation.specs.Sending.{sent, sent_line};
ghost use Rattle.client_sending.specs.Sending.{sent_said};

use phase_one::{WordOne, put_line, step_one};
use refusal::Refusal;
use session::{SHORT_ARGUMENTS, SHORT_LINE, Sent, Session, front};
use tables::Body;

// A command put together in a store, which is long enough for every line that can be written. Not inlined: then the closure that calls it is, and no short
// line clears the long store.
#[inline(never)]
fn send_in(
    session: Session,
    word: WordOne,
    arguments: &[u8],
    body: &[u8],
    store: &mut [u8],
    slots: &mut [[usize; 4]],
    header_slots: &mut [[usize; 4]],
    recipients: &mut [u8],
    identities: &mut [u8],
    keys: &mut [u8],
    headers: &mut [u8],
    out: &mut [u8],
) -> Sent
    requires { min (length (line_sent (word_said word) arguments.now)) 8192 ≤ length store.old }
    ensures outcome { sent_said result slots.new header_slots.new recipients.new identities.new keys.new
        headers.new out.new ≡
        sent_line (session_of session slots.old header_slots.old)
        (buffers_of recipients.old identities.old keys.old headers.old)
        (line_sent (word_said word) arguments.now) body.now out.old }
    ensures carried { carried_by result.session ≡ carried_by session }
{
    let put = put_line(word, arguments, store);
    let composed = session::compose(put, store, body);
    match composed {
        Err(r) => Sent {
            answer: Err(r),
            session: session,
        },
        Ok(composed) => {
            let n = composed.line;
            let size = composed.stanza;
            let machine = session.machine;
            let before = session.phase;
            let line = front(store, n);
            let name = session.name;
            let bytes = name.bytes;
            let length = name.length;
            let late = session::check_output(size, out.len());
            let step = step_one(
                machine,
                front(&bytes, length),
                session.tables,
                late,
                line,
                Body::Bytes(body),
                slots,
                header_slots,
                recipients,
                identities,
                keys,
                headers,
            );
            let verdict = step.verdict;
            let command = step.command;
            let after = step.tables;
            let answer = session::write_judged(verdict, line, body, out);
            let phase = phase_one::phase_sent(before, verdict, command);
            Sent {
                answer: answer,
                session: session.moved(phase, after),
            }
        }
    }
}

// A command in its turn. A short line is put together in a short store: nothing longer is cleared for it.
fn send_due(
    session: Session,
    word: WordOne,
    arguments: &[u8],
    body: &[u8],
    slots: &mut [[usize; 4]],
    header_slots: &mut [[usize; 4]],
    recipients: &mut [u8],
    identities: &mut [u8],
    keys: &mut [u8],
    headers: &mut [u8],
    out: &mut [u8],
) -> Sent
    ensures outcome { sent_said result slots.new header_slots.new recipients.new identities.new keys.new
        headers.new out.new ≡
        sent_line (session_of session slots.old header_slots.old)
        (buffers_of recipients.old identities.old keys.old headers.old)
        (line_sent (word_said word) arguments.now) body.now out.old }
    ensures carried { carried_by result.session ≡ carried_by session }
{
    let mut send_with = |store: &mut [u8]| {
        send_in(
            session,
            word,
            arguments,
            body,
            store,
            slots,
            header_slots,
            recipients,
            identities,
            keys,
            headers,
            out,
        )
    };
    if arguments.len() < SHORT_ARGUMENTS {
        return send_with(&mut [0u8; SHORT_LINE]);
    }
    send_with(&mut [0u8; stanza::LONGEST])
}

// A command of phase one, its arguments' text (empty for none; any other word stands first in it) and its body, written to the front of `out`: how many bytes,
// and the session. 13, 14, 17, 4, 5, 7, 20, 8 or 15 where it is refused: then nothing changes.
pub fn send(
    session: Session,
    word: WordOne,
    arguments: &[u8],
    body: &[u8],
    slots: &mut [[usize; 4]; Session::OTHER_SLOTS],
    header_slots: &mut [[usize; 4]; Session::HEADER_STANZAS],
    recipients: &mut [u8],
    identities: &mut [u8],
    keys: &mut [u8],
    headers: &mut [u8],
    out: &mut [u8],
) -> Sent
    ensures outcome { sent_said result slots.new header_slots.new recipients.new identities.new keys.new
        headers.new out.new ≡
        sent (session_of session slots.old header_slots.old) (word_said word) arguments.now body.now
        (buffers_of recipients.old identities.old keys.old headers.old) out.old }
    ensures carried { carried_by result.session ≡ carried_by session }
{
    let phase = session.phase;
    let turn = phase_one::turn_one(phase);
    match turn {
        Err(r) => Sent {
            answer: Err(r),
            session: session,
        },
        Ok(()) => send_due(
            session,
            word,
            arguments,
            body,
            slots,
            header_slots,
            recipients,
            identities,
            keys,
            headers,
            out,
        ),
    }
}
