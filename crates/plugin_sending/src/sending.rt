// Phase two sent: a command is put together, judged as the text that it makes, kept, and written. Not one with client_sending's file, which says why.
ghost use Rattle.std.specs.Prelude.{◌≡◌, ◌≤◌, min, length};
ghost use Rattle.session.specs.Session.{session_of, carried_by};
ghost use Rattle.conversation.specs.CommandsTwo.{line_sent};
ghost use Rattle.conversation.specs.PhaseTwo.{buffers_of};
ghost use Rattle.conversation.specs.SendingTwo.{sent, sent_line};
ghost use Rattle.plugin_sending.specs.Sending.{sent_said};

use phase_two::step_two;
use phase_two_commands::put_line_two;
use refusal::Refusal;
use session::{SHORT_ARGUMENTS, SHORT_LINE, Sent, Session, WordTwo, front};
use tables::Body;

// A command put together in a store, which is long enough for every line that can be written. Not inlined: then the closure that calls it is, and no short
// line clears the long store.
#[inline(never)]
fn send_in(
    session: Session,
    word: WordTwo,
    arguments: &[u8],
    body: &[u8],
    store: &mut [u8],
    slots: &mut [[usize; 4]],
    header_slots: &[[usize; 4]],
    errors: &mut [u8],
    stanzas: &mut [u8],
    returned: &mut [u8],
    out: &mut [u8],
) -> Sent
    requires { min (length (line_sent word arguments.now)) 8192 ≤ length store.old }
    ensures outcome { sent_said result slots.new header_slots.now errors.new stanzas.new returned.new
        out.new ≡
        sent_line (session_of session slots.old header_slots.now)
        (buffers_of errors.old stanzas.old returned.old) (line_sent word arguments.now) body.now
        out.old }
    ensures carried { carried_by result.session ≡ carried_by session }
{
    let put = put_line_two(word, arguments, store);
    let composed = session::compose(put, store, body);
    match composed {
        Err(r) => Sent {
            answer: Err(r),
            session: session,
        },
        Ok(composed) => {
            let n = composed.line;
            let size = composed.stanza;
            let machine = session.machine;
            let before = session.phase;
            let tables = session.tables;
            let line = front(store, n);
            let command = phase_two_commands::parse_two(machine, line, body.len());
            let ruled = phase_two_decision::rule_two(true, tables, command, slots, header_slots);
            let late = session::check_output(size, out.len());
            let step = step_two(
                ruled,
                late,
                tables,
                command,
                line,
                Body::Bytes(body),
                slots,
                errors,
                stanzas,
                returned,
            );
            let verdict = step.verdict;
            let after = step.tables;
            let answer = session::write_judged(verdict, line, body, out);
            let phase = phase_two::phase_sent_two(before, verdict, command);
            Sent {
                answer: answer,
                session: session.moved(phase, after),
            }
        }
    }
}

// A command in its turn. A short line is put together in a short store: nothing longer is cleared for it.
fn send_due(
    session: Session,
    word: WordTwo,
    arguments: &[u8],
    body: &[u8],
    slots: &mut [[usize; 4]],
    header_slots: &[[usize; 4]],
    errors: &mut [u8],
    stanzas: &mut [u8],
    returned: &mut [u8],
    out: &mut [u8],
) -> Sent
    ensures outcome { sent_said result slots.new header_slots.now errors.new stanzas.new returned.new
        out.new ≡
        sent_line (session_of session slots.old header_slots.now)
        (buffers_of errors.old stanzas.old returned.old) (line_sent word arguments.now) body.now
        out.old }
    ensures carried { carried_by result.session ≡ carried_by session }
{
    let mut send_with = |store: &mut [u8]| {
        send_in(
            session,
            word,
            arguments,
            body,
            store,
            slots,
            header_slots,
            errors,
            stanzas,
            returned,
            out,
        )
    };
    if arguments.len() < SHORT_ARGUMENTS {
        return send_with(&mut [0u8; SHORT_LINE]);
    }
    send_with(&mut [0u8; stanza::LONGEST])
}

// A command of phase two, its arguments' text (empty for none; any other word stands first in it) and its body, written to the front of `out`: how many bytes,
// and the session. 13, 14, 17, 4, 5, 6, 9, 10, 11, 19, 8 or 15 where it is refused: then nothing changes.
pub fn send(
    session: Session,
    word: WordTwo,
    arguments: &[u8],
    body: &[u8],
    slots: &mut [[usize; 4]; Session::OTHER_SLOTS],
    header_slots: &[[usize; 4]; Session::HEADER_STANZAS],
    errors: &mut [u8],
    stanzas: &mut [u8],
    returned: &mut [u8],
    out: &mut [u8],
) -> Sent
    ensures outcome { sent_said result slots.new header_slots.now errors.new stanzas.new returned.new
        out.new ≡
        sent (session_of session slots.old header_slots.now) word arguments.now body.now
        (buffers_of errors.old stanzas.old returned.old) out.old }
    ensures carried { carried_by result.session ≡ carried_by session }
{
    let phase = session.phase;
    let turn = phase_two::turn_two(phase);
    match turn {
        Err(r) => Sent {
            answer: Err(r),
            session: session,
        },
        Ok(()) => send_due(
            session,
            word,
            arguments,
            body,
            slots,
            header_slots,
            errors,
            stanzas,
            returned,
            out,
        ),
    }
}
