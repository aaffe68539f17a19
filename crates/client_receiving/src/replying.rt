// The host's reply to a command that awaits it, and what was kept back behind that command.
ghost use Rattle.std.specs.Prelude.{◌≡◌, true, List, ℕ, ◌≤◌, min, length};
ghost use Rattle.refusal.specs.Output.{said};
ghost use Rattle.stanza.specs.Grammar.{stanza_text};
ghost use Rattle.stanza.specs.Writing.{is_writable};
ghost use Rattle.responses.specs.Responses.{response_line};
ghost use Rattle.session.specs.Session.{session_of};
ghost use Rattle.conversation.specs.Kinds.{Buffers};
ghost use Rattle.conversation.specs.TurnsTwo.{due_in};
ghost use Rattle.phase_one.specs.PhaseOne.{BuffersOne};
ghost use Rattle.phase_two.specs.Entering.{AreLong};
ghost use Rattle.chunks.specs.Taking.{client, taken_text};
ghost use Rattle.chunks.specs.Chunks.{reply_ahead, judged, replied};
ghost use Rattle.chunks.specs.Uncut.{is_waiting};
ghost use Rattle.intake.specs.Intake.{intake_of, received_said, stored_in};
ghost use Rattle.client_room.specs.Room.{has_room};
ghost use Rattle.client_receiving.specs.Replying.{due_sized, answered_with};
ghost use Rattle.client_receiving.specs.Texts.{lent};

use crate::texts::take_text;
use intake::{Received, begin};
use refusal::Refusal;
use responses::Response;
use session::{Phase, Session};

// How many bytes a reply has: 13 or 14 where none is due, 12 where it does not fit the command, then 17.
fn reply_size(phase: Phase, response: Response, body: &[u8]) -> Result<usize, Refusal>
    ensures { said result ≡ due_sized (due_in phase) response body.now }
{
    let word = intake::answer_due(phase)?;
    if !responses::fits_whole(word, response, body.len()) {
        return Err(Refusal::UnfitResponse);
    }
    responses::size(response, body)
}

// Whether a response of so many bytes has room, and behind it bytes that were kept back.
fn reply_has_room(
    session: Session,
    size: usize,
    back: &[u8],
    room: usize,
    slots: &[[usize; 4]; Session::OTHER_SLOTS],
    header_slots: &[[usize; 4]; Session::HEADER_STANZAS],
    errors: usize,
    stanzas: usize,
    returned: usize,
) -> bool
    ensures { (w a : List ℕ) (b : Buffers) → length w ≡ size → AreLong b.second errors stanzas returned →
        result ≡ has_room (reply_ahead w (taken_text client (session_of session slots.now header_slots.now) b a back.now)) room }
{
    if room < size {
        return false;
    }
    client_room::text_has_room(
        session,
        back,
        room - size,
        slots,
        header_slots,
        errors,
        stanzas,
        returned,
    )
}

// A response of so many bytes, and behind it bytes that were kept back: 15 of the whole.
fn reply_ahead(
    session: Session,
    response: Response,
    body: &[u8],
    size: usize,
    back: &[u8],
    input: &mut [u8],
    slots: &mut [[usize; 4]; Session::OTHER_SLOTS],
    header_slots: &[[usize; 4]; Session::HEADER_STANZAS],
    errors: &mut [u8],
    stanzas: &mut [u8],
    returned: &mut [u8],
    out: &mut [u8],
) -> Received
    requires { (is_writable (response_line response) body.now ≡ true) × (size ≡ length (stanza_text (response_line response) body.now)) ×
        (16384 ≤ length input.old) }
    ensures outcome { (b : BuffersOne) → received_said client result slots.new header_slots.now input.new
        (lent b errors.new stanzas.new returned.new) out.new ≡
        judged (intake_of client session slots.old header_slots.now input.old)
        (lent b errors.old stanzas.old returned.old) out.old
        (answered_with (session_of session slots.old header_slots.now)
        (lent b errors.old stanzas.old returned.old) response body.now back.now) }
    ensures input { input.new ≡
        stored_in (intake_of client result.session slots.new header_slots.now input.new) input.old }
    ensures name { result.session.name ≡ session.name }
{
    let answered = session.moved(Phase::Two, session.tables);
    let room = out.len();
    if !reply_has_room(
        answered,
        size,
        back,
        room,
        slots,
        header_slots,
        errors.len(),
        stanzas.len(),
        returned.len(),
    ) {
        return intake::leave(session, Refusal::ShortOutput);
    }
    let _ = responses::write(response, body, out);
    let begun = begin(answered, size);
    take_text(
        begun,
        back,
        input,
        slots,
        header_slots,
        errors,
        stanzas,
        returned,
        out,
    )
}

// So many bytes of the input, as many as a stanza has at most. A session that is made up may say more.
fn at_most_longest(n: usize) -> usize
    ensures { result ≡ min n 8192 }
{
    n.min(stanza::LONGEST)
}

// A response of so many bytes, where bytes were kept back: they are copied first, for the input is written anew.
fn reply_back(
    session: Session,
    response: Response,
    body: &[u8],
    size: usize,
    input: &mut [u8],
    slots: &mut [[usize; 4]; Session::OTHER_SLOTS],
    header_slots: &[[usize; 4]; Session::HEADER_STANZAS],
    errors: &mut [u8],
    stanzas: &mut [u8],
    returned: &mut [u8],
    out: &mut [u8],
) -> Received
    requires { (is_writable (response_line response) body.now ≡ true) × (size ≡ length (stanza_text (response_line response) body.now)) ×
        (16384 ≤ length input.old) × (is_waiting client session.phase ≡ true) }
    ensures outcome { (b : BuffersOne) → received_said client result slots.new header_slots.now input.new
        (lent b errors.new stanzas.new returned.new) out.new ≡
        judged (intake_of client session slots.old header_slots.now input.old)
        (lent b errors.old stanzas.old returned.old) out.old
        (answered_with (session_of session slots.old header_slots.now)
        (lent b errors.old stanzas.old returned.old) response body.now
        (intake_of client session slots.old header_slots.now input.old).kept) }
    ensures input { input.new ≡
        stored_in (intake_of client result.session slots.new header_slots.now input.new) input.old }
    ensures name { result.session.name ≡ session.name }
{
    let at = at_most_longest(session.awaited);
    let kept = at_most_longest(session.kept);
    let end = at + kept;
    let mut store = [0u8; stanza::LONGEST];
    stanza::copy(&input[at..end], &mut store);
    reply_ahead(
        session,
        response,
        body,
        size,
        &store[..kept],
        input,
        slots,
        header_slots,
        errors,
        stanzas,
        returned,
        out,
    )
}

// The host's reply to the command that awaits it, with a body where the response has one. The response is written to the front of `out`, and what was kept
// back is received behind it: how many of its commands were taken and which was the last, how many bytes were written in all, and the session. 13, 14, 12, 17
// or 15 where the reply is refused: then nothing changes. Else a number is that of what was kept back, and the reply stands.
pub fn reply(
    session: Session,
    response: Response,
    body: &[u8],
    input: &mut [u8; Session::CLIENT_INPUT],
    slots: &mut [[usize; 4]; Session::OTHER_SLOTS],
    header_slots: &[[usize; 4]; Session::HEADER_STANZAS],
    errors: &mut [u8],
    stanzas: &mut [u8],
    returned: &mut [u8],
    out: &mut [u8],
) -> Received
    ensures outcome { (b : BuffersOne) → received_said client result slots.new header_slots.now input.new
        (lent b errors.new stanzas.new returned.new) out.new ≡
        replied (intake_of client session slots.old header_slots.now input.old)
        (lent b errors.old stanzas.old returned.old) response body.now out.old }
    ensures input { input.new ≡
        stored_in (intake_of client result.session slots.new header_slots.now input.new) input.old }
    ensures name { result.session.name ≡ session.name }
{
    let phase = session.phase;
    let sized = reply_size(phase, response, body);
    match sized {
        Err(r) => intake::leave(session, r),
        Ok(size) => {
            if session.kept == 0 {
                return reply_ahead(
                    session,
                    response,
                    body,
                    size,
                    &body[..0],
                    input,
                    slots,
                    header_slots,
                    errors,
                    stanzas,
                    returned,
                    out,
                );
            }
            reply_back(
                session,
                response,
                body,
                size,
                input,
                slots,
                header_slots,
                errors,
                stanzas,
                returned,
                out,
            )
        }
    }
}
