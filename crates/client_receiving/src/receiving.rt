// A chunk of phase two received: any bytes, with what is kept of an unfinished stanza before them.
ghost use Rattle.std.specs.Prelude.{◌≡◌, true, ◌++◌, ◌+◌, ◌≤◌, min, length, take, drop};
ghost use Rattle.stanza.specs.Resuming.{whole};
ghost use Rattle.session.specs.Session.{session_of};
ghost use Rattle.session.specs.declared.phases.Phase.TheVariants.{Two};
ghost use Rattle.phase_one.specs.PhaseOne.{BuffersOne};
ghost use Rattle.chunks.specs.Taking.{client};
ghost use Rattle.chunks.specs.Chunks.{is_held, taken, chunked};
ghost use Rattle.intake.specs.Fronts.{front_of};
ghost use Rattle.intake.specs.Intake.{intake_of, received_said, stored_in};
ghost use Rattle.client_room.specs.Room.{stanza_ahead};
ghost use Rattle.client_receiving.specs.Texts.{lent, Answers};

use crate::texts::{take_front, take_text};
use intake::{Received, Turn, begin};
use refusal::Refusal;
use session::Session;
use stanza::Continued;

// A stanza whose front is kept, so many bytes of the input, ends behind k bytes of the chunk.
fn take_joined(
    session: Session,
    kept: usize,
    chunk: &[u8],
    k: usize,
    input: &mut [u8],
    slots: &mut [[usize; 4]; Session::OTHER_SLOTS],
    header_slots: &[[usize; 4]; Session::HEADER_STANZAS],
    errors: &mut [u8],
    stanzas: &mut [u8],
    returned: &mut [u8],
    out: &mut [u8],
) -> Received
    requires phase_value { (session.phase ≡ Two) × (k ≤ length chunk.now) × (kept + k ≤ 8192) × (16384 ≤ length input.old) }
    requires out_value { (b : BuffersOne) → is_held (stanza_ahead (session_of session slots.old header_slots.now)
        (lent b errors.old stanzas.old returned.old) (take kept input.old ++ take k chunk.now) (drop k chunk.now)) out.old ≡ true }
    ensures outcome { (b : BuffersOne) → Answers result slots.new header_slots.now input.old input.new
        (lent b errors.new stanzas.new returned.new) out.old out.new
        (stanza_ahead (session_of session slots.old header_slots.now)
        (lent b errors.old stanzas.old returned.old)
        (take kept input.old ++ take k chunk.now) (drop k chunk.now)) }
    ensures name { result.session.name ≡ session.name }
{
    let mut store = [0u8; stanza::LONGEST];
    intake::put_together(input, kept, &chunk[..k], &mut store);
    let whole = kept + k;
    take_front(
        session,
        &store[..whole],
        &chunk[k..],
        input,
        slots,
        header_slots,
        errors,
        stanzas,
        returned,
        out,
    )
}

// A chunk that has room, in phase two with no reply due, whose first k bytes end the stanza that is unfinished; none is where k is 0.
fn receive_held(
    session: Session,
    chunk: &[u8],
    k: usize,
    input: &mut [u8],
    slots: &mut [[usize; 4]; Session::OTHER_SLOTS],
    header_slots: &[[usize; 4]; Session::HEADER_STANZAS],
    errors: &mut [u8],
    stanzas: &mut [u8],
    returned: &mut [u8],
    out: &mut [u8],
) -> Received
    requires phase_value { (session.phase ≡ Two) × (16384 ≤ length input.old) × (front_of session.reading (min session.kept 8191) chunk.now ≡ whole k) }
    requires out_value { (b : BuffersOne) → is_held (taken client (intake_of client session slots.old header_slots.now input.old)
        (lent b errors.old stanzas.old returned.old) chunk.now) out.old ≡ true }
    ensures outcome { (b : BuffersOne) → Answers result slots.new header_slots.now input.old input.new
        (lent b errors.new stanzas.new returned.new) out.old out.new
        (taken client (intake_of client session slots.old header_slots.now input.old)
        (lent b errors.old stanzas.old returned.old) chunk.now) }
    ensures name { result.session.name ≡ session.name }
{
    if k == 0 {
        return take_text(
            begin(session, 0),
            chunk,
            input,
            slots,
            header_slots,
            errors,
            stanzas,
            returned,
            out,
        );
    }
    let kept = intake::kept_of(session.kept);
    take_joined(
        session,
        kept,
        chunk,
        k,
        input,
        slots,
        header_slots,
        errors,
        stanzas,
        returned,
        out,
    )
}

// plugin_receiving's receive begins alike: what the two share are intake's four functions; one for all four would hand an accepted answer back as an error.
// A chunk of the plugin's commands: how many were taken and which was the last, how many bytes were written to the front of `out`, and the session. 13 or 14
// out of turn, and 15 where what is written or kept back has no room: then nothing is taken and nothing changes. 1, 3, 4, 5, 6, 9, 10, 11 or 8 close the
// session, and 13 is given for bytes behind done: the commands before them stand.
pub fn receive(
    session: Session,
    chunk: &[u8],
    input: &mut [u8; Session::CLIENT_INPUT],
    slots: &mut [[usize; 4]; Session::OTHER_SLOTS],
    header_slots: &[[usize; 4]; Session::HEADER_STANZAS],
    errors: &mut [u8],
    stanzas: &mut [u8],
    returned: &mut [u8],
    out: &mut [u8],
) -> Received
    ensures outcome { (b : BuffersOne) → received_said client result slots.new header_slots.now input.new
        (lent b errors.new stanzas.new returned.new) out.new ≡
        chunked client (intake_of client session slots.old header_slots.now input.old)
        (lent b errors.old stanzas.old returned.old) chunk.now out.old }
    ensures input { input.new ≡
        stored_in (intake_of client result.session slots.new header_slots.now input.new) input.old }
    ensures name { result.session.name ≡ session.name }
{
    let phase = session.phase;
    let turn = phase_two::turn_two(phase);
    if let Err(r) = turn {
        return intake::leave(session, r);
    }
    let reading = session.reading;
    let one = intake::read_one(Turn::Reads, reading, session.kept, chunk, input);
    if let Some(place) = one {
        return intake::keep_on(session, place, chunk);
    }
    let front = intake::read_front(Turn::Reads, reading, session.kept, chunk, input);
    match front {
        Ok(Continued::Unfinished(place)) => {
            return intake::keep_on(session, place, chunk);
        }
        Err(r) => {
            return intake::close(session, r);
        }
        Ok(Continued::Whole(k)) => {
            let room = out.len();
            if !client_room::has_room(
                session,
                chunk,
                k,
                input,
                room,
                slots,
                header_slots,
                errors.len(),
                stanzas.len(),
                returned.len(),
            ) {
                return intake::leave(session, Refusal::ShortOutput);
            }
            receive_held(
                session,
                chunk,
                k,
                input,
                slots,
                header_slots,
                errors,
                stanzas,
                returned,
                out,
            )
        }
    }
}
