// A first pass over a text that writes nothing: what it would be answered with has room, and so has what would be kept back.
ghost use Rattle.std.specs.Prelude.{◌≡◌, true, List, ◌++◌, ℕ, ◌+◌, ◌*◌, ◌≤◌, ◌<◌, min, length, take, drop};
ghost use Rattle.stanza.specs.Resuming.{whole};
ghost use Rattle.session.specs.Session.{session_of};
ghost use Rattle.conversation.specs.Kinds.{Buffers};
ghost use Rattle.conversation.specs.TurnsTwo.{turn_two};
ghost use Rattle.chunks.specs.Taking.{client, turn_at, taken_text};
ghost use Rattle.chunks.specs.Chunks.{taken};
ghost use Rattle.intake.specs.Fronts.{front_of};
ghost use Rattle.intake.specs.Intake.{intake_of};
ghost use Rattle.phase_two.specs.Entering.{AreLong};
ghost use Rattle.client_room.specs.Room.{has_room, is_keepable, stanza_ahead};

use crate::stanzas::{next_stanza, try_stanza};
use session::{Phase, Session};

// A chunk of so many bytes leaves no more to keep back than there is room for: the stanza that waits has a byte of it at least.
const MOST_KEPT_BACK: usize = stanza::LONGEST + 1;

// So many bytes are multiplied without a wrap.
const MOST_AMPLE: usize = 65536;

// Whether so many bytes that are left may be: only what is kept back can be too long.
fn is_keepable(phase: Phase, left: usize) -> bool
    ensures { result ≡ is_keepable (turn_at client phase) left }
{
    match phase {
        Phase::One => true,
        Phase::Two => true,
        Phase::Awaiting(_) => left <= stanza::LONGEST,
        Phase::Ended => true,
        Phase::Closed => true,
    }
}

// Whether a text from the start of a stanza on has room in so many bytes of output, for buffers of these lengths. The slots are a copy.
fn fits(
    session: Session,
    text: &[u8],
    room: usize,
    slots: &mut [[usize; 4]; Session::OTHER_SLOTS],
    header_slots: &[[usize; 4]; Session::HEADER_STANZAS],
    errors: usize,
    stanzas: usize,
    returned: usize,
) -> bool
    ensures { (a : List ℕ) (b : Buffers) → AreLong b.second errors stanzas returned →
        result ≡ has_room (taken_text client (session_of session slots.old header_slots.now) b a text.now) room }
{
    let mut so_far = session;
    let mut left = room;
    let mut at = 0;
    while let Ok(s) = next_stanza(so_far.phase, &text[at..]) {
        let step = try_stanza(
            so_far,
            &text[at..],
            s,
            slots,
            header_slots,
            errors,
            stanzas,
            returned,
        );
        let answer = step.answer;
        match answer {
            Err(_) => {
                return true;
            }
            Ok(taken) => {
                let size = taken.written;
                if left < size {
                    return false;
                }
                left -= size;
                at += s.taken;
                so_far = step.session;
            }
        }
    }
    is_keepable(so_far.phase, text.len() - at)
}

// The same of a text that is taken as one stanza, and the text behind it. Its stanza is a turn of the loop above; one function for both would take the loop's
// variables and hand all of them back.
fn front_fits(
    session: Session,
    front: &[u8],
    text: &[u8],
    room: usize,
    slots: &mut [[usize; 4]; Session::OTHER_SLOTS],
    header_slots: &[[usize; 4]; Session::HEADER_STANZAS],
    errors: usize,
    stanzas: usize,
    returned: usize,
) -> bool
    ensures { (b : Buffers) → AreLong b.second errors stanzas returned → turn_two session.phase ≡ 0 →
        result ≡ has_room (stanza_ahead (session_of session slots.old header_slots.now) b front.now text.now) room }
{
    let first = stanza::read(front);
    match first {
        Err(_) => true,
        Ok(s) => {
            let step = try_stanza(
                session,
                front,
                s,
                slots,
                header_slots,
                errors,
                stanzas,
                returned,
            );
            let answer = step.answer;
            match answer {
                Err(_) => true,
                Ok(taken) => {
                    let size = taken.written;
                    if room < size {
                        return false;
                    }
                    fits(
                        step.session,
                        text,
                        room - size,
                        slots,
                        header_slots,
                        errors,
                        stanzas,
                        returned,
                    )
                }
            }
        }
    }
}

// Whether so many bytes have room without a look at them: 6 bytes make at most 16 of output.
fn is_ample(bytes: usize, room: usize) -> bool
    ensures { result ≡ true → 16 * bytes < 6 * room + 6 }
{
    if MOST_AMPLE < bytes {
        return false;
    }
    16 * bytes / 6 <= room
}

// Whether a text from the start of a stanza on has room, the slots untouched.
pub fn text_has_room(
    session: Session,
    text: &[u8],
    room: usize,
    slots: &[[usize; 4]; Session::OTHER_SLOTS],
    header_slots: &[[usize; 4]; Session::HEADER_STANZAS],
    errors: usize,
    stanzas: usize,
    returned: usize,
) -> bool
    ensures { (a : List ℕ) (b : Buffers) → AreLong b.second errors stanzas returned →
        result ≡ has_room (taken_text client (session_of session slots.now header_slots.now) b a text.now) room }
{
    let n = text.len();
    if n <= stanza::LONGEST && is_ample(n, room) {
        return true;
    }
    let mut trial = *slots;
    fits(
        session,
        text,
        room,
        &mut trial,
        header_slots,
        errors,
        stanzas,
        returned,
    )
}

// The same of a stanza whose front is kept, so many bytes of the input, and ends behind k bytes of the chunk; the slots untouched.
fn joined_fits(
    session: Session,
    input: &[u8],
    kept: usize,
    chunk: &[u8],
    k: usize,
    room: usize,
    slots: &[[usize; 4]; Session::OTHER_SLOTS],
    header_slots: &[[usize; 4]; Session::HEADER_STANZAS],
    errors: usize,
    stanzas: usize,
    returned: usize,
) -> bool
    requires { (kept ≤ length input.now) × (k ≤ length chunk.now) × (kept + k ≤ 8192) }
    ensures { (b : Buffers) → AreLong b.second errors stanzas returned → turn_two session.phase ≡ 0 →
        result ≡ has_room (stanza_ahead (session_of session slots.now header_slots.now) b
        (take kept input.now ++ take k chunk.now) (drop k chunk.now)) room }
{
    let mut store = [0u8; stanza::LONGEST];
    intake::put_together(input, kept, &chunk[..k], &mut store);
    let whole = kept + k;
    let mut trial = *slots;
    front_fits(
        session,
        &store[..whole],
        &chunk[k..],
        room,
        &mut trial,
        header_slots,
        errors,
        stanzas,
        returned,
    )
}

// Whether a chunk has room whose first k bytes end the stanza that is unfinished; none is where k is 0. What is kept stands at the front of the input.
pub fn has_room(
    session: Session,
    chunk: &[u8],
    k: usize,
    input: &[u8],
    room: usize,
    slots: &[[usize; 4]; Session::OTHER_SLOTS],
    header_slots: &[[usize; 4]; Session::HEADER_STANZAS],
    errors: usize,
    stanzas: usize,
    returned: usize,
) -> bool
    requires { (front_of session.reading (min session.kept 8191) chunk.now ≡ whole k) × (8192 ≤ length input.now) }
    ensures { (b : Buffers) → AreLong b.second errors stanzas returned → turn_two session.phase ≡ 0 →
        result ≡ has_room (taken client (intake_of client session slots.now header_slots.now input.now) b chunk.now)
        room }
{
    let kept = intake::kept_of(session.kept);
    let n = chunk.len();
    if n <= MOST_KEPT_BACK && is_ample(kept + n, room) {
        return true;
    }
    if k == 0 {
        return text_has_room(
            session,
            chunk,
            room,
            slots,
            header_slots,
            errors,
            stanzas,
            returned,
        );
    }
    joined_fits(
        session,
        input,
        kept,
        chunk,
        k,
        room,
        slots,
        header_slots,
        errors,
        stanzas,
        returned,
    )
}
