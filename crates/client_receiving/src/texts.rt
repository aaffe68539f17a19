// A text of phase two received, stanza after stanza from the left. All that is written for it has room.
ghost use Rattle.std.specs.Prelude.{◌≡◌, Some, Ok, Err, true, [], ◌+◌, ◌≤◌, length};
ghost use Rattle.session.specs.Session.{session_of};
ghost use Rattle.session.specs.declared.phases.Phase.TheVariants.{Two};
ghost use Rattle.phase_one.specs.PhaseOne.{BuffersOne};
ghost use Rattle.chunks.specs.Taking.{client};
ghost use Rattle.chunks.specs.Chunks.{is_held};
ghost use Rattle.chunks.specs.Uncut.{is_waiting};
ghost use Rattle.client_room.specs.Room.{stanza_ahead};
ghost use Rattle.client_receiving.specs.Texts.{lent, behind_answer, MayTake, Answers};

use crate::stanzas::receive_stanza;
use client_room::next_stanza;
use intake::{Last, Received, Turn, awaited_in, begin, stop};
use session::{Phase, Session, WordTwo};

// One command more, answered with so many bytes. Not one with plugin_receiving's answer_behind: shared it would be public, and no public function requires room
// for a count.
fn go_on(so_far: Received, word: WordTwo, size: usize, session: Session) -> Received
    requires { (so_far.count + 1 ≤ 18446744073709551615) × (so_far.written + size ≤ 18446744073709551615) }
    ensures { result ≡ record {
      verdict = Ok tt;
      count = so_far.count + 1;
      last = Some (Last.CommandTwo word);
      written = so_far.written + size;
      session = session;
    } }
{
    Received {
        verdict: Ok(()),
        count: so_far.count + 1,
        last: Some(Last::CommandTwo(word)),
        written: so_far.written + size,
        session: session,
    }
}

// A text from the start of a stanza on, behind what was taken: its stanzas, up to one that waits or is refused, and what stands behind them.
pub(crate) fn take_text(
    so_far: Received,
    text: &[u8],
    input: &mut [u8],
    slots: &mut [[usize; 4]; Session::OTHER_SLOTS],
    header_slots: &[[usize; 4]; Session::HEADER_STANZAS],
    errors: &mut [u8],
    stanzas: &mut [u8],
    returned: &mut [u8],
    out: &mut [u8],
) -> Received
    requires { MayTake so_far slots.old header_slots.now errors.old stanzas.old returned.old text.now input.old out.old }
    ensures outcome { (b : BuffersOne) → Answers result slots.new header_slots.now input.old input.new
        (lent b errors.new stanzas.new returned.new) out.old out.new
        (behind_answer so_far slots.old header_slots.now (lent b errors.old stanzas.old returned.old)
        [] text.now out.old) }
    ensures name { result.session.name ≡ so_far.session.name }
{
    let mut done = so_far;
    let mut at = 0;
    let mut begun = 0;
    while let Ok(s) = next_stanza(done.session.phase, &text[at..]) {
        let written = done.written;
        let step = receive_stanza(
            done.session,
            &text[at..],
            s,
            slots,
            header_slots,
            errors,
            stanzas,
            returned,
            &mut out[written..],
        );
        let answer = step.answer;
        let after = step.session;
        match answer {
            Err(r) => {
                return stop(done, r, after);
            }
            Ok(taken) => {
                done = go_on(done, taken.word, taken.written, after);
                begun = at;
                at += s.taken;
            }
        }
    }
    let phase = done.session.phase;
    let turn = intake::turn_client(phase);
    let awaited = awaited_in(phase, &text[begun..at]);
    intake::settle(done, turn, awaited, &text[at..], input)
}

// Whether the host's reply is due.
fn is_waiting(phase: Phase) -> bool
    ensures { result ≡ is_waiting client phase }
{
    matches!(phase, Phase::Awaiting(_))
}

// A text that is taken as one stanza, and the text behind it. Its stanza is a turn of take_text's loop; one function for both would take the loop's variables and
// hand all of them back.
pub(crate) fn take_front(
    session: Session,
    front: &[u8],
    text: &[u8],
    input: &mut [u8],
    slots: &mut [[usize; 4]; Session::OTHER_SLOTS],
    header_slots: &[[usize; 4]; Session::HEADER_STANZAS],
    errors: &mut [u8],
    stanzas: &mut [u8],
    returned: &mut [u8],
    out: &mut [u8],
) -> Received
    requires phase_value { (session.phase ≡ Two) × (length front.now ≤ 8192) × (16384 ≤ length input.old) }
    requires out_value { (b : BuffersOne) → is_held (stanza_ahead (session_of session slots.old header_slots.now)
        (lent b errors.old stanzas.old returned.old) front.now text.now) out.old ≡ true }
    ensures outcome { (b : BuffersOne) → Answers result slots.new header_slots.now input.old input.new
        (lent b errors.new stanzas.new returned.new) out.old out.new
        (stanza_ahead (session_of session slots.old header_slots.now)
        (lent b errors.old stanzas.old returned.old) front.now text.now) }
    ensures name { result.session.name ≡ session.name }
{
    let begun = begin(session, 0);
    let first = stanza::read(front);
    match first {
        Err(r) => {
            let phase = session.phase;
            stop(
                begun,
                r,
                session.moved(session::phase_refused(phase, r), session.tables),
            )
        }
        Ok(s) => {
            let step = receive_stanza(
                session,
                front,
                s,
                slots,
                header_slots,
                errors,
                stanzas,
                returned,
                out,
            );
            let answer = step.answer;
            let after = step.session;
            match answer {
                Err(r) => stop(begun, r, after),
                Ok(taken) => {
                    let done = go_on(begun, taken.word, taken.written, after);
                    let phase = after.phase;
                    if is_waiting(phase) {
                        return intake::settle(done, Turn::KeepsBack, front, text, input);
                    }
                    take_text(
                        done,
                        text,
                        input,
                        slots,
                        header_slots,
                        errors,
                        stanzas,
                        returned,
                        out,
                    )
                }
            }
        }
    }
}
