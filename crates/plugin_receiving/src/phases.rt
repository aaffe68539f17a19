// A chunk of the client's bytes, by the phase.
ghost use Rattle.std.specs.Prelude.{◌≡◌, List, [], ℕ, ◌+◌, eqb};
ghost use Rattle.refusal.specs.Pick.{pick};
ghost use Rattle.refusal.specs.Verdict.{verdict_said};
ghost use Rattle.session.specs.declared.phases.Phase.TheVariants.{Two};
ghost use Rattle.phase_one.specs.PhaseOne as one;
ghost use Rattle.conversation.specs.Kinds.{Buffers, buffers_of};
ghost use Rattle.conversation.specs.PhaseTwo.{BuffersTwo};
ghost use Rattle.chunks.specs.Taking.{plugin};
ghost use Rattle.chunks.specs.Chunks.{taken, chunked};
ghost use Rattle.intake.specs.Intake.{intake_of, stored_in, received_said};
ghost use Rattle.intake.specs.Settling.{Says};

use crate::commands::receive_commands;
use crate::responding::{none_behind, receive_due};
use intake::Received;
use refusal::Refusal;
use session::{Phase, Session, front};
use stanza::{Continued, Place};

// Phase two while no response is due: any byte is dropped with 14.
fn drop_chunk(session: Session, chunk: &[u8], input: &[u8]) -> Received
    requires { session.phase ≡ Two }
    ensures outcome { (xs hs : List (List ℕ)) (b : Buffers) →
        Says plugin result xs hs input.now input.now [] b
        (taken plugin (intake_of plugin session xs hs input.now) b chunk.now) }
    ensures rest { (result.written ≡ 0) × (result.session.name ≡ session.name) }
{
    let kept = front(input, intake::kept_of(session.kept)).len();
    let emptied = session.keeping(Place::Start, 0, 0);
    let verdict = dropped(kept, chunk.len());
    Received {
        verdict: verdict,
        count: 0,
        last: None,
        written: 0,
        session: emptied,
    }
}

// 14 where bytes are kept or come.
fn dropped(kept: usize, came: usize) -> Result<(), Refusal>
    ensures { verdict_said result ≡ pick (eqb (kept + came) 0) 0 14 }
{
    if kept == 0 {
        return none_behind(came);
    }
    Err(Refusal::OutOfTurn)
}

// A chunk received: its stanzas one by one, with those that began in earlier chunks. 13, 14, 1, 3, 4, 5, 7, 8, 12, 15 or 20 where it is refused; the stanzas
// before the fault are taken all the same, but for 15, which leaves everything as it was.
pub fn receive(
    session: Session,
    chunk: &[u8],
    input: &mut [u8; Session::PLUGIN_INPUT],
    slots: &mut [[usize; 4]; Session::OTHER_SLOTS],
    header_slots: &mut [[usize; 4]; Session::HEADER_STANZAS],
    recipients: &mut [u8],
    identities: &mut [u8],
    keys: &mut [u8],
    headers: &mut [u8],
    out: &mut [u8],
) -> Received
    ensures outcome { (c : BuffersTwo) →
        received_said plugin result slots.new header_slots.new input.new
        (buffers_of (one.buffers_of recipients.new identities.new keys.new headers.new) c) out.new ≡
        chunked plugin (intake_of plugin session slots.old header_slots.old input.old)
        (buffers_of (one.buffers_of recipients.old identities.old keys.old headers.old) c) chunk.now
        out.old }
    ensures stored { input.new ≡
        stored_in (intake_of plugin result.session slots.new header_slots.new input.new) input.old }
    ensures name { result.session.name ≡ session.name }
{
    let phase = session.phase;
    let reading = session.reading;
    let turn = intake::turn_plugin(phase);
    let one = intake::read_one(turn, reading, session.kept, chunk, input);
    if let Some(place) = one {
        return intake::keep_on(session, place, chunk);
    }
    let front = intake::read_front(turn, reading, session.kept, chunk, input);
    match front {
        Ok(Continued::Unfinished(place)) => {
            return intake::keep_on(session, place, chunk);
        }
        Err(r) => {
            return intake::close(session, r);
        }
        Ok(Continued::Whole(k)) => match phase {
            Phase::One => receive_commands(
                session,
                chunk,
                k,
                input,
                slots,
                header_slots,
                recipients,
                identities,
                keys,
                headers,
            ),
            Phase::Two => drop_chunk(session, chunk, input),
            Phase::Awaiting(word) => receive_due(session, word, chunk, k, input, out),
            Phase::Ended => intake::leave(session, Refusal::SessionOver),
            Phase::Closed => intake::leave(session, Refusal::SessionOver),
        },
    }
}
