// One stanza of phase two received: a command of the plugin, judged, kept, and answered at once or left to wait for the host's reply.
ghost use Rattle.std.specs.Prelude.{◌≡◌, eqb};
ghost use Rattle.refusal.specs.Output.{filled};
ghost use Rattle.refusal.specs.Pick.{pick};
ghost use Rattle.refusal.specs.Verdict.{verdict_said};
ghost use Rattle.stanza.specs.Parts.{arguments_in, body_in};
ghost use Rattle.session.specs.Session.{session_of, carried_by};
ghost use Rattle.conversation.specs.PhaseTwo.{buffers_of};
ghost use Rattle.conversation.specs.ReceivingTwo.{text_of, received_stanza};
ghost use Rattle.phase_two.specs.AtOnce.{at_once_said};
ghost use Rattle.client_receiving.specs.Stanzas.{step_said};

use client_room::Step;
use refusal::Refusal;
use responses::Response;
use session::Session;
use stanza::Stanza;
use tables::Body;

// Writes what is answered at once to a command that was accepted.
fn write_answer(verdict: Result<(), Refusal>, answer: Option<Response>, out: &mut [u8])
    ensures { out.new ≡ pick (eqb (verdict_said verdict) 0) (filled (text_of (at_once_said answer)) out.old) out.old }
{
    match verdict {
        Ok(()) => {
            phase_two::write_at_once(answer, out);
        }
        Err(_) => {}
    }
}

// A whole stanza at the front of a text.
pub(crate) fn receive_stanza(
    session: Session,
    text: &[u8],
    s: Stanza,
    slots: &mut [[usize; 4]],
    header_slots: &[[usize; 4]],
    errors: &mut [u8],
    stanzas: &mut [u8],
    returned: &mut [u8],
    out: &mut [u8],
) -> Step
    ensures outcome { step_said result slots.new header_slots.now errors.new stanzas.new returned.new
        out.new ≡
        received_stanza (session_of session slots.old header_slots.now)
        (buffers_of errors.old stanzas.old returned.old) out.old (arguments_in text.now s)
        (body_in text.now s) s.taken }
    ensures carried { carried_by result.session ≡ carried_by session }
{
    let machine = session.machine;
    let before = session.phase;
    let screen = session.screen;
    let tables = session.tables;
    let line = stanza::arguments_of(text, s);
    let body = Body::Lines(stanza::lines_of(text, s));
    let n = tables::body_size(body);
    let command = phase_two_commands::parse_two(machine, line, n);
    let ruled = phase_two_decision::rule_two(false, tables, command, slots, header_slots);
    let at_once = phase_two::answer_at_once(screen, command);
    let size = phase_two::at_once_size(at_once);
    let late = session::check_output(size, out.len());
    let step = phase_two::step_two(
        ruled, late, tables, command, line, body, slots, errors, stanzas, returned,
    );
    let verdict = step.verdict;
    let after = step.tables;
    write_answer(verdict, at_once, out);
    let answer = client_room::answer_to(verdict, command, s.taken, size);
    let phase = phase_two::phase_received_two(before, screen, verdict, command);
    Step {
        answer: answer,
        session: session.moved(phase, after),
    }
}
