// One stanza of phase two: where it stands, what it is answered, and what it comes to by lengths alone.
ghost use Rattle.std.specs.Prelude.{◌≡◌, ◌++◌, ◌+◌, ◌≤◌, length, take, drop};
ghost use Rattle.refusal.specs.Verdict.{verdict_said};
ghost use Rattle.stanza.specs.Parts.{arguments_in, body_in};
ghost use Rattle.stanza.specs.Reading.{read_said};
ghost use Rattle.session.specs.Session.{session_of};
ghost use Rattle.conversation.specs.PhaseTwo.{BuffersTwo};
ghost use Rattle.chunks.specs.Taking.{client, turn_at};
ghost use Rattle.phase_two.specs.Entering.{AreLong};
ghost use Rattle.phase_two_commands.specs.Commands.{command_said};
ghost use Rattle.client_room.specs.Stanzas.{answer_of, taking_said, next_in, Tried};

use phase_two_commands::CommandTwo;
use refusal::Refusal;
use session::{Outcome, Phase, Session, WordTwo};
use stanza::Stanza;
use tables::Body;

// Which command was received, how many bytes of the text it took and how many were written.
#[derive(Clone, Copy)]
pub struct Taken {
    pub word: WordTwo,
    pub taken: usize,
    pub written: usize,
}

// What a stanza came to.
pub type Step = Outcome<Taken>;

// The answer to a command that was judged.
pub fn answer_to(
    verdict: Result<(), Refusal>,
    command: Result<CommandTwo, Refusal>,
    taken: usize,
    written: usize,
) -> Result<Taken, Refusal>
    ensures { taking_said result ≡ answer_of (verdict_said verdict) (command_said command) taken written }
{
    verdict?;
    Ok(Taken {
        word: phase_two_commands::word_two_of(command),
        taken: taken,
        written: written,
    })
}

// The stanza at the front of a text, where commands are received: in phase two, with no reply due.
pub fn next_stanza(phase: Phase, text: &[u8]) -> Result<Stanza, Refusal>
    ensures { read_said result ≡ next_in (turn_at client phase) text.now }
{
    match phase {
        Phase::One => Err(Refusal::Unfinished),
        Phase::Two => stanza::read(text),
        Phase::Awaiting(_) => Err(Refusal::Unfinished),
        Phase::Ended => Err(Refusal::Unfinished),
        Phase::Closed => Err(Refusal::Unfinished),
    }
}

// A whole stanza at the front of a text, entered without its payload, for buffers of these lengths; its answer has room.
pub(crate) fn try_stanza(
    session: Session,
    text: &[u8],
    s: Stanza,
    slots: &mut [[usize; 4]],
    header_slots: &[[usize; 4]],
    errors: usize,
    stanzas: usize,
    returned: usize,
) -> Step
    ensures outcome { (b : BuffersTwo) → AreLong b errors stanzas returned →
        Tried (session_of session slots.old header_slots.now) b (arguments_in text.now s) (body_in text.now s)
        s.taken (taking_said result.answer) (session_of result.session slots.new header_slots.now) }
{
    let machine = session.machine;
    let before = session.phase;
    let screen = session.screen;
    let tables = session.tables;
    let line = stanza::arguments_of(text, s);
    let body = Body::Lines(stanza::lines_of(text, s));
    let n = tables::body_size(body);
    let command = phase_two_commands::parse_two(machine, line, n);
    let ruled = phase_two_decision::rule_two(false, tables, command, slots, header_slots);
    let at_once = phase_two::answer_at_once(screen, command);
    let size = phase_two::at_once_size(at_once);
    let payload = phase_two::payload_size(command, line, body);
    let step = phase_two::enter_two(
        ruled,
        Ok(()),
        tables,
        command,
        payload,
        errors,
        stanzas,
        returned,
        slots,
    );
    let verdict = step.verdict;
    let after = step.tables;
    let answer = answer_to(verdict, command, s.taken, size);
    let phase = phase_two::phase_received_two(before, screen, verdict, command);
    Step {
        answer: answer,
        session: session.moved(phase, after),
    }
}
