// Phase one received: one command of the client, judged and kept.
ghost use Rattle.std.specs.Prelude.{◌≡◌, List, ℕ};
ghost use Rattle.refusal.specs.Verdict.{verdict_said};
ghost use Rattle.stanza.specs.Parts.{arguments_in, body_in};
ghost use Rattle.session.specs.Session.{session_of, carried_by};
ghost use Rattle.phase_one.specs.Commands.{command_said};
ghost use Rattle.phase_one.specs.PhaseOne.{buffers_of};
ghost use Rattle.conversation.specs.Receiving.{answer_of, received_stanza};
ghost use Rattle.plugin_receiving.specs.Receiving.{taking_said, receipt_said};

use phase_one::{CommandOne, WordOne, step_one};
use refusal::Refusal;
use session::{Outcome, Session, front};
use stanza::Stanza;
use tables::Body;

// Which command was received and how many bytes of the text it took. Not client_room's Taken of another word: nothing is written for a command of phase one.
#[derive(Clone, Copy)]
pub(crate) struct Taken {
    pub word: WordOne,
    pub taken: usize,
}

// What a command came to.
pub(crate) type Receipt = Outcome<Taken>;

// The answer to a command that was judged.
fn answer_to(
    verdict: Result<(), Refusal>,
    command: Result<CommandOne, Refusal>,
    taken: usize,
) -> Result<Taken, Refusal>
    ensures { (plugin line : List ℕ) (n : ℕ) → taking_said result ≡ answer_of (verdict_said verdict) (command_said plugin line n command) taken }
{
    verdict?;
    Ok(Taken {
        word: phase_one::word_of(command),
        taken: taken,
    })
}

// A whole stanza at the front of a text.
pub(crate) fn receive_stanza(
    session: Session,
    text: &[u8],
    s: Stanza,
    slots: &mut [[usize; 4]],
    header_slots: &mut [[usize; 4]],
    recipients: &mut [u8],
    identities: &mut [u8],
    keys: &mut [u8],
    headers: &mut [u8],
) -> Receipt
    ensures outcome { receipt_said result slots.new header_slots.new recipients.new identities.new
        keys.new headers.new ≡
        received_stanza (session_of session slots.old header_slots.old)
        (buffers_of recipients.old identities.old keys.old headers.old) (arguments_in text.now s)
        (body_in text.now s) s.taken }
    ensures carried { carried_by result.session ≡ carried_by session }
{
    let machine = session.machine;
    let before = session.phase;
    let name = session.name;
    let bytes = name.bytes;
    let length = name.length;
    let step = step_one(
        machine,
        front(&bytes, length),
        session.tables,
        Ok(()),
        stanza::arguments_of(text, s),
        Body::Lines(stanza::lines_of(text, s)),
        slots,
        header_slots,
        recipients,
        identities,
        keys,
        headers,
    );
    let verdict = step.verdict;
    let command = step.command;
    let after = step.tables;
    let answer = answer_to(verdict, command, s.taken);
    let phase = phase_one::phase_received(before, verdict, command);
    Receipt {
        answer: answer,
        session: session.moved(phase, after),
    }
}
