// Phase one: the commands of a chunk, one by one from the left.
ghost use Rattle.std.specs.Prelude.{◌≡◌, List, [], ℕ, ◌≤◌, min, length, drop};
ghost use Rattle.refusal.specs.Verdict.{verdict_said};
ghost use Rattle.stanza.specs.Reading.{read_said, read_first, stanza};
ghost use Rattle.stanza.specs.Resuming.{whole};
ghost use Rattle.session.specs.declared.phases.Phase.TheVariants.{One};
ghost use Rattle.phase_one.specs.PhaseOne as one;
ghost use Rattle.conversation.specs.Kinds.{Buffers, buffers_of};
ghost use Rattle.conversation.specs.PhaseTwo.{BuffersTwo};
ghost use Rattle.chunks.specs.Taking.{plugin};
ghost use Rattle.chunks.specs.Chunks.{taken};
ghost use Rattle.intake.specs.Intake.{intake_of};
ghost use Rattle.intake.specs.Fronts.{front_of};
ghost use Rattle.intake.specs.Settling.{Says};
ghost use Rattle.plugin_receiving.specs.Commands.{next_in, answer_behind, comes_to, NoneDue};

use crate::receiving::{Receipt, receive_stanza};
use intake::{Last, Received, begin, put_together, stop};
use refusal::Refusal;
use session::{Phase, Session, front};
use stanza::Stanza;

// The next command of a text: nothing is read behind a refusal, nor behind done.
fn next_command(verdict: Result<(), Refusal>, phase: Phase, rest: &[u8]) -> Result<Stanza, Refusal>
    ensures { read_said result ≡ next_in (verdict_said verdict) phase (read_first rest.now) }
{
    verdict?;
    phase_one::turn_one(phase)?;
    stanza::read(rest)
}

// The answer behind one command more.
fn answer_behind(so_far: Received, receipt: Receipt) -> Received
    requires { so_far.count ≤ 4611686018427387904 }
    ensures { result ≡ answer_behind so_far receipt.answer receipt.session }
{
    let answer = receipt.answer;
    let session = receipt.session;
    match answer {
        Ok(taken) => Received {
            verdict: Ok(()),
            count: so_far.count + 1,
            last: Some(Last::CommandOne(taken.word)),
            session,
            ..so_far
        },
        Err(r) => so_far.settled(Err(r), session),
    }
}

// What becomes of what stands behind the commands: nothing where the last was refused, and nothing is kept then.
fn settle_commands(so_far: Received, rest: &[u8], input: &mut [u8]) -> Received
    requires none_due { NoneDue so_far }
    requires in_bounds { 8192 ≤ length input.old }
    requires by_index { (l m k : ℕ) → next_in (verdict_said so_far.verdict) so_far.session.phase (read_first rest.now) ≡ stanza l m k → ⊥ }
    ensures outcome { (xs hs : List (List ℕ)) (b : Buffers) →
        Says plugin result xs hs input.old input.new [] b (comes_to so_far xs hs b rest.now) }
    ensures rest { (result.written ≡ so_far.written) × (result.session.name ≡ so_far.session.name) }
{
    let verdict = so_far.verdict;
    let session = so_far.session;
    match verdict {
        Ok(()) => {
            let phase = session.phase;
            let turn = intake::turn_plugin(phase);
            intake::settle(so_far, turn, &[], rest, input)
        }
        Err(r) => stop(so_far, r, session),
    }
}

// The commands of a text, behind those of an answer.
fn receive_text(
    so_far: Received,
    text: &[u8],
    input: &mut [u8; Session::PLUGIN_INPUT],
    slots: &mut [[usize; 4]; Session::OTHER_SLOTS],
    header_slots: &mut [[usize; 4]; Session::HEADER_STANZAS],
    recipients: &mut [u8],
    identities: &mut [u8],
    keys: &mut [u8],
    headers: &mut [u8],
) -> Received
    requires none_due { NoneDue so_far }
    requires so_far_bound { so_far.count ≤ 1 }
    ensures outcome { (c : BuffersTwo) →
        Says plugin result slots.new header_slots.new input.old input.new []
        (buffers_of (one.buffers_of recipients.new identities.new keys.new headers.new) c)
        (comes_to so_far slots.old header_slots.old
        (buffers_of (one.buffers_of recipients.old identities.old keys.old headers.old) c) text.now) }
    ensures rest { (result.written ≡ so_far.written) × (result.session.name ≡ so_far.session.name) }
{
    let mut answer = so_far;
    let mut at: usize = 0;
    while let Ok(s) = next_command(answer.verdict, answer.session.phase, &text[at..]) {
        let receipt = receive_stanza(
            answer.session,
            &text[at..],
            s,
            slots,
            header_slots,
            recipients,
            identities,
            keys,
            headers,
        );
        answer = answer_behind(answer, receipt);
        at += s.taken;
    }
    settle_commands(answer, &text[at..], input)
}

// The stanza that began in an earlier chunk and ends behind the first k bytes of this one; there is none where k is 0.
fn receive_front(
    session: Session,
    chunk: &[u8],
    k: usize,
    input: &[u8; Session::PLUGIN_INPUT],
    slots: &mut [[usize; 4]; Session::OTHER_SLOTS],
    header_slots: &mut [[usize; 4]; Session::HEADER_STANZAS],
    recipients: &mut [u8],
    identities: &mut [u8],
    keys: &mut [u8],
    headers: &mut [u8],
) -> Received
    requires phase_value { session.phase ≡ One }
    requires chunk_value { front_of session.reading (min session.kept 8191) chunk.now ≡ whole k }
    ensures outcome { (c : BuffersTwo) →
        comes_to result slots.new header_slots.new
        (buffers_of (one.buffers_of recipients.new identities.new keys.new headers.new) c) (drop k chunk.now) ≡
        taken plugin (intake_of plugin session slots.old header_slots.old input.now)
        (buffers_of (one.buffers_of recipients.old identities.old keys.old headers.old) c) chunk.now }
    ensures rest { NoneDue result × (result.count ≤ 1) × (result.written ≡ 0) × (result.session.name ≡ session.name) }
{
    if k == 0 {
        return begin(session, 0);
    }
    let kept = intake::kept_of(session.kept);
    let mut store = [0u8; stanza::LONGEST];
    put_together(input, kept, &chunk[..k], &mut store);
    let whole = kept + k;
    let first = stanza::read(front(&store, whole));
    match first {
        Err(r) => {
            let phase = session.phase;
            let after = session.moved(session::phase_refused(phase, r), session.tables);
            begin(session, 0).settled(Err(r), after)
        }
        Ok(s) => {
            let receipt = receive_stanza(
                session,
                front(&store, whole),
                s,
                slots,
                header_slots,
                recipients,
                identities,
                keys,
                headers,
            );
            answer_behind(begin(session, 0), receipt)
        }
    }
}

// A chunk in phase one, whose first k bytes end the stanza that is unfinished; none is where k is 0.
pub(crate) fn receive_commands(
    session: Session,
    chunk: &[u8],
    k: usize,
    input: &mut [u8; Session::PLUGIN_INPUT],
    slots: &mut [[usize; 4]; Session::OTHER_SLOTS],
    header_slots: &mut [[usize; 4]; Session::HEADER_STANZAS],
    recipients: &mut [u8],
    identities: &mut [u8],
    keys: &mut [u8],
    headers: &mut [u8],
) -> Received
    requires phase_value { session.phase ≡ One }
    requires chunk_value { front_of session.reading (min session.kept 8191) chunk.now ≡ whole k }
    ensures outcome { (c : BuffersTwo) →
        Says plugin result slots.new header_slots.new input.old input.new []
        (buffers_of (one.buffers_of recipients.new identities.new keys.new headers.new) c)
        (taken plugin (intake_of plugin session slots.old header_slots.old input.old)
        (buffers_of (one.buffers_of recipients.old identities.old keys.old headers.old) c) chunk.now) }
    ensures rest { (result.written ≡ 0) × (result.session.name ≡ session.name) }
{
    let so_far = receive_front(
        session,
        chunk,
        k,
        input,
        slots,
        header_slots,
        recipients,
        identities,
        keys,
        headers,
    );
    receive_text(
        so_far,
        &chunk[k..],
        input,
        slots,
        header_slots,
        recipients,
        identities,
        keys,
        headers,
    )
}
