// Judging a recorded phase one of recipient-v1: chunk after chunk up to done, a refusal or the end of the input. How the input is cut does not show.
#![tactic(auto)]

ghost use Rattle.std.specs.Prelude.{◌≡◌, List, ℕ};
ghost use Rattle.refusal.specs.Verdict.{verdict_said};
ghost use Rattle.session.specs.Opening.{held};
ghost use Rattle.session.specs.Session.{carried_by, carried_first};
ghost use Rattle.session.specs.Tables.{tables_in, opened_slots, opened_header_slots};
ghost use Rattle.conversation.specs.PhaseTwo.{BuffersTwo};
ghost use Rattle.chunks.specs.Taking.{plugin};
ghost use Rattle.intake.specs.Intake.{intake_of};
ghost use Rattle.judging.specs.Judging.{counted, going, behind_phase, judged_from, start, judged_text, numbers_of};
ghost use Rattle.judging.specs.Said.{judged_said, standing_in, standing_of, buffers_in, state_said};

use refusal::Refusal;
use session::{Phase, Session, Tables};

// What the judging program writes: how many entries each kind has, and the answer, 0 behind done, else the number of the refusal.
// A number and no Result: the program prints it, and specs/Judging `Judged` says it.
#[derive(Clone, Copy)]
pub struct Judged {
    pub recipients: usize,
    pub identities: usize,
    pub keys: usize,
    pub headers: usize,
    pub answer: u8,
}

// Where judging stands.
#[derive(Clone, Copy)]
pub struct Judging {
    pub session: Session,
    pub progress: Option<Judged>,
}

// The counts of tables, and an answer.
fn count(tables: Tables, answer: u8) -> Judged
    ensures { (xs hs : List (List ℕ)) → judged_said result ≡ counted (tables_in tables xs hs) answer }
{
    Judged {
        recipients: tables.recipients.count,
        identities: tables.identities.count,
        keys: tables.keys.count,
        headers: tables.headers.count,
        answer: answer,
    }
}

// Where judging stands behind a chunk, by the session and the verdict.
fn behind_chunk(session: Session, verdict: Result<(), Refusal>) -> Option<Judged>
    ensures { (xs hs : List (List ℕ)) (input : List ℕ) →
        standing_in result (intake_of plugin session xs hs input) ≡ behind_phase session.phase (verdict_said verdict) (intake_of plugin session xs hs input) }
{
    let phase = session.phase;
    match phase {
        Phase::One => None,
        Phase::Two => Some(count(session.tables, 0)),
        Phase::Awaiting(_) => Some(count(session.tables, 0)),
        Phase::Ended => Some(count(session.tables, 0)),
        Phase::Closed => Some(count(session.tables, refusal::verdict_number(verdict))),
    }
}

impl Judging {
    // Nothing judged yet: a session of recipient-v1 just opened. The plugin's name does not show in the numbers.
    pub fn open() -> Judging
        ensures start { (input : List ℕ) → standing_of result opened_slots opened_header_slots input ≡ going start }
        ensures carried { carried_by result.session ≡ carried_first (held start.session.name) }
    {
        let opening = Session::open_plugin(b"recipient-v1", b"judge");
        let session = opening.session;
        Judging {
            session: session,
            progress: None,
        }
    }

    // A chunk of the input. However it is cut, it is judged alike.
    pub fn judge_chunk(
        self,
        chunk: &[u8],
        input: &mut [u8; Session::PLUGIN_INPUT],
        slots: &mut [[usize; 4]; Session::OTHER_SLOTS],
        header_slots: &mut [[usize; 4]; Session::HEADER_STANZAS],
        recipients: &mut [u8],
        identities: &mut [u8],
        keys: &mut [u8],
    ) -> Judging
        ensures state { (c : BuffersTwo) → state_said result slots.new header_slots.new input.new
            (buffers_in recipients.new identities.new keys.new c) ≡
            judged_from (standing_of self slots.old header_slots.old input.old)
            (buffers_in recipients.old identities.old keys.old c) chunk.now }
        ensures name { result.session.name ≡ self.session.name }
    {
        let progress = self.progress;
        let session = self.session;
        match progress {
            Some(_) => self,
            None => {
                let mut headers = [0u8; 0];
                let mut out = [0u8; 0];
                let received = plugin_receiving::receive(
                    session,
                    chunk,
                    input,
                    slots,
                    header_slots,
                    recipients,
                    identities,
                    keys,
                    &mut headers,
                    &mut out,
                );
                let after = received.session;
                let verdict = received.verdict;
                Judging {
                    session: after,
                    progress: behind_chunk(after, verdict),
                }
            }
        }
    }

    // The five numbers behind the input's end. Where judging goes on it has ended before done: 2.
    pub fn numbers(self) -> Judged
        ensures { (xs hs : List (List ℕ)) (input : List ℕ) → judged_said result ≡ numbers_of (standing_of self xs hs input) }
    {
        let progress = self.progress;
        let session = self.session;
        match progress {
            Some(x) => x,
            None => count(
                session.tables,
                refusal::verdict_number(intake::finish(session)),
            ),
        }
    }
}

// A whole text: the five numbers. The judging program lends 16,384, 16,384 and 1,024 bytes of zeros. Header stanzas need no buffer: recipient-v1 has none.
pub fn judge(text: &[u8], recipients: &mut [u8], identities: &mut [u8], keys: &mut [u8]) -> Judged
    ensures numbers { (c : BuffersTwo) → judged_said result ≡
        numbers_of (judged_text (buffers_in recipients.old identities.old keys.old c) text.now).standing }
    ensures buffers { (c : BuffersTwo) → buffers_in recipients.new identities.new keys.new c ≡
        (judged_text (buffers_in recipients.old identities.old keys.old c) text.now).buffers }
{
    let begun = Judging::open();
    let mut input = [0u8; Session::PLUGIN_INPUT];
    let mut slots = Session::open_slots();
    let mut header_slots = Session::open_header_slots();
    let judging = begun.judge_chunk(
        text,
        &mut input,
        &mut slots,
        &mut header_slots,
        recipients,
        identities,
        keys,
    );
    judging.numbers()
}
