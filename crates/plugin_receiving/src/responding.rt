// Phase two: the client's response to the command that awaits it, judged, and its body decoded.
ghost use Rattle.std.specs.Prelude.{◌≡◌, List, ℕ, ◌≤◌, min, eqb, length};
ghost use Rattle.refusal.specs.Output.{said, answered, filled};
ghost use Rattle.refusal.specs.Pick.{pick};
ghost use Rattle.refusal.specs.Verdict.{verdict_said};
ghost use Rattle.stanza.specs.Resuming.{whole};
ghost use Rattle.session.specs.declared.phases.Phase.TheVariants.{Awaiting};
ghost use Rattle.conversation.specs.Kinds.{Buffers};
ghost use Rattle.chunks.specs.Taking.{plugin};
ghost use Rattle.chunks.specs.Chunks.{judged, taken};
ghost use Rattle.intake.specs.Intake.{intake_of, stored_in, received_said};
ghost use Rattle.intake.specs.Fronts.{front_of};
ghost use Rattle.stanza.specs.Parts.{arguments_in, body_in};
ghost use Rattle.stanza.specs.Reading.{read_first, stanza};
ghost use Rattle.responses.specs.Responses.{response, response_of};
ghost use Rattle.session.specs.Session.{session_of, carried_by};
ghost use Rattle.conversation.specs.Responding.{responded_text, responded_as, refused_response};
ghost use Rattle.plugin_receiving.specs.Responding.{responded_said, settled_response};

use intake::{Last, Received, Turn, begin, put_together};
use refusal::Refusal;
use responses::Response;
use session::{Outcome, Phase, Session, WordTwo, front};
use stanza::{Place, Stanza};

// Which response was received, how many bytes of the text it took and how many its body has.
#[derive(Clone, Copy)]
pub(crate) struct Answered {
    pub response: Response,
    pub taken: usize,
    pub body: usize,
}

// What a response came to.
pub(crate) type Responded = Outcome<Answered>;

// A session closed by a response that does not fit.
fn unfit(session: Session) -> Responded
    ensures outcome { (xs hs : List (List ℕ)) (out : List ℕ) → responded_said result xs hs out ≡ refused_response 12 (session_of session xs hs) out }
    ensures carried { carried_by result.session ≡ carried_by session }
{
    Responded {
        answer: Err(Refusal::UnfitResponse),
        session: session.moved(Phase::Closed, session.tables),
    }
}

// The decoded body at the front of `out`: how many bytes, or 15 and nothing written. An empty one is not looked for.
fn write_body(text: &[u8], s: Stanza, out: &mut [u8]) -> Result<usize, Refusal>
    requires { read_first text.now ≡ stanza s.line s.body s.taken }
    ensures answer { said result ≡ answered (body_in text.now s) out.old }
    ensures buffer { out.new ≡ filled (body_in text.now s) out.old }
{
    if s.body == 0 {
        return Ok(0);
    }
    stanza::body_of(text, s, out)
}

// A response to the command that awaits it.
fn receive_fitting(
    session: Session,
    word: WordTwo,
    found: Response,
    text: &[u8],
    s: Stanza,
    out: &mut [u8],
) -> Responded
    requires { read_first text.now ≡ stanza s.line s.body s.taken }
    ensures outcome { (xs hs : List (List ℕ)) → responded_said result xs hs out.new ≡ responded_as word (session_of session xs hs) (response found)
        (body_in text.now s) s.taken out.old }
    ensures carried { carried_by result.session ≡ carried_by session }
{
    if !responses::fits_whole(word, found, s.body) {
        return unfit(session);
    }
    let written = write_body(text, s, out);
    match written {
        Ok(n) => Responded {
            answer: Ok(Answered {
                response: found,
                taken: s.taken,
                body: n,
            }),
            session: session.moved(Phase::Two, session.tables),
        },
        Err(r) => Responded {
            answer: Err(r),
            session: session,
        },
    }
}

// A whole stanza while a command awaits its response.
fn receive_stanza(
    session: Session,
    word: WordTwo,
    text: &[u8],
    s: Stanza,
    out: &mut [u8],
) -> Responded
    requires { read_first text.now ≡ stanza s.line s.body s.taken }
    ensures outcome { (xs hs : List (List ℕ)) → responded_said result xs hs out.new ≡ responded_as word (session_of session xs hs)
        (response_of (arguments_in text.now s)) (body_in text.now s) s.taken out.old }
    ensures carried { carried_by result.session ≡ carried_by session }
{
    let reading = responses::read_line(stanza::arguments_of(text, s));
    match reading {
        Some(found) => receive_fitting(session, word, found, text, s, out),
        None => unfit(session),
    }
}

// A text while a command awaits its response.
fn receive_awaited(session: Session, word: WordTwo, text: &[u8], out: &mut [u8]) -> Responded
    ensures outcome { (xs hs : List (List ℕ)) → responded_said result xs hs out.new ≡ responded_text (read_first text.now) word
        (session_of session xs hs) text.now out.old }
    ensures carried { carried_by result.session ≡ carried_by session }
{
    let phase = session.phase;
    let first = stanza::read(text);
    match first {
        Err(r) => Responded {
            answer: Err(r),
            session: session.moved(session::phase_refused(phase, r), session.tables),
        },
        Ok(s) => receive_stanza(session, word, text, s, out),
    }
}

// What a chunk comes to with the response, where `left` bytes stand behind it: they are dropped with 14. 15 leaves everything as it was.
fn settle_response(session: Session, responded: Responded, left: usize) -> Received
    requires { responded.session.name ≡ session.name }
    ensures outcome { (xs hs : List (List ℕ)) (input : List ℕ) (b : Buffers) (out : List ℕ) →
        received_said plugin result xs hs input b out ≡ settled_response (responded_said responded xs hs out) (intake_of plugin session xs hs input) b left }
    ensures name { result.session.name ≡ session.name }
{
    let answer = responded.answer;
    let after = responded.session;
    let emptied = after.keeping(Place::Start, 0, 0);
    match answer {
        Ok(answered) => Received {
            verdict: none_behind(left),
            count: 1,
            last: Some(Last::Response(answered.response)),
            written: answered.body,
            session: emptied,
        },
        Err(r) => {
            if refusal::number(r) == 15 {
                return intake::leave(session, r);
            }
            Received {
                verdict: Err(r),
                count: 0,
                last: None,
                written: 0,
                session: emptied,
            }
        }
    }
}

// Bytes behind a response are 14.
pub(crate) fn none_behind(left: usize) -> Result<(), Refusal>
    ensures { verdict_said result ≡ pick (eqb left 0) 0 14 }
{
    if left == 0 {
        return Ok(());
    }
    Err(Refusal::OutOfTurn)
}

// A chunk that begins a stanza, while a command awaits its response.
fn receive_begun(
    session: Session,
    word: WordTwo,
    chunk: &[u8],
    input: &mut [u8],
    out: &mut [u8],
) -> Received
    requires phase_value { session.phase ≡ Awaiting word }
    requires in_bounds { 8192 ≤ length input.old }
    requires chunk_value { front_of session.reading (min session.kept 8191) chunk.now ≡ whole 0 }
    ensures outcome { (xs hs : List (List ℕ)) (b : Buffers) →
        received_said plugin result xs hs input.new b out.new ≡
        judged (intake_of plugin (session) xs hs input.old) b out.old
        (taken plugin (intake_of plugin (session) xs hs input.old) b chunk.now) }
    ensures stored { (xs hs : List (List ℕ)) → input.new ≡ stored_in (intake_of plugin result.session xs hs input.new) input.old }
    ensures name { result.session.name ≡ session.name }
{
    let first = stanza::read(chunk);
    match first {
        Err(_) => intake::settle(begin(session, 0), Turn::Reads, &[], chunk, input),
        Ok(s) => {
            let responded = receive_stanza(session, word, chunk, s, out);
            let left = chunk.len() - s.taken;
            settle_response(session, responded, left)
        }
    }
}

// A chunk in which a stanza ends behind k bytes, while a command awaits its response.
fn receive_ended(
    session: Session,
    word: WordTwo,
    chunk: &[u8],
    k: usize,
    input: &[u8],
    out: &mut [u8],
) -> Received
    requires phase_value { session.phase ≡ Awaiting word }
    requires in_bounds { 8192 ≤ length input.now }
    requires chunk_value { front_of session.reading (min session.kept 8191) chunk.now ≡ whole k }
    requires le_k { 1 ≤ k }
    ensures outcome { (xs hs : List (List ℕ)) (b : Buffers) →
        received_said plugin result xs hs input.now b out.new ≡
        judged (intake_of plugin session xs hs input.now) b out.old
        (taken plugin (intake_of plugin session xs hs input.now) b chunk.now) }
    ensures name { result.session.name ≡ session.name }
{
    let kept = intake::kept_of(session.kept);
    let mut store = [0u8; stanza::LONGEST];
    put_together(input, kept, &chunk[..k], &mut store);
    let whole = kept + k;
    let responded = receive_awaited(session, word, front(&store, whole), out);
    let left = chunk.len() - k;
    settle_response(session, responded, left)
}

// A chunk while a command awaits its response, whose first k bytes end the stanza that is unfinished; none is where k is 0. At most one response is taken.
pub(crate) fn receive_due(
    session: Session,
    word: WordTwo,
    chunk: &[u8],
    k: usize,
    input: &mut [u8],
    out: &mut [u8],
) -> Received
    requires phase_value { session.phase ≡ Awaiting word }
    requires in_bounds { 8192 ≤ length input.old }
    requires chunk_value { front_of session.reading (min session.kept 8191) chunk.now ≡ whole k }
    ensures outcome { (xs hs : List (List ℕ)) (b : Buffers) →
        received_said plugin result xs hs input.new b out.new ≡
        judged (intake_of plugin session xs hs input.old) b out.old
        (taken plugin (intake_of plugin session xs hs input.old) b chunk.now) }
    ensures stored { (xs hs : List (List ℕ)) → input.new ≡ stored_in (intake_of plugin result.session xs hs input.new) input.old }
    ensures name { result.session.name ≡ session.name }
{
    if k == 0 {
        return receive_begun(session, word, chunk, input, out);
    }
    receive_ended(session, word, chunk, k, input, out)
}
