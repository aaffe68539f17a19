// What a call that receives answers.
ghost use Rattle.std.specs.Prelude.{◌≡◌, None, Ok, Err, List, ℕ, ◌≤◌, min, length};
ghost use Rattle.refusal.specs.Number.{number_of};
ghost use Rattle.stanza.specs.Resuming.{refused};
ghost use Rattle.conversation.specs.Kinds.{Buffers};
ghost use Rattle.chunks.specs.Taking.{End, reads, turn_at};
ghost use Rattle.chunks.specs.Chunks.{untaken};
ghost use Rattle.intake.specs.Intake.{intake_of, received_said};
ghost use Rattle.intake.specs.Fronts.{front_of, Answered};

use phase_one::WordOne;
use refusal::Refusal;
use responses::Response;
use session::{Phase, Session, WordTwo};
use stanza::Place;

// A stanza that was taken: a command of either phase, or a response.
#[derive(Clone, Copy)]
pub enum Last {
    CommandOne(WordOne),
    CommandTwo(WordTwo),
    Response(Response),
}

// Accepted or refused; how many stanzas were taken all the same, which was the last, if any, and how many bytes were written; and the session.
#[derive(Clone, Copy)]
pub struct Received {
    pub verdict: Result<(), Refusal>,
    pub count: usize,
    pub last: Option<Last>,
    pub written: usize,
    pub session: Session,
}

impl Received {
    // The same behind what stands behind the stanzas: another verdict and session.
    pub fn settled(self, verdict: Result<(), Refusal>, session: Session) -> Received
        ensures { result ≡ record {
          verdict = verdict;
          count = self.count;
          last = self.last;
          written = self.written;
          session = session;
        } }
    {
        Received {
            verdict,
            session,
            ..self
        }
    }
}

// Nothing taken yet.
pub fn begin(session: Session, written: usize) -> Received
    ensures { result ≡ record { verdict = Ok tt; count = 0; last = None; written = written; session = session } }
{
    Received {
        verdict: Ok(()),
        count: 0,
        last: None,
        written: written,
        session: session,
    }
}

// A refusal behind what was taken. Nothing is kept.
pub fn stop(so_far: Received, refusal: Refusal, session: Session) -> Received
    ensures { result ≡ record {
      verdict = Err refusal;
      count = so_far.count;
      last = so_far.last;
      written = so_far.written;
      session = record {
        machine = session.machine;
        phase = session.phase;
        screen = session.screen;
        name = session.name;
        tables = session.tables;
        reading = Place.Start;
        kept = 0;
        awaited = 0;
      };
    } }
{
    so_far.settled(Err(refusal), session.keeping(Place::Start, 0, 0))
}

// A refusal that takes nothing and leaves everything as it was.
pub fn leave(session: Session, refusal: Refusal) -> Received
    ensures outcome { (e : End) (xs hs : List (List ℕ)) (input : List ℕ) (b : Buffers) (out : List ℕ) →
        received_said e result xs hs input b out ≡ untaken (number_of refusal) (intake_of e session xs hs input) b out }
    ensures name { result.session.name ≡ session.name }
{
    Received {
        verdict: Err(refusal),
        count: 0,
        last: None,
        written: 0,
        session: session,
    }
}

// An unfinished stanza that cannot go on so: the session is closed, and nothing is kept.
pub fn close(session: Session, refusal: Refusal) -> Received
    ensures outcome { (e : End) (xs hs : List (List ℕ)) (input chunk : List ℕ) (b : Buffers) (out : List ℕ) → turn_at e session.phase ≡ reads →
        8192 ≤ length input → front_of session.reading (min session.kept 8191) chunk ≡ refused (number_of refusal) →
        Answered e session chunk result xs hs input input b out }
    ensures name { result.session.name ≡ session.name }
{
    let shut = session.moved(Phase::Closed, session.tables);
    Received {
        verdict: Err(refusal),
        count: 0,
        last: None,
        written: 0,
        session: shut.keeping(Place::Start, 0, 0),
    }
}
