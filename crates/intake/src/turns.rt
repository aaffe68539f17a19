// What becomes of bytes that are left, by the phase; whether an answer is due; and the end of the input.
ghost use Rattle.std.specs.Prelude.{◌≡◌};
ghost use Rattle.refusal.specs.Verdict.{verdict_said};
ghost use Rattle.conversation.specs.TurnsTwo.{due_in};
ghost use Rattle.chunks.specs.Taking.{client, plugin, turn_at, awaited_behind};
ghost use Rattle.chunks.specs.Chunks.{finished};
ghost use Rattle.intake.specs.Turns.{due_said, turn_said};

use refusal::Refusal;
use session::{Phase, Session, WordTwo};

pub fn answer_due(phase: Phase) -> Result<WordTwo, Refusal>
    ensures { due_said result ≡ due_in phase }
{
    match phase {
        Phase::One => Err(Refusal::OutOfTurn),
        Phase::Two => Err(Refusal::OutOfTurn),
        Phase::Awaiting(word) => Ok(word),
        Phase::Ended => Err(Refusal::SessionOver),
        Phase::Closed => Err(Refusal::SessionOver),
    }
}

// Bytes that are left are read; they are dropped and refused, if there are any; or they are kept back. No Result: kept back is neither read nor refused.
#[derive(Clone, Copy)]
pub enum Turn {
    Reads,
    Drops(Refusal),
    KeepsBack,
}

// Not one function with turn_plugin: the ends differ in three phases of five, and a function that is told the end would choose in each of the three.
// At the client end: while its host's reply is due they are kept back.
pub fn turn_client(phase: Phase) -> Turn
    ensures { turn_said result ≡ turn_at client phase }
{
    match phase {
        Phase::One => Turn::Drops(Refusal::OutOfTurn),
        Phase::Two => Turn::Reads,
        Phase::Awaiting(_) => Turn::KeepsBack,
        Phase::Ended => Turn::Drops(Refusal::SessionOver),
        Phase::Closed => Turn::Drops(Refusal::SessionOver),
    }
}

// At the plugin end: in phase two there is nothing to read but the response that is due.
pub fn turn_plugin(phase: Phase) -> Turn
    ensures { turn_said result ≡ turn_at plugin phase }
{
    match phase {
        Phase::One => Turn::Reads,
        Phase::Two => Turn::Drops(Refusal::OutOfTurn),
        Phase::Awaiting(_) => Turn::Reads,
        Phase::Ended => Turn::Drops(Refusal::SessionOver),
        Phase::Closed => Turn::Drops(Refusal::SessionOver),
    }
}

// The text that waits for the host's reply at the client end, of the last stanza: none where no reply is due.
pub fn awaited_in<'a>(phase: Phase, text: &'a [u8]) -> &'a [u8]
    ensures { result.now ≡ awaited_behind client phase text.now }
{
    match phase {
        Phase::One => &text[..0],
        Phase::Two => &text[..0],
        Phase::Awaiting(_) => text,
        Phase::Ended => &text[..0],
        Phase::Closed => &text[..0],
    }
}

// The input has ended: accepted behind the last done, 13 in a closed session, else 2. The session goes on as if this had not been asked.
pub fn finish(session: Session) -> Result<(), Refusal>
    ensures { verdict_said result ≡ finished session.phase }
{
    let phase = session.phase;
    match phase {
        Phase::One => Err(Refusal::Unfinished),
        Phase::Two => Err(Refusal::Unfinished),
        Phase::Awaiting(_) => Err(Refusal::Unfinished),
        Phase::Ended => Ok(()),
        Phase::Closed => Err(Refusal::SessionOver),
    }
}
