// The phases of a conversation, and which refusals close a session.
ghost use Rattle.std.specs.Prelude.{◌≡◌};
ghost use Rattle.refusal.specs.Number.{number_of};
ghost use Rattle.refusal.specs.Verdict.{verdict_said};
ghost use Rattle.session.specs.Phases.{closes, phase_refused};

use crate::words::WordTwo;
use refusal::Refusal;

// Phase one is the client's to speak, phase two the plugin's. In phase two a command may await its response. A session ends with the second done, or is closed
// by a refusal.
#[derive(Clone, Copy)]
pub enum Phase {
    One,
    Two,
    Awaiting(WordTwo),
    Ended,
    Closed,
}

// Whether a refusal of what is received closes the session.
fn is_closing(refusal: Refusal) -> bool
    ensures { result ≡ closes (number_of refusal) }
{
    let n = refusal::number(refusal);
    if 12 < n {
        return n == 20;
    }
    n != 2
}

// The phase behind a refusal of what was received in a phase: closed, or as it was.
pub fn phase_refused(phase: Phase, refusal: Refusal) -> Phase
    ensures { result ≡ phase_refused phase (number_of refusal) }
{
    if is_closing(refusal) {
        return Phase::Closed;
    }
    phase
}
